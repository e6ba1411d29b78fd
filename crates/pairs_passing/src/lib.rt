// The rows of the lower ranks, passed over the row of a rank r, block by block: a block whose bound is above r has no pair with r.
#![tactic(auto)]

ghost use Rattle.std.specs.Prelude.{◌<◌, ◌≤◌};
ghost use Rattle.graph.specs.Path.{Weights};
ghost use Rattle.model.specs.Limits.{most_junctions};
ghost use Rattle.pairs_fronts.specs.Fronts.{Lower, Scanned, Stage};

use network::{Rank, TimeWord};
use pairs_records::Records;
use pairs_rows::BLOCK;

// The row of r is relaxed over the ranks from `from` to before `to`. The answer is the least of the highs ahead of them then, or n.
fn pass_block(
    records: Records,
    n: u32,
    r: Rank,
    from: u32,
    to: u32,
    cursor: &mut [u32],
    ahead: &mut [u32],
    ends: &[u32],
    ups: &mut [TimeWord],
    downs: &mut [TimeWord],
    touched: &mut [u32],
) -> u32
    requires { ((w : Weights) × Stage w n r.0 from records.pairs.now records.times.now cursor.old ahead.old ends.now
        ups.old downs.old touched.old) × (from ≤ to) × (to ≤ r.0) }
    ensures { (w : Weights)
        → Stage w n r.0 from records.entry.pairs.now records.entry.times.now cursor.old ahead.old ends.now ups.old downs.old touched.old
        → Scanned w n r.0 from to result records.entry.pairs.now records.entry.times.now cursor.new ahead.new ends.now
        ups.new downs.new touched.new }
{
    let mut bound = n;
    for v in from..to {
        let high = ahead[v as usize];
        let next = if high == r.0 {
            pairs_fronts::pass_rank(
                records,
                n,
                r,
                Rank(v),
                cursor,
                ahead,
                ends,
                ups,
                downs,
                touched,
            )
        } else {
            high
        };
        bound = bound.min(next);
    }
    bound
}

// The row of r is relaxed over all lower ranks, block by block. (Fronts, bounds, rows and marks are lent one by one: slices of any length
// serve, where `Fronts` and `Rows` would ask for arrays of one length.)
pub fn pass_lower(
    records: Records,
    n: u32,
    r: Rank,
    cursor: &mut [u32],
    ahead: &mut [u32],
    ends: &[u32],
    soon: &mut [u32],
    ups: &mut [TimeWord],
    downs: &mut [TimeWord],
    touched: &mut [u32],
)
    requires { ((w : Weights) × Lower w n r.0 0 records.pairs.now records.times.now cursor.old ahead.old ends.now soon.old
        ups.old downs.old touched.old) × (n ≤ most_junctions) }
    ensures { (w : Weights) → Lower w n r.0 0 records.entry.pairs.now records.entry.times.now cursor.old ahead.old ends.now soon.old
        ups.old downs.old touched.old → Lower w n r.0 r.0 records.entry.pairs.now records.entry.times.now cursor.new ahead.new ends.now
        soon.new ups.new downs.new touched.new }
{
    for b in 0..r.0.div_ceil(BLOCK) {
        let from = BLOCK * b;
        let to = r.0.min(from + BLOCK);
        if soon[b as usize] <= r.0 {
            soon[b as usize] = pass_block(
                records, n, r, from, to, cursor, ahead, ends, ups, downs, touched,
            );
        }
    }
}
