// The records of a row, appended to the two areas of pairs, and the zeros after the last.
#![tactic(auto)]

ghost use Rattle.std.specs.Prelude.{◌≡◌, ◌*◌, ◌≤◌, length};
ghost use Rattle.graph.specs.Path.{Weights};
ghost use Rattle.model.specs.Areas.{record_size};
ghost use Rattle.pairs_storing.specs.Storing.{RowAppended, RowTimes, cleared};
ghost use Rattle.pairs_storing.specs.Lending.{AppendAsked};

use network::{Rank, TimeWord};
use pairs_records::Record;
use pairs_rows::{BLOCK, is_kept, take_time};

// Appends the records of the kept pairs of r, in ascending order of their highs, and leaves none in the rows of times. A block that no road
// or path touched holds none, and is passed over. The answer is the number of records in the areas, if all fit. (The rows and
// marks are lent one by one: slices of any length serve, where `Rows` would ask for arrays of one length.)
pub fn append_row(
    touched: &[u32],
    n: u32,
    r: Rank,
    count: u32,
    ups: &mut [TimeWord],
    downs: &mut [TimeWord],
    pairs: &mut [u32],
    times: &mut [TimeWord],
) -> Option<u32>
    requires { AppendAsked n r.0 count touched.now ups.old downs.old pairs.old times.old }
    ensures { (w : Weights) → RowTimes w n r.0 count touched.now ups.old downs.old pairs.old times.old
        → RowAppended w n r.0 ups.new downs.new pairs.new times.new result }
{
    let mut k = count;
    let mut h = r.0 + 1;
    // h goes up by a rank, or by what is left of a block, so no `for` counts it.
    while h < n {
        let b = h / BLOCK;
        if touched[b as usize] == 0 {
            h = (BLOCK * b + BLOCK).min(n);
        } else {
            let high = Rank(h);
            let at = h as usize;
            h += 1;
            let up = take_time(ups, at);
            let down = take_time(downs, at);
            if is_kept(up, down) {
                if pairs_records::words_of(k + 1) > pairs.len() {
                    return None;
                }
                let record = Record {
                    low: r,
                    high,
                    up,
                    down,
                };
                pairs_records::put(pairs, times, k, record);
                k += 1;
            }
        }
    }
    Some(k)
}

// Fills both areas with 0 after the first `count` records.
pub fn clear_from(pairs: &mut [u32], times: &mut [TimeWord], count: u32)
    requires { (record_size * count ≤ length pairs.old) × (length times.old ≡ length pairs.old) }
    ensures { (pairs.new ≡ cleared count pairs.old) × (times.new ≡ cleared count times.old) }
{
    let k = pairs_records::words_of(count);
    pairs[k..].fill(0);
    times[k..].fill(0);
}
