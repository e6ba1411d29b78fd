// Preparing's part of the hierarchy: ranks from the order, and the pairs by contraction in that order, with no witness test.
//
// The pairs of the ranks are made row by row, the low ascending. A row of r begins with the roads between r and the ranks above it (crate
// linking). Then each lower rank v that has a pair with r gives the paths over v, from r to the highs of v's later pairs and back (crates
// fronts and passing). The work is in the pairs and the triangles of pairs; ranks stand in blocks, and what is in the square of the number
// of ranks is a test of each block in each row.
#![tactic(auto)]

ghost use Rattle.std.specs.Prelude.{◌≡◌, List, ◌*◌, ◌≤◌, ℕ, length};
ghost use Rattle.model.specs.Limits.{most_pairs};
ghost use Rattle.model.specs.Areas.{record_size};
ghost use Rattle.network.specs.Bodies.{Sound, map_in};
ghost use Rattle.pairs_contraction.specs.Contraction.{Contraction, ranks_in};
ghost use Rattle.pairs_contraction.specs.Lending.{RowAsked, RowMade};

use network::{JUNCTIONS, MOST_JUNCTIONS, ROADS, Rank, Time, TimeWord};
use pairs_fronts::Fronts;
use pairs_linking::Links;
use pairs_records::Records;
use pairs_rows::{BLOCKS, Rows};

// Fills the area of ranks: each junction's place in the order. (That roads and order are sound is asked as a clause, not of a type: they
// are parts of C's card, which questions 1 to 7 have passed, and one caller knows it.)
pub fn fill_ranks(order: &[u8], ranks: &mut [u32])
    requires { ((roads : List ℕ) × Sound roads order.now) × (length order.now ≡ 4 * length ranks.old) }
    ensures { (roads : List ℕ) → ranks.new ≡ ranks_in roads order.now }
{
    let n = ranks.len() as u32;
    for k in 0..n {
        let j = network::junction_of(order, Rank(k));
        ranks[j.0 as usize] = k;
    }
}

// The row of a rank, where `count` records stand before its own: its times from the roads and over the lower ranks, its records, and the
// front of its own row. The answer is the number of records then, if they fit.
fn contract_row(
    roads: &[u8],
    ranks: &[u32],
    links: &Links,
    r: Rank,
    count: u32,
    fronts: &mut Fronts,
    rows: &mut Rows,
    pairs: &mut [u32],
    times: &mut [TimeWord],
) -> Option<u32>
    requires { RowAsked roads.now ranks.now links.now r.0 count pairs.old times.old fronts.old rows.old }
    ensures { RowMade roads.now ranks.now r.0 pairs.new times.new fronts.new rows.new result }
{
    let n = ranks.len() as u32;
    rows.touched = [0; BLOCKS];
    pairs_linking::relax_roads(roads, ranks, links, r, rows);
    pairs_passing::pass_lower(
        Records { pairs, times },
        n,
        r,
        &mut fronts.cursor,
        &mut fronts.ahead,
        &fronts.ends,
        &mut fronts.soon,
        &mut rows.ups,
        &mut rows.downs,
        &mut rows.touched,
    );
    let k = pairs_storing::append_row(
        &rows.touched,
        n,
        r,
        count,
        &mut rows.ups,
        &mut rows.downs,
        pairs,
        times,
    )?;
    // Lent anew, as parts: of the two areas themselves, after their last change, the check can't tell one lifetime from two.
    let records = Records {
        pairs: &pairs[..],
        times: &times[..],
    };
    let high = pairs_fronts::ahead_at(records, count, k, n);
    fronts.begin(r, count, high, k);
    Some(k)
}

// The kept pairs, row by row: contraction in the given order, with no witness test. The answer is their number, if they fit. (Ranks and
// times of the pairs are two slices, as C lends them.)
pub fn contract(
    roads: &[u8],
    order: &[u8],
    ranks: &[u32],
    pairs: &mut [u32],
    times: &mut [TimeWord],
) -> Option<u32>
    requires { Sound roads.now order.now × (ranks.now ≡ ranks_in roads.now order.now)
        × (length pairs.old ≤ record_size * most_pairs) × (length times.old ≡ length pairs.old) }
    ensures { Contraction (map_in roads.now order.now) (length pairs.old) pairs.new
        times.new result }
{
    let n = (order.len() / 4) as u32;
    let mut links = Links {
        first: [0; JUNCTIONS],
        next: [0; ROADS],
    };
    pairs_linking::link_roads(roads, ranks, &mut links);
    let mut fronts = Fronts {
        cursor: [0; JUNCTIONS],
        ahead: [0; JUNCTIONS],
        ends: [0; JUNCTIONS],
        soon: [MOST_JUNCTIONS; BLOCKS],
    };
    let mut rows = Rows {
        ups: [Time::NONE.0; JUNCTIONS],
        downs: [Time::NONE.0; JUNCTIONS],
        touched: [0; BLOCKS],
    };
    let mut count = 0;
    for r in 0..n {
        count = contract_row(
            roads,
            ranks,
            &links,
            Rank(r),
            count,
            &mut fronts,
            &mut rows,
            pairs,
            times,
        )?;
    }
    pairs_storing::clear_from(pairs, times, count);
    Some(count)
}
