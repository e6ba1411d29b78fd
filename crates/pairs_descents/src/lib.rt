// The down totals of a target over the prepared pairs (document 01: aim): functions on slices.
#![tactic(auto)]

ghost use Rattle.pairs_descents.specs.Downs.{Found};
ghost use Rattle.pairs_descents.specs.Lending.{DownsAsked, DownsMade, HandAsked, HandDone, lent, lent_of};
ghost use Rattle.std.specs.Prelude.{◌≡◌, ◌*◌, ◌≤◌, length};
ghost use Rattle.model.specs.Limits.{most_junctions};

use network::{Junction, Rank, Time, TimeWord};
use pairs_records::Records;

// The junction of rank r, if r is one of the n ranks and the order has one of the n junctions there.
fn junction_in(n: u32, order: &[u8], r: Rank) -> Option<Junction>
    requires { (n ≤ most_junctions) × (length order.now ≡ 4 * n) }
    ensures { Found n order.now r.0 result }
{
    if n <= r.0 {
        return None;
    }
    let j = network::junction_of(order, r);
    if j.0 < n { Some(j) } else { None }
}

// Record i hands the total of its lower junction, plus its down time, to its higher one.
fn hand_down(n: u32, order: &[u8], records: Records, down: &mut [TimeWord], i: u32)
    requires { HandAsked n i (lent_of order records down) }
    ensures { HandDone n i (lent order records down) }
{
    let Some(lower) = junction_in(n, order, records.low(i)) else {
        return;
    };
    let rest = Time(down[lower.0 as usize]);
    if rest.is_none() {
        return;
    }
    let Some(higher) = junction_in(n, order, records.high(i)) else {
        return;
    };
    let h = higher.0 as usize;
    let best = Time(down[h]);
    let least = best.or_sum(records.down(i), rest);
    down[h] = least.0;
}

// The down totals of a target: the least totals over paths of down times, descending in rank to it. One pass over the records.
pub fn down_totals(
    n: u32,
    count: u32,
    order: &[u8],
    records: Records,
    down: &mut [TimeWord],
    target: Junction,
)
    requires { DownsAsked n count target.0 (lent_of order records down) }
    ensures { DownsMade count target.0 (lent order records down).exit }
{
    down.fill(Time::NONE.0);
    down[target.0 as usize] = 0;
    for i in 0..count {
        hand_down(n, order, records, down, i);
    }
}
