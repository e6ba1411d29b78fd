// Preparing once questions 1 to 7 have passed: ranks, pairs, live times, the roads by tail; question 8.
#![tactic(auto)]

ghost use Rattle.std.specs.Prelude.{◌≡◌, ◌*◌, ◌≤◌, length};
ghost use Rattle.model.specs.Bytes.{listed};
ghost use Rattle.model.specs.Limits.{most_pairs};
ghost use Rattle.model.specs.Layout.{road_size};
ghost use Rattle.model.specs.Areas.{record_size};
ghost use Rattle.network.specs.Bodies.{Sound, map_in};
ghost use Rattle.pairs_contraction.specs.Contraction.{Contraction, ranks_in};
ghost use Rattle.unit_preparing.specs.Preparing.{Accepts, Prepares, areas_in, areas_left, base_in, handed_in};

use network::{Refusal, Sizes, Time, TimeWord};

// The unit's nine areas, lent to be filled.
pub struct Areas<'a> {
    pub ranks: &'a mut [u32],
    pub pairs: &'a mut [u32],
    pub times: &'a mut [TimeWord],
    pub live: &'a mut [TimeWord],
    pub down: &'a mut [TimeWord],
    pub estimates: &'a mut [TimeWord],
    pub elapsed: &'a mut [TimeWord],
    pub leaving: &'a mut [u32],
    pub groups: &'a mut [u32],
}

// Each road's live time becomes its base time.
fn fill_live(roads: &[u8], live: &mut [TimeWord])
    requires { length roads.now ≡ road_size * length live.old }
    ensures { live.new ≡ listed (length live.old) (base_in roads.now) }
{
    for (i, time) in live.iter_mut().enumerate() {
        *time = network::base_of(roads, i).0;
    }
}

// The ranks of the order, and the kept pairs; their number, if they fit.
fn fill_pairs(
    roads: &[u8],
    order: &[u8],
    ranks: &mut [u32],
    pairs: &mut [u32],
    times: &mut [TimeWord],
) -> Option<u32>
    requires { Sound roads.now order.now × (length order.now ≡ 4 * length ranks.old)
        × (length pairs.old ≤ record_size * most_pairs) × (length times.old ≡ length pairs.old) }
    ensures { (ranks.new ≡ ranks_in roads.now order.now)
        × Contraction (map_in roads.now order.now) (length pairs.old) pairs.new times.new result }
{
    pairs_contraction::fill_ranks(order, ranks);
    pairs_contraction::contract(roads, order, ranks, pairs, times)
}

// What a card that questions 1 to 7 pass, with so many junctions and roads, leaves in the areas; the numbers with that of the kept pairs,
// or that they do not fit (question 8). The struct is taken apart first: no proof covers a call that is lent two of its fields.
pub fn prepare_areas(s: Sizes, card: &[u8], areas: Areas) -> Result<Sizes, Refusal>
    requires { Accepts card.now s (areas_in areas) }
    ensures { Prepares card.now (record { entry = areas_in areas.entry; exit = areas_left areas.exit }) (handed_in result) }
{
    let Areas {
        ranks,
        pairs,
        times,
        live,
        down,
        estimates,
        elapsed,
        leaving,
        groups,
    } = areas;
    let roads = card_layout::roads_of(card);
    let order = card_layout::order_of(card);
    match fill_pairs(roads, order, ranks, pairs, times) {
        None => {
            ranks.fill(0);
            pairs.fill(0);
            times.fill(0);
            live.fill(0);
            down.fill(0);
            estimates.fill(0);
            elapsed.fill(0);
            leaving.fill(0);
            groups.fill(0);
            Err(Refusal::Room)
        }
        Some(count) => {
            fill_live(roads, live);
            down.fill(Time::NONE.0);
            estimates.fill(Time::UNASKED.0);
            elapsed.fill(Time::NONE.0);
            road_groups::group_roads(roads, s.n, s.m, leaving, groups);
            Ok(Sizes { pairs: count, ..s })
        }
    }
}
