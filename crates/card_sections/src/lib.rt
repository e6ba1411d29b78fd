// Questions 4 to 6 on the roads and the order of a map, and so on the two bodies of a card.
#![tactic(auto)]

ghost use Rattle.std.specs.Prelude.{◌≡◌, true, ◌*◌, ◌+◌, ◌<◌, ◌≤◌, ℕ, get_or, length};
ghost use Rattle.model.specs.Limits.{most_junctions};
ghost use Rattle.model.specs.Card.{Rows, bodies_refusal, failing_place, failing_road, map_of, rows_in, rows_refusal, sizes_ok};
ghost use Rattle.card_sections.specs.Answers.{failing_in};
ghost use Rattle.network.specs.Refusals.{verdict_in};

use card_layout::{PLACE_SIZE, ROAD_SIZE};
use network::{Junction, Rank, Refusal, Time, Verdict};

// A road's tail, head and base time.
#[derive(Clone, Copy)]
pub struct Road {
    pub tail: Junction,
    pub head: Junction,
    pub base: Time,
}

// The roads and the order of a map: two bodies of a card, or two rows of words.
pub trait MapRows {
    ghost rows: { Self → Rows };

    // the lengths in bytes
    ghost roads_size: { Self → ℕ };

    ghost order_size: { Self → ℕ };

    // Question 4.
    fn sizes_ok(&self) -> bool
        ensures { result ≡ sizes_ok (roads_size self.now) (order_size self.now) };

    fn junctions(&self) -> u32
        requires { sizes_ok (roads_size self.now) (order_size self.now) ≡ true }
        ensures is { result ≡ length (rows self.now).order }
        ensures few { result ≤ most_junctions };

    fn road_count(&self) -> u32
        requires { sizes_ok (roads_size self.now) (order_size self.now) ≡ true }
        ensures { result ≡ (map_of (rows self.now)).base.arcs };

    fn road(&self, i: u32) -> Road
        requires { i < (map_of (rows self.now)).base.arcs }
        ensures tail { result.tail.0 ≡ get_or (rows self.now).roads (3 * i) 0 }
        ensures head { result.head.0 ≡ get_or (rows self.now).roads (3 * i + 1) 0 }
        ensures base { result.base.0 ≡ get_or (rows self.now).roads (3 * i + 2) 0 };

    fn place(&self, k: u32) -> Junction
        requires { k < length (rows self.now).order }
        ensures { result.0 ≡ get_or (rows self.now).order k 0 };
}

// The first road that question 5 refuses.
fn failing_road<M: MapRows>(map: &M) -> Option<u32>
    requires { sizes_ok (M.roads_size map.now) (M.order_size map.now) ≡ true }
    ensures { failing_in result ≡ failing_road (M.rows map.now) }
{
    let n = map.junctions();
    let m = map.road_count();
    for i in 0..m {
        let road = map.road(i);
        if !card_checks::road_ok(n, road.tail.0, road.head.0, road.base.0) {
            return Some(i);
        }
    }
    None
}

// The first place that question 6 refuses.
fn failing_place<M: MapRows>(map: &M) -> Option<u32>
    requires { sizes_ok (M.roads_size map.now) (M.order_size map.now) ≡ true }
    ensures { failing_in result ≡ failing_place (M.rows map.now) }
{
    let mut seen = [0u8; network::MOST_JUNCTIONS as usize];
    let n = map.junctions();
    for k in 0..n {
        let j = map.place(k);
        if !card_checks::place_ok(n, j.0, &mut seen) {
            return Some(k);
        }
    }
    None
}

// Questions 4 to 6.
pub fn check_rows<M: MapRows>(map: &M) -> Verdict
    ensures { verdict_in result ≡ rows_refusal (M.roads_size map.now) (M.order_size map.now) (M.rows map.now) }
{
    network::ask(map.sizes_ok(), Refusal::Sizes)?;
    if let Some(i) = failing_road(map) {
        return Err(Refusal::Road(i));
    }
    if let Some(k) = failing_place(map) {
        return Err(Refusal::Place(k));
    }
    Ok(())
}

// ---- the bodies of a card

#[derive(Clone, Copy)]
pub struct Bodies<'a> {
    pub roads: &'a [u8],
    pub order: &'a [u8],
}

impl MapRows for Bodies<'_> {
    ghost rows = { λ b. rows_in b.roads.now b.order.now };

    ghost roads_size = { λ b. length b.roads.now };

    ghost order_size = { λ b. length b.order.now };

    fn sizes_ok(&self) -> bool {
        card_checks::sizes_ok(self.roads.len(), self.order.len())
    }

    fn junctions(&self) -> u32 {
        (self.order.len() / PLACE_SIZE) as u32
    }

    fn road_count(&self) -> u32 {
        (self.roads.len() / ROAD_SIZE) as u32
    }

    fn road(&self, i: u32) -> Road {
        let at = i as usize;
        Road {
            tail: network::tail_of(self.roads, at),
            head: network::head_of(self.roads, at),
            base: network::base_of(self.roads, at),
        }
    }

    fn place(&self, k: u32) -> Junction {
        network::junction_of(self.order, Rank(k))
    }
}

// Questions 4 to 6 on the bodies of roads and order of a card.
pub fn check<'a>(roads: &'a [u8], order: &'a [u8]) -> Verdict
    ensures { verdict_in result ≡ bodies_refusal roads.now order.now }
{
    check_rows(&Bodies { roads, order })
}
