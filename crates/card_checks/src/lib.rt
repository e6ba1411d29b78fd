// Questions 2 to 6: what is asked of the entries of a card, and what its bodies and the rows of a map share.
#![tactic(auto)]

ghost use Rattle.std.specs.Prelude.{◌≡◌, ◌&&◌, cond, ◌≤◌, eqb, ltb, get_or, length, set};
ghost use Rattle.model.specs.Layout.{roads_kind, sections, sections_from, table_size};
ghost use Rattle.model.specs.Card.{count_ok, kinds_ok, road_fits, sizes_ok, starts_ok};

use network::TimeWord;

// Question 2, of the number of sections.
#[tactic(auto, unfolding(model::specs::Card::count_ok))]
pub fn count_ok(count: u32) -> bool
    ensures { result ≡ count_ok count }
{
    (network::FEWEST_SECTIONS <= count) & (count <= network::MOST_SECTIONS)
}

// Question 2, of the entries: each has the next kind.
pub fn kinds_ok(card: &[u8]) -> bool
    requires { table_size (sections card.now) ≤ length card.now }
    ensures { result ≡ kinds_ok roads_kind (sections_from card.now 0 (sections card.now)) }
{
    let count = card_layout::sections(card);
    for i in 0..count {
        let s = card_layout::section_at(card, i as usize);
        if s.kind != card_layout::ROADS_KIND + i {
            return false;
        }
    }
    true
}

// Question 3: each body begins where the one before it ends. The sums are taken in 64 bits; one of 2^32 or more would wrap in a word.
#[tactic(auto, using(crate::proofs::Tables::wraps))]
pub fn starts_ok(card: &[u8]) -> bool
    requires { table_size (sections card.now) ≤ length card.now }
    ensures { result ≡ starts_ok (table_size (sections card.now))
        (sections_from card.now 0 (sections card.now)) (length card.now) }
{
    let count = card_layout::sections(card);
    let mut at = card_layout::table_size(count);
    for i in 0..count {
        let s = card_layout::section_at(card, i as usize);
        let end = at + s.size as usize;
        if s.start as usize != at {
            return false;
        }
        if 4294967296 <= end {
            return false;
        }
        at = end;
    }
    at == card.len()
}

// Question 4, of two lengths in bytes.
#[tactic(auto, unfolding(model::specs::Card::sizes_ok))]
pub fn sizes_ok(roads: usize, order: usize) -> bool
    ensures { result ≡ sizes_ok roads order }
{
    (roads % card_layout::ROAD_SIZE == 0)
        & (roads <= card_layout::ROAD_SIZE * (network::MOST_ROADS as usize))
        & (order % card_layout::PLACE_SIZE == 0)
        & (card_layout::PLACE_SIZE <= order)
        & (order <= card_layout::PLACE_SIZE * (network::MOST_JUNCTIONS as usize))
}

// Question 5, of the numbers of one road.
#[tactic(auto, unfolding(model::specs::Card::road_fits))]
pub fn road_ok(n: u32, tail: u32, head: u32, base: TimeWord) -> bool
    ensures { result ≡ road_fits n tail head base }
{
    (tail < n) & (head < n) & (tail != head) & (1 <= base) & (base <= network::MOST_TIME)
}

// Question 6, of one place: its junction is below n, has a flag and was not seen; then it is marked as seen.
pub fn place_ok(n: u32, j: u32, seen: &mut [u8]) -> bool
    ensures value { result ≡ (ltb j n && ltb j (length seen.old) && eqb (get_or seen.old j 0) 0) }
    ensures seen_after { seen.new ≡ cond result (set seen.old j 1) seen.old }
{
    let i = j as usize;
    let free = (j < n) && (i < seen.len()) && (seen[i] == 0);
    if free {
        seen[i] = 1;
    }
    free
}
