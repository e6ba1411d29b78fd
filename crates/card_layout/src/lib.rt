// The card's layout: the table of contents, and the bodies as the parts of the card that its entries name.
#![tactic(auto)]

ghost use Rattle.std.specs.Prelude.{◌≡◌, ◌++◌, ◌+◌, ◌<◌, ◌≤◌, drop, get_or, length};
ghost use Rattle.model.specs.Bytes.{bytes_of};
ghost use Rattle.model.specs.Layout as layout;
ghost use Rattle.model.specs.Layout.{access_fits, access_in, body_at, card_size, entry_of, has_entry, named, names};
ghost use Rattle.model.specs.Layout.{order_in, part_of, roads_in, table, table_size};
ghost use Rattle.card_layout.specs.Sections.{entry_after, section_in};

// ---- the table of contents: the number of sections, then an entry for each

pub const COUNT_SIZE: usize = 4;

const ENTRY_SIZE: usize = 12;

// The roads, and the bytes of each.
pub const ROADS_KIND: u32 = 1;

pub const ROAD_SIZE: usize = 12;

// The order, and the bytes of each place.
pub const ORDER_KIND: u32 = 2;

pub const PLACE_SIZE: usize = 4;

// An entry: kind, start byte and length in bytes of a body.
#[derive(Clone, Copy)]
pub struct Section {
    pub kind: u32,
    pub start: u32,
    pub size: u32,
}

// Byte i; 0 past the card's end.
fn byte_at(card: &[u8], i: usize) -> u8
    ensures { result ≡ get_or card.now i 0 }
{
    card.get(i).copied().unwrap_or(0)
}

// The number of sections: the first word. Every call asks it, so where there is a whole word it is read at once.
pub fn sections(card: &[u8]) -> u32
    ensures { result ≡ layout.sections card.now }
{
    if COUNT_SIZE <= card.len() {
        return network::word_at(card, 0);
    }
    u32::from_le_bytes([
        byte_at(card, 0),
        byte_at(card, 1),
        byte_at(card, 2),
        byte_at(card, 3),
    ])
}

// The bytes of a table of so many entries.
pub fn table_size(count: u32) -> usize
    ensures { result ≡ table_size count }
{
    COUNT_SIZE + ENTRY_SIZE * (count as usize)
}

// Has the table an entry i, and does the card not end before it does?
fn has_entry(card: &[u8], i: usize) -> bool
    ensures { result ≡ has_entry card.now i }
{
    let count = sections(card) as usize;
    (i < count) && (COUNT_SIZE + ENTRY_SIZE * (i + 1) <= card.len())
}

// Entry i; where there is none, that of an empty body, as its clause, `entry_of`, says of any i.
#[tactic(auto, using(crate::proofs::Entries::fits), unfolding(model::specs::Layout::entry_of))]
pub fn section_at(card: &[u8], i: usize) -> Section
    ensures { section_in result ≡ entry_of card.now i }
{
    if !has_entry(card, i) {
        return Section {
            kind: 0,
            start: 0,
            size: 0,
        };
    }
    let at = COUNT_SIZE + ENTRY_SIZE * i;
    let kind = network::word_at(card, at);
    let start = network::word_at(card, at + 4);
    let size = network::word_at(card, at + 8);
    Section { kind, start, size }
}

// The entry after entry i; where there is no entry i, i.
#[tactic(auto, using(crate::proofs::Entries::fits), unfolding(crate::specs::Sections::entry_after))]
pub fn entry_after(card: &[u8], i: usize) -> usize
    ensures { result ≡ entry_after card.now i }
{
    if has_entry(card, i) { i + 1 } else { i }
}

// ---- bodies

// The part of the card that an entry names; nothing if it reaches past the card's end. The test stands here, not in a `get` of the library,
// since the edit past_the_card gets it wrong.
pub fn body(card: &[u8], s: Section) -> &[u8]
    ensures { result.now ≡ part_of card.now (section_in s) }
{
    let start = s.start as usize;
    let end = start + s.size as usize;
    if card.len() < end {
        return &card[0..0];
    }
    &card[start..end]
}

// The body of entry i.
#[tactic(auto, unfolding(model::specs::Layout::body_at))]
pub fn body_at(card: &[u8], i: usize) -> &[u8]
    ensures { result.now ≡ body_at card.now i }
{
    body(card, section_at(card, i))
}

// The roads.
pub fn roads_of(card: &[u8]) -> &[u8]
    ensures { result.now ≡ roads_in card.now }
{
    body_at(card, 0)
}

// The same where they have a byte, as past question 9 of a call for a road below m: entry 0 then names a part of the card, and nothing is
// tested again.
pub fn roads_named(card: &[u8]) -> &[u8]
    requires { 0 < length (roads_in card.now) }
    ensures { result.now ≡ roads_in card.now }
{
    let start = network::word_at(card, COUNT_SIZE + 4) as usize;
    let end = start + network::word_at(card, COUNT_SIZE + 8) as usize;
    &card[start..end]
}

// The order.
pub fn order_of(card: &[u8]) -> &[u8]
    ensures { result.now ≡ order_in card.now }
{
    body_at(card, 1)
}

// The classes of each road; nothing where the card has no third section.
pub fn access_of(card: &[u8]) -> &[u8]
    ensures { result.now ≡ access_in card.now }
{
    body_at(card, 2)
}

// Does entry i name a body of k bytes inside the card? A body without bytes needs no entry.
#[tactic(auto, unfolding(model::specs::Layout::names))]
fn names(card: &[u8], i: usize, k: usize) -> bool
    ensures { result ≡ names card.now i k }
{
    let s = section_at(card, i);
    let start = s.start as usize;
    let size = s.size as usize;
    (size == k) & (start + size <= card.len())
}

// Has a third section, where there is one, a byte for each of m roads?
pub fn access_fits(card: &[u8], m: usize) -> bool
    ensures { result ≡ access_fits card.now m }
{
    if sections(card) <= network::FEWEST_SECTIONS {
        return true;
    }
    has_entry(card, 2) & names(card, 2, m)
}

// Does the table name bodies for n junctions and m roads?
#[tactic(auto, unfolding(model::specs::Layout::named))]
pub fn named(card: &[u8], n: u32, m: u32) -> bool
    ensures { result ≡ named card.now n m }
{
    let roads = names(card, 0, ROAD_SIZE * (m as usize));
    let order = names(card, 1, PLACE_SIZE * (n as usize));
    roads & order & access_fits(card, m as usize)
}

// ---- the card that the writer makes: two sections

const WRITTEN: u32 = 2;

pub const WRITTEN_TABLE: usize = COUNT_SIZE + 2 * ENTRY_SIZE;

// The bytes of such a card with n junctions and m roads.
pub fn card_size(n: u32, m: u32) -> usize
    ensures { result ≡ card_size n m }
{
    WRITTEN_TABLE + ROAD_SIZE * (m as usize) + PLACE_SIZE * (n as usize)
}

// Writes its table, where its roads and order have these lengths in bytes.
pub fn put_table(area: &mut [u8], roads: u32, order: u32)
    requires { (table_size 2 ≤ length area.old) × (table_size 2 + roads < 4294967296) }
    ensures { area.new ≡ bytes_of (table roads order) ++ drop (table_size 2) area.old }
{
    let start = WRITTEN_TABLE as u32;
    let words = [
        WRITTEN,
        ROADS_KIND,
        start,
        roads,
        ORDER_KIND,
        start + roads,
        order,
    ];
    network::put_words(&mut area[0..WRITTEN_TABLE], &words);
}
