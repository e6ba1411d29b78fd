// The vocabulary of the code: junctions, ranks and times, and words in bytes.
#![tactic(auto)]

ghost use Rattle.std.specs.Prelude.{◌≡◌, [], ◌++◌, ◌∷◌, ◌*◌, ◌+◌, ◌<◌, ◌≤◌, min, eqb, drop, get_or, length, take};
ghost use Rattle.std.proofs.Math.Option.{none};
ghost use Rattle.graph.specs.Total.{◌⊕◌};
ghost use Rattle.model.specs.Word.{closed_word, none_word, of_word, unasked, word};
ghost use Rattle.model.specs.Bytes.{bytes_of, word_at};
ghost use Rattle.model.specs.Classes.{access_of, admits, halved};
ghost use Rattle.network.specs.Width.{fit};
ghost use Rattle.model.specs.Card.{ask};
ghost use Rattle.network.specs.Refusals.{refusal_in, verdict_in};

// ---- limits: as many junctions, roads and pairs as a unit takes, and the largest base time

pub const MOST_JUNCTIONS: u32 = 4096;

pub const MOST_ROADS: u32 = 16384;

pub const MOST_PAIRS: u32 = 65536;

pub const MOST_TIME: TimeWord = 10000000;

// A list of stops (document 02, A3).
pub const FEWEST_STOPS: usize = 2;

pub const MOST_STOPS: usize = 32;

// Vehicle classes, and the sections that a card may have (document 02, A6).
pub const CLASSES: u32 = 8;

const EVERY_CLASS: u32 = 255;

pub const FEWEST_SECTIONS: u32 = 2;

pub const MOST_SECTIONS: u32 = 3;

// The limits as lengths: of an area by junction, of one by road, and of the pairs' two areas, of which a record has two words each (its
// ranks; its times).
pub const JUNCTIONS: usize = MOST_JUNCTIONS as usize;

pub const ROADS: usize = MOST_ROADS as usize;

pub const RECORD: usize = 2;

pub const MOST_PAIR_WORDS: usize = RECORD * (MOST_PAIRS as usize);

// ---- numbers

// The word of a time: its width is known here and nowhere else.
pub type TimeWord = u64;

// Numbers of junctions, roads and pairs, and the card's length in bytes.
#[derive(Clone, Copy, Debug, PartialEq, Eq)]
pub struct Sizes {
    pub n: u32,
    pub m: u32,
    pub pairs: u32,
    pub card: u32,
}

// The number of a junction (a vertex).
#[derive(Clone, Copy, Debug, PartialEq, Eq, PartialOrd, Ord)]
pub struct Junction(pub u32);

// A level of the contraction order. (Document 01: a rank.)
#[derive(Clone, Copy, Debug, PartialEq, Eq, PartialOrd, Ord)]
pub struct Rank(pub u32);

// The words of the marks.
const NONE_WORD: TimeWord = 18446744073709551615;

const UNASKED_WORD: TimeWord = 18446744073709551614;

// A time in tenths of a second, or one of the marks.
#[derive(Clone, Copy, Debug, PartialEq, Eq, PartialOrd, Ord)]
pub struct Time(pub TimeWord);

impl Time {
    // No time exists.
    pub const NONE: Time = Time(NONE_WORD);

    // An estimate that was not asked since the last aim.
    pub const UNASKED: Time = Time(UNASKED_WORD);

    // The live time of a closed road.
    pub const CLOSED: Time = Time(NONE_WORD);

    pub fn is_none(self) -> bool
        ensures { result ≡ eqb self.0 none_word }
    {
        self == Time::NONE
    }

    pub fn is_unasked(self) -> bool
        ensures { result ≡ eqb self.0 unasked }
    {
        self == Time::UNASKED
    }

    // Is this the live time of a closed road?
    pub fn is_closed(self) -> bool
        ensures { result ≡ eqb self.0 closed_word }
    {
        self == Time::CLOSED
    }

    // The sum of two times: none where one is none, or where it does not fit below the marks. Every sum of times is formed here, after the
    // test that it fits, so that none wraps, whatever the areas hold.
    pub fn plus(self, other: Time) -> Self
        ensures { result.0 ≡ word (fit (of_word self.0 ⊕ of_word other.0)) }
    {
        if UNASKED_WORD <= self.0 {
            return Time::NONE;
        }
        if UNASKED_WORD - self.0 <= other.0 {
            return Time::NONE;
        }
        Time(self.0 + other.0)
    }

    // One step of a minimum of sums: the least of this time and a + b.
    pub fn or_sum(self, a: Time, b: Time) -> Self
        ensures { result.0 ≡ min self.0 (word (fit (of_word a.0 ⊕ of_word b.0))) }
    {
        Time(self.0.min(a.plus(b).0))
    }
}

// A word of a card as a time.
impl From<u32> for Time {
    ghost from_gives = { λ w t. t.0 ≡ w };

    fn from(w: u32) -> Self {
        Time(w as TimeWord)
    }
}

// Why something is refused: by which of the questions 1 to 18. Road, Place and NoLeg name the first road, place or leg that fails, NoPath
// gives the count.
#[derive(Clone, Copy, Debug, PartialEq, Eq)]
pub enum Refusal {
    Short,
    Kinds,
    Starts,
    Sizes,
    Road(u32),
    Place(u32),
    AreaLengths,
    Room,
    Lengths,
    NoRoad,
    NotAllowed,
    NoJunction,
    NoTarget,
    LentLengths,
    NoPath(u32),
    StopCount,
    NoLeg(u32),
    NoClass,
}

impl Refusal {
    // The number of the question.
    pub fn question(self) -> u32
        ensures { result ≡ (refusal_in self).question }
    {
        match self {
            Refusal::Short => 1,
            Refusal::Kinds => 2,
            Refusal::Starts => 3,
            Refusal::Sizes => 4,
            Refusal::Road(_) => 5,
            Refusal::Place(_) => 6,
            Refusal::AreaLengths => 7,
            Refusal::Room => 8,
            Refusal::Lengths => 9,
            Refusal::NoRoad => 10,
            Refusal::NotAllowed => 11,
            Refusal::NoJunction => 12,
            Refusal::NoTarget => 13,
            Refusal::LentLengths => 14,
            Refusal::NoPath(_) => 15,
            Refusal::StopCount => 16,
            Refusal::NoLeg(_) => 17,
            Refusal::NoClass => 18,
        }
    }

    // The road, place or leg that 5, 6 and 17 name; 0 with any other.
    pub fn place(self) -> u32
        ensures { result ≡ (refusal_in self).place }
    {
        match self {
            Refusal::Road(i) => i,
            Refusal::Place(i) => i,
            Refusal::NoLeg(i) => i,
            _ => 0,
        }
    }

    // The count that 15 gives; 0 with any other.
    pub fn count(self) -> u32
        ensures { result ≡ (refusal_in self).count }
    {
        match self {
            Refusal::NoPath(count) => count,
            _ => 0,
        }
    }
}

// What questions find: nothing to refuse, or the first that says no.
pub type Verdict = Result<(), Refusal>;

// A question that does not pass refuses.
pub fn ask(passes: bool, q: Refusal) -> Verdict
    ensures { verdict_in result ≡ ask passes (refusal_in q) none }
{
    if passes { Ok(()) } else { Err(q) }
}

// The word that begins at byte i, lowest byte first.
pub fn word_at(s: &[u8], i: usize) -> u32
    requires { i + 4 ≤ length s.now }
    ensures { result ≡ word_at s.now i }
{
    u32::from_le_bytes([s[i], s[i + 1], s[i + 2], s[i + 3]])
}

// ---- the map's two bodies: roads of 12 bytes, places of the order of 4 (that an entry is inside is a fact of two values, which no type of
// one has: each function asks it)

// The tail of road i.
pub fn tail_of(roads: &[u8], i: usize) -> Junction
    requires { 12 * i + 12 ≤ length roads.now }
    ensures { result.0 ≡ word_at roads.now (12 * i) }
{
    Junction(word_at(roads, 12 * i))
}

// The head of road i.
pub fn head_of(roads: &[u8], i: usize) -> Junction
    requires { 12 * i + 12 ≤ length roads.now }
    ensures { result.0 ≡ word_at roads.now (12 * i + 4) }
{
    Junction(word_at(roads, 12 * i + 4))
}

// The base time of road i.
pub fn base_of(roads: &[u8], i: usize) -> Time
    requires { 12 * i + 12 ≤ length roads.now }
    ensures { result.0 ≡ word_at roads.now (12 * i + 8) }
{
    Time::from(word_at(roads, 12 * i + 8))
}

// The junction of a rank, by the order.
pub fn junction_of(order: &[u8], r: Rank) -> Junction
    requires { 4 * r.0 + 4 ≤ length order.now }
    ensures { result.0 ≡ word_at order.now (4 * r.0) }
{
    let k = r.0 as usize;
    Junction(word_at(order, 4 * k))
}

// The byte of road i; a road without one lets every class in.
fn byte_of(access: &[u8], i: usize) -> u32
    ensures { (result ≡ access_of access.now i) × (result < 256) }
{
    access.get(i).map_or(EVERY_CLASS, |byte| u32::from(*byte))
}

// The byte without its lowest bits, as many as the class says: a number that is no class leaves none.
fn halved(byte: u32, class: u32) -> u32
    requires { byte < 256 }
    ensures { result ≡ halved class byte }
{
    if CLASSES <= class {
        return 0;
    }
    byte >> class
}

// Does road i let this class in?
pub fn admits(access: &[u8], class: u32, i: usize) -> bool
    ensures { result ≡ admits (access_of access.now i) class }
{
    halved(byte_of(access, i), class) % 2 == 1
}

// The rank of a junction, by the area of ranks.
pub fn rank_of(ranks: &[u32], j: Junction) -> Rank
    requires { j.0 < length ranks.now }
    ensures { result.0 ≡ get_or ranks.now j.0 0 }
{
    let k = j.0 as usize;
    Rank(ranks[k])
}

// Writes the word w from byte i on, lowest byte first.
fn put_word(s: &mut [u8], i: usize, w: u32)
    requires { i + 4 ≤ length s.old }
    ensures { s.new ≡ take i s.old ++ bytes_of (w ∷ []) ++ drop (i + 4) s.old }
{
    s[i..i + 4].copy_from_slice(&w.to_le_bytes());
}

// Writes the bytes of a row of words.
pub fn put_words(s: &mut [u8], words: &[u32])
    requires { length s.old ≡ 4 * length words.now }
    ensures { s.new ≡ bytes_of words.now }
{
    for (i, w) in words.iter().enumerate() {
        put_word(s, 4 * i, *w);
    }
}
