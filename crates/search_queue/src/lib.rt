// The queue: the key that is kept for each node, and the choice of the next candidate. Nodes are the numbers below n; what they stand for
// is not known here. The choice is a tournament, a tree in which each inner place holds the better of the two under it; a node's own place
// holds its key. It stands in the first 2 n places of a room; behind them the room has a word for each node, whose upper part, the node's
// time, decides between equal keys. A part of that time stands in the words of the tree too, between key and number, so that one comparison
// of words nearly always decides. So words are plain numbers, and what is no candidate's key is a mark above all keys: an option, or a
// struct of the parts, would be compared part by part.
#![tactic(auto)]

ghost use Rattle.std.specs.Prelude.{◌≡◌, ◌%◌, ◌*◌, ◌/◌, ◌<◌, ◌≤◌, ℕ, length};
ghost use Rattle.search_queue.specs.Order.{by_key, key_in, key_unit, most_nodes, most_upper, no_key, settled_key, tie_in};
ghost use Rattle.search_queue.specs.Tree.{Changed, Own, Put, Tells, better, word_of};
ghost use Rattle.search_queue.specs.Sums.{Picks};

// The key of a node that never was a candidate, and that of a logged one. The key of a candidate is below both.
pub const NO_KEY: u64 = 274877906943;

pub const SETTLED: u64 = 274877906942;

// Every word of a fresh room: no node has a key.
pub const BLANK: u64 = 18446744073709551615;

// ---- the room

// A room for n nodes: three words for each.
#[derive(Drop)]
pub struct Room<'a> {
    pub words: &'a mut [u64],
    pub n: u32,
    pub ghost sized: { 3 * n ≤ length words.now },
}

// ---- words

// A word holds a number of 50 bits, such as a time, and one of 14 bits, such as that of a node.
const NUMBERS: u64 = 16384;

// In the tree the 50 bits are a key of 38 bits and a part of 12 bits.
const PARTS: u64 = 4096;

// So many times share a part. Times are tenths of a second: the parts reach to 54 minutes, and tell times apart that differ by 0.8 s.
const PART_TIMES: u64 = 8;

pub fn word_of(upper: u64, lower: u32) -> u64
    requires { (upper ≤ most_upper) × (lower < most_nodes) }
    ensures { result ≡ word_of upper lower }
{
    upper * NUMBERS + u64::from(lower)
}

pub fn upper_of(word: u64) -> u64
    ensures { (result ≡ word / most_nodes) × (result ≤ most_upper) }
{
    word / NUMBERS
}

pub fn lower_of(word: u64) -> u32
    ensures { (result ≡ word % most_nodes) × (result < most_nodes) }
{
    (word % NUMBERS) as u32
}

// The key of a word of the tree.
fn key_in(word: u64) -> u64
    ensures { (result ≡ word / key_unit) × (result ≤ no_key) }
{
    word / (PARTS * NUMBERS)
}

// ---- the queue

impl Room<'_> {
    // The key that is kept for v.
    pub fn key_of(&self, v: u32) -> u64
        requires { v < self.now.n }
        ensures { (result ≡ key_in self.now.n self.now.words.now v) × (result ≤ no_key) }
    {
        let at = self.n as usize + v as usize;
        key_in(self.words[at])
    }

    // The time of the node of a word.
    fn time_in(&self, word: u64) -> u64
        requires { word % most_nodes < self.now.n }
        ensures { result ≡ tie_in self.now.n self.now.words.now (word % most_nodes) }
    {
        let at = 2 * (self.n as usize) + lower_of(word) as usize;
        upper_of(self.words[at])
    }

    // Of the words of two candidates with one key, the one that comes first: by the smaller time, then by the smaller number. (An order
    // of tuples would tell which is less, and the word itself is wanted.)
    fn better_tied(&self, x: u64, y: u64) -> u64
        requires { (x % most_nodes < self.now.n) × (y % most_nodes < self.now.n) }
        ensures { x / most_nodes ≡ y / most_nodes → x / key_unit < settled_key
            → result ≡ better (tie_in self.now.n self.now.words.now) x y }
    {
        let a = self.time_in(x);
        let b = self.time_in(y);
        if a < b {
            x
        } else if b < a {
            y
        } else {
            x.min(y)
        }
    }

    // Of two words, the one that comes first. They are compared as they are, and times looked up only where key and part are one.
    fn better_of(&self, x: u64, y: u64) -> u64
        requires { Tells self.now.n (tie_in self.now.n self.now.words.now) x × Tells self.now.n (tie_in self.now.n self.now.words.now) y }
        ensures { result ≡ better (tie_in self.now.n self.now.words.now) x y }
    {
        if upper_of(x) != upper_of(y) {
            return x.min(y);
        }
        if SETTLED <= key_in(x) {
            return x;
        }
        self.better_tied(x, y)
    }

    // The word of v with that key, for v's own place. A candidate's has a part of its time. The words of others, which are never chosen,
    // have one of their number: so, of 4,096 nodes, no two are alike above the number, and comparing words decides between them too.
    fn own_word(&self, v: u32, key: u64) -> u64
        requires { (v < self.now.n) × (self.now.n ≤ most_nodes) × (key ≤ no_key) }
        ensures { Own self.now.n v key self.now.words.now result }
    {
        let at = 2 * (self.n as usize) + v as usize;
        let part = if key < SETTLED {
            upper_of(self.words[at]) / PART_TIMES
        } else {
            u64::from(v)
        };
        word_of(key * PARTS + part.min(PARTS - 1), v)
    }

    // The key of v becomes `key`, with SETTLED it is a candidate no more; the places above v are decided anew. (To stop where a place stays
    // as it was costs more than it saves.)
    pub fn put(&mut self, v: u32, key: u64)
        requires { (v < self.old.n) × (self.old.n ≤ most_nodes) × (key ≤ no_key)
            × Changed (by_key self.old.n self.old.words.now) self.old.n v self.old.words.now }
        ensures put { Put self.old.n v key self.old.words.now self.new.words.now }
        ensures n_is { self.new.n ≡ self.old.n }
        ensures long { length self.new.words.now ≡ length self.old.words.now }
        ensures lent { self.new.words.ghost_name ≡ self.old.words.ghost_name }
    {
        let mut w = self.own_word(v, key);
        let mut at = self.n as usize + v as usize;
        self.words[at] = w;
        // a climb, in which the place halves each turn
        while 1 < at {
            let up = at / 2;
            // the other place under `up`
            let beside = 4 * up + 1 - at;
            w = self.better_of(w, self.words[beside]);
            self.words[up] = w;
            at = up;
        }
    }

    // The candidate that comes first, if one is left.
    pub fn choose(&self) -> Option<u32>
        requires { 1 < length self.now.words.now }
        ensures { Picks self.now.n self.now.words.now result }
    {
        choose(self.words)
    }
}

// The same of a tournament of any number of nodes, in words that need be no room: the root alone tells it.
pub fn choose(words: &[u64]) -> Option<u32>
    requires { 1 < length words.now }
    ensures { (n : ℕ) → Picks n words.now result }
{
    let w = words[1];
    if key_in(w) < SETTLED {
        Some(lower_of(w))
    } else {
        None
    }
}
