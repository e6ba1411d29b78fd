// What a search keeps of each node: its time, its key and the arc that gave the time, and how an offer improves them. What a node stands
// for is not known here. A room of 3 n words holds it for n nodes: first the queue, with the keys, then a word for each node, its time and
// the arc.
#![tactic(auto)]

ghost use Rattle.std.specs.Prelude.{◌≡◌, ◌*◌, ◌<◌, ◌≤◌, length};
ghost use Rattle.search_queue.specs.Order.{most_nodes};
ghost use Rattle.search_labels.specs.Labelling.{Fits, Improved, Ordered, Taken, labels_in};

use network::Time;
use search_queue::{Room, SETTLED, lower_of, upper_of, word_of};

// ---- the words of a node, for who holds the words to read them alone (that it is one of n, and that there are three words for each, are
// facts of them together, which no type of one has: each function asks them)

// The time of v, a candidate or a logged node.
pub fn time_of(words: &[u64], n: u32, v: u32) -> Time
    requires { (v < n) × (3 * n ≤ length words.now) }
    ensures { result.0 ≡ (labels_in n words.now).times v }
{
    let at = 2 * (n as usize) + v as usize;
    Time(upper_of(words[at]))
}

// The arc that gave v its time.
pub fn via_of(words: &[u64], n: u32, v: u32) -> u32
    requires { (v < n) × (3 * n ≤ length words.now) }
    ensures { result ≡ (labels_in n words.now).vias v }
{
    let at = 2 * (n as usize) + v as usize;
    lower_of(words[at])
}

// The same time in a room, which is then still known to be the same room.
pub fn room_time(room: &Room, v: u32) -> Time
    requires { v < room.now.n }
    ensures { result.0 ≡ (labels_in room.now.n room.now.words.now).times v }
{
    time_of(room.words, room.n, v)
}

// ---- a label

// The time of a candidate or of a logged node, its key, and the arc that gave the time.
#[derive(Clone, Copy)]
struct Label {
    pub time: Time,
    pub key: u64,
    pub via: u32,
}

impl Label {
    // The label of a node after arc i too has offered it a time; `estimate` is the node's. Its key, the offer plus the estimate, is added
    // up where its time would change, and nowhere else. Where the sum is no candidate's key, as without an estimate, the label stays. (Keys
    // have 38 bits. Every sum of times that calls have left fits; one of a forged area may not.)
    fn improved(self, offer: Time, estimate: Time, i: u32) -> Self
        requires { Fits self.time.0 self.key self.via × (i < most_nodes) }
        ensures { Improved offer.0 estimate.0 i self.time.0 self.key self.via result.time.0 result.key result.via
            × Fits result.time.0 result.key result.via }
    {
        let logged = self.key == SETTLED;
        if logged || self.time < offer {
            return self;
        }
        if self.time == offer {
            return Label {
                via: self.via.min(i),
                ..self
            };
        }
        let key = offer.plus(estimate).0;
        if key < SETTLED {
            Label {
                time: offer,
                key,
                via: i,
            }
        } else {
            self
        }
    }
}

// Arc i offers v a time: v's label is improved in the room, and its place in the queue renewed where its time has changed.
pub fn take(room: &mut Room, v: u32, offer: Time, estimate: Time, i: u32)
    requires { (v < room.old.n) × (i < most_nodes) × Ordered room.old.n room.old.words.now }
    ensures taken { Taken offer.0 estimate.0 i room.old.n v room.old.words.now room.new.words.now }
    ensures n_is { room.new.n ≡ room.old.n }
    ensures long { length room.new.words.now ≡ length room.old.words.now }
    ensures lent { room.new.words.ghost_name ≡ room.old.words.ghost_name }
{
    let at = 2 * (room.n as usize) + v as usize;
    let word = room.words[at];
    let old = Label {
        time: Time(upper_of(word)),
        key: room.key_of(v),
        via: lower_of(word),
    };
    let new = old.improved(offer, estimate, i);
    room.words[at] = word_of(new.time.0, new.via);
    if new.time != old.time {
        room.put(v, new.key);
    }
}
