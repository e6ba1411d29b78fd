// The records of the pairs, two ranks in one area and two times in another: read and written here and nowhere else; the first one of a
// rank, and which lead up.
#![tactic(auto)]

ghost use Rattle.std.specs.Prelude.{◌≡◌, ◌*◌, ◌+◌, ◌<◌, ◌≤◌, length};
ghost use Rattle.model.specs.Limits.{most_pairs};
ghost use Rattle.model.specs.Areas.{record_size};
ghost use Rattle.pairs_records.specs.Words.{Starts, answer, below_in, down_in, high_in, leads, low_in, up_in, with_record};

use network::{RECORD, Rank, Time, TimeWord};

// ---- record i (that it is inside is a fact of it and of the areas, which no type of one has: each function asks it)

// Where its high and its down time stand; its low and its up time are the first words that it has in their areas.
const SECOND: usize = 1;

// The number of words that `count` records take in each area.
pub fn words_of(count: u32) -> usize
    ensures { result ≡ record_size * count }
{
    RECORD * (count as usize)
}

// The records that are lent to be read: the ranks of each in the one area, its times in the other.
#[derive(Clone, Copy)]
pub struct Records<'a> {
    pub pairs: &'a [u32],
    pub times: &'a [TimeWord],
}

impl<'a> Records<'a> {
    // The rank of the lower junction of record i.
    pub fn low(self, i: u32) -> Rank
        requires { record_size * i + record_size ≤ length self.pairs.now }
        ensures { result.0 ≡ low_in self.entry.pairs.now i }
    {
        let k = i as usize;
        Rank(self.pairs[RECORD * k])
    }

    // The rank of its higher junction.
    pub fn high(self, i: u32) -> Rank
        requires { record_size * i + record_size ≤ length self.pairs.now }
        ensures { result.0 ≡ high_in self.entry.pairs.now i }
    {
        let k = i as usize;
        Rank(self.pairs[RECORD * k + SECOND])
    }

    // The time from the lower to the higher.
    pub fn up(self, i: u32) -> Time
        requires { record_size * i + record_size ≤ length self.times.now }
        ensures { result.0 ≡ up_in self.entry.times.now i }
    {
        let k = i as usize;
        Time(self.times[RECORD * k])
    }

    // The time from the higher to the lower.
    pub fn down(self, i: u32) -> Time
        requires { record_size * i + record_size ≤ length self.times.now }
        ensures { result.0 ≡ down_in self.entry.times.now i }
    {
        let k = i as usize;
        Time(self.times[RECORD * k + SECOND])
    }

    // Whether the low of record i is below r, as a number: 1 if it is, 0 if not.
    fn is_below(self, i: u32, r: Rank) -> u32
        requires { record_size * i + record_size ≤ length self.pairs.now }
        ensures { result ≡ below_in self.entry.pairs.now r.0 i }
    {
        u32::from(self.low(i) < r)
    }

    // The place of the first record whose low is not below r, or up to three places before it. Of four quarters the one is kept where the
    // lows reach r: three words are read at once, and no jump hangs on them. (The library's `partition_point`, tried over the records,
    // takes three times as long.)
    pub fn start_of(self, count: u32, r: Rank) -> u32
        requires { (record_size * count ≤ length self.pairs.now) × (count ≤ most_pairs) }
        ensures { Starts self.entry.pairs.now count r.0 result }
    {
        let mut base: u32 = 0;
        let mut size: u32 = count;
        while 3 < size {
            let q = size / 4;
            let one = self.is_below(base + q, r);
            let two = self.is_below(base + 2 * q, r);
            let three = self.is_below(base + 3 * q, r);
            base += q * (one + two + three);
            size -= 3 * q;
        }
        base
    }
}

// A record to be written: the ranks of its lower and its higher junction, the time from the lower to the higher, and the time back.
#[derive(Clone, Copy)]
pub struct Record {
    pub low: Rank,
    pub high: Rank,
    pub up: Time,
    pub down: Time,
}

// Writes the two words that record i has in an area: of ranks or of times, alone, without the other area.
pub fn put_two<T: Copy>(area: &mut [T], i: u32, first: T, second: T)
    requires { record_size * i + record_size ≤ length area.old }
    ensures { area.new ≡ with_record area.old i first second }
{
    let k = RECORD * (i as usize);
    area[k] = first;
    area[k + SECOND] = second;
}

// Writes record i.
pub fn put(pairs: &mut [u32], times: &mut [TimeWord], i: u32, given: Record)
    requires pairs { record_size * i + record_size ≤ length pairs.old }
    requires times { record_size * i + record_size ≤ length times.old }
    ensures pairs { pairs.new ≡ with_record pairs.old i given.low.0 given.high.0 }
    ensures times { times.new ≡ with_record times.old i given.up.0 given.down.0 }
{
    put_two(pairs, i, given.low.0, given.high.0);
    put_two(times, i, given.up.0, given.down.0);
}

// ---- what a walk over the records of a rank asks

// Does a record lead up from rank r to a higher one?
pub fn leads_up(n: u32, r: Rank, low: Rank, high: Rank, up: Time) -> bool
    ensures { result ≡ leads n r.0 low.0 high.0 up.0 }
{
    low == r && r < high && high.0 < n && !up.is_none()
}

// The answer of a walk: the mark unasked, which only forged areas give, becomes none, so that no entry is asked again and again.
pub fn answer_of(t: Time) -> Time
    ensures { result.0 ≡ answer t.0 }
{
    if t.is_unasked() { Time::NONE } else { t }
}
