// The row of a rank r: its times with the ranks above it, in two arrays by rank, and marks at the blocks of ranks where they are relaxed.
#![tactic(auto)]

ghost use Rattle.std.specs.Prelude.{◌≡◌, ◌*◌, ◌<◌, ◌/◌, min, get_or, length, set};
ghost use Rattle.graph.specs.Records.{exists};
ghost use Rattle.model.specs.Word.{none_word, of_word};
ghost use Rattle.pairs_rows.specs.Rows.{block};

use network::{JUNCTIONS, Time, TimeWord};

// The number of ranks in a block, and the number of blocks of as many ranks as there are.
pub const BLOCK: u32 = 32;

pub const BLOCKS: usize = JUNCTIONS / (BLOCK as usize);

// The two rows of times of a rank, upwards and downwards, and the marks of their blocks, words 0 or 1. (Arrays side by side: fixed memory,
// of which a loop reads one or two.)
#[derive(Drop)]
pub struct Rows {
    pub ups: [TimeWord; JUNCTIONS],
    pub downs: [TimeWord; JUNCTIONS],
    pub touched: [u32; BLOCKS],
}

impl Rows {
    // The block of rank h is touched.
    pub fn mark(&mut self, h: usize)
        requires { h < JUNCTIONS }
        ensures { self.new ≡ record self.old { touched = set self.old.touched (h / block) 1 } }
    {
        mark(&mut self.touched, h);
    }
}

// The block of rank h is touched, of marks of any length.
pub fn mark(touched: &mut [u32], h: usize)
    requires { h < block * length touched.old }
    ensures { touched.new ≡ set touched.old (h / block) 1 }
{
    touched[h / (BLOCK as usize)] = 1;
}

// The entry of rank h of a row, upwards or downwards, is relaxed by a time.
pub fn relax_entry(row: &mut [TimeWord], h: usize, t: Time)
    requires { h < length row.old }
    ensures { row.new ≡ set row.old h (min (get_or row.old h 0) t.0) }
{
    row[h] = row[h].min(t.0);
}

// Hands out the time of rank h, and leaves none.
pub fn take_time(row: &mut [TimeWord], h: usize) -> Time
    requires { h < length row.old }
    ensures { (result.0 ≡ get_or row.old h 0) × (row.new ≡ set row.old h none_word) }
{
    Time(std::mem::replace(&mut row[h], Time::NONE.0))
}

// A pair is kept when either time exists.
pub fn is_kept(up: Time, down: Time) -> bool
    ensures { result ≡ exists (of_word up.0) (of_word down.0) }
{
    !up.is_none() || !down.is_none()
}
