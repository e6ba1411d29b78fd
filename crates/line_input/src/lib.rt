// Lines of the input: a line is taken byte by byte, out of chunks that are read from it.
#![tactic(auto)]

ghost use Rattle.std.specs.Prelude.{◌≡◌, List, [], ◌++◌, ◌∷◌, ◌<◌, ◌≤◌, ℕ, length};
ghost use Rattle.line_input.specs.Counts.{count_of};
ghost use Rattle.line_input.specs.Holds.{Holds, has_bytes};
ghost use Rattle.line_input.specs.Input.{AtStart, NextLine, Refilled, Stepped, Took, waiting};

use std::io;
use std::io::Read;

// The longest readable line has 45 bytes: `set` and two numbers of 20 digits.
pub const LINE_ROOM: usize = 46;

// What is read at a time.
pub const CHUNK_ROOM: usize = 4096;

// The line as far as it was read: so many bytes, which stand first in a lent area, or more than that area has. (No Option: a long line is
// not the want of one, and each case has its name.)
#[derive(Clone, Copy)]
pub enum Part {
    Kept(usize),
    Long,
}

impl Part {
    // Takes a byte more. What does not fit is dropped, and the line is long.
    pub fn take_byte(self, b: u8, area: &mut [u8]) -> Part
        ensures { (xs : List ℕ) → Holds self area.old xs → Holds result area.new (xs ++ (b ∷ [])) }
    {
        match self {
            Part::Kept(n) if n < area.len() => {
                area[n] = b;
                Part::Kept(n + 1)
            }
            _ => Part::Long,
        }
    }

    // Whether the line has a byte.
    fn has_bytes(self) -> bool
        ensures { result ≡ has_bytes self }
    {
        match self {
            Part::Kept(n) => 0 < n,
            Part::Long => true,
        }
    }
}

// ---- the reader

// The input: the bytes of a chunk from `at` to `end` are not taken yet. `ready` says that the line's end has come, `ended` that a read gave
// nothing: two flags, since each goes with each. `turns` is how many more steps may be made: bytes taken, and reads.
#[derive(Clone, Copy)]
pub struct Reader {
    pub at: usize,
    pub end: usize,
    pub part: Part,
    pub ready: bool,
    pub ended: bool,
    pub turns: u64,
}

// Before the first line; an input that is not open counts as ended. A proved loop has to end, and nothing says that an input does: so steps
// are counted down, from a number that no run uses up.
pub fn at_start(opens: bool) -> Reader
    ensures { AtStart opens result }
{
    Reader {
        at: 0,
        end: 0,
        part: Part::Kept(0),
        ready: false,
        ended: !opens,
        turns: u64::MAX,
    }
}

// One byte: the end of the line, or a byte of it.
fn take_one(r: Reader, b: u8, left: u64, line: &mut [u8]) -> Reader
    requires { r.at < r.end }
    ensures { Took b left r line.old result line.new }
{
    let ready = b == b'\n';
    Reader {
        at: r.at + 1,
        part: if ready {
            r.part
        } else {
            r.part.take_byte(b, line)
        },
        ready,
        turns: left,
        ..r
    }
}

// What a read answered, no byte where it failed. "A line ends at a newline or at the end of the input; after a last newline no further line
// follows": where the input ends, a line that has bytes is ready.
fn take_read(r: Reader, got: io::Result<usize>, left: u64, chunk: &[u8]) -> Reader
    ensures end_in_bounds { result.end ≤ length chunk.now }
    ensures refilled { Refilled (count_of got (length chunk.now)) left r result }
{
    let end = got.unwrap_or(0).min(chunk.len());
    let ended = end == 0;
    Reader {
        at: 0,
        end,
        ready: ended && r.part.has_bytes(),
        ended,
        turns: left,
        ..r
    }
}

// Reads the next chunk.
fn refill<I: Read>(input: &mut I, r: Reader, left: u64, chunk: &mut [u8]) -> Reader
    ensures { (result.end ≤ length chunk.new) × Refilled result.end left r result }
{
    let got = input.read(chunk);
    take_read(r, got, left, chunk)
}

// Takes a byte, or reads the next chunk where none is left.
fn step<I: Read>(input: &mut I, r: Reader, chunk: &mut [u8], line: &mut [u8]) -> Reader
    requires { 0 < r.turns }
    ensures { Stepped r chunk.old line.old result chunk.new line.new }
{
    let left = r.turns - 1;
    if r.at < r.end && r.at < chunk.len() {
        return take_one(r, chunk[r.at], left, line);
    }
    refill(input, r, left, chunk)
}

// Whether a step more is to be made: the line's end has not come, the input has not ended, and not all steps are used up.
fn waits(r: Reader) -> bool
    ensures { result ≡ waiting r }
{
    !r.ready && !r.ended && 0 < r.turns
}

// The next line of the input, if there is one: no step is taken after the input's end. What is left of the chunk is for the line after it.
// A step takes a byte or reads a chunk, so the loop goes by the reader and has no index.
pub fn next_line<I: Read>(
    input: &mut I,
    from: Reader,
    chunk: &mut [u8; CHUNK_ROOM],
    line: &mut [u8; LINE_ROOM],
) -> Reader
    ensures { NextLine from chunk.old result chunk.new line.new }
{
    let mut r = Reader {
        part: Part::Kept(0),
        ready: false,
        ..from
    };
    while waits(r) {
        r = step(input, r, chunk, line);
    }
    r
}
