// Runs of the program. Each three arguments are a card's file, a file of lines, and a file with what must be printed: a line says whether
// it was.
#![tactic(auto)]

ghost use Rattle.std.specs.Prelude.{◌<◌, ◌≤◌, length};

use program_serve::{open, read_full};
use std::env::FillError;
use std::fs;
use std::io::{Read, Write};
use std::rt::{Env, Files};

// What is compared at a time.
const ROOM: usize = 4096;

// The longest name of a file, and the most arguments.
const NAME_ROOM: usize = 64;

const MOST: usize = 3000;

// Whether two files are the same from where they stand. A proved loop has to end: the turns are counted, to a number that no run uses up.
fn compare<A: Read, B: Read>(a: &mut A, b: &mut B) -> bool {
    let mut one = [0u8; ROOM];
    let mut two = [0u8; ROOM];
    for _ in 0..u64::MAX {
        let n = read_full(a, &mut one);
        let m = read_full(b, &mut two);
        if &one[..n] != &two[..m] {
            return false;
        }
        if n < ROOM {
            return true;
        }
    }
    true
}

// Whether a run prints what a file has; none where a file cannot be opened. What it prints goes to a file of its own.
fn passes<F: Files>(files: &F, card: &[u8], lines: &[u8], due: &[u8]) -> Option<bool> {
    let input = open(files, lines);
    let wanted = open(files, due);
    let output = fs::create(files, "printed");
    let mut wanted = wanted?;
    program_serve::run(files, card, &mut input?, &mut output.ok()?);
    // nothing is read of a file that is not there
    Some(match open(files, b"printed") {
        Some(mut printed) => compare(&mut printed, &mut wanted),
        None => compare(&mut [].as_slice(), &mut wanted),
    })
}

// Writes a text, whole.
fn print<W: Write>(text: &[u8], output: &mut W) {
    let _ = output.write_all(text);
}

// Puts an argument at the start of an area and answers its length; 0 where there is none, or where it is longer than the area: no file has
// that name, and no memory is asked for.
fn argument<E: Env>(env: &E, i: usize, area: &mut [u8]) -> usize
    ensures { result ≤ length area.new }
{
    env.arg(i, area).unwrap_or(0)
}

// How many arguments there are, the program's name among them; of more than can be taken, one more than can be.
fn count_arguments<E: Env>(env: &E) -> usize
    ensures { result ≤ 3001 }
{
    let mut name = [0u8; NAME_ROOM];
    for i in 0..MOST + 1 {
        if let Err(FillError::NotPresent) = env.arg(i, &mut name) {
            return i;
        }
    }
    MOST + 1
}

// The run whose arguments begin at i.
fn run_one<R: Env + Files, W: Write>(rt: &R, i: usize, output: &mut W)
    requires { i ≤ 3000 }
{
    let mut card = [0u8; NAME_ROOM];
    let mut lines = [0u8; NAME_ROOM];
    let mut due = [0u8; NAME_ROOM];
    let n = argument(rt, i, &mut card);
    let m = argument(rt, i + 1, &mut lines);
    let k = argument(rt, i + 2, &mut due);
    let names = [&card[..n], &lines[..m], &due[..k]];
    let passed = passes(rt, names[0], names[1], names[2]).unwrap_or(false);
    print(if passed { b"passed" } else { b"failed" }, output);
    for name in names {
        print(b" ", output);
        print(name, output);
    }
    print(b"\n", output);
}

fn main(rt: HostRuntime) {
    let mut output = rt.stdout();
    let count = count_arguments(&rt);
    if MOST < count {
        return;
    }
    for i in (1..count.saturating_sub(2)).step_by(3) {
        run_one(&rt, i, &mut output);
    }
}
