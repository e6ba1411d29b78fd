// Lines of the program: a line of input as a call, an answer as a line of text.
#![tactic(auto)]

ghost use Rattle.std.specs.Prelude.{◌≡◌};
ghost use Rattle.unit_answers.specs.Shape.{answer_in};
ghost use Rattle.line_texts.specs.Areas.{Written};
ghost use Rattle.line_fields.specs.Fields.{after_space, before_space, number_of};
ghost use Rattle.line_console.specs.Lines.{called, in_range, junction_in, line_of, two};
ghost use Rattle.line_console.specs.Texts.{answer_text, unreadable_text};

use line_fields::{read_number, split_space};
use line_texts::Out;
use network::{Junction, Refusal, Time, TimeWord};
use unit_answers::{Answer, Call};

// ---- a line as a call

// The class of the program's go (document 02, A6).
const PROGRAM_CLASS: u32 = 0;

// A number of a line as one of a junction or a road: where it does not fit 32 bits it is the largest that does, which no map has, and never
// its lowest bits.
fn in_range(v: TimeWord) -> u32
    ensures { result ≡ in_range v }
{
    u32::try_from(v).unwrap_or(u32::MAX)
}

// A number as a junction's.
fn read_junction(s: &[u8]) -> Option<Junction>
    ensures { result ≡ junction_in (number_of s.now) }
{
    Some(Junction(in_range(read_number(s)?)))
}

// The road and the time of a set.
fn read_set(numbers: &[u8]) -> Option<Call>
    ensures { result ≡ two (number_of (before_space numbers.now)) (number_of (after_space numbers.now)) }
{
    let (road, time) = split_space(numbers);
    Some(Call::Set(in_range(read_number(road)?), Time(read_number(time)?)))
}

// The call that a word and what follows it say.
#[tactic(auto, using(crate::proofs::Words::says))]
fn read_call(word: &[u8], numbers: &[u8]) -> Option<Call>
    ensures { result ≡ called word.now numbers.now }
{
    match word {
        b"set" => read_set(numbers),
        b"aim" => Some(Call::Aim(read_junction(numbers)?)),
        b"est" => Some(Call::Estimate(read_junction(numbers)?)),
        b"go" => Some(Call::Go(PROGRAM_CLASS, read_junction(numbers)?)),
        _ => None,
    }
}

// What a line says: a call's word and its numbers, one space before each; none where it is unreadable.
pub fn read_line(line: &[u8]) -> Option<Call>
    ensures { result ≡ line_of line.now }
{
    let (word, numbers) = split_space(line);
    read_call(word, numbers)
}

// ---- an answer as a line

// Writes an answer's line: as much of it as fits stands first in `out`, the rest of which is untouched. Answers the number of bytes
// written.
pub fn write_answer(answer: Result<Answer, Refusal>, route: &[u32], out: &mut [u8]) -> usize
    ensures { Written out.old (answer_text (answer_in answer) route.now) out.new result }
{
    let mut line = Out { area: out, at: 0 };
    line_answers::put_answer(answer, route, &mut line);
    line.byte(b'\n');
    line.at
}

// Writes the line of an unreadable line, of a file that is too long and of a map that is too large: `no 0`.
pub fn write_unreadable(out: &mut [u8]) -> usize
    ensures { Written out.old unreadable_text out.new result }
{
    let mut line = Out { area: out, at: 0 };
    line.text(b"no 0\n");
    line.at
}
