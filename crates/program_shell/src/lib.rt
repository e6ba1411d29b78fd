// The program's steps on slices: what it makes of its card, and what it answers to a line.
#![tactic(auto)]

ghost use Rattle.std.specs.Prelude.{◌≡◌, List, ◌<◌, ◌≤◌, ℕ, length};
ghost use Rattle.model.specs.Areas.{Areas};
ghost use Rattle.network.specs.Refusals.{refusal_in};
ghost use Rattle.network.specs.Lending.{areas};
ghost use Rattle.unit_questions.specs.Lending.{areas_with, lent, mut};
ghost use Rattle.unit_answers.specs.Shape.{answer_in};
ghost use Rattle.unit.specs.Shape.{header_in};
ghost use Rattle.line_console.specs.Lines.{line_of};
ghost use Rattle.line_texts.specs.Areas.{Written};
ghost use Rattle.line_input.specs.Holds.{Holds};
ghost use Rattle.program_shell.specs.Limits.{out_room};
ghost use Rattle.program_shell.specs.Opening.{OpensCard, judged, junction_room, opened_in, refusal_line, road_room, room_in, unless_over};
ghost use Rattle.program_shell.specs.Answering.{AnswersLine};

use line_input::Part;
use network::{Refusal, TimeWord};
use unit::{Answered, Header};
use unit_questions::Prepared;

// ---- limits: junctions and roads of the largest map that the program takes, the pairs that it has room for, and the largest card in bytes

pub const JUNCTIONS: usize = 200;

pub const ROADS: usize = 800;

pub const PAIRS: usize = 4000;

pub const CARD_SIZE: usize = 32768;

// The words of so many pairs, in each of their two areas.
pub const PAIRS_ROOM: usize = network::RECORD * PAIRS;

// Where the group of each junction starts, and where the last one ends.
pub const GROUPS: usize = JUNCTIONS + 1;

// Room for any answer.
pub const OUT_ROOM: usize = 8192;

// ---- the card

// The lengths of the areas that a card is lent, by junction and by road.
#[derive(Clone, Copy)]
pub struct Room {
    pub n: usize,
    pub m: usize,
}

// What the program makes of its card: the unit's header, and where the unit is not prepared, the number of bytes to print.
#[derive(Clone, Copy)]
pub struct Opened {
    pub header: Header,
    pub outcome: Result<(), usize>,
}

// As many records of a size as a body of so many bytes has, but at most so many.
fn records_in(bytes: usize, size: usize, most: usize) -> usize
    requires { 0 < size }
    ensures { result ≡ room_in bytes size most }
{
    (bytes / size).min(most)
}

// The lengths for a card, of which only the table of contents is looked at.
pub fn room_for(file: &[u8]) -> Room
    ensures { (result.n ≡ junction_room file.now) × (result.m ≡ road_room file.now) }
{
    let order = card_layout::order_of(file);
    let roads = card_layout::roads_of(file);
    Room {
        n: records_in(order.len(), card_layout::PLACE_SIZE, JUNCTIONS),
        m: records_in(roads.len(), card_layout::ROAD_SIZE, ROADS),
    }
}

// The line of a refused preparing. Question 7 refuses a larger map, whose areas are not lent in full: `no 0`.
fn write_refusal(q: Refusal, out: &mut [u8]) -> usize
    ensures { Written out.old (refusal_line (refusal_in q)) out.new result }
{
    match q {
        Refusal::AreaLengths => line_console::write_unreadable(out),
        _ => line_console::write_answer(Err(q), &[], out),
    }
}

// What a preparing's answer comes to. A file that is too long prints `no 0`, whatever its preparing answers.
fn judge(bytes: usize, answered: Answered, out: &mut [u8]) -> Opened
    requires { out_room ≤ length out.old }
    ensures { (a : Areas) → opened_in result out.new a
        ≡ unless_over bytes (judged (header_in answered.header) (answer_in answered.answer) a) }
{
    let outcome = if CARD_SIZE < bytes {
        Err(line_console::write_unreadable(out))
    } else {
        match answered.answer {
            Ok(_) => Ok(()),
            Err(q) => Err(write_refusal(q, out)),
        }
    };
    Opened {
        header: answered.header,
        outcome,
    }
}

// Opens a card: its line stands first in `out`, or the areas are prepared and nothing is printed. Lent areas of other lengths than
// `room_for` computes are judged as preparing judges them. They are lent one by one, as `prepare` takes them.
pub fn open_card(
    file: &[u8],
    ranks: &mut [u32],
    pairs: &mut [u32; PAIRS_ROOM],
    times: &mut [TimeWord; PAIRS_ROOM],
    live: &mut [TimeWord],
    down: &mut [TimeWord],
    estimates: &mut [TimeWord],
    elapsed: &mut [TimeWord],
    leaving: &mut [u32],
    groups: &mut [u32],
    out: &mut [u8; OUT_ROOM],
) -> Opened
    ensures { OpensCard file.now
        (areas (mut ranks) (mut pairs) (mut times) (mut live) (mut down) (mut estimates) (mut elapsed) (mut leaving) (mut groups))
        out.new result }
{
    let prepared = unit_switch_on::prepare(
        file, ranks, pairs, times, live, down, estimates, elapsed, leaving, groups,
    );
    judge(file.len(), prepared, out)
}

// ---- a line

// The line that a part holds: its bytes, or for a long one the whole area, which is as unreadable as any line of more than 45 bytes.
pub fn kept_line(p: Part, area: &[u8]) -> &[u8]
    ensures { (xs : List ℕ) → 45 < length area.now → Holds p area.now xs → line_of result.now ≡ line_of xs }
{
    match p {
        Part::Kept(n) => area.get(..n).unwrap_or(area),
        Part::Long => area,
    }
}

// What answering a line hands back: the header, and the number of bytes to print.
#[derive(Clone, Copy)]
pub struct Reply {
    pub header: Header,
    pub length: usize,
}

// Answers a line: `no 0` to an unreadable one, else the answer of its call. The text stands first in `out`. The areas that a call alters
// are lent one by one, as `unit::call` takes them.
pub fn answer_line(
    line: &[u8],
    header: Header,
    p: Prepared,
    live: &mut [TimeWord],
    down: &mut [TimeWord],
    estimates: &mut [TimeWord],
    elapsed: &mut [TimeWord],
    route: &mut [u32; JUNCTIONS],
    log: &mut [u32; JUNCTIONS],
    out: &mut [u8; OUT_ROOM],
) -> Reply
    ensures { AnswersLine p.entry.card.now line.now header (areas_with p (mut live) (mut down) (mut estimates) (mut elapsed))
        (lent (mut route) (mut log)) out.new result }
{
    let Some(c) = line_console::read_line(line) else {
        return Reply {
            header,
            length: line_console::write_unreadable(out),
        };
    };
    let called = unit::call(header, p, live, down, estimates, elapsed, route, log, c);
    Reply {
        header: called.header,
        length: line_console::write_answer(called.answer, route, out),
    }
}
