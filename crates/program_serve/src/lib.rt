// The program: reads its card, then lines to the end of the input, and writes each answer at once.
#![tactic(auto)]

ghost use Rattle.std.specs.Prelude.{◌≡◌, List, ℕ, length, take};
ghost use Rattle.line_input.specs.Counts.{IsPrefixLen};
ghost use Rattle.line_input.specs.Holds.{Holds};
ghost use Rattle.line_console.specs.Lines.{line_of};
ghost use Rattle.network.specs.Lending.{areas};
ghost use Rattle.unit_questions.specs.Lending.{areas_with, lent, mut};
ghost use Rattle.program_serve.specs.Serving.{AnswersLines, Begun, Serves, Starts, Turns};

use line_input::{CHUNK_ROOM, LINE_ROOM, Reader};
use network::TimeWord;
use program_shell::{CARD_SIZE, GROUPS, JUNCTIONS, OUT_ROOM, Opened, PAIRS_ROOM, ROADS, Room};
use std::fs;
use std::io::{Read, Write};
use std::rt::Files;
use unit::Header;
use unit_questions::Prepared;

// The longest card that is read, and one byte more, which shows that a file is longer.
const FILE_ROOM: usize = CARD_SIZE + 1;

// ---- a line

// What travels from line to line: the input as far as it is read, the unit's header, and how many bytes were printed last.
#[derive(Clone, Copy)]
struct Talk {
    reader: Reader,
    header: Header,
    said: usize,
}

// The first k bytes of an area.
fn text_of(out: &[u8], k: usize) -> &[u8]
    ensures { result.now ≡ take k out.now }
{
    out.get(..k).unwrap_or(out)
}

// Hands a text to the output, whole, and answers its length; a write that fails is passed over.
fn say<W: Write>(text: &[u8], output: &mut W) -> usize
    ensures { result ≡ length text.now }
{
    let _ = output.write_all(text);
    text.len()
}

// Says a text, then reads the next line, if there is one.
fn turn<R: Read, W: Write>(
    from: Talk,
    header: Header,
    text: &[u8],
    chunk: &mut [u8; CHUNK_ROOM],
    line: &mut [u8; LINE_ROOM],
    input: &mut R,
    output: &mut W,
) -> Talk
    ensures { Turns from header text.now chunk.old result chunk.new line.new }
{
    let said = say(text, output);
    Talk {
        reader: line_input::next_line(input, from.reader, chunk, line),
        header,
        said,
    }
}

// The line that is ready.
fn heard(l: Talk, line: &[u8; LINE_ROOM]) -> &[u8]
    ensures { (xs : List ℕ) → Holds l.reader.part line.now xs → line_of result.now ≡ line_of xs }
{
    program_shell::kept_line(l.reader.part, line)
}

// Says what is to be said first, then answers lines until there is none. Each turn reads a line, so the loop goes by the reader and has no
// index.
fn answer_lines<R: Read, W: Write>(
    from: Talk,
    p: Prepared,
    live: &mut [TimeWord],
    down: &mut [TimeWord],
    estimates: &mut [TimeWord],
    elapsed: &mut [TimeWord],
    route: &mut [u32; JUNCTIONS],
    log: &mut [u32; JUNCTIONS],
    out: &mut [u8; OUT_ROOM],
    input: &mut R,
    output: &mut W,
) -> Talk
    ensures { AnswersLines p.entry.card.now from (areas_with p (mut live) (mut down) (mut estimates) (mut elapsed))
        (lent (mut route) (mut log)) (mut out) result }
{
    let mut chunk = [0u8; CHUNK_ROOM];
    let mut line = [0u8; LINE_ROOM];
    let first = text_of(out, from.said);
    let mut l = turn(
        from,
        from.header,
        first,
        &mut chunk,
        &mut line,
        input,
        output,
    );
    while l.reader.ready {
        let heard = heard(l, &line);
        let reply = program_shell::answer_line(
            heard, l.header, p, live, down, estimates, elapsed, route, log, out,
        );
        let text = text_of(out, reply.length);
        l = turn(l, reply.header, text, &mut chunk, &mut line, input, output);
    }
    l
}

// ---- the card

// Before the first line. A card that does not open has a line to be said, and none is read.
fn begin(opened: Opened) -> Talk
    ensures { Begun opened result }
{
    Talk {
        reader: line_input::at_start(opened.outcome.is_ok()),
        header: opened.header,
        said: match opened.outcome {
            Ok(()) => 0,
            Err(n) => n,
        },
    }
}

// Opens the card in lent areas; a prepared unit answers each line.
fn serve<R: Read, W: Write>(
    file: &[u8],
    ranks: &mut [u32],
    pairs: &mut [u32; PAIRS_ROOM],
    times: &mut [TimeWord; PAIRS_ROOM],
    live: &mut [TimeWord],
    down: &mut [TimeWord],
    estimates: &mut [TimeWord],
    elapsed: &mut [TimeWord],
    leaving: &mut [u32],
    groups: &mut [u32],
    route: &mut [u32; JUNCTIONS],
    log: &mut [u32; JUNCTIONS],
    out: &mut [u8; OUT_ROOM],
    input: &mut R,
    output: &mut W,
) -> Talk
    ensures { Serves file.now
        (areas (mut ranks) (mut pairs) (mut times) (mut live) (mut down) (mut estimates) (mut elapsed) (mut leaving) (mut groups))
        (lent (mut route) (mut log)) out.new result }
{
    let opened = program_shell::open_card(
        file, ranks, pairs, times, live, down, estimates, elapsed, leaving, groups, out,
    );
    let p = Prepared {
        card: file,
        ranks: &ranks[..],
        pairs: &pairs[..],
        times: &times[..],
        leaving: &leaving[..],
        groups: &groups[..],
    };
    answer_lines(
        begin(opened),
        p,
        live,
        down,
        estimates,
        elapsed,
        route,
        log,
        out,
        input,
        output,
    )
}

// Lends the areas of the card's map, to 200 junctions and 800 roads, with room for 4,000 pairs: parts of arrays, since no memory is asked
// for.
fn start<R: Read, W: Write>(file: &[u8], input: &mut R, output: &mut W) -> Talk
    ensures { Starts file.now result }
{
    let Room { n, m } = program_shell::room_for(file);
    let mut ranks = [0u32; JUNCTIONS];
    let mut pairs = [0u32; PAIRS_ROOM];
    let mut times = [0 as TimeWord; PAIRS_ROOM];
    let mut live = [0 as TimeWord; ROADS];
    let mut down = [0 as TimeWord; JUNCTIONS];
    let mut estimates = [0 as TimeWord; JUNCTIONS];
    let mut elapsed = [0 as TimeWord; JUNCTIONS];
    let mut leaving = [0u32; ROADS];
    let mut groups = [0u32; GROUPS];
    let mut route = [0u32; JUNCTIONS];
    let mut log = [0u32; JUNCTIONS];
    let mut out = [0u8; OUT_ROOM];
    serve(
        file,
        &mut ranks[..n],
        &mut pairs,
        &mut times,
        &mut live[..m],
        &mut down[..n],
        &mut estimates[..n],
        &mut elapsed[..n],
        &mut leaving[..m],
        &mut groups[..n + 1],
        &mut route,
        &mut log,
        &mut out,
        input,
        output,
    )
}

// ---- files

// Opens a file to be read, where there is one. A path that is no text has none.
pub fn open<F: Files>(files: &F, path: &[u8]) -> Option<F::File> {
    fs::open(files, str::from_utf8(path).ok()?).ok()
}

// Reads until the area is full, the input ends or a read fails, and answers how many bytes it put at the start of the area. The place goes
// up by what a read gave, so no range fits.
pub fn read_full<R: Read>(from: &mut R, area: &mut [u8]) -> usize
    ensures { IsPrefixLen result area.new }
{
    let mut done = 0;
    while done < area.len() {
        match from.read(&mut area[done..]) {
            Ok(n) if 0 < n => done += n,
            _ => break,
        }
    }
    done
}

// Puts the file at the start of `file` and answers its length; 0 where there is none, or where it cannot be read: an empty card.
fn load<F: Files>(files: &F, path: &[u8], file: &mut [u8]) -> usize
    ensures { IsPrefixLen result file.new }
{
    let Some(mut from) = open(files, path) else {
        return 0;
    };
    let n = read_full(&mut from, file);
    match from.read(&mut [0u8; 1]) {
        Ok(_) => n,
        Err(_) => 0,
    }
}

// Reads the card at a path, then lines from an input; writes to an output.
pub fn run<F: Files, R: Read, W: Write>(files: &F, path: &[u8], input: &mut R, output: &mut W) {
    let mut file = [0u8; FILE_ROOM];
    let n = load(files, path, &mut file);
    start(&file[..n], input, output);
}
