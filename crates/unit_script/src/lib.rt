// A script of calls as words: makes them one after the other, and writes the words of their answers.
#![tactic(auto)]

ghost use Rattle.std.specs.Prelude.{◌≡◌, Some, List, [], ◌++◌, ◌∷◌, ◌*◌, ◌+◌, ◌≤◌, ℕ, get_or, length, replicate};
ghost use Rattle.model.specs.Limits.{most_legs};
ghost use Rattle.unit_answers.specs.Shape.{answer_in, call_in, change_in};
ghost use Rattle.model.specs.Types.{Refused};
ghost use Rattle.network.specs.Refusals.{refusal_in};
ghost use Rattle.unit_questions.specs.Lending.{areas_with, lent, mut};
ghost use Rattle.unit.specs.Shape.{answered_in, header_in};
ghost use Rattle.call_stops.specs.Shape.{stopping_in};
ghost use Rattle.call_stops.specs.Legs.{Rest};
ghost use Rattle.unit_script.specs.Words.{answer_size, answer_words, change_word, four_of, four_words, legs_words, made_words};
ghost use Rattle.unit_script.specs.Words.{StandsWhole, call_at, kind_of, put_at, room_in, scripted_in, stops_at, time_of, words_of};
ghost use Rattle.unit_script.specs.Script.{OneContract, ReplayContract};

use call_stops::{Legs, MOST_LEGS};
use network::{Junction, Refusal, Time, TimeWord};
use unit::{Answered, Header, Stopped};
use unit_answers::{Answer, Call, total_word};
use unit_questions::Prepared;

// ---- the words of a call

// What a call of a script asks: one of document 01's four; a preview of a class, a road, a time and a start; or a list of stops of a class,
// which stand in the script.
#[derive(Clone, Copy)]
enum Asked {
    Four(Call),
    Preview(u32, u32, Time, Junction),
    Stops(u32),
}

// A call of a script, and how many entries of route and log it is lent.
#[derive(Clone, Copy)]
struct Scripted {
    asked: Asked,
    route: usize,
    log: usize,
}

// A time takes two words, the lower one first.

// Set: `0 road time time`.
const SET_WORDS: usize = 4;
// Aim: `1 junction`.
const AIM_WORDS: usize = 2;
// Estimate: `2 junction`.
const ESTIMATE_WORDS: usize = 2;
// Go: `3 class start route log`.
const GO_WORDS: usize = 5;
// Preview: `4 class road time time start`.
const PREVIEW_WORDS: usize = 6;
// Stops: `5 class stops route log`, and then so many stops.
const STOPS_WORDS: usize = 5;

// So many numbers a word of a script tells.
const WORD: TimeWord = 4294967296;

// The kinds of calls, in the order of their numbers, which are the first words of calls.
#[derive(Clone, Copy)]
enum Kind {
    Set,
    Aim,
    Estimate,
    Go,
    Preview,
    Stops,
}

impl Kind {
    // The kind of a number, if it has one. (No TryFrom: nobody asks why a number has none.)
    fn of_word(number: u32) -> Option<Kind>
        ensures { result ≡ kind_of number }
    {
        match number {
            0 => Some(Kind::Set),
            1 => Some(Kind::Aim),
            2 => Some(Kind::Estimate),
            3 => Some(Kind::Go),
            4 => Some(Kind::Preview),
            5 => Some(Kind::Stops),
            _ => None,
        }
    }

    // How many words a call has, its kind with them, by its third word.
    fn words(self, stops: u32) -> usize
        ensures { (number : ℕ) → kind_of number ≡ Some self → result ≡ words_of number stops }
    {
        match self {
            Kind::Set => SET_WORDS,
            Kind::Aim => AIM_WORDS,
            Kind::Estimate => ESTIMATE_WORDS,
            Kind::Go => GO_WORDS,
            Kind::Preview => PREVIEW_WORDS,
            Kind::Stops => STOPS_WORDS + (stops as usize),
        }
    }
}

// One of the four calls, and how many entries it is lent.
fn lending(call: Call, route: usize, log: usize) -> Scripted
    ensures { (w : ℕ) (stops : List ℕ) → scripted_in result w stops ≡ record { asked = call_in call; route = route; log = log } }
{
    Scripted {
        asked: Asked::Four(call),
        route,
        log,
    }
}

// The time of two words.
fn time_of(lower: u32, upper: u32) -> Time
    ensures { result.0 ≡ time_of lower upper }
{
    Time(lower as TimeWord + WORD * (upper as TimeWord))
}

// ---- at a place of a script (that it is within is a fact of both, which no type of one has: each function asks it)

// Word i from a place on, 0 past the end.
fn word_at(script: &[u32], at: usize, i: usize) -> u32
    requires { at ≤ length script.now }
    ensures { result ≡ get_or script.now (at + i) 0 }
{
    script[at..].get(i).copied().unwrap_or(0)
}

// A call that stands whole at a place of a script: its kind, and where it ends.
#[derive(Clone, Copy)]
struct Whole {
    kind: Kind,
    end: usize,
}

// That call, if one does: a number that is no kind ends a script, and so does a call that is cut short.
fn whole_at(script: &[u32], at: usize) -> Option<Whole>
    requires { at ≤ length script.now }
    ensures { StandsWhole script.now at result }
{
    let kind = Kind::of_word(word_at(script, at, 0))?;
    let w = kind.words(word_at(script, at, 2));
    if w <= script.len() - at {
        Some(Whole { kind, end: at + w })
    } else {
        None
    }
}

// The call of a kind that stands there, beside areas of so many entries. A go and a list of stops are lent as many of them as two words
// say, all of an area that has fewer; any other call is lent all, and leaves them.
fn call_at(script: &[u32], at: usize, kind: Kind, route: usize, log: usize) -> Scripted
    requires { (at ≤ length script.now) × (kind_of (get_or script.now at 0) ≡ Some kind) }
    ensures { (w : ℕ) → scripted_in result w (stops_at script.now at)
        ≡ call_at script.now at (record { route = route; log = log; work = w }) }
{
    let one = word_at(script, at, 1);
    let two = word_at(script, at, 2);
    let three = word_at(script, at, 3);
    let four = word_at(script, at, 4);
    let five = word_at(script, at, 5);
    let roads = route.min(three as usize);
    let logged = log.min(four as usize);
    match kind {
        Kind::Set => lending(Call::Set(one, time_of(two, three)), route, log),
        Kind::Aim => lending(Call::Aim(Junction(one)), route, log),
        Kind::Estimate => lending(Call::Estimate(Junction(one)), route, log),
        Kind::Go => lending(Call::Go(one, Junction(two)), roads, logged),
        Kind::Preview => Scripted {
            asked: Asked::Preview(one, two, time_of(three, four), Junction(five)),
            route,
            log,
        },
        Kind::Stops => Scripted {
            asked: Asked::Stops(one),
            route: roads,
            log: logged,
        },
    }
}

// The stops of a list that stands there, as far as the script has them.
fn stops_at(script: &[u32], at: usize) -> &[u32]
    requires { at ≤ length script.now }
    ensures { result.now ≡ stops_at script.now at }
{
    let rest = &script[at..];
    let stops = &rest[rest.len().min(STOPS_WORDS)..];
    &stops[..stops.len().min(word_at(script, at, 2) as usize)]
}

// ---- the words of an answer

// An answer is four words, and two for each leg that a list of stops may have.
const LEG_WORDS: usize = 2;

const FOUR: usize = 4;

const ANSWER_SIZE: usize = 4 + LEG_WORDS * MOST_LEGS;

// What a call hands back: the header, and its answer as words: four, and its legs'.
#[derive(Drop)]
struct Made {
    header: Header,
    words: [u64; FOUR],
    legs: Legs,
}

// How many answers have room in an area of so many words.
fn room_in(words: usize) -> usize
    ensures { result ≡ room_in words }
{
    words / ANSWER_SIZE
}

// The word of a change, two's complement; 0 where there is none.
fn change_word(change: Option<i64>) -> u64
    ensures { result ≡ change_word (change_in change) }
{
    change.map_or(0, |d| d.cast_unsigned())
}

// The four words of a refusal: its number, the road, place or leg that it names, the count.
fn refused(q: Refusal) -> [u64; FOUR]
    ensures { four_of result ≡ four_words (Refused (refusal_in q)) }
{
    [
        u64::from(q.question()),
        u64::from(q.place()),
        u64::from(q.count()),
        0,
    ]
}

// Four words, and no legs.
fn four(header: Header, words: [u64; FOUR]) -> Made
    ensures { (header_in result.header ≡ header_in header) × (made_words result ≡ four_of words ++ replicate (2 * most_legs) 0) }
{
    Made {
        header,
        words,
        legs: Legs {
            totals: [0; MOST_LEGS],
            roads: [0; MOST_LEGS],
        },
    }
}

// The words of what a call handed back: the number of the question that refuses, or 0; estimate or total; count; number of roads. Of a
// preview: 0, present total, new total, change. (No From: the next function, of a list of stops, asks something of what it is given.)
fn of_answered(r: Answered) -> Made
    ensures { (header_in result.header ≡ header_in r.header) × (made_words result ≡ answer_words (answer_in r.answer)) }
{
    let header = r.header;
    match r.answer {
        Err(q) => four(header, refused(q)),
        Ok(Answer::Accepted) => four(header, [0, 0, 0, 0]),
        Ok(Answer::Estimated(t)) => four(header, [0, t.0, 0, 0]),
        Ok(Answer::Gone(t, c, k)) => four(header, [0, t, u64::from(c), u64::from(k)]),
        Ok(Answer::Previewed(a, b, c)) => four(
            header,
            [0, total_word(a), total_word(b), change_word(c)],
        ),
    }
}

// The words of what a list of stops handed back: 0, whole total, 0, number of legs, and total and number of roads of each.
fn of_stopped(r: Stopped) -> Made
    requires { Rest r.answer }
    ensures { (header_in result.header ≡ header_in r.header) × (made_words result ≡ answer_words (stopping_in r.answer)) }
{
    let header = r.header;
    match r.answer {
        Err(q) => four(header, refused(q)),
        Ok(j) => Made {
            header,
            words: [0, j.whole, 0, u64::from(j.number)],
            legs: j.legs,
        },
    }
}

// Writes the legs in the place of answer k, behind its four words.
fn put_legs(out: &mut [u64], k: usize, legs: Legs)
    requires { answer_size * k + answer_size ≤ length out.old }
    ensures { out.new ≡ put_at out.old (answer_size * k + 4)
        (legs_words legs.totals legs.roads 0 most_legs) }
{
    let totals = legs.totals;
    let roads = legs.roads;
    let start = ANSWER_SIZE * k + FOUR;
    for i in 0..MOST_LEGS {
        out[start + LEG_WORDS * i] = totals[i];
        out[start + LEG_WORDS * i + 1] = roads[i] as u64;
    }
}

// Writes the words of answer k.
fn put_made(out: &mut [u64], k: usize, m: Made)
    requires { answer_size * k + answer_size ≤ length out.old }
    ensures { out.new ≡ put_at out.old (answer_size * k) (made_words m) }
{
    let start = ANSWER_SIZE * k;
    out[start..start + FOUR].copy_from_slice(&m.words);
    put_legs(out, k, m.legs);
}

// ---- the calls of a script

// Makes one call, which is lent the first entries of route and log; a preview is lent the work area, a list of stops has its stops.
fn make_call(
    header: Header,
    p: Prepared,
    live: &mut [TimeWord],
    down: &mut [TimeWord],
    estimates: &mut [TimeWord],
    elapsed: &mut [TimeWord],
    route: &mut [u32],
    log: &mut [u32],
    work: &mut [TimeWord],
    stops: &[u32],
    c: Scripted,
) -> Made
    requires { (c.route ≤ length route.old) × (c.log ≤ length log.old) }
    ensures { OneContract p.entry.card.now (header_in header)
        (areas_with p (mut live) (mut down) (mut estimates) (mut elapsed))
        (lent (mut route) (mut log)) (scripted_in c (length work.old) stops.now) (header_in result.header) (made_words result) }
{
    let roads = c.route;
    let logged = c.log;
    let asked = c.asked;
    match asked {
        Asked::Four(call) => of_answered(unit::call(
            header,
            p,
            live,
            down,
            estimates,
            elapsed,
            &mut route[..roads],
            &mut log[..logged],
            call,
        )),
        Asked::Preview(class, road, time, start) => of_answered(header.preview(
            p, live, down, estimates, elapsed, work, class, road, time, start,
        )),
        Asked::Stops(class) => of_stopped(header.stops(
            p,
            live,
            down,
            estimates,
            elapsed,
            &mut route[..roads],
            &mut log[..logged],
            class,
            stops,
        )),
    }
}

// Makes the calls of a script from a header and the areas that belong to it, as preparing or calls left them; writes the words of each
// answer. A preview is lent the work area. Hands the last header back.
pub fn replay(
    start: Header,
    p: Prepared,
    live: &mut [TimeWord],
    down: &mut [TimeWord],
    estimates: &mut [TimeWord],
    elapsed: &mut [TimeWord],
    route: &mut [u32],
    log: &mut [u32],
    work: &mut [TimeWord],
    script: &[u32],
    out: &mut [u64],
) -> Header
    ensures { ReplayContract p.entry.card.now (header_in start)
        (areas_with p (mut live) (mut down) (mut estimates) (mut elapsed)) (lent (mut route) (mut log))
        (length work.old) script.now out.old out.new (header_in result) }
{
    let room = room_in(out.len());
    let mut h = start;
    let mut at = 0;
    for k in 0..room {
        let Some(whole) = whole_at(script, at) else {
            break;
        };
        let c = call_at(script, at, whole.kind, route.len(), log.len());
        let stops = stops_at(script, at);
        let r = make_call(
            h, p, live, down, estimates, elapsed, route, log, work, stops, c,
        );
        h = r.header;
        put_made(out, k, r);
        at = whole.end;
    }
    h
}
