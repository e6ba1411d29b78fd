// What C and Rust call: the public functions over plain words and slices. A refusal is its number, and 0 is an acceptance.
#![tactic(auto)]

ghost use Rattle.std.specs.Prelude.{◌≡◌, [], ◌∷◌, length};
ghost use Rattle.model.specs.Card.{read_card};
ghost use Rattle.model.specs.Calls.{Aim, Estimate, Go, Set};
ghost use Rattle.card.specs.Answers.{rows_of};
ghost use Rattle.network.specs.Lending.{areas};
ghost use Rattle.unit_questions.specs.Lending.{lent, mut};
ghost use Rattle.unit_preparing.specs.Preparing.{Prepares, areas_lent};
ghost use Rattle.unit.specs.Shape.{answered_in, header_in};
ghost use Rattle.unit.specs.Meets.{Meets, MeetsAlone, MeetsPreview};
ghost use Rattle.unit.specs.Stops.{MeetsStops};
ghost use Rattle.unit_script.specs.Script.{ReplayContract};
ghost use Rattle.unit_c.specs.Answers.{Tells, TellsHeader, answer_words, header_of, header_words};
ghost use Rattle.unit_c.specs.Stops.{TellsStops, stops_words};
ghost use Rattle.unit_c.specs.Words.{Wrote, reading_number, reading_words};

use call_stops::MOST_LEGS;
use network::{Junction, Sizes, Time, TimeWord};
use unit::{Answered, Header, Stopped};
use unit_answers::{Answer, total_word};
use unit_questions::Prepared;

// ---- headers and answers as C holds them

// A header as C holds it: `card` is the card's length; `aimed` is 0 where there is no target, and `target` is 0 then.
#[repr(C)]
#[derive(Clone, Copy)]
pub struct UnitHeader {
    pub n: u32,
    pub m: u32,
    pub pairs: u32,
    pub card: u32,
    pub aimed: u32,
    pub target: u32,
}

// What preparing and the calls hand back. `question` is 0, or the number of the refusal; `place` goes with 5 and 6; `total` is that of a
// go, or the word of an estimate; `count` is that of a go, also after 15; `roads` is the number of roads of a go. Of a preview, `total` is
// the present total and `then` the one with the time set, each the mark none where there is none; `compared` is 1 where both exist, and
// `change` is then minus total. What does not apply is 0.
#[repr(C)]
#[derive(Clone, Copy)]
pub struct UnitAnswer {
    pub header: UnitHeader,
    pub question: u32,
    pub place: u32,
    pub compared: u32,
    pub total: TimeWord,
    pub count: u32,
    pub roads: u32,
    pub then: TimeWord,
    pub change: i64,
}

// What a list of stops hands back. `question` and `leg` are 0, or the number of the refusal and the leg that 17 names; `legs` is their
// number, `whole` the whole total, `totals` and `roads` each leg's. What does not apply is 0.
#[repr(C)]
#[derive(Drop)]
pub struct UnitStops {
    pub header: UnitHeader,
    pub question: u32,
    pub leg: u32,
    pub legs: u32,
    pub whole: TimeWord,
    pub totals: [TimeWord; MOST_LEGS],
    pub roads: [u32; MOST_LEGS],
}

// The header that C's words stand for: there is a target where `aimed` is not 0.
impl From<UnitHeader> for Header {
    ghost from_gives = { λ h k. k ≡ header_of h };

    fn from(h: UnitHeader) -> Self {
        Header {
            sizes: Sizes {
                n: h.n,
                m: h.m,
                pairs: h.pairs,
                card: h.card,
            },
            target: if h.aimed == 0 {
                None
            } else {
                Some(Junction(h.target))
            },
        }
    }
}

// The words of a header.
impl From<Header> for UnitHeader {
    ghost from_gives = { λ h w. w ≡ header_words h };

    fn from(h: Header) -> Self {
        let s = h.sizes;
        let (aimed, target) = match h.target {
            None => (0, 0),
            Some(z) => (1, z.0),
        };
        UnitHeader {
            n: s.n,
            m: s.m,
            pairs: s.pairs,
            card: s.card,
            aimed,
            target,
        }
    }
}

// The words of what is handed back.
impl From<Answered> for UnitAnswer {
    ghost from_gives = { λ r w. w ≡ answer_words r };

    fn from(r: Answered) -> Self {
        let none = UnitAnswer {
            header: UnitHeader::from(r.header),
            question: 0,
            place: 0,
            compared: 0,
            total: 0,
            count: 0,
            roads: 0,
            then: 0,
            change: 0,
        };
        match r.answer {
            Err(q) => UnitAnswer {
                question: q.question(),
                place: q.place(),
                count: q.count(),
                ..none
            },
            Ok(Answer::Accepted) => none,
            Ok(Answer::Estimated(t)) => UnitAnswer { total: t.0, ..none },
            Ok(Answer::Gone(total, count, roads)) => UnitAnswer {
                total,
                count,
                roads,
                ..none
            },
            Ok(Answer::Previewed(present, new, change)) => UnitAnswer {
                compared: change.is_some() as u32,
                total: total_word(present),
                then: total_word(new),
                change: change.unwrap_or(0),
                ..none
            },
        }
    }
}

// The words of what a list of stops hands back.
impl From<Stopped> for UnitStops {
    ghost from_gives = { λ r w. w ≡ stops_words r };

    fn from(r: Stopped) -> Self {
        let header = UnitHeader::from(r.header);
        match r.answer {
            Err(refusal) => UnitStops {
                header,
                question: refusal.question(),
                leg: refusal.place(),
                legs: 0,
                whole: 0,
                totals: [0; MOST_LEGS],
                roads: [0; MOST_LEGS],
            },
            Ok(j) => {
                let totals = j.legs.totals;
                let roads = j.legs.roads;
                UnitStops {
                    header,
                    question: 0,
                    leg: 0,
                    legs: j.number,
                    whole: j.whole,
                    totals,
                    roads,
                }
            }
        }
    }
}

// ---- the card

// Reads a card. `first` and `second` get n and m, or the place that questions 5 and 6 name and 0.
#[unsafe(no_mangle)]
pub extern "C" fn card_read(card: &[u8], first: &mut u32, second: &mut u32) -> u32
    ensures value { result ≡ reading_number (read_card card.now) }
    ensures second_after { first.new ∷ second.new ∷ [] ≡ reading_words (read_card card.now) }
{
    match card::read(card) {
        Ok((n, m)) => {
            *first = n;
            *second = m;
            0
        }
        Err(q) => {
            *first = q.place();
            *second = 0;
            q.question()
        }
    }
}

// Writes the card of a map into `area`. `place` gets the place that questions 5 and 6 name, or 0.
#[unsafe(no_mangle)]
pub extern "C" fn card_write(roads: &[u32], order: &[u32], area: &mut [u8], place: &mut u32) -> u32
    ensures { Wrote (rows_of roads.now order.now)
        area.old area.new result place.new }
{
    match card::write(roads, order, area) {
        Ok(()) => {
            *place = 0;
            0
        }
        Err(q) => {
            *place = q.place();
            q.question()
        }
    }
}

// ---- preparing and the calls

// Prepares a card on the nine areas.
#[unsafe(no_mangle)]
pub extern "C" fn unit_prepare(
    card: &[u8],
    ranks: &mut [u32],
    pairs: &mut [u32],
    times: &mut [TimeWord],
    live: &mut [TimeWord],
    down: &mut [TimeWord],
    estimates: &mut [TimeWord],
    elapsed: &mut [TimeWord],
    leaving: &mut [u32],
    groups: &mut [u32],
) -> UnitAnswer
    ensures { Tells (λ x. Prepares card.now (areas_lent ranks pairs times live down estimates elapsed leaving groups)
        (answered_in x)) result }
{
    UnitAnswer::from(unit_switch_on::prepare(
        card, ranks, pairs, times, live, down, estimates, elapsed, leaving, groups,
    ))
}

// Sets a road's live time.
#[unsafe(no_mangle)]
pub extern "C" fn unit_set(
    header: UnitHeader,
    card: &[u8],
    ranks: &[u32],
    pairs: &[u32],
    times: &[TimeWord],
    live: &mut [TimeWord],
    down: &[TimeWord],
    estimates: &[TimeWord],
    elapsed: &[TimeWord],
    leaving: &[u32],
    groups: &[u32],
    road: u32,
    time: TimeWord,
) -> UnitAnswer
    ensures { Tells (MeetsAlone card.now (header_of header)
        (areas ranks pairs times (mut live) down estimates elapsed leaving groups) (Set road time)) result }
{
    let h = Header::from(header);
    let p = Prepared {
        card,
        ranks,
        pairs,
        times,
        leaving,
        groups,
    };
    UnitAnswer::from(h.set(p, live, down, estimates, elapsed, road, Time(time)))
}

// Aims at a junction.
#[unsafe(no_mangle)]
pub extern "C" fn unit_aim(
    header: UnitHeader,
    card: &[u8],
    ranks: &[u32],
    pairs: &[u32],
    times: &[TimeWord],
    live: &[TimeWord],
    down: &mut [TimeWord],
    estimates: &mut [TimeWord],
    elapsed: &[TimeWord],
    leaving: &[u32],
    groups: &[u32],
    junction: u32,
) -> UnitAnswer
    ensures { Tells (MeetsAlone card.now (header_of header)
        (areas ranks pairs times live (mut down) (mut estimates) elapsed leaving groups) (Aim junction)) result }
{
    let h = Header::from(header);
    let p = Prepared {
        card,
        ranks,
        pairs,
        times,
        leaving,
        groups,
    };
    UnitAnswer::from(h.aim(p, live, down, estimates, elapsed, Junction(junction)))
}

// The estimate of a junction.
#[unsafe(no_mangle)]
pub extern "C" fn unit_estimate(
    header: UnitHeader,
    card: &[u8],
    ranks: &[u32],
    pairs: &[u32],
    times: &[TimeWord],
    live: &[TimeWord],
    down: &[TimeWord],
    estimates: &mut [TimeWord],
    elapsed: &[TimeWord],
    leaving: &[u32],
    groups: &[u32],
    junction: u32,
) -> UnitAnswer
    ensures { Tells (MeetsAlone card.now (header_of header)
        (areas ranks pairs times live down (mut estimates) elapsed leaving groups) (Estimate junction)) result }
{
    let h = Header::from(header);
    let p = Prepared {
        card,
        ranks,
        pairs,
        times,
        leaving,
        groups,
    };
    UnitAnswer::from(h.estimate(p, live, down, estimates, elapsed, Junction(junction)))
}

// The way of a class from a start to the target.
#[unsafe(no_mangle)]
pub extern "C" fn unit_go(
    header: UnitHeader,
    card: &[u8],
    ranks: &[u32],
    pairs: &[u32],
    times: &[TimeWord],
    live: &[TimeWord],
    down: &[TimeWord],
    estimates: &mut [TimeWord],
    elapsed: &mut [TimeWord],
    leaving: &[u32],
    groups: &[u32],
    route: &mut [u32],
    log: &mut [u32],
    class: u32,
    start: u32,
) -> UnitAnswer
    ensures { Tells (Meets card.now (header_of header) (areas ranks pairs times live down (mut estimates) (mut elapsed) leaving groups)
        (lent (mut route) (mut log)) (Go class start)) result }
{
    let h = Header::from(header);
    let p = Prepared {
        card,
        ranks,
        pairs,
        times,
        leaving,
        groups,
    };
    UnitAnswer::from(h.go(
        p,
        live,
        down,
        estimates,
        elapsed,
        route,
        log,
        class,
        Junction(start),
    ))
}

// The totals of a class from a start now and with a road's time set, and their change.
#[unsafe(no_mangle)]
pub extern "C" fn unit_preview(
    header: UnitHeader,
    card: &[u8],
    ranks: &[u32],
    pairs: &[u32],
    times: &[TimeWord],
    live: &[TimeWord],
    down: &[TimeWord],
    estimates: &mut [TimeWord],
    elapsed: &[TimeWord],
    leaving: &[u32],
    groups: &[u32],
    work: &mut [TimeWord],
    class: u32,
    road: u32,
    time: TimeWord,
    start: u32,
) -> UnitAnswer
    ensures { Tells (MeetsPreview card.now (header_of header)
        (areas ranks pairs times live down (mut estimates) elapsed leaving groups) work.old work.new
        class road time start) result }
{
    let h = Header::from(header);
    let p = Prepared {
        card,
        ranks,
        pairs,
        times,
        leaving,
        groups,
    };
    UnitAnswer::from(h.preview(
        p,
        live,
        down,
        estimates,
        elapsed,
        work,
        class,
        road,
        Time(time),
        Junction(start),
    ))
}

// A class calls at the stops in their order.
#[unsafe(no_mangle)]
pub extern "C" fn unit_stops(
    header: UnitHeader,
    card: &[u8],
    ranks: &[u32],
    pairs: &[u32],
    times: &[TimeWord],
    live: &[TimeWord],
    down: &mut [TimeWord],
    estimates: &mut [TimeWord],
    elapsed: &mut [TimeWord],
    leaving: &[u32],
    groups: &[u32],
    route: &mut [u32],
    log: &mut [u32],
    class: u32,
    stops: &[u32],
) -> UnitStops
    ensures { TellsStops (MeetsStops card.now (header_of header)
        (areas ranks pairs times live (mut down) (mut estimates) (mut elapsed) leaving groups)
        (lent (mut route) (mut log)) class stops.now) result }
{
    let h = Header::from(header);
    let p = Prepared {
        card,
        ranks,
        pairs,
        times,
        leaving,
        groups,
    };
    UnitStops::from(h.stops(p, live, down, estimates, elapsed, route, log, class, stops))
}

// ---- a script

// Makes the calls of a script from a header and the areas that belong to it: a kind, and as many words as that call has. 0 road time is a
// set, 1 junction an aim, 2 junction an estimate, 3 class start r l a go, which is lent the first r entries of the route and l of the log,
// all if there are fewer, 4 class road time start a preview, which is lent the work area, 5 class s r l and then s stops a list of stops,
// lent as a go; a time takes two words, the lower one first. Any other kind ends the script, and so does a call that is cut short. `out`
// gets 66 words for each answer: the question that refuses, or 0; estimate, total or the leg of 17; count; number of roads; of a preview 0,
// present total, new total, change as two's complement; of a list of stops 0, whole total, 0, number of legs; then total and number of
// roads of each of 31 legs, 0 where there is none. As many calls are made as `out` has room for. What is handed back is the last header.
#[unsafe(no_mangle)]
pub extern "C" fn unit_replay(
    header: UnitHeader,
    card: &[u8],
    ranks: &[u32],
    pairs: &[u32],
    times: &[TimeWord],
    live: &mut [TimeWord],
    down: &mut [TimeWord],
    estimates: &mut [TimeWord],
    elapsed: &mut [TimeWord],
    leaving: &[u32],
    groups: &[u32],
    route: &mut [u32],
    log: &mut [u32],
    work: &mut [TimeWord],
    script: &[u32],
    out: &mut [u64],
) -> UnitHeader
    ensures { TellsHeader (λ k. ReplayContract card.now (header_in (header_of header))
        (areas ranks pairs times (mut live) (mut down) (mut estimates) (mut elapsed) leaving groups)
        (lent (mut route) (mut log)) (length work.old)
        script.now out.old out.new (header_in k)) result }
{
    let h = Header::from(header);
    let p = Prepared {
        card,
        ranks,
        pairs,
        times,
        leaving,
        groups,
    };
    UnitHeader::from(unit_script::replay(
        h, p, live, down, estimates, elapsed, route, log, work, script, out,
    ))
}
