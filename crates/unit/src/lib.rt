// The header, the calls as its methods, and any of document 01's four by its case.
#![tactic(auto)]

ghost use Rattle.model.specs.Calls.{Aim, Estimate, Go, Set};
ghost use Rattle.unit_answers.specs.Shape.{call_in};
ghost use Rattle.unit_questions.specs.Lending.{areas_with, lent, mut};
ghost use Rattle.unit.specs.Meets.{Meets, MeetsAlone, MeetsPreview};
ghost use Rattle.unit.specs.Stops.{MeetsStops};

use call_stops::Journey;
use network::{Junction, Refusal, Sizes, Time, TimeWord};
use pairs_records::Records;
use unit_answers::{Answer, Call};
use unit_questions::Prepared;

// Numbers of junctions, roads and pairs, the card's length, and the target.
#[derive(Clone, Copy)]
pub struct Header {
    pub sizes: Sizes,
    pub target: Option<Junction>,
}

// What each call hands back.
#[derive(Clone, Copy)]
pub struct Answered {
    pub header: Header,
    pub answer: Result<Answer, Refusal>,
}

// What a list of stops hands back.
#[derive(Drop)]
pub struct Stopped {
    pub header: Header,
    pub answer: Result<Journey, Refusal>,
}

impl Header {
    // (The areas that calls alter are lent one by one: each call is lent to be written just what it writes.)

    // Sets a road's live time, from its base time to 10,000,000, or closed.
    pub fn set(
        self,
        p: Prepared,
        live: &mut [TimeWord],
        down: &[TimeWord],
        estimates: &[TimeWord],
        elapsed: &[TimeWord],
        road: u32,
        time: Time,
    ) -> Answered
        ensures { MeetsAlone p.entry.card.now self (areas_with p (mut live) down estimates elapsed)
            (Set road time.0) result }
    {
        let l = p.lengths(live, down, estimates, elapsed);
        Answered {
            header: self,
            answer: call_set::set(self.sizes, p.card, l, live, road, time),
        }
    }

    // Aims at a junction: it becomes the target, with its down totals; each estimate becomes unasked.
    pub fn aim(
        self,
        p: Prepared,
        live: &[TimeWord],
        down: &mut [TimeWord],
        estimates: &mut [TimeWord],
        elapsed: &[TimeWord],
        j: Junction,
    ) -> Answered
        ensures { MeetsAlone p.entry.card.now self (areas_with p live (mut down) (mut estimates) elapsed)
            (Aim j.0) result }
    {
        let l = p.lengths(live, down, estimates, elapsed);
        let records = Records {
            pairs: p.pairs,
            times: p.times,
        };
        let by = call_aim::aim(
            self.sizes,
            self.target,
            p.card,
            l,
            records,
            down,
            estimates,
            j,
        );
        Answered {
            header: Header {
                target: by.target,
                ..self
            },
            answer: by.answer,
        }
    }

    // The estimate of a junction: the least base total to the target, or none.
    pub fn estimate(
        self,
        p: Prepared,
        live: &[TimeWord],
        down: &[TimeWord],
        estimates: &mut [TimeWord],
        elapsed: &[TimeWord],
        j: Junction,
    ) -> Answered
        ensures { MeetsAlone p.entry.card.now self (areas_with p live down (mut estimates) elapsed)
            (Estimate j.0) result }
    {
        let l = p.lengths(live, down, estimates, elapsed);
        let records = Records {
            pairs: p.pairs,
            times: p.times,
        };
        let answer = call_estimate::estimate(
            self.sizes,
            self.target,
            p.card,
            l,
            p.ranks,
            records,
            down,
            estimates,
            j,
        );
        Answered {
            header: self,
            answer,
        }
    }

    // The way of a class from a start to the target at the live times: total, count and roads, or 15 with the count. A road that is barred
    // to the class counts as closed (document 02, A6).
    pub fn go(
        self,
        p: Prepared,
        live: &[TimeWord],
        down: &[TimeWord],
        estimates: &mut [TimeWord],
        elapsed: &mut [TimeWord],
        route: &mut [u32],
        log: &mut [u32],
        class: u32,
        start: Junction,
    ) -> Answered
        ensures { Meets p.entry.card.now self (areas_with p live down (mut estimates) (mut elapsed))
            (lent (mut route) (mut log)) (Go class start.0) result }
    {
        let answer = call_go::go(
            self.sizes,
            self.target,
            p,
            live,
            down,
            estimates,
            elapsed,
            route,
            log,
            class,
            start,
        );
        Answered {
            header: self,
            answer,
        }
    }

    // What if that road took so long? The total of a class's go from a start now and with that time set, and the change (document 02, A2).
    // The work area serves the two searches; what it holds before and after does not matter.
    pub fn preview(
        self,
        p: Prepared,
        live: &[TimeWord],
        down: &[TimeWord],
        estimates: &mut [TimeWord],
        elapsed: &[TimeWord],
        work: &mut [TimeWord],
        class: u32,
        road: u32,
        time: Time,
        start: Junction,
    ) -> Answered
        ensures { MeetsPreview p.entry.card.now self (areas_with p live down (mut estimates) elapsed)
            work.old work.new class road time.0 start.0 result }
    {
        let answer = call_preview::preview(
            self.sizes,
            self.target,
            p,
            live,
            down,
            estimates,
            elapsed,
            work,
            class,
            road,
            time,
            start,
        );
        Answered {
            header: self,
            answer,
        }
    }

    // Calls at the stops in their order (document 02, A3): for each leg its total and number of roads, and the whole total; the legs' roads
    // follow one another in the route area. Each leg is an aim and a go of the class: areas and target are left as after the last, or, by
    // 17, after the first without a path.
    pub fn stops(
        self,
        p: Prepared,
        live: &[TimeWord],
        down: &mut [TimeWord],
        estimates: &mut [TimeWord],
        elapsed: &mut [TimeWord],
        route: &mut [u32],
        log: &mut [u32],
        class: u32,
        stops: &[u32],
    ) -> Stopped
        ensures { MeetsStops p.entry.card.now self (areas_with p live (mut down) (mut estimates) (mut elapsed))
            (lent (mut route) (mut log)) class stops.now result }
    {
        let by = call_stops::stops(
            self.sizes,
            self.target,
            p,
            live,
            down,
            estimates,
            elapsed,
            route,
            log,
            class,
            stops,
        );
        Stopped {
            header: Header {
                target: by.target,
                ..self
            },
            answer: by.answer,
        }
    }
}

// Any of document 01's four calls, and so lent what any of them writes. Route and log are go's; the others leave them as they are.
pub fn call(
    header: Header,
    p: Prepared,
    live: &mut [TimeWord],
    down: &mut [TimeWord],
    estimates: &mut [TimeWord],
    elapsed: &mut [TimeWord],
    route: &mut [u32],
    log: &mut [u32],
    call: Call,
) -> Answered
    ensures { Meets p.entry.card.now header (areas_with p (mut live) (mut down) (mut estimates) (mut elapsed))
        (lent (mut route) (mut log)) (call_in call) result }
{
    match call {
        Call::Set(road, time) => header.set(p, live, down, estimates, elapsed, road, time),
        Call::Aim(j) => header.aim(p, live, down, estimates, elapsed, j),
        Call::Estimate(j) => header.estimate(p, live, down, estimates, elapsed, j),
        Call::Go(class, start) => header.go(
            p, live, down, estimates, elapsed, route, log, class, start,
        ),
    }
}
