// A list of stops of a class (document 02, A3 and A6): leg by leg an aim and a go.
#![tactic(auto)]

ghost use Rattle.std.specs.Prelude.{◌≡◌, Err, ◌&&◌, ◌*◌, ◌≤◌, ℕ, leb, length};
ghost use Rattle.graph.specs.Total.{Total};
ghost use Rattle.model.specs.Limits.{fewest_stops, most_stops};
ghost use Rattle.model.specs.Stops.{all_below};
ghost use Rattle.model.specs.Calls.{Stops};
ghost use Rattle.network.specs.Refusals.{verdict_in};
ghost use Rattle.unit_questions.specs.Lending.{areas_with, lengths_in, lent, mut};
ghost use Rattle.calls.specs.Shape.{answered_in, header_in, held};
ghost use Rattle.calls.specs.Meets.{asks};
ghost use Rattle.call_stops.specs.Legs.{CalledStops, Journeys, LegMade, RoomFor};

use call_aim::Aimed;
use network::{FEWEST_STOPS, Junction, MOST_STOPS, Refusal, Sizes, Time, TimeWord, Verdict};
use pairs_records::Records;
use unit_answers::Answer;
use unit_questions::{Lengths, Prepared};

// A list has at most so many legs.
pub const MOST_LEGS: usize = MOST_STOPS - 1;

// The total and the number of roads of each leg; 0 past the last. Two arrays, as the C interface hands them back (unit_c's UnitStops).
#[derive(Clone, Copy)]
pub struct Legs {
    pub totals: [TimeWord; MOST_LEGS],
    pub roads: [u32; MOST_LEGS],
}

// What a list of stops whose every leg has a path answers: the number of legs, the whole total, the legs.
#[derive(Clone, Copy)]
pub struct Journey {
    pub number: u32,
    pub whole: TimeWord,
    pub legs: Legs,
}

// What a list of stops hands back: the target in force, and the answer.
#[derive(Drop)]
pub struct Visited {
    pub target: Option<Junction>,
    pub answer: Result<Journey, Refusal>,
}

// ---- questions

// Is every stop below n?
fn all_below(n: u32, stops: &[u32]) -> bool
    ensures { result ≡ all_below n stops.now }
{
    stops.iter().all(|&s| s < n)
}

// Question 16.
fn count_fits(stops: usize) -> bool
    ensures { result ≡ (leb fewest_stops stops && leb stops most_stops) }
{
    (FEWEST_STOPS <= stops) & (stops <= MOST_STOPS)
}

// Question 14, of a list of so many stops.
fn lent_fit(n: u32, stops: usize, route: usize, log: usize) -> bool
    requires { stops ≤ most_stops }
    ensures { result ≡ (leb (stops * n) route && leb n log) }
{
    let n = n as usize;
    (stops * n <= route) & (n <= log)
}

// Questions 9, 16, 18, 12 and 14.
#[tactic(auto, unfolding(model::specs::Stops::stops_refusal))]
fn stops_asked(
    sizes: Sizes,
    target: Option<Junction>,
    card: &[u8],
    l: Lengths,
    route: usize,
    log: usize,
    class: u32,
    stops: &[u32],
) -> Verdict
    ensures { (base : ℕ → Total) → verdict_in result ≡ asks base (header_in (held sizes target)) card.now (lengths_in l)
        (Stops class stops.now) route log }
{
    network::ask(calls::fits(sizes, card, l), Refusal::Lengths)?;
    network::ask(count_fits(stops.len()), Refusal::StopCount)?;
    network::ask(unit_questions::class_fits(class), Refusal::NoClass)?;
    network::ask(all_below(sizes.n, stops), Refusal::NoJunction)?;
    network::ask(
        lent_fit(sizes.n, stops.len(), route, log),
        Refusal::LentLengths,
    )
}

// ---- legs

// One leg: an aim at its end, and a go of the class from its start.
fn leg(
    sizes: Sizes,
    target: Option<Junction>,
    p: Prepared,
    live: &[TimeWord],
    down: &mut [TimeWord],
    estimates: &mut [TimeWord],
    elapsed: &mut [TimeWord],
    route: &mut [u32],
    log: &mut [u32],
    class: u32,
    from: Junction,
    to: Junction,
) -> Aimed
    ensures { LegMade p.entry.card.now (header_in (held sizes target)) (areas_with p live (mut down) (mut estimates) (mut elapsed))
        (lent (mut route) (mut log)) class from.0 to.0
        (answered_in (record { header = held sizes result.target; answer = result.answer })) }
{
    let l = p.lengths(live, down, estimates, elapsed);
    let records = Records {
        pairs: p.pairs,
        times: p.times,
    };
    let aimed = call_aim::aim(sizes, target, p.card, l, records, down, estimates, to);
    let z = aimed.target;
    let answer = call_go::go(
        sizes, z, p, live, down, estimates, elapsed, route, log, class, from,
    );
    Aimed { target: z, answer }
}

// What is handed back with a refusal.
fn refused(target: Option<Junction>, q: Refusal) -> Visited
    ensures { result ≡ record { target = target; answer = Err q } }
{
    Visited {
        target,
        answer: Err(q),
    }
}

// Leg after leg, each lent the route area behind the roads of those before it, up to the last or to one that has no path.
fn visit(
    sizes: Sizes,
    target: Option<Junction>,
    p: Prepared,
    live: &[TimeWord],
    down: &mut [TimeWord],
    estimates: &mut [TimeWord],
    elapsed: &mut [TimeWord],
    route: &mut [u32],
    log: &mut [u32],
    class: u32,
    stops: &[u32],
) -> Visited
    requires { RoomFor stops.now }
    ensures { Journeys p.entry.card.now sizes (header_in (held sizes target))
        (areas_with p live (mut down) (mut estimates) (mut elapsed)) (lent (mut route) (mut log)) class stops.now result }
{
    let mut totals = [0; MOST_LEGS];
    let mut roads = [0u32; MOST_LEGS];
    let number = stops.len() - 1;
    let mut t = target;
    let mut whole = Time(0);
    let mut at = 0;
    for i in 0..number {
        let from = Junction(stops[i]);
        let to = Junction(stops[i + 1]);
        let rest = &mut route[at..];
        let made = leg(
            sizes, t, p, live, down, estimates, elapsed, rest, log, class, from, to,
        );
        t = made.target;
        match made.answer {
            Ok(Answer::Gone(total, _, k)) => {
                totals[i] = total;
                roads[i] = k;
                whole = whole.plus(Time(total));
                at = (at + k as usize).min(route.len());
            }
            _ => return refused(t, Refusal::NoLeg(i as u32)),
        }
    }
    Visited {
        target: t,
        answer: Ok(Journey {
            number: number as u32,
            whole: whole.0,
            legs: Legs { totals, roads },
        }),
    }
}

// ---- the call

// Calls at the stops in their order: for each leg its total and number of roads, and the whole total; the legs' roads follow one another in
// the route area. Each leg is an aim and a go of the class: areas and target are left as after the last, or, by 17, after the first without
// a path.
pub fn stops(
    sizes: Sizes,
    target: Option<Junction>,
    p: Prepared,
    live: &[TimeWord],
    down: &mut [TimeWord],
    estimates: &mut [TimeWord],
    elapsed: &mut [TimeWord],
    route: &mut [u32],
    log: &mut [u32],
    class: u32,
    stops: &[u32],
) -> Visited
    ensures { CalledStops p.entry.card.now (held sizes target) (areas_with p live (mut down) (mut estimates) (mut elapsed))
        (lent (mut route) (mut log)) class stops.now result }
{
    let l = p.lengths(live, down, estimates, elapsed);
    match stops_asked(
        sizes,
        target,
        p.card,
        l,
        route.len(),
        log.len(),
        class,
        stops,
    ) {
        Err(q) => refused(target, q),
        Ok(()) => visit(
            sizes, target, p, live, down, estimates, elapsed, route, log, class, stops,
        ),
    }
}
