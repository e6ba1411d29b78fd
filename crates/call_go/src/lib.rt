// A go: its questions, its search, its answer.
#![tactic(auto)]

ghost use Rattle.std.specs.Prelude.{◌≡◌};
ghost use Rattle.model.specs.Go.{go_answer};
ghost use Rattle.model.specs.Calls.{Go};
ghost use Rattle.model.specs.Promises.{base_on};
ghost use Rattle.network.specs.Refusals.{verdict_in};
ghost use Rattle.unit_answers.specs.Shape.{answer_in};
ghost use Rattle.unit_questions.specs.Lending.{areas_with, lengths_in, lent, mut};
ghost use Rattle.search.specs.Searches.{total_in};
ghost use Rattle.calls.specs.Shape.{handed, header_in, held};
ghost use Rattle.calls.specs.Meets.{Called, asks_trip};

use network::{Junction, Refusal, Sizes, TimeWord, Verdict};
use pairs_records::Records;
use search_junctions::{Atlas, ByTail, Trip, View, Ways};
use unit_answers::Answer;
use unit_questions::{Lengths, Prepared};

// A go's answer: 15 with the count where there is no total; else total, count and number of roads.
fn gone(total: Option<TimeWord>, count: u32, roads: u32) -> Result<Answer, Refusal>
    ensures { answer_in result ≡ go_answer (total_in total) count roads }
{
    let total = total.ok_or(Refusal::NoPath(count))?;
    Ok(Answer::Gone(total, count, roads))
}

// Questions 9, 18 and 12 to 14 of a go; then 9 for a target out of range, which no list of calls leaves.
#[tactic(auto, unfolding(model::specs::Go::go_refusal))]
fn go_asked(
    sizes: Sizes,
    target: Option<Junction>,
    card: &[u8],
    l: Lengths,
    route: usize,
    log: usize,
    class: u32,
    start: Junction,
) -> Verdict
    ensures { verdict_in result ≡ asks_trip (base_on card.now) (header_in (held sizes target)) card.now (lengths_in l)
        (Go class start.0) route log }
{
    network::ask(calls::fits(sizes, card, l), Refusal::Lengths)?;
    network::ask(unit_questions::class_fits(class), Refusal::NoClass)?;
    calls::start_asked(sizes, target, start)?;
    network::ask(
        unit_questions::lent_fit(sizes.n, route, log),
        Refusal::LentLengths,
    )?;
    calls::target_asked(sizes, target)
}

// The way of a class from a start to the target at the live times: total, count and roads, or 15 with the count. A road that is barred
// to the class counts as closed (document 02, A6).
pub fn go(
    sizes: Sizes,
    target: Option<Junction>,
    p: Prepared,
    live: &[TimeWord],
    down: &[TimeWord],
    estimates: &mut [TimeWord],
    elapsed: &mut [TimeWord],
    route: &mut [u32],
    log: &mut [u32],
    class: u32,
    start: Junction,
) -> Result<Answer, Refusal>
    ensures { Called p.entry.card.now (held sizes target) (areas_with p live down (mut estimates) (mut elapsed))
        (lent (mut route) (mut log)) (Go class start.0) (handed (held sizes target) result) }
{
    let l = p.lengths(live, down, estimates, elapsed);
    go_asked(
        sizes,
        target,
        p.card,
        l,
        route.len(),
        log.len(),
        class,
        start,
    )?;
    let trip = Trip {
        sizes,
        start,
        target: calls::aimed_at(target),
        class,
        view: View::Live,
    };
    // as call_preview has it: in place its fields compute, and a function's clause on each would be longer
    let atlas = Atlas {
        ways: Ways {
            roads: card_layout::roads_of(p.card),
            access: card_layout::access_of(p.card),
            live,
        },
        order: card_layout::order_of(p.card),
        ranks: p.ranks,
        records: Records {
            pairs: p.pairs,
            times: p.times,
        },
        down,
    };
    let by_tail = ByTail {
        leaving: p.leaving,
        groups: p.groups,
    };
    let found = search::search(trip, &atlas, by_tail, estimates, elapsed, route, log);
    gone(found.total, found.count, found.roads)
}
