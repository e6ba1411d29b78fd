// A preview: its questions, its two searches, its answer.
#![tactic(auto)]

ghost use Rattle.std.specs.Prelude.{◌≡◌};
ghost use Rattle.model.specs.Calls.{Preview};
ghost use Rattle.model.specs.Promises.{base_on};
ghost use Rattle.network.specs.Refusals.{verdict_in};
ghost use Rattle.unit_questions.specs.Lending.{areas_with, lengths_in, mut};
ghost use Rattle.calls.specs.Shape.{handed, header_in, held};
ghost use Rattle.calls.specs.Meets.{CalledPreview, asks_trip};

use network::{Junction, Refusal, Sizes, Time, TimeWord, Verdict};
use pairs_records::Records;
use search_junctions::{Atlas, ByTail, Trip, View, Ways};
use unit_answers::Answer;
use unit_questions::{Lengths, Prepared};

// Questions 9, 18 and 10 to 13 of a preview: 9, its work area's length last; the class; then as a set of that road, and as a go from
// that start; then 9 for a target out of range, as a go.
#[tactic(auto, unfolding(model::specs::Preview::preview_refusal, model::specs::Estimate::estimate_refusal, model::specs::Set::set_refusal))]
fn preview_asked(
    sizes: Sizes,
    target: Option<Junction>,
    card: &[u8],
    l: Lengths,
    work: usize,
    class: u32,
    road: u32,
    time: Time,
    start: Junction,
) -> Verdict
    ensures { verdict_in result ≡ asks_trip (base_on card.now) (header_in (held sizes target)) card.now (lengths_in l)
        (Preview class road time.0 start.0 work) 0 0 }
{
    network::ask(calls::fits(sizes, card, l), Refusal::Lengths)?;
    network::ask(unit_questions::work_fits(sizes.n, work), Refusal::Lengths)?;
    network::ask(unit_questions::class_fits(class), Refusal::NoClass)?;
    call_set::time_asked(sizes, card, road, time)?;
    calls::start_asked(sizes, target, start)?;
    calls::target_asked(sizes, target)
}

// What if that road took so long? The total of a class's go from a start now and with that time set, and the change (document 02, A2).
// The work area serves the two searches; what it holds before and after does not matter.
pub fn preview(
    sizes: Sizes,
    target: Option<Junction>,
    p: Prepared,
    live: &[TimeWord],
    down: &[TimeWord],
    estimates: &mut [TimeWord],
    elapsed: &[TimeWord],
    work: &mut [TimeWord],
    class: u32,
    road: u32,
    time: Time,
    start: Junction,
) -> Result<Answer, Refusal>
    ensures { CalledPreview p.entry.card.now (held sizes target) (areas_with p live down (mut estimates) elapsed)
        work.old work.new class road time.0 start.0 (handed (held sizes target) result) }
{
    let l = p.lengths(live, down, estimates, elapsed);
    preview_asked(
        sizes,
        target,
        p.card,
        l,
        work.len(),
        class,
        road,
        time,
        start,
    )?;
    let trip = Trip {
        sizes,
        start,
        target: calls::aimed_at(target),
        class,
        view: View::Live,
    };
    // as call_go has it: in place its fields compute, and a function's clause on each would be longer
    let atlas = Atlas {
        ways: Ways {
            roads: card_layout::roads_of(p.card),
            access: card_layout::access_of(p.card),
            live,
        },
        order: card_layout::order_of(p.card),
        ranks: p.ranks,
        records: Records {
            pairs: p.pairs,
            times: p.times,
        },
        down,
    };
    let by_tail = ByTail {
        leaving: p.leaving,
        groups: p.groups,
    };
    let set = View::Set(road, time);
    let found = search::totals(trip, set, &atlas, by_tail, estimates, work);
    Ok(unit_answers::previewed(found.present, found.new))
}
