// A set: its questions, and one live time written.
#![tactic(auto)]

ghost use Rattle.std.specs.Prelude.{◌≡◌, ◌*◌, None, Option, length};
ghost use Rattle.model.specs.Layout.{road_size, roads_in};
ghost use Rattle.model.specs.Set.{set_refusal};
ghost use Rattle.model.specs.Calls.{Set, known_of};
ghost use Rattle.model.specs.Promises.{base_on};
ghost use Rattle.network.specs.Refusals.{verdict_in};
ghost use Rattle.network.specs.declared.Junction.{Junction};
ghost use Rattle.unit_questions.specs.Lending.{lengths_in, mut};
ghost use Rattle.calls.specs.Shape.{header_in, held};
ghost use Rattle.calls.specs.Meets.{asks};
ghost use Rattle.call_set.specs.Part.{SetPart};

use network::{Refusal, Sizes, Time, TimeWord, Verdict};
use unit_answers::Answer;
use unit_questions::Lengths;

// Questions 10 and 11, once 9 has passed: the card has so many roads.
#[tactic(auto, unfolding(model::specs::Set::set_refusal))]
pub fn time_asked(sizes: Sizes, card: &[u8], road: u32, time: Time) -> Verdict
    requires { length (roads_in card.now) ≡ road_size * sizes.m }
    ensures { verdict_in result ≡ set_refusal (known_of (base_on card.now) (header_in (held sizes None))) road time.0 }
{
    network::ask(road < sizes.m, Refusal::NoRoad)?;
    let base = network::base_of(card_layout::roads_named(card), road as usize);
    network::ask(unit_questions::allowed(base, time), Refusal::NotAllowed)
}

// Questions 9 to 11.
fn set_asked(sizes: Sizes, card: &[u8], l: Lengths, road: u32, time: Time) -> Verdict
    ensures { (t : Option Junction) → verdict_in result ≡ asks (base_on card.now) (header_in (held sizes t)) card.now
        (lengths_in l) (Set road time.0) 0 0 }
{
    network::ask(calls::fits(sizes, card, l), Refusal::Lengths)?;
    time_asked(sizes, card, road, time)
}

// Sets a road's live time, from its base time to 10,000,000, or closed.
pub fn set(
    sizes: Sizes,
    card: &[u8],
    l: Lengths,
    live: &mut [TimeWord],
    road: u32,
    time: Time,
) -> Result<Answer, Refusal>
    requires { l.live ≡ length live.old }
    ensures { (t : Option Junction) → SetPart card.now (held sizes t) (lengths_in l) (mut live) road time.0 result }
{
    set_asked(sizes, card, l, road, time)?;
    live[road as usize] = time.0;
    Ok(Answer::Accepted)
}
