// An estimate: its questions, and the value with those that it fills.
#![tactic(auto)]

ghost use Rattle.std.specs.Prelude.{◌≡◌, ℕ};
ghost use Rattle.graph.specs.Total.{Total};
ghost use Rattle.model.specs.Calls.{Estimate};
ghost use Rattle.network.specs.Refusals.{verdict_in};
ghost use Rattle.unit_questions.specs.Lending.{lengths_in, mut};
ghost use Rattle.calls.specs.Shape.{header_in, held};
ghost use Rattle.calls.specs.Meets.{asks};
ghost use Rattle.call_estimate.specs.Part.{EstimateLengths, EstimatePart};

use network::{Junction, Refusal, Sizes, TimeWord, Verdict};
use pairs_hierarchy::Hierarchy;
use pairs_records::Records;
use unit_answers::Answer;
use unit_questions::Lengths;

// Questions 9, 12 and 13.
#[tactic(auto, unfolding(model::specs::Estimate::estimate_refusal))]
fn estimate_asked(
    sizes: Sizes,
    target: Option<Junction>,
    card: &[u8],
    l: Lengths,
    j: Junction,
) -> Verdict
    ensures { (base : ℕ → Total) → verdict_in result ≡ asks base (header_in (held sizes target)) card.now (lengths_in l)
        (Estimate j.0) 0 0 }
{
    network::ask(calls::fits(sizes, card, l), Refusal::Lengths)?;
    calls::start_asked(sizes, target, j)
}

// The estimate of a junction: the least base total to the target, or none.
pub fn estimate(
    sizes: Sizes,
    target: Option<Junction>,
    card: &[u8],
    l: Lengths,
    ranks: &[u32],
    records: Records,
    down: &[TimeWord],
    estimates: &mut [TimeWord],
    j: Junction,
) -> Result<Answer, Refusal>
    requires { EstimateLengths (lengths_in l) ranks.now records.pairs.now records.times.now down.now estimates.old }
    ensures { EstimatePart card.now (held sizes target) (lengths_in l) ranks records down (mut estimates) j.0 result }
{
    estimate_asked(sizes, target, card, l, j)?;
    let hierarchy = Hierarchy {
        sizes,
        order: card_layout::order_of(card),
        ranks,
        records,
        down,
    };
    Ok(Answer::Estimated(hierarchy.estimate(estimates, j)))
}
