// An aim: its questions, the down totals of the target, every estimate unasked.
#![tactic(auto)]

ghost use Rattle.std.specs.Prelude.{◌≡◌, Option, ℕ};
ghost use Rattle.graph.specs.Total.{Total};
ghost use Rattle.model.specs.Calls.{Aim};
ghost use Rattle.network.specs.Refusals.{verdict_in};
ghost use Rattle.network.specs.declared.Junction.{Junction};
ghost use Rattle.unit_questions.specs.Lending.{lengths_in, mut};
ghost use Rattle.calls.specs.Shape.{header_in, held};
ghost use Rattle.calls.specs.Meets.{asks};
ghost use Rattle.call_aim.specs.Part.{AimLengths, AimPart};

use network::{Junction, Refusal, Sizes, Time, TimeWord, Verdict};
use pairs_records::Records;
use unit_answers::Answer;
use unit_questions::Lengths;

// What an aim hands back: the target in force, and its answer.
#[derive(Clone, Copy, Debug, PartialEq, Eq)]
pub struct Aimed {
    pub target: Option<Junction>,
    pub answer: Result<Answer, Refusal>,
}

// Questions 9 and 12.
#[tactic(auto, unfolding(model::specs::Aim::aim_refusal))]
fn aim_asked(sizes: Sizes, card: &[u8], l: Lengths, j: Junction) -> Verdict
    ensures { (t : Option Junction) (base : ℕ → Total) → verdict_in result ≡ asks base (header_in (held sizes t)) card.now
        (lengths_in l) (Aim j.0) 0 0 }
{
    network::ask(calls::fits(sizes, card, l), Refusal::Lengths)?;
    network::ask(j.0 < sizes.n, Refusal::NoJunction)
}

// Aims at a junction: it becomes the target, with its down totals; each estimate becomes unasked.
pub fn aim(
    sizes: Sizes,
    target: Option<Junction>,
    card: &[u8],
    l: Lengths,
    records: Records,
    down: &mut [TimeWord],
    estimates: &mut [TimeWord],
    j: Junction,
) -> Aimed
    requires { AimLengths (lengths_in l) records.pairs.now records.times.now down.old }
    ensures { AimPart card.now (held sizes target) (lengths_in l) records (mut down) (mut estimates) j.0 result }
{
    match aim_asked(sizes, card, l, j) {
        Err(q) => Aimed {
            target,
            answer: Err(q),
        },
        Ok(()) => {
            let order = card_layout::order_of(card);
            pairs_descents::down_totals(sizes.n, sizes.pairs, order, records, down, j);
            estimates.fill(Time::UNASKED.0);
            Aimed {
                target: Some(j),
                answer: Ok(Answer::Accepted),
            }
        }
    }
}
