// Preparing, as it is done at switch-on: questions 1 to 8, and the header.
#![tactic(auto)]

ghost use Rattle.std.specs.Prelude.{◌≡◌};
ghost use Rattle.model.specs.Areas as model;
ghost use Rattle.unit_questions.specs.Lending.{lengths_in};
ghost use Rattle.unit_preparing.specs.Preparing.{Prepares, areas_lent, handed_in};
ghost use Rattle.unit.specs.Shape.{answered_in};
ghost use Rattle.unit_switch_on.specs.Asking.{Says};

use network::{Refusal, Sizes, TimeWord};
use unit::{Answered, Header};
use unit_answers::Answer;
use unit_preparing::Areas;
use unit_questions::Lengths;

// The numbers that a refused preparing hands back.
const ZEROS: Sizes = Sizes {
    n: 0,
    m: 0,
    pairs: 0,
    card: 0,
};

// Questions 1 to 7, of the card and of the lengths of the areas: the numbers of junctions and roads and the card's length, with no pair
// yet.
fn ask(card: &[u8], l: Lengths) -> Result<Sizes, Refusal>
    ensures { (a : model.Areas) → lengths_in l ≡ model.lengths a → Says card.now a result }
{
    let (n, m) = card::read(card)?;
    let s = Sizes {
        n,
        m,
        pairs: 0,
        card: card.len() as u32,
    };
    network::ask(unit_questions::lengths_fit(s, l), Refusal::AreaLengths)?;
    Ok(s)
}

// The numbers and no target, or, of a refused preparing, a header of zeros and no target.
fn handed(made: Result<Sizes, Refusal>) -> Answered
    ensures { answered_in result ≡ handed_in made }
{
    Answered {
        header: Header {
            sizes: made.unwrap_or(ZEROS),
            target: None,
        },
        answer: made.map(|_| Answer::Accepted),
    }
}

// Prepares a card: questions 1 to 8; ranks, pairs, live times, and no target. Nine slices, as C lends them. They are asked before the
// struct is built: held across a refusal, it is let go, and what stands behind it is not known (proof tried and not closed).
pub fn prepare(
    card: &[u8],
    ranks: &mut [u32],
    pairs: &mut [u32],
    times: &mut [TimeWord],
    live: &mut [TimeWord],
    down: &mut [TimeWord],
    estimates: &mut [TimeWord],
    elapsed: &mut [TimeWord],
    leaving: &mut [u32],
    groups: &mut [u32],
) -> Answered
    ensures { Prepares card.now (areas_lent ranks pairs times live down estimates elapsed leaving groups) (answered_in result) }
{
    let l = unit_questions::lengths_of(
        ranks, pairs, times, live, down, estimates, elapsed, leaving, groups,
    );
    match ask(card, l) {
        Err(q) => handed(Err(q)),
        Ok(s) => {
            let areas = Areas {
                ranks,
                pairs,
                times,
                live,
                down,
                estimates,
                elapsed,
                leaving,
                groups,
            };
            handed(unit_preparing::prepare_areas(s, card, areas))
        }
    }
}
