// What the calls share: the target, question 9, questions 12 and 13 of a start. Sizes and target stand side by side here and in the calls'
// crates: together they are the header, whose methods the calls are, and so it is declared above them, in `unit`.
#![tactic(auto)]

ghost use Rattle.std.specs.Prelude.{◌≡◌, None};
ghost use Rattle.model.specs.Machine.{is_at, target_of};
ghost use Rattle.network.specs.Refusals.{verdict_in};
ghost use Rattle.unit_questions.specs.Lending.{fits_by, lengths_in};
ghost use Rattle.calls.specs.Shape.{header_in, held, target_in};
ghost use Rattle.calls.specs.Meets.{start_asked, target_asked};

use network::{Junction, Refusal, Sizes, Verdict};
use unit_questions::Lengths;

// Question 9; a header out of range is refused too, and a card whose table names other bodies: no list of calls leaves one. (The hint:
// put into each call, it finds the lengths in the argument list; as a function it is lent them in memory.)
#[inline(always)]
pub fn fits(sizes: Sizes, card: &[u8], l: Lengths) -> bool
    ensures { result ≡ fits_by (header_in (held sizes None)) card.now (lengths_in l) }
{
    unit_questions::usable(sizes, card) & unit_questions::sized(sizes, card.len(), l)
}

// Question 13.
pub fn is_aimed(target: Option<Junction>) -> bool
    ensures { result ≡ is_at (target_in target) }
{
    target.is_some()
}

// The target; junction 0 where there is none. (It may not fail: whoever asks has asked question 13.)
pub fn aimed_at(target: Option<Junction>) -> Junction
    ensures { result.0 ≡ target_of (target_in target) }
{
    target.unwrap_or(Junction(0))
}

// Questions 12 and 13 of a start.
pub fn start_asked(sizes: Sizes, target: Option<Junction>, start: Junction) -> Verdict
    ensures { verdict_in result ≡ start_asked (header_in (held sizes target)) start.0 }
{
    network::ask(start.0 < sizes.n, Refusal::NoJunction)?;
    network::ask(is_aimed(target), Refusal::NoTarget)
}

// Question 9 of the target: no list of calls leaves one out of range.
pub fn target_asked(sizes: Sizes, target: Option<Junction>) -> Verdict
    ensures { verdict_in result ≡ target_asked (header_in (held sizes target)) }
{
    network::ask(aimed_at(target).0 < sizes.n, Refusal::Lengths)
}
