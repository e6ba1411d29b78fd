// What is asked and answered: the calls that the program's lines name, and the answers of all calls, without the areas.
#![tactic(auto)]

ghost use Rattle.std.specs.Prelude.{◌≡◌, ◌<◌, ◌-ℤ◌, pos};
ghost use Rattle.model.specs.Word.{word};
ghost use Rattle.model.specs.Preview.{change_of, preview_answer};
ghost use Rattle.unit_answers.specs.Shape.{answer_in, change_in, total_in};
ghost use Rattle.unit_answers.specs.Signed.{Fits, held, most};

use network::{Junction, Time, TimeWord};

// One of document 01's four calls with its arguments; a go has a class and a start (document 02, A6).
#[derive(Clone, Copy, Debug, PartialEq, Eq)]
pub enum Call {
    Set(u32, Time),
    Aim(Junction),
    Estimate(Junction),
    Go(u32, Junction),
}

// What a call answers that no question refuses. `Gone` has total, count and number of roads; `Previewed` present total, new total and
// change. (An estimate is a Time: with its marks, which are words of C's areas, it is handed on as it is kept.)
#[derive(Clone, Copy, Debug, PartialEq, Eq)]
pub enum Answer {
    Accepted,
    Estimated(Time),
    Gone(TimeWord, u32, u32),
    Previewed(Option<TimeWord>, Option<TimeWord>, Option<i64>),
}

// A total as a word: the mark none where there is no total.
pub fn total_word(total: Option<TimeWord>) -> TimeWord
    ensures { result ≡ word (total_in total) }
{
    total.unwrap_or(Time::NONE.0)
}

// ---- a preview's answer (document 02, A2)

// 2^63: signed numbers of 64 bits end below it.
const SIGNED_END: TimeWord = 9223372036854775808;

// New total minus present total.
pub fn difference(present: TimeWord, new: TimeWord) -> i64
    requires { (present < most) × (new < most) }
    ensures { result ≡ pos new -ℤ pos present }
{
    (new as i64) - (present as i64)
}

// The total that a search answers. One that a signed number does not hold counts as none: no areas give one, but the search does not
// promise it.
fn holds(total: Option<TimeWord>) -> Option<TimeWord>
    ensures { (total_in result ≡ held (total_in total)) × Fits (total_in result) }
{
    total.filter(|t| *t < SIGNED_END)
}

// The change, where both totals exist.
fn change_of(present: Option<TimeWord>, new: Option<TimeWord>) -> Option<i64>
    requires { Fits (total_in present) × Fits (total_in new) }
    ensures { change_in result ≡ change_of (total_in present) (total_in new) }
{
    Some(difference(present?, new?))
}

// The answer of a preview whose searches answered these totals.
pub fn previewed(present: Option<TimeWord>, new: Option<TimeWord>) -> Answer
    ensures { answer_in (Ok result) ≡ preview_answer (held (total_in present)) (held (total_in new)) }
{
    let a = holds(present);
    let b = holds(new);
    Answer::Previewed(a, b, change_of(a, b))
}
