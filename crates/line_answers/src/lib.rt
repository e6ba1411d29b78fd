// An answer as text.
#![tactic(auto)]

ghost use Rattle.std.specs.Prelude.{◌++◌, take};
ghost use Rattle.unit_answers.specs.Shape.{answer_in};
ghost use Rattle.network.specs.Refusals.{refusal_in};
ghost use Rattle.line_texts.specs.Ascii.{ascii};
ghost use Rattle.line_texts.specs.Outs.{Added};
ghost use Rattle.line_answers.specs.Texts.{refusal_text, time_text, trip_text, worded};

use line_texts::Out;
use network::{Refusal, Time, TimeWord};
use unit_answers::Answer;

// Puts `est` and a time, or `est none`.
fn put_estimate(t: Time, out: &mut Out)
    ensures { Added (ascii "est" ++ time_text t.0) out.old out.new }
{
    if t.is_none() {
        out.text(b"est none");
    } else {
        out.named(b"est", t.0);
    }
}

// Puts `no` and a refusal's number, with the place after 5 and 6.
fn put_refusal(q: Refusal, out: &mut Out)
    ensures { Added (refusal_text (refusal_in q)) out.old out.new }
{
    out.named(b"no", u64::from(q.question()));
    if let Refusal::Road(i) | Refusal::Place(i) = q {
        out.spaced(u64::from(i));
    }
}

// Puts `go` with total, count and the first k roads of the route; all of them where it has fewer.
fn put_trip(total: TimeWord, count: u32, k: u32, route: &[u32], out: &mut Out)
    ensures { Added (trip_text total count (take k route.now)) out.old out.new }
{
    out.named(b"go", total);
    out.spaced(u64::from(count));
    out.words(&route[..(k as usize).min(route.len())]);
}

// Puts an answer without the end of its line. No line asks for a preview.
pub fn put_answer(answer: Result<Answer, Refusal>, route: &[u32], out: &mut Out)
    ensures { Added (worded (answer_in answer) route.now) out.old out.new }
{
    match answer {
        Ok(Answer::Accepted | Answer::Previewed(_, _, _)) => out.text(b"ok"),
        Ok(Answer::Estimated(t)) => put_estimate(t, out),
        Ok(Answer::Gone(total, count, roads)) => put_trip(total, count, roads, route, out),
        Err(q) => put_refusal(q, out),
    }
}
