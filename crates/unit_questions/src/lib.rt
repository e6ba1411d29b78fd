// Questions 7, 9, 11, 14 and 18 on numbers, and 9 of a preview's work area.
#![tactic(auto)]

ghost use Rattle.std.specs.Prelude.{◌≡◌, ◌&&◌, eqb, leb, ltb};
ghost use Rattle.std.proofs.Math.Option.{some};
ghost use Rattle.model.specs.Word.{of_word};
ghost use Rattle.model.specs.Limits.{classes, most_junctions, most_roads};
ghost use Rattle.model.specs.Layout.{named};
ghost use Rattle.model.specs.Areas.{lengths, lengths_fit, room_fits};
ghost use Rattle.model.specs.State.{question9};
ghost use Rattle.model.specs.Set.{settable};
ghost use Rattle.model.specs.Preview.{work_size};
ghost use Rattle.network.specs.Lending.{areas};
ghost use Rattle.unit_questions.specs.Lending.{areas_with, lengths_in};

use network::{Sizes, Time, TimeWord};

// The lengths of the unit's areas.
#[derive(Clone, Copy, Debug, PartialEq, Eq)]
pub struct Lengths {
    pub ranks: usize,
    pub pairs: usize,
    pub times: usize,
    pub live: usize,
    pub down: usize,
    pub estimates: usize,
    pub elapsed: usize,
    pub leaving: usize,
    pub groups: usize,
}

// The card, and the areas that preparing makes and no call alters.
// (Five areas side by side, as C lends them.)
#[derive(Clone, Copy)]
pub struct Prepared<'a> {
    pub card: &'a [u8],
    pub ranks: &'a [u32],
    pub pairs: &'a [u32],
    pub times: &'a [TimeWord],
    pub leaving: &'a [u32],
    pub groups: &'a [u32],
}

impl<'a> Prepared<'a> {
    // The lengths of the areas that are lent: of these, and of the four beside them.
    pub fn lengths(
        self,
        live: &[TimeWord],
        down: &[TimeWord],
        estimates: &[TimeWord],
        elapsed: &[TimeWord],
    ) -> Lengths
        ensures { lengths_in result ≡ lengths (areas_with self live down estimates elapsed).entry }
    {
        lengths_of(
            self.ranks,
            self.pairs,
            self.times,
            live,
            down,
            estimates,
            elapsed,
            self.leaving,
            self.groups,
        )
    }
}

// The lengths of the areas that are lent, one by one, as C lends them to preparing.
pub fn lengths_of(
    ranks: &[u32],
    pairs: &[u32],
    times: &[TimeWord],
    live: &[TimeWord],
    down: &[TimeWord],
    estimates: &[TimeWord],
    elapsed: &[TimeWord],
    leaving: &[u32],
    groups: &[u32],
) -> Lengths
    ensures { lengths_in result ≡ lengths (areas ranks pairs times live down estimates elapsed leaving groups).entry }
{
    Lengths {
        ranks: ranks.len(),
        pairs: pairs.len(),
        times: times.len(),
        live: live.len(),
        down: down.len(),
        estimates: estimates.len(),
        elapsed: elapsed.len(),
        leaving: leaving.len(),
        groups: groups.len(),
    }
}

// Words of records, of ranks and of times as many, with room for so many pairs.
fn room_fits(count: u32, pairs: usize, times: usize) -> bool
    ensures { result ≡ room_fits count pairs times }
{
    (times == pairs)
        & (pairs % network::RECORD == 0)
        & (network::RECORD * (count as usize) <= pairs)
        & (pairs <= network::MOST_PAIR_WORDS)
}

// Question 7, and of 9 what it says of the areas.
pub fn lengths_fit(s: Sizes, l: Lengths) -> bool
    ensures { result ≡ lengths_fit s.n s.m s.pairs (lengths_in l) }
{
    let n = s.n as usize;
    let m = s.m as usize;
    (l.ranks == n)
        & room_fits(s.pairs, l.pairs, l.times)
        & (l.live == m)
        & (l.down == n)
        & (l.estimates == n)
        & (l.elapsed == n)
        & (l.leaving == m)
        & (l.groups == n + 1)
}

// Question 9, of the header's numbers and the lengths; `card` is the card's.
pub fn sized(s: Sizes, card: usize, l: Lengths) -> bool
    ensures { result ≡ question9 s.n s.m s.pairs s.card card (lengths_in l) }
{
    (card == s.card as usize) & lengths_fit(s, l)
}

// A header out of range is refused by 9 too, and a card whose table names other bodies: no list of calls leaves one. (The hint: where LLVM
// puts this into `calls::fits`, it leaves that a function, which is lent the lengths in memory, and a set takes 1.4 to 1.5 times as long.)
#[inline(never)]
pub fn usable(s: Sizes, card: &[u8]) -> bool
    ensures { result ≡ (leb s.n most_junctions && leb s.m most_roads && named card.now s.n s.m) }
{
    (s.n <= network::MOST_JUNCTIONS)
        & (s.m <= network::MOST_ROADS)
        & card_layout::named(card, s.n, s.m)
}

// Question 18.
pub fn class_fits(class: u32) -> bool
    ensures { result ≡ ltb class classes }
{
    class < network::CLASSES
}

// Question 9, of a preview's work area.
pub fn work_fits(n: u32, work: usize) -> bool
    ensures { result ≡ eqb work (work_size n) }
{
    work == 2 * (n as usize)
}

// Question 11.
pub fn allowed(base: Time, t: Time) -> bool
    ensures { result ≡ settable (some base.0) (of_word t.0) }
{
    if t.is_closed() {
        return true;
    }
    (base.0 <= t.0) & (t.0 <= network::MOST_TIME)
}

// Question 14.
pub fn lent_fit(n: u32, route: usize, log: usize) -> bool
    ensures { result ≡ (leb n route && leb n log) }
{
    let n = n as usize;
    (n <= route) & (n <= log)
}
