// Estimates over the prepared pairs (document 01: estimate): methods of what they read, on lent slices.
#![tactic(auto)]

ghost use Rattle.std.specs.Prelude.{◌≡◌};
ghost use Rattle.pairs_hierarchy.specs.Lending.{EstimateAsked, EstimateTold, KnownAsked, RankAsked, RankTold, WalkTold, lent, lent_of};
ghost use Rattle.pairs_hierarchy.specs.Walks.{standing};

use network::{Junction, Rank, Sizes, Time, TimeWord};
use pairs_records::{Records, answer_of, leads_up};

// What an estimate reads and leaves as it is: the map's sizes, order and ranks, the records of its pairs, the target's down totals.
#[derive(Clone, Copy)]
pub struct Hierarchy<'a> {
    pub sizes: Sizes,
    pub order: &'a [u8],
    pub ranks: &'a [u32],
    pub records: Records<'a>,
    pub down: &'a [TimeWord],
}

impl<'a> Hierarchy<'a> {
    // What stands in the estimates for rank r: none where the order has no junction of the n there.
    fn known(&self, estimates: &[TimeWord], r: Rank) -> Time
        requires { KnownAsked self.now.sizes.n r.0 self.now.order.now estimates.now }
        ensures { result.0 ≡ standing self.now.sizes.n self.now.order.now estimates.now r.0 }
    {
        let j = network::junction_of(self.order, r);
        if j.0 < self.sizes.n {
            Time(estimates[j.0 as usize])
        } else {
            Time::NONE
        }
    }

    // The estimate of the junction of rank r, filled with those that it asks for.
    #[cycle(estimate_rank_walk_pairs)]
    fn estimate_rank(&self, estimates: &mut [TimeWord], r: Rank) -> Time
        requires { RankAsked self.now.sizes.n self.now.sizes.pairs r.0 (lent_of self.now estimates) }
        ensures { RankTold self.now.sizes.n self.now.sizes.pairs r.0 result.0 (lent self.now estimates) }
    {
        let known = self.known(estimates, r);
        if !known.is_unasked() {
            return known;
        }
        let j = network::junction_of(self.order, r);
        let i = j.0 as usize;
        let own = Time(self.down[i]);
        let v = answer_of(self.walk_pairs(estimates, r, own));
        estimates[i] = v.0;
        v
    }

    // The least of own and, over the records that lead up from rank r, the up time plus the estimate of the higher rank. Most of these are
    // known, and taken without a call.
    #[cycle(estimate_rank_walk_pairs)]
    fn walk_pairs(&self, estimates: &mut [TimeWord], r: Rank, own: Time) -> Time
        requires { RankAsked self.now.sizes.n self.now.sizes.pairs r.0 (lent_of self.now estimates) }
        ensures { WalkTold self.now.sizes.n self.now.sizes.pairs r.0 own.0 result.0 (lent self.now estimates) }
    {
        // A copy: its words stay in registers over the loop, where they would be read anew through the reference.
        let h = *self;
        let mut best = own;
        let start = h.records.start_of(h.sizes.pairs, r);
        for k in start..h.sizes.pairs {
            let low = h.records.low(k);
            if r < low {
                return best;
            }
            let high = h.records.high(k);
            let up = h.records.up(k);
            if leads_up(h.sizes.n, r, low, high, up) {
                let known = h.known(estimates, high);
                let above = if known.is_unasked() {
                    self.estimate_rank(estimates, high)
                } else {
                    known
                };
                best = best.or_sum(up, above);
            }
        }
        best
    }

    // The estimate of a junction: the least base total to the target, or none. It and all reached from it through up times are filled.
    pub fn estimate(&self, estimates: &mut [TimeWord], j: Junction) -> Time
        requires { EstimateAsked self.now.sizes.n self.now.sizes.pairs j.0 self.now.ranks.now (lent_of self.now estimates) }
        ensures { EstimateTold self.now.sizes.pairs j.0 result.0 self.now.ranks.now (lent self.now estimates) }
    {
        let r = network::rank_of(self.ranks, j);
        if self.sizes.n <= r.0 {
            return Time::NONE;
        }
        self.estimate_rank(estimates, r)
    }
}
