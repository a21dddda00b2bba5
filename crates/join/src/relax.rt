// Prices made lower along the streets, until no street makes one lower.
ghost use Rattle.std.specs.Prelude.{◌≡◌, ℕ, ◌<◌, ◌≤◌, pos, slice_index_or};
ghost use Rattle.road.specs.Model.{marked};
ghost use Rattle.join.specs.Joins.{Joins, cost as costs};
ghost use Rattle.join.specs.Problems.{town_in, costs_in, start_in};
ghost use Rattle.join.specs.Prices.{extra_in, price_in, Lowered, Near, AllNear, all_prices};

use crate::drives::PricedDrives;
use crate::lead::{Lead, Visits};
use crate::prices::Prices;
use crate::sets::flip;
use road::Leg;
use std::array::from_fn;

impl Prices<'_, '_> {
    // The set for crossing u.
    pub(crate) fn extra_for(&self, u: usize) -> &[bool; 300]
        requires { u < 100 }
        ensures { marked result.now ≡ extra_in self.now u }
    {
        &self.extra[u].drives
    }

    // The price of crossing u.
    pub(crate) fn price_for(&self, u: usize) -> i64
        requires { u < 100 }
        ensures { result ≡ pos (price_in self.now u) }
    {
        self.extra[u].price
    }

    // The prices of the crossings.
    pub(crate) fn all(&self) -> [i64; 100]
        ensures { (u : ℕ) → u < 100 → slice_index_or result u (pos 0) ≡ pos (price_in self.now u) }
    {
        from_fn(|u| self.price_for(u))
    }

    // Takes a cheaper set for crossing u in the place of the dearer one.
    pub(crate) fn replace(&mut self, u: usize, drives: [bool; 300], price: i64)
        requires below { u < 100 }
        requires joins { Joins (town_in self.old.problem) (start_in self.old.problem) u (marked drives) }
        requires costs { price ≡ pos (costs (town_in self.old.problem) (costs_in self.old.problem) (marked drives)) }
        requires cheaper { costs (town_in self.old.problem) (costs_in self.old.problem) (marked drives) < price_in self.old u }
        ensures problem { self.new.problem ≡ self.old.problem }
        ensures lower { all_prices self.new < all_prices self.old }
    {
        self.extra[u] = PricedDrives { drives, price };
    }

    // Comes to the end of a leg from its beginning where that is cheaper, and says whether it is.
    pub(crate) fn relax_over(&mut self, leg: Leg) -> bool
        requires { leg.by < self.old.problem.streets.town.now.count }
        ensures { Lowered self.old self.new result (Near self.old leg.by leg.back) }
    {
        let streets = &self.problem.streets;
        let x = streets.town.begin_of(leg);
        let y = streets.town.end_of(leg);
        let cost = streets.cost_flipped(self.extra_for(x), leg.by, self.price_for(x));
        if cost < self.price_for(y) {
            self.replace(y, flip(self.extra_for(x), leg.by), cost);
            return true;
        }
        false
    }

    // Comes over each street both ways where that is cheaper, and says whether any is. The sweep of `ways` has its own steps, which may want memory.
    fn sweep(&mut self) -> bool
        ensures { Lowered self.old self.new result (AllNear self.new self.new.problem.streets.town.now.count) }
    {
        let mut lower = false;
        for k in 0..self.problem.streets.town.count {
            lower |= self.relax_over(Leg { by: k, back: false });
            lower |= self.relax_over(Leg { by: k, back: true });
        }
        lower
    }

    // Leads sets on until nothing is cheaper; a sweep comes last, since it shows it. `AllNear` is no invariant of the type: the next cheaper set ends it.
    pub(crate) fn relax(&mut self, visits: &mut Visits)
        ensures problem { self.new.problem ≡ self.old.problem }
        ensures near { AllNear self.new self.new.problem.streets.town.now.count }
        ensures lower { all_prices self.new ≤ all_prices self.old }
    {
        while self.lead_all(&mut visits.legs, Lead::Leg)
            || self.lead_all(&mut visits.walks, Lead::Walk)
            || self.sweep()
        {}
    }
}
