// Alternating walks: a set led on over one street, and then over streets of its own as long as there are any.
ghost use Rattle.std.specs.Prelude.{ℕ, true, false, ◌≡◌, ◌<◌, ⊤, MatchOption};
ghost use Rattle.road.specs.Roads.{from, into};
ghost use Rattle.road.specs.Counts.{cut};
ghost use Rattle.road.specs.Model.{marked};
ghost use Rattle.join.specs.Amounts.{amount};
ghost use Rattle.join.specs.Joins.{single};
ghost use Rattle.join.specs.Problems.{town_in};
ghost use Rattle.join.specs.Prices.{extra_in, price_in, Led, Lowered};

use crate::drives::PricedDrives;
use crate::prices::Prices;
use crate::problem::Problem;
use crate::sets::toggle;
use road::Leg;

impl Problem<'_, '_> {
    // A leg from crossing v to another over a street of a set, but not over street k.
    fn own_leg(&self, drives: &[bool; 300], v: usize, k: usize) -> Option<Leg>
        requires { v < self.now.streets.town.now.crossings }
        ensures { MatchOption result ((j : ℕ) → cut (town_in self.now) (single v) j ≡ true → (j ≡ k → ⊥) → marked drives.now j ≡ false)
            (λ leg. (leg.by < self.now.streets.town.now.count) × (from (town_in self.now) leg ≡ v) × (leg.by ≡ k → ⊥) × (marked drives.now leg.by ≡ true)) }
    {
        for leg in self.stars[v].as_slice() {
            if leg.by != k && drives[leg.by] {
                return Some(*leg);
            }
        }
        None
    }

    // Leads a set on over a leg.
    fn lead_over(&self, drives: &mut PricedDrives, leg: Leg)
        requires below { leg.by < self.now.streets.town.now.count }
        requires led { Led self.now (from (town_in self.now) leg) drives.old }
        ensures { Led self.now (into (town_in self.now) leg) drives.new }
    {
        drives.price = self
            .streets
            .cost_flipped(&drives.drives, leg.by, drives.price);
        toggle(&mut drives.drives, leg.by);
    }
}

impl Prices<'_, '_> {
    // The set for crossing u, with its price.
    fn copy_for(&self, u: usize) -> PricedDrives
        requires { u < 100 }
        ensures drives { marked result.drives ≡ extra_in self.now u }
        ensures price { amount result.price ≡ price_in self.now u }
    {
        PricedDrives {
            drives: *self.extra_for(u),
            price: self.price_for(u),
        }
    }

    // Takes a set for crossing u where it is cheaper, and says whether it is.
    fn take(&mut self, u: usize, led: &PricedDrives) -> bool
        requires below { u < 100 }
        requires led { Led self.old.problem u led.now }
        ensures { Lowered self.old self.new result ⊤ }
    {
        if led.price < self.price_for(u) {
            self.replace(u, led.drives, led.price);
            return true;
        }
        false
    }

    // Walks over a leg, and on over streets of the set that is led along, and takes each set that is cheaper; says whether any is.
    pub(crate) fn walk(&mut self, first: Leg) -> bool
        requires { first.by < self.old.problem.streets.town.now.count }
        ensures { Lowered self.old self.new result ⊤ }
    {
        let problem = self.problem;
        let mut led = self.copy_for(problem.streets.town.begin_of(first));
        let mut leg = first;
        let mut lower = false;
        // Each step but the first takes a street out of the set.
        for _ in 0..=300 {
            problem.lead_over(&mut led, leg);
            let v = problem.streets.town.end_of(leg);
            lower |= self.take(v, &led);
            match problem.own_leg(&led.drives, v, leg.by) {
                Some(next) => leg = next,
                None => break,
            }
        }
        lower
    }
}
