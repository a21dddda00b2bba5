// Passes until one shows that all prices are least.
ghost use Rattle.std.specs.Prelude.{◌≡◌, ◌<◌, ◌≤◌, IfOk, OnOk};
ghost use Rattle.road.specs.Model.{marked};
ghost use Rattle.join.specs.Problems.{town_in, costs_in, start_in, reached_in};
ghost use Rattle.join.specs.Prices.{price_in, all_prices};
ghost use Rattle.join.specs.Potentials.{Cheaper};
ghost use Rattle.join.specs.Passes.{ShowsLeast};

use crate::component::Component;
use crate::lead::Visits;
use crate::prices::Prices;
use crate::tally::Tally;
use crate::turn::{Found, Stage};
use std::alloc::{AllocError, Global};

impl Prices<'_, '_> {
    // Takes a set that costs less than its price in the place of the dearer one.
    fn improve(&mut self, found: Found)
        requires { Cheaper (town_in self.old.problem) (start_in self.old.problem) (reached_in self.old.problem) (costs_in self.old.problem) (price_in self.old) found.crossing (marked found.drives) }
        ensures problem { self.new.problem ≡ self.old.problem }
        ensures lower { all_prices self.new < all_prices self.old }
    {
        let price = self.problem.streets.cost(&found.drives);
        self.replace(found.crossing, found.drives, price);
    }

    // Takes passes until one shows that all prices are least, and answers its stages.
    pub(crate) fn minimize(
        &mut self,
        component: &mut Component,
        tally: &mut Tally,
        heap: Global,
    ) -> Result<Vec<Stage>, AllocError>
        ensures problem { OnOk result (self.new.problem ≡ self.old.problem) }
        ensures shown { IfOk result (λ stages. ShowsLeast self.new stages.items) }
    {
        let mut visits = Visits {
            legs: [-1; 100],
            walks: [-1; 100],
        };
        loop {
            self.relax(&mut visits);
            match self.pass(component, tally, heap)? {
                Ok(stages) => return Ok(stages),
                Err(found) => self.improve(found),
            }
        }
    }
}
