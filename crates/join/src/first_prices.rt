// The first sets of extra drives and their prices: the depot's set, and on along the tree to each crossing.
ghost use Rattle.std.specs.Prelude.{◌≡◌, ◌<◌, true, pos, IfOk};
ghost use Rattle.road.specs.Model.{marked};
ghost use Rattle.join.specs.Joins.{Joins, cost};
ghost use Rattle.join.specs.Problems.{town_in, costs_in, start_in, reached_in};
ghost use Rattle.join.specs.First.{Rooted, Begun};

use crate::component::Component;
use crate::drives::PricedDrives;
use crate::prices::Prices;
use crate::problem::Problem;
use crate::sets::xor;
use std::alloc::{AllocError, Global};

// A problem with a tree from the depot to each crossing that can be come to, and a set that leads to the depot.
#[derive(Clone, Copy)]
pub(crate) struct Start<'a, 't, 'c> {
    pub problem: &'a Problem<'t, 'c>,
    pub tree: &'a Component,
    pub home: &'a [bool; 300],
    ghost rooted: { Rooted problem.now tree.now },
    ghost joins: { Joins (town_in problem.now) (start_in problem.now) problem.now.streets.town.now.depot (marked home.now) },
}

impl Problem<'_, '_> {
    // A set, with what it costs.
    fn priced(&self, drives: [bool; 300]) -> PricedDrives
        ensures drives { result.drives ≡ drives }
        ensures price { result.price ≡ pos (cost (town_in self.now) (costs_in self.now) (marked drives)) }
    {
        let price = self.streets.cost(&drives);
        PricedDrives { drives, price }
    }
}

impl<'t, 'c> Start<'_, 't, 'c> {
    // The depot's set, and on along the tree to crossing u.
    fn set_for(&self, u: usize) -> [bool; 300]
        requires { u < 100 }
        ensures { reached_in self.now.problem.now u ≡ true → Joins (town_in self.now.problem.now) (start_in self.now.problem.now) u (marked result) }
    {
        xor(self.home, self.tree.path_to(u))
    }

    // Sets for the crossings.
    fn first_sets(&self, heap: Global) -> Result<Vec<PricedDrives>, AllocError>
        ensures { IfOk result (λ extra. Begun self.now.problem.now extra.items 100) }
    {
        (0..100)
            .map(|u| self.problem.priced(self.set_for(u)))
            .collect(heap)
    }

    // A set for each crossing that can be come to, with its price.
    pub(crate) fn first_prices(&self, heap: Global) -> Result<Prices<'t, 'c>, AllocError>
        ensures { IfOk result (λ q. q.problem ≡ self.now.problem.now) }
    {
        let extra = self.first_sets(heap)?;
        Ok(Prices {
            problem: *self.problem,
            extra,
        })
    }
}
