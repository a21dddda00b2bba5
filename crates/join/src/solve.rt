// A problem solved: from the sets of a tree to least prices.
ghost use Rattle.std.specs.Prelude.{◌≡◌, ◌<◌, IfOk};
ghost use Rattle.join.specs.First.{Rooted};
ghost use Rattle.join.specs.Passes.{ShowsLeast};

use crate::component::Component;
use crate::first_prices::Start;
use crate::prices::Prices;
use crate::problem::Problem;
use crate::tally::Tally;
use crate::turn::Stage;
use std::alloc::{AllocError, Global};

// Least prices, the stages that show that they are least, and how long it took.
#[derive(Drop)]
pub(crate) struct Solved<'t, 'c> {
    pub prices: Prices<'t, 'c>,
    pub stages: Vec<Stage>,
    pub tally: Tally,
}

impl<'t, 'c> Problem<'t, 'c> {
    // Finds least prices, from a tree to all that can be come to from the depot. The room of the tree serves the searches that come after it.
    pub(crate) fn solve(&self, tree: Component, heap: Global) -> Result<Solved<'t, 'c>, AllocError>
        requires { Rooted self.now tree }
        ensures problem { IfOk result (λ s. s.prices.problem ≡ self.now) }
        ensures shown { IfOk result (λ s. ShowsLeast s.prices s.stages.items) }
    {
        let start = Start {
            problem: self,
            tree: &tree,
            home: &self.tree_drives(&tree),
        };
        let mut prices = start.first_prices(heap)?;
        let mut component = tree;
        let mut tally = Tally {
            passes: 0,
            stages: 0,
        };
        let stages = prices.minimize(&mut component, &mut tally, heap)?;
        Ok(Solved {
            prices,
            stages,
            tally,
        })
    }
}
