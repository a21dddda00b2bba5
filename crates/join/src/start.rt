// A first set of extra drives: the ways of a spanning tree to the odd crossings.
ghost use Rattle.std.specs.Prelude.{◌≡◌};
ghost use Rattle.road.specs.Model.{marked};
ghost use Rattle.join.specs.Joins.{Joins};
ghost use Rattle.join.specs.Problems.{town_in, start_in};
ghost use Rattle.join.specs.First.{Rooted};

use crate::component::Component;
use crate::problem::Problem;
use crate::sets::xor;
use crate::subgraph::Subgraph;

impl Problem<'_, '_> {
    // Extra drives with which the required streets make every crossing even.
    pub(crate) fn tree_drives(&self, tree: &Component) -> [bool; 300]
        requires { Rooted self.now tree.now }
        ensures { Joins (town_in self.now) (start_in self.now) self.now.streets.town.now.depot (marked result) }
    {
        let town = self.streets.town;
        let required = Subgraph {
            town,
            set: self.required,
        };
        let odd = required.odd();
        let mut drives = [false; 300];
        for v in 0..town.crossings {
            if odd[v] {
                drives = xor(&drives, tree.path_to(v));
            }
        }
        drives
    }
}
