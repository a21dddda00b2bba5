// What can be come to over the streets of a set.
ghost use Rattle.std.specs.Prelude.{◌≡◌, ◌<◌, true, false};
ghost use Rattle.road.specs.Counts.{cut as cuts};
ghost use Rattle.road.specs.Model.{model, marked};
ghost use Rattle.road.specs.Growth.{Tried};
ghost use Rattle.join.specs.Components.{path_in, Grown, Closed};

use crate::component::Component;
use crate::cut::Cut;
use crate::sets::{flip, only};
use crate::subgraph::Subgraph;

// It grows as what can be come to from the depot does in `road`, but over a set of streets and with a way to each crossing; there marks are enough, and nothing is allocated.
// `Grown` is no invariant of the type: the room is kept from one set of streets to the next.
impl Component {
    // The way to crossing v.
    pub(crate) fn path_to(&self, v: usize) -> &[bool; 300]
        requires { v < 100 }
        ensures { marked result.now ≡ path_in self.now v }
    {
        &self.path[v]
    }

    // Comes over street k to a new crossing if it is in the set, and says whether it does.
    pub(crate) fn grow_over(&mut self, graph: &Subgraph, k: usize) -> bool
        requires below { k < graph.now.town.now.count }
        requires grown { Grown (model graph.now.town.now) (marked graph.now.set.now) self.old }
        ensures grown { Grown (model graph.now.town.now) (marked graph.now.set.now) self.new }
        ensures from { self.new.from ≡ self.old.from }
        ensures tried { Tried self.old.marks self.new.marks result (marked graph.now.set.now k ≡ true → cuts (model graph.now.town.now) (marked self.old.marks) k ≡ false) }
    {
        let cut = Cut {
            town: graph.town,
            marks: &self.marks,
        };
        if !graph.set[k] || !cut.has(k) {
            return false;
        }
        let x = cut.inner_end(k);
        let y = cut.outer_end(k);
        self.path[y] = flip(self.path_to(x), k);
        self.marks[y] = true;
        true
    }

    // Comes over each street of the set once, and says whether it came to a new crossing.
    fn grow(&mut self, graph: &Subgraph) -> bool
        requires { Grown (model graph.now.town.now) (marked graph.now.set.now) self.old }
        ensures grown { Grown (model graph.now.town.now) (marked graph.now.set.now) self.new }
        ensures from { self.new.from ≡ self.old.from }
        ensures tried { Tried self.old.marks self.new.marks result (Closed (model graph.now.town.now) (marked graph.now.set.now) self.new.marks graph.now.town.now.count) }
    {
        let mut more = false;
        for k in 0..graph.town.count {
            more |= self.grow_over(graph, k);
        }
        more
    }

    // Comes to all that can be come to from a crossing over streets of the set.
    pub(crate) fn search(&mut self, graph: &Subgraph, from: usize)
        requires { from < 100 }
        ensures grown { Grown (model graph.now.town.now) (marked graph.now.set.now) self.new }
        ensures from { self.new.from ≡ from }
        ensures closed { Closed (model graph.now.town.now) (marked graph.now.set.now) self.new.marks graph.now.town.now.count }
    {
        self.from = from;
        self.marks = only(from);
        self.path[from] = [false; 300];
        while self.grow(graph) {}
    }
}
