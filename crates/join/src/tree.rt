// A spanning tree: all that can be come to from a crossing, over short streets before longer ones.
ghost use Rattle.std.specs.Prelude.{◌≡◌, ℕ, ◌<◌, ◌≤◌, true, false, IfOk, MatchOption};
ghost use Rattle.road.specs.Roads.{Town as AnyTown};
ghost use Rattle.road.specs.Counts.{Set, cut as cuts};
ghost use Rattle.join.specs.Weights.{town_of};
ghost use Rattle.road.specs.Growth.{Tried, unmarked};
ghost use Rattle.join.specs.Components.{any_street, crossings_in, Grown, ClosedWithin, Spans};

use crate::component::Component;
use crate::cut::Cut;
use crate::sets::{no_ways, only};
use crate::subgraph::Subgraph;
use crate::weighted::Weighted;
use std::alloc::{AllocError, Global};

impl Component {
    // A crossing alone.
    pub(crate) fn alone(from: usize, heap: Global) -> Result<Component, AllocError>
        requires { from < 100 }
        ensures { IfOk result (λ c. (c.from ≡ from) × ((t : AnyTown) (A : Set) → Grown t A c)) }
    {
        Ok(Component {
            from,
            marks: only(from),
            path: no_ways(heap)?,
        })
    }

    // The length of street k, if it leads on.
    fn length_on(&self, streets: &Weighted, k: usize) -> Option<i64>
        requires { k < 300 }
        ensures { MatchOption result (cuts (town_of streets.now) (crossings_in self.now) k ≡ false) (λ _. cuts (town_of streets.now) (crossings_in self.now) k ≡ true) }
    {
        let cut = Cut {
            town: streets.town,
            marks: &self.marks,
        };
        cut.has(k).then(|| streets.length(k))
    }

    // A shortest street that leads on.
    fn shortest_on(&self, streets: &Weighted) -> Option<usize>
        ensures { MatchOption result ((k : ℕ) → k < streets.now.town.now.count → cuts (town_of streets.now) (crossings_in self.now) k ≡ false)
            (λ k. (k < streets.now.town.now.count) × (cuts (town_of streets.now) (crossings_in self.now) k ≡ true)) }
    {
        // From the last on: of streets that are equally short the last is taken.
        (0..streets.town.count)
            .rev()
            .filter_map(|k| self.length_on(streets, k).map(|length| (k, length)))
            .min_by_key(|&(_, length)| length)
            .map(|(k, _)| k)
    }

    // Comes over each street that leads on and is no longer than a bound, and says whether there was one.
    fn grow_within(&mut self, streets: &Weighted, bound: i64) -> bool
        requires { Grown (town_of streets.now) any_street self.old }
        ensures grown { Grown (town_of streets.now) any_street self.new }
        ensures from { self.new.from ≡ self.old.from }
        ensures tried { Tried self.old.marks self.new.marks result (ClosedWithin streets.now bound self.new.marks streets.now.town.now.count) }
    {
        let graph = Subgraph {
            town: streets.town,
            set: &[true; 300],
        };
        let mut more = false;
        for k in 0..streets.town.count {
            if streets.length(k) <= bound {
                more |= self.grow_over(&graph, k);
            }
        }
        more
    }

    // Comes to all that can be come to over streets no longer than a bound.
    fn explore_within(&mut self, streets: &Weighted, bound: i64)
        requires { Grown (town_of streets.now) any_street self.old }
        ensures grown { Grown (town_of streets.now) any_street self.new }
        ensures from { self.new.from ≡ self.old.from }
        ensures more { unmarked self.new.marks ≤ unmarked self.old.marks }
        ensures closed { ClosedWithin streets.now bound self.new.marks streets.now.town.now.count }
    {
        while self.grow_within(streets, bound) {}
    }

    // Comes over a shortest street that leads on, then to all that can be come to over streets no more than a sixteenth longer, and says whether there is one.
    fn grow_on(&mut self, streets: &Weighted) -> bool
        requires { Grown (town_of streets.now) any_street self.old }
        ensures grown { Grown (town_of streets.now) any_street self.new }
        ensures from { self.new.from ≡ self.old.from }
        ensures tried { Tried self.old.marks self.new.marks result ((k : ℕ) → k < streets.now.town.now.count → cuts (town_of streets.now) (crossings_in self.old) k ≡ false) }
    {
        let graph = Subgraph {
            town: streets.town,
            set: &[true; 300],
        };
        let Some(k) = self.shortest_on(streets) else {
            return false;
        };
        let grown = self.grow_over(&graph, k);
        self.explore_within(streets, streets.length(k) + streets.length(k) / 16);
        grown
    }

    // A tree from a crossing to all that can be come to from there.
    pub(crate) fn tree(
        streets: &Weighted,
        from: usize,
        heap: Global,
    ) -> Result<Component, AllocError>
        requires { from < 100 }
        ensures { IfOk result (λ c. (c.from ≡ from) × Spans (town_of streets.now) c) }
    {
        let mut tree = Component::alone(from, heap)?;
        while tree.grow_on(streets) {}
        Ok(tree)
    }
}
