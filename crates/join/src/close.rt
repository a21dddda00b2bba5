// Circuits out of a set of crossings and back, along streets in which two sets of streets differ.
ghost use Rattle.std.specs.Prelude.{◌≡◌, ℕ, ◌<◌, true, not, ◌&&◌, MatchOption};
ghost use Rattle.road.specs.Counts.{one, two, Set, cut as cuts};
ghost use Rattle.road.specs.Model.{marked};
ghost use Rattle.join.specs.Weights.{ground, side_of, inner as inner_of, outer as outer_of};
ghost use Rattle.join.specs.Circuits.{outside as differ, Second, Lone, AllLone, Closes};

use crate::circuit::{Circuit, Exit};
use crate::component::Component;
use crate::cut::Cut;
use crate::subgraph::Subgraph;
use std::array::from_fn;

impl Cut<'_, '_> {
    // Street k, which is cut, with its ends.
    fn exit_at(&self, k: usize) -> Exit
        ensures street { result.street ≡ k }
        ensures inner { result.inner ≡ inner_of (ground self.now) (side_of self.now) k }
        ensures outer { result.outer ≡ outer_of (ground self.now) (side_of self.now) k }
        ensures below { (result.inner < 100) × (result.outer < 100) }
    {
        Exit {
            street: k,
            inner: self.inner_end(k),
            outer: self.outer_end(k),
        }
    }

    // Whether two sets differ in street k, and it has both ends outside.
    fn differs_outside(&self, drives: &[bool; 300], base: &[bool; 300], k: usize) -> bool
        requires { k < 300 }
        ensures { result ≡ differ (ground self.now) (side_of self.now) (marked drives.now) (marked base.now) k }
    {
        let street = self.town.street(k);
        drives[k] != base[k] && !self.marks[street.one] && !self.marks[street.two]
    }

    // The streets in which two sets differ, with both ends outside.
    fn outside(&self, drives: &[bool; 300], base: &[bool; 300]) -> [bool; 300]
        ensures { (k : ℕ) → k < 300 → marked result k ≡ differ (ground self.now) (side_of self.now) (marked drives.now) (marked base.now) k }
    {
        from_fn(|k| self.differs_outside(drives, base, k))
    }

    // Another street of a set that is cut, whose end outside is marked.
    fn second_exit(&self, drives: &[bool; 300], marks: &[bool; 100], first: usize) -> Option<usize>
        ensures { MatchOption result
            ((k : ℕ) → k < self.now.town.now.count → Second (ground self.now) (side_of self.now) (marked drives.now) (marked marks.now) first k → ⊥)
            (λ k. (k < self.now.town.now.count) × Second (ground self.now) (side_of self.now) (marked drives.now) (marked marks.now) first k) }
    {
        (0..self.town.count).find(|&k| k != first
            && self.is_exit(drives, k)
            && marks[self.outer_end(k)])
    }

    // A circuit that begins with street k of the set, which is cut. The sets are others for each circuit, and the component is a room.
    fn close(
        &self,
        drives: &[bool; 300],
        base: &[bool; 300],
        component: &mut Component,
        k: usize,
    ) -> Option<Circuit>
        requires below { k < self.now.town.now.count }
        requires own { (marked drives.now k ≡ true) × (cuts (ground self.now) (side_of self.now) k ≡ true) }
        ensures { MatchOption result
            ((Y : Set) × Lone (ground self.now) (side_of self.now) (marked drives.now) (marked base.now) k Y)
            (Closes (ground self.now) (side_of self.now) (marked drives.now) (marked base.now)) }
    {
        let out = self.exit_at(k);
        let outside = Subgraph {
            town: self.town,
            set: &self.outside(drives, base),
        };
        component.search(&outside, out.outer);
        let j = self.second_exit(drives, &component.marks, k)?;
        let back = self.exit_at(j);
        let far = *component.path_to(back.outer);
        Some(Circuit { out, back, far })
    }

    // A circuit that begins with a street of the set that is cut, unless each is alone.
    pub(crate) fn circuit(
        &self,
        drives: &[bool; 300],
        base: &[bool; 300],
        component: &mut Component,
    ) -> Option<Circuit>
        ensures { MatchOption result
            (AllLone (ground self.now) (side_of self.now) (marked drives.now) (marked base.now) self.now.town.now.count)
            (Closes (ground self.now) (side_of self.now) (marked drives.now) (marked base.now)) }
    {
        // A loop over street numbers: a closure for `find_map` would have to repeat the clauses of `close`.
        for k in 0..self.town.count {
            if self.is_exit(drives, k) {
                if let Some(circuit) = self.close(drives, base, component, k) {
                    return Some(circuit);
                }
            }
        }
        None
    }
}
