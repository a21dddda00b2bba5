// What can be come to from the depot: marks of crossings, grown until nothing changes.
ghost use Rattle.std.specs.Prelude.{◌≡◌, ℕ, ◌<◌, false, not};
ghost use Rattle.road.specs.Counts.{cut, one};
ghost use Rattle.road.specs.Reach.{reached};
ghost use Rattle.road.specs.Model.{model, marked};
ghost use Rattle.road.specs.Growth.{Grown, Closed, Tried};

use crate::{Leg, Town};

// `Grown` stands in contracts: a struct of a town and its marks would say in each of them, in its place, that the town stays.
impl Town {
    // Street k as a leg: where just one of its ends is marked, the leg begins there.
    pub fn leg_out(&self, k: usize, marks: &[bool; 100]) -> Leg
        ensures by { result.by ≡ k }
        ensures back { result.back ≡ not (marked marks.now (one (model self.now) k)) }
    {
        let street = self.street(k);
        Leg {
            by: k,
            back: !marks[street.one],
        }
    }

    // Marks the second end of street k if just one is marked, and says whether it was so.
    fn grow_over(&self, k: usize, marks: &mut [bool; 100]) -> bool
        requires below { k < self.now.count }
        requires grown { Grown (model self.now) self.now.depot marks.old }
        ensures grown { Grown (model self.now) self.now.depot marks.new }
        ensures tried { Tried marks.old marks.new result (cut (model self.now) (marked marks.old) k ≡ false) }
    {
        let street = self.street(k);
        if marks[street.one] == marks[street.two] {
            return false;
        }
        let y = self.end_of(self.leg_out(k, marks));
        marks[y] = true;
        true
    }

    // Grows the marks over each street once, and says whether they grew.
    fn grow(&self, marks: &mut [bool; 100]) -> bool
        requires { Grown (model self.now) self.now.depot marks.old }
        ensures grown { Grown (model self.now) self.now.depot marks.new }
        ensures tried { Tried marks.old marks.new result (Closed (model self.now) marks.new self.now.count) }
    {
        let mut more = false;
        for k in 0..self.count {
            more |= self.grow_over(k, marks);
        }
        more
    }

    // Marks what can be come to from the depot.
    pub(crate) fn come_to(&self) -> [bool; 100]
        ensures { (v : ℕ) → marked result v ≡ reached (model self.now) self.now.depot v }
    {
        let mut marks = std::array::from_fn(|v| v == self.depot);
        while self.grow(&mut marks) {}
        marks
    }
}
