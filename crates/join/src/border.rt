// A set of crossings with the streets that it cuts, each as a leg that leads out.
ghost use Rattle.std.specs.Prelude.{◌≡◌, ℕ, ◌<◌, true, false, MatchOption};
ghost use Rattle.road.specs.Counts.{size, cut as cuts};
ghost use Rattle.road.specs.Model.{marked};
ghost use Rattle.join.specs.Borders.{Bordered};
ghost use Rattle.join.specs.Joins.{outs as ways};
ghost use Rattle.join.specs.Weights.{ground, side_of};

use crate::cut::Cut;
use road::Leg;

#[derive(Clone, Copy)]
pub(crate) struct Border<'t, 'm> {
    pub cut: Cut<'t, 'm>,
    pub legs: &'m [Leg],
    ghost border: { Bordered (ground cut) (side_of cut) legs.now },
}

impl Border<'_, '_> {
    // How many streets of a set are cut.
    pub(crate) fn outs(&self, drives: &[bool; 300]) -> usize
        ensures { result ≡ ways (ground self.now.cut) (side_of self.now.cut) (marked drives.now) }
    {
        let mut outs = 0;
        for leg in self.legs {
            if drives[leg.by] {
                outs += 1;
            }
        }
        outs
    }

    // A street of a set that is cut.
    pub(crate) fn exit(&self, drives: &[bool; 300]) -> Option<usize>
        ensures { MatchOption result ((k : ℕ) → k < size (ground self.now.cut) → cuts (ground self.now.cut) (side_of self.now.cut) k ≡ true → marked drives.now k ≡ false)
            (λ k. (k < self.now.cut.town.now.count) × (marked drives.now k ≡ true) × (cuts (ground self.now.cut) (side_of self.now.cut) k ≡ true)) }
    {
        for leg in self.legs {
            if drives[leg.by] {
                return Some(leg.by);
            }
        }
        None
    }
}
