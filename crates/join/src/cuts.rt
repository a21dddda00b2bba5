// The streets that lead out of a set of crossings.
ghost use Rattle.std.specs.Prelude.{◌≡◌, ◌<◌, ◌&&◌};
ghost use Rattle.road.specs.Counts.{cut as cuts};
ghost use Rattle.road.specs.Model.{marked};
ghost use Rattle.join.specs.Weights.{ground, side_of, inner, outer};

use crate::cut::Cut;

impl Cut<'_, '_> {
    // Whether street k has just one end in the set.
    pub(crate) fn has(&self, k: usize) -> bool
        ensures { result ≡ cuts (ground self.now) (side_of self.now) k }
    {
        let street = self.town.street(k);
        self.marks[street.one] != self.marks[street.two]
    }

    // Whether street k is one of a set, and is cut.
    pub(crate) fn is_exit(&self, drives: &[bool; 300], k: usize) -> bool
        requires { k < 300 }
        ensures { result ≡ (marked drives.now k && cuts (ground self.now) (side_of self.now) k) }
    {
        let cut = self.has(k);
        drives[k] && cut
    }

    // The end of a cut street that is in the set.
    pub(crate) fn inner_end(&self, k: usize) -> usize
        ensures is { result ≡ inner (ground self.now) (side_of self.now) k }
        ensures below { result < 100 }
    {
        self.town.begin_of(self.town.leg_out(k, self.marks))
    }

    // The end of a cut street that is not in the set.
    pub(crate) fn outer_end(&self, k: usize) -> usize
        ensures is { result ≡ outer (ground self.now) (side_of self.now) k }
        ensures below { result < 100 }
    {
        self.town.end_of(self.town.leg_out(k, self.marks))
    }
}
