// What sets of streets cost.
ghost use Rattle.std.specs.Prelude.{◌≡◌, ◌<◌, ◌≤◌, true, pos, MatchOption, ◌==◌};
ghost use Rattle.road.specs.Counts.{when};
ghost use Rattle.road.specs.Model.{marked};
ghost use Rattle.join.specs.Joins.{cost as costs, ◌⊞◌, single, Zero};
ghost use Rattle.join.specs.Weights.{town_of, lengths_of};

use crate::weighted::Weighted;

impl Weighted<'_, '_> {
    // The length of street k.
    pub(crate) fn length(&self, k: usize) -> i64
        requires { k < 300 }
        ensures is { result ≡ pos (lengths_of self.now k) }
        ensures most { lengths_of self.now k ≤ 4000000000 }
    {
        self.lengths[k]
    }

    // Whether street k has no length.
    pub(crate) fn is_free(&self, k: usize) -> bool
        requires { k < 300 }
        ensures { result ≡ (lengths_of self.now k == 0) }
    {
        self.length(k) == 0
    }

    // The length of street k where it is in a set, and nothing where it is not.
    fn length_in(&self, drives: &[bool; 300], k: usize) -> i64
        requires { k < 300 }
        ensures { result ≡ pos (when (marked drives.now k) (lengths_of self.now k)) }
    {
        let length = self.length(k);
        if drives[k] { length } else { 0 }
    }

    // What the streets of a set cost together.
    pub(crate) fn cost(&self, drives: &[bool; 300]) -> i64
        ensures is { result ≡ pos (costs (town_of self.now) (lengths_of self.now) (marked drives.now)) }
    {
        (0..self.town.count)
            .map(|k| self.length_in(drives, k))
            .sum()
    }

    // What a set costs with street k put in, or taken out.
    pub(crate) fn cost_flipped(&self, drives: &[bool; 300], k: usize, cost: i64) -> i64
        requires below { k < self.now.town.now.count }
        requires before { cost ≡ pos (costs (town_of self.now) (lengths_of self.now) (marked drives.now)) }
        ensures { result ≡ pos (costs (town_of self.now) (lengths_of self.now) (marked drives.now ⊞ single k)) }
    {
        let length = self.length(k);
        if drives[k] {
            cost - length
        } else {
            cost + length
        }
    }

    // A street of a set that has a length.
    pub(crate) fn long_street(&self, drives: &[bool; 300]) -> Option<usize>
        ensures { MatchOption result (Zero (town_of self.now) (lengths_of self.now) (marked drives.now))
            (λ k. (k < self.now.town.now.count) × (marked drives.now k ≡ true) × (0 < lengths_of self.now k)) }
    {
        (0..self.town.count).find(|&k| drives[k] && self.length(k) > 0)
    }
}
