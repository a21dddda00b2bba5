// How often each street is driven.
ghost use Rattle.std.specs.Prelude.{◌≡◌, ℕ, ◌<◌};
ghost use Rattle.road.specs.Model.{marked};
ghost use Rattle.join.specs.Extra.{counts as count_of};
ghost use Rattle.round.specs.Tours.{count_in};

// Each street once, and those of the set once more.
pub(crate) fn drive_counts(set: &[bool; 300]) -> [usize; 300]
    ensures { (k : ℕ) → k < 300 → count_in result k ≡ count_of (marked set.now) k }
{
    set.map(|again| 1 + usize::from(again))
}
