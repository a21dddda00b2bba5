// A drive walked leg by leg.
ghost use Rattle.std.specs.Prelude.{ℕ};
ghost use Rattle.std.specs.Option.{MatchOption};
ghost use Rattle.road.specs.Roads.{Drive};
ghost use Rattle.road.specs.Model.{model};

use road::{Leg, Town};

// Where the legs end as a drive from a crossing, if each is of a street and begins where the one before ended.
pub fn end_of_drive(town: &Town, start: usize, legs: &[Leg]) -> Option<usize>
    ensures { MatchOption result ((end : ℕ) → Drive (model town.now) start legs.now end → ⊥) (λ end. Drive (model town.now) start legs.now end) }
{
    let mut at = start;
    for leg in legs {
        if leg.by >= town.count || town.begin_of(*leg) != at {
            return None;
        }
        at = town.end_of(*leg);
    }
    Some(at)
}
