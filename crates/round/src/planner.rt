// The planner: a shortest round and a sheet that agrees with it, written to lent rooms.
ghost use Rattle.road.specs.Numbers.{town_in};
ghost use Rattle.road.specs.Refusals.{plan_refusal};
ghost use Rattle.round.specs.Plans.{Answers};

use crate::tour::tour;
use crate::write::write_plan;
use crate::{NoPlan, Plan};
use join::LeastDrives;
use road::SoundTown;
use std::alloc::Global;

// Plans the town of the numbers: writes a shortest round and a sheet that agrees with it to the front of the rooms,
// or answers the first refusal of 1 to 6 that applies, or want of memory, and leaves the rooms as they were.
// Numbers and rooms are taken as `planner_bench`, which C++ calls, hands them on.
pub fn plan_round(
    crossings: u64,
    streets: &[u64],
    depot: u64,
    legs: &mut [u64],
    parts: &mut [u64],
    heap: Global,
) -> Result<Plan, NoPlan>
    ensures { Answers (plan_refusal crossings streets.now depot) (town_in crossings streets.now) depot legs.old parts.old legs.new parts.new result }
{
    let town = SoundTown::take(crossings, streets, depot)?;
    let least = LeastDrives::new(&town, heap)?;
    let round = tour(&least, heap)?;
    write_plan(&least, &round, legs, parts)
}
