// The planner and the checker, one after the other.
ghost use Rattle.std.specs.Prelude.{◌≡◌, ◌+◌, ◌*◌, ◌≤◌, length, take};
ghost use Rattle.road.specs.Numbers.{town_in, legs_in};
ghost use Rattle.road.specs.Refusals.{plan_refusal};
ghost use Rattle.sheet.specs.Numbers.{sheet_in};
ghost use Rattle.sheet.specs.Words.{said, judged, unless_refused, check_refusal};
ghost use Rattle.round.specs.Plans.{Promises};

use crate::planner::plan_round;
use crate::{Checked, NoPlan, Plan};
use road::Refusal;
use sheet::{Word, check_round};
use std::alloc::Global;

// The checker's word on the fronts of the rooms. The numbers of a town, the legs and the parts stay apart, as the public functions take them.
fn check_fronts(
    crossings: u64,
    streets: &[u64],
    depot: u64,
    legs: &[u64],
    parts: &[u64],
    plan: Plan,
) -> Result<Word, Refusal>
    requires few { (crossings ≤ 100) × (plan.parts ≤ 400) }
    requires long { (plan.legs ≤ length legs.now) × (plan.parts * (1 + crossings) ≤ length parts.now) }
    ensures { said result ≡ unless_refused (check_refusal crossings streets.now depot (take plan.legs legs.now) (take (plan.parts * (1 + crossings)) parts.now))
        (judged (town_in crossings streets.now) depot (legs_in (take plan.legs legs.now)) (sheet_in crossings (take (plan.parts * (1 + crossings)) parts.now))) }
{
    let count = plan.legs;
    let numbers = plan.parts * (1 + crossings as usize);
    check_round(
        crossings,
        streets,
        depot,
        &legs[0..count],
        &parts[0..numbers],
    )
}

// Plans the town of the numbers, and has the checker look at what was written: a refusal of the list, want of memory, or shortest.
// A struct of the six would be taken apart at once.
pub fn plan_and_check(
    crossings: u64,
    streets: &[u64],
    depot: u64,
    legs: &mut [u64],
    parts: &mut [u64],
    heap: Global,
) -> Result<Checked, NoPlan>
    ensures { Promises (plan_refusal crossings streets.now depot) (town_in crossings streets.now) depot legs.old parts.old legs.new parts.new result }
{
    let plan = plan_round(crossings, streets, depot, legs, parts, heap)?;
    let word = check_fronts(crossings, streets, depot, legs, parts, plan)?;
    Ok(Checked { plan, word })
}
