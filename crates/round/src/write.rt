// A plan written to the rooms, where they are long enough.
ghost use Rattle.std.specs.Prelude.{◌≡◌, ℕ, ◌+◌, ◌/◌, length, nat_le, pos};
ghost use Rattle.road.specs.First.{unless};
ghost use Rattle.road.specs.Refusals.{Answers};
ghost use Rattle.road.specs.Roads.{all_streets};
ghost use Rattle.join.specs.Extra.{extra_length};
ghost use Rattle.join.specs.Laws.{town_of, depot_of, sheet_from};
ghost use Rattle.pairs.specs.Pairings.{depot_extra};
ghost use Rattle.round.specs.Tours.{Tour};
ghost use Rattle.round.specs.Plans.{room_refusal, Fits};

use crate::rooms::{count_parts, write_front, write_parts};
use crate::{NoPlan, Plan};
use join::LeastDrives;
use road::{Leg, Refusal};

// Half of a price, in metres.
fn metres(price: i64) -> u64
    ensures { (n : ℕ) → price ≡ pos n → result ≡ n / 2 }
{
    price.unsigned_abs() / 2
}

// The length of a shortest round: all streets, and the extra drives to the depot.
fn round_length(least: &LeastDrives) -> u64
    ensures { result ≡ all_streets (town_of least.now).streets + extra_length (town_of least.now) (depot_extra least.now) }
{
    let town = &least.town.town;
    town.all_streets() + metres(least.extra[town.depot].price)
}

// Refuses a room that is too short.
fn check_room(need: usize, room: &[u64]) -> Result<(), Refusal>
    ensures { Answers (unless (nat_le need (length room.now)) (6, need)) (λ _. Unit {0}) result }
{
    if need > room.len() {
        return Err(Refusal::Room(need as u64));
    }
    Ok(())
}

// Writes the legs of a round and the parts of the sheet, unless a room is too short.
pub(crate) fn write_plan(
    least: &LeastDrives,
    round: &[Leg],
    legs: &mut [u64],
    parts: &mut [u64],
) -> Result<Plan, NoPlan>
    requires { Tour (town_of least.now) (depot_of least.now) (depot_extra least.now) round.now }
    ensures { Fits (room_refusal (town_of least.now) round.now (sheet_from least.now) legs.old parts.old)
        (town_of least.now) round.now (sheet_from least.now) legs.old parts.old legs.new parts.new result }
{
    let town = &least.town.town;
    let stages = least.stages.as_slice();
    let count = count_parts(stages, town);
    check_room(round.len(), legs)?;
    check_room(count * (1 + town.crossings), parts)?;
    write_front(legs, round);
    write_parts(parts, stages, town);
    Ok(Plan {
        legs: round.len(),
        parts: count,
        length: round_length(least),
    })
}
