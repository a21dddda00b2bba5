// Closed tours: closed walks, put into one another.
ghost use Rattle.std.specs.Prelude.{IfOk};
ghost use Rattle.road.specs.Model.{model};
ghost use Rattle.join.specs.Laws.{town_of, depot_of};
ghost use Rattle.pairs.specs.Pairings.{depot_extra};
ghost use Rattle.round.specs.Tours.{count_in, Even, ClosedTour, Tour};

use crate::counts::drive_counts;
use join::LeastDrives;
use pairs::{Incidence, drives_to_depot, maximal_trail};
use road::Leg;
use std::alloc::{AllocError, Global};

// A walk that is closed, since the degrees are even, and before each of its legs a closed tour over what is left there.
fn closed_tour(
    lists: &Incidence,
    left: &mut [usize; 300],
    start: usize,
    heap: Global,
) -> Result<Vec<Leg>, AllocError>
    requires { Even (model lists.now.town.now) (count_in left.old) }
    ensures { IfOk result (λ ls. ClosedTour (model lists.now.town.now) (count_in left.old) (count_in left.new) start ls.items) }
{
    let walk = maximal_trail(lists, left, start, heap)?;
    let mut legs = Vec::new(heap);
    for leg in &walk.legs {
        let at = lists.town.begin_of(*leg);
        let inner = closed_tour(lists, left, at, heap)?;
        legs.extend_from_slice(&inner)?;
        legs.push(*leg)?;
    }
    Ok(legs)
}

// A round that drives each street once and those of the depot's extra drives once more.
pub(crate) fn tour(least: &LeastDrives, heap: Global) -> Result<Vec<Leg>, AllocError>
    ensures { IfOk result (λ ls. Tour (town_of least.now) (depot_of least.now) (depot_extra least.now) ls.items) }
{
    let town = &least.town.town;
    let mut left = drive_counts(&drives_to_depot(least));
    closed_tour(&Incidence::new(town), &mut left, town.depot, heap)
}
