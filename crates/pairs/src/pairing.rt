// The pairs of odd crossings.
ghost use Rattle.std.specs.Prelude.{◌≡◌, IfOk};
ghost use Rattle.road.specs.Model.{marked};
ghost use Rattle.join.specs.Laws.{town_of};
ghost use Rattle.pairs.specs.Pairings.{depot_extra, walks_of, Paired, NoShorter};

use crate::walk::maximal_trail;
use crate::{Incidence, Pair};
use join::{LeastDrives, first_odd};
use std::alloc::{AllocError, Global};

// The extra drives to the depot.
pub fn drives_to_depot(least: &LeastDrives) -> [bool; 300]
    ensures { marked result ≡ depot_extra least.now }
{
    least.extra[least.town.town.depot].drives
}

// The odd crossings in pairs, each with a way over streets of the depot's extra drives; no pairing is shorter altogether.
pub fn pair_up(least: &LeastDrives, heap: Global) -> Result<Vec<Pair>, AllocError>
    ensures { IfOk result (λ ps. Paired (town_of least.now) (depot_extra least.now) (walks_of ps.items) × NoShorter (town_of least.now) (walks_of ps.items)) }
{
    let town = &least.town.town;
    let mut left = drives_to_depot(least);
    let lists = Incidence::new(town);
    let mut pairs = Vec::new(heap);
    while let Some(v) = first_odd(town, &left) {
        let pair = maximal_trail(&lists, &mut left, v, heap)?;
        pairs.push(pair)?;
    }
    Ok(pairs)
}
