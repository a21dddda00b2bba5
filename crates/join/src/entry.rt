// The entry: least extra drives of a sound town, over all streets, where a street more costs twice its length.
ghost use Rattle.std.specs.Prelude.{◌≡◌, length, pos, IfOk};
ghost use Rattle.road.specs.Model.{model};
ghost use Rattle.join.specs.Amounts.{number, Whole};
ghost use Rattle.join.specs.Certified.{double};
ghost use Rattle.join.specs.Laws.{Shown};

use crate::component::Component;
use crate::least::LeastDrives;
use crate::prices::Prices;
use crate::problem::Problem;
use crate::solve::Solved;
use crate::stars::stars;
use crate::weighted::Weighted;
use road::{SoundTown, Town};
use std::alloc::{AllocError, Global};
use std::array::from_fn;

// Twice the length of a street, in half metres of driving it once more.
fn double_length(town: &Town, k: usize) -> i64
    ensures { result ≡ pos (double (model town.now) k) }
{
    2 * town.street(k).long as i64
}

// What driving each street once more costs.
fn double_lengths(town: &Town) -> [i64; 300]
    ensures long { length result ≡ 300 }
    ensures whole { Whole result }
    ensures is { number result ≡ double (model town.now) }
{
    from_fn(|k| double_length(town, k))
}

impl<'t> LeastDrives<'t> {
    // For each crossing that can be come to the least extra drives of the town, and what shows that they are least.
    pub fn new(town: &'t SoundTown, heap: Global) -> Result<LeastDrives<'t>, AllocError>
        ensures { IfOk result (λ least. (least.town.now ≡ town.now) × Shown least) }
    {
        let required = [true; 300];
        let costs = double_lengths(&town.town);
        let streets = Weighted {
            town: &town.town,
            lengths: &costs,
        };
        let tree = Component::tree(&streets, town.town.depot, heap)?;
        let reached = tree.marks;
        let stars = stars(&town.town, heap)?;
        let problem = Problem {
            streets,
            required: &required,
            reached: &reached,
            stars: stars.as_slice(),
        };
        let Solved {
            prices,
            stages,
            tally,
        } = problem.solve(tree, heap)?;
        let Prices { extra, .. } = prices;
        Ok(LeastDrives {
            town,
            reached,
            extra,
            stages,
            passes: tally.passes,
            turns: tally.stages,
        })
    }
}
