// The classes that a pass charged, one after the other: a packing of cuts into the costs of the streets. `After` stands in contracts, since the level changes from stage to stage.
ghost use Rattle.std.specs.Prelude.{length};
ghost use Rattle.join.specs.Problems.{town_in};
ghost use Rattle.join.specs.Passes.{AllStaged, Listed};

use crate::partition::Classes;
use crate::prices::Prices;
use crate::turn::Stage;
use road::Leg;

#[derive(Clone, Copy)]
pub(crate) struct CutPacking<'a, 't, 'c> {
    pub prices: &'a Prices<'t, 'c>,
    pub classes: &'a Classes,
    pub stages: &'a [Stage],
    pub borders: &'a [Vec<Leg>],
    ghost listed: { Listed (town_in prices.now.problem) stages.now borders.now },
    ghost staged: { AllStaged prices.now classes.now stages.now (length stages.now) },
}
