// A class that was charged, with the lengths and the potentials before the charge, and the ways of the class.
ghost use Rattle.road.specs.Model.{marked};
ghost use Rattle.join.specs.Borders.{Bordered};
ghost use Rattle.join.specs.Problems.{town_in};
ghost use Rattle.join.specs.Outcomes.{Held};

use crate::level::Level;
use crate::partition::Classes;
use crate::prices::Prices;
use crate::turn::Stage;
use road::Leg;

#[derive(Clone, Copy)]
pub(crate) struct ChargedCut<'a, 't, 'c> {
    pub prices: &'a Prices<'t, 'c>,
    pub classes: &'a Classes,
    pub level: &'a Level,
    pub stage: &'a Stage,
    pub legs: &'a [Leg],
    ghost border: { Bordered (town_in prices.now.problem) (marked stage.now.marks) legs.now },
    ghost held: { Held prices.now level.now classes.now stage.now },
}
