// Prices and a level of a pass, where each class of crossings that streets of no length join counts as one crossing.
ghost use Rattle.join.specs.Problems.{town_in};
ghost use Rattle.join.specs.Classes.{Classed, Merged};
ghost use Rattle.join.specs.Turns.{lengths_at, Pass};

use crate::level::Level;
use crate::partition::Classes;
use crate::prices::Prices;

#[derive(Clone, Copy)]
pub(crate) struct Contraction<'a, 't, 'c> {
    pub prices: &'a Prices<'t, 'c>,
    pub level: &'a Level,
    pub classes: &'a Classes,
    ghost pass: { Pass prices.now level.now },
    ghost classed: { Classed (town_in prices.now.problem) (lengths_at level.now) classes.now },
    ghost merged: { Merged (town_in prices.now.problem) (lengths_at level.now) classes.now prices.now.problem.streets.town.now.count },
}
