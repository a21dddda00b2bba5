// A pass: turns are taken from the costs and the prices on, until a set is cheaper or no potential is left.
ghost use Rattle.std.specs.Prelude.{[], IfOk, OnOk, MatchResult};
ghost use Rattle.road.specs.Model.{marked};
ghost use Rattle.join.specs.Problems.{town_in, costs_in, start_in, reached_in};
ghost use Rattle.join.specs.Prices.{price_in, AllNear};
ghost use Rattle.join.specs.Potentials.{Cheaper};
ghost use Rattle.join.specs.Turns.{Pass};
ghost use Rattle.join.specs.Passes.{After, Run, Listed, Ends, ShowsLeast};

use crate::component::Component;
use crate::level::Level;
use crate::packing::CutPacking;
use crate::partition::Classes;
use crate::prices::Prices;
use crate::tally::Tally;
use crate::turn::{Found, Stage, Turn};
use crate::weighted::Weighted;
use road::Leg;
use std::alloc::{AllocError, Global};

impl Level {
    // Takes turns until a set is cheaper than its potential, or no potential is left, and adds the stages.
    fn take_turns(
        &mut self,
        prices: &Prices,
        classes: &mut Classes,
        stages: &mut Vec<Stage>,
        borders: &mut Vec<Vec<Leg>>,
        heap: Global,
    ) -> Result<Option<Found>, AllocError>
        requires run { Run prices.now classes.old stages.old.items self.old }
        requires listed { Listed (town_in prices.now.problem) stages.old.items borders.old.items }
        ensures run { OnOk result (Run prices.now classes.new stages.new.items self.new) }
        ensures listed { OnOk result (Listed (town_in prices.now.problem) stages.new.items borders.new.items) }
        ensures ends { IfOk result (λ found. Ends prices.now self.new found) }
    {
        loop {
            match self.take_turn(prices, classes, heap)? {
                Turn::Better(found) => return Ok(Some(found)),
                Turn::Charge(stage, legs) => {
                    stages.push(stage)?;
                    borders.push(legs)?;
                }
                Turn::Done => return Ok(None),
            }
        }
    }
}

impl Prices<'_, '_> {
    // The level at which a pass begins.
    fn level(&self) -> Level
        requires { AllNear self.now self.now.problem.streets.town.now.count }
        ensures pass { Pass self.now result }
        ensures after { After self.now [] 0 result }
    {
        Level {
            lengths: *self.problem.streets.lengths,
            potential: self.all(),
        }
    }

    // The classes at which a pass begins: crossings that streets of no length join.
    fn classes(&self, level: &Level, heap: Global) -> Result<Classes, AllocError>
        requires pass { Pass self.now level.now }
        requires after { After self.now [] 0 level.now }
        ensures { IfOk result (λ c. Run self.now c [] level.now) }
    {
        let mut classes = Classes::alone(heap)?;
        classes.merge(&Weighted {
            town: self.problem.streets.town,
            lengths: &level.lengths,
        });
        Ok(classes)
    }

    // A pass: the stages that show that all prices are least, the last first, or a set that costs less than its price.
    pub(crate) fn pass(
        &self,
        component: &mut Component,
        tally: &mut Tally,
        heap: Global,
    ) -> Result<Result<Vec<Stage>, Found>, AllocError>
        requires { AllNear self.now self.now.problem.streets.town.now.count }
        ensures { IfOk result (λ r. MatchResult r (λ stages. ShowsLeast self.now stages.items)
            (λ f. Cheaper (town_in self.now.problem) (start_in self.now.problem) (reached_in self.now.problem) (costs_in self.now.problem) (price_in self.now) f.crossing (marked f.drives))) }
    {
        let mut level = self.level();
        let mut classes = self.classes(&level, heap)?;
        let mut stages = Vec::with_capacity(heap, 100)?;
        let mut borders = Vec::with_capacity(heap, 100)?;
        let found = level.take_turns(self, &mut classes, &mut stages, &mut borders, heap)?;
        tally.add(stages.len());
        match found {
            Some(found) => {
                let packing = CutPacking {
                    prices: self,
                    classes: &classes,
                    stages: stages.as_slice(),
                    borders: borders.as_slice(),
                };
                Ok(Err(packing.descend(&mut level, found, component)))
            }
            None => {
                stages.reverse();
                Ok(Ok(stages))
            }
        }
    }
}
