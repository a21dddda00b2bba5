// One turn of a pass: the stage is looked at, a class is charged, and classes are merged.
ghost use Rattle.std.specs.Prelude.{IfOk};
ghost use Rattle.join.specs.Turns.{Settled, Taken};

use crate::contraction::Contraction;
use crate::level::Level;
use crate::partition::Classes;
use crate::prices::Prices;
use crate::turn::Turn;
use crate::weighted::Weighted;
use std::alloc::{AllocError, Global};

impl Level {
    // Takes a turn: says what it finds, and where that is a class charges it, and merges classes along the streets that are left without length.
    pub(crate) fn take_turn(
        &mut self,
        prices: &Prices,
        classes: &mut Classes,
        heap: Global,
    ) -> Result<Turn, AllocError>
        requires { Settled prices.now self.old classes.old }
        ensures { IfOk result (λ turn. Taken prices.now self.old classes.old turn self.new classes.new) }
    {
        let contraction = Contraction {
            prices,
            level: self,
            classes,
        };
        let turn = contraction.look(heap)?;
        if let Turn::Charge(stage, legs) = &turn {
            self.charge(&prices.problem, stage, legs.as_slice());
            let streets = Weighted {
                town: prices.problem.streets.town,
                lengths: &self.lengths,
            };
            classes.merge_along(&streets, legs.as_slice());
        }
        Ok(turn)
    }
}
