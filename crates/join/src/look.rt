// A look at one stage: a set that is cheaper than its potential, a class to charge, or neither.
ghost use Rattle.std.specs.Prelude.{◌≡◌, ℕ, ◌<◌, false, IfOk};
ghost use Rattle.road.specs.Counts.{size, cut as cuts};
ghost use Rattle.join.specs.Classes.{class_in};
ghost use Rattle.join.specs.Problems.{town_in, reached_in};
ghost use Rattle.join.specs.Potentials.{Lowest};
ghost use Rattle.join.specs.Turns.{lengths_at, potential_at, FindsAt, Named};

use crate::border::Border;
use crate::contraction::Contraction;
use crate::cut::Cut;
use crate::sets::xor;
use crate::turn::{Found, Stage, Turn};
use crate::weighted::Weighted;
use std::alloc::{AllocError, Global};

impl Contraction<'_, '_, '_> {
    // Where no street leads out of the class of b: the set for b goes round over a street that has a length, or costs nothing and is cheaper for that, or no potential is left.
    fn look_inside(&self, b: usize) -> Turn
        requires lowest { (Lowest (reached_in self.now.prices.now.problem) (potential_at self.now.level.now) b) × (b < 100) }
        requires none { (k : ℕ) → k < size (town_in self.now.prices.now.problem) → cuts (town_in self.now.prices.now.problem) (class_in self.now.classes.now b) k ≡ false }
        ensures finds { FindsAt self.now.prices.now self.now.level.now result }
        ensures named { Named (town_in self.now.prices.now.problem) self.now.classes.now result }
    {
        let prices = self.prices;
        let level = self.level;
        let classes = self.classes;
        let streets = Weighted {
            town: prices.problem.streets.town,
            lengths: &level.lengths,
        };
        let drives = prices.extra_for(b);
        match streets.long_street(drives) {
            Some(k) => {
                let street = prices.problem.streets.town.street(k);
                let there = classes.lead_on(drives, b, street.one, k);
                let home = xor(classes.way_to(b), classes.way_to(street.two));
                Turn::Better(Found {
                    crossing: b,
                    drives: xor(&there, &home),
                })
            }
            None if level.potential[b] > 0 => Turn::Better(Found {
                crossing: b,
                drives: *drives,
            }),
            None => Turn::Done,
        }
    }

    // Looks at the class of the crossing with the least potential.
    pub(crate) fn look(&self, heap: Global) -> Result<Turn, AllocError>
        ensures { IfOk result (λ turn. FindsAt self.now.prices.now self.now.level.now turn × Named (town_in self.now.prices.now.problem) self.now.classes.now turn) }
    {
        let prices = self.prices;
        let b = self.level.least(&prices.problem);
        let drives = prices.extra_for(b);
        let marks = self.classes.class_of(b);
        let cut = Cut {
            town: prices.problem.streets.town,
            marks: &marks,
        };
        let legs = prices.problem.legs_out(&marks, heap)?;
        let border = Border {
            cut,
            legs: legs.as_slice(),
        };
        if let Some(k) = border.exit(drives) {
            let x = cut.inner_end(k);
            return Ok(Turn::Better(Found {
                crossing: cut.outer_end(k),
                drives: self.classes.lead_on(drives, b, x, k),
            }));
        }
        match self.level.least_slack(&border, b) {
            Some(charge) => {
                let base = b;
                let stage = Stage {
                    marks,
                    charge,
                    base,
                };
                Ok(Turn::Charge(stage, legs))
            }
            None => Ok(self.look_inside(b)),
        }
    }
}
