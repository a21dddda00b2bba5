// A cheaper set carried down over the stages of a pass, to the costs and prices from which it began.
ghost use Rattle.std.specs.Prelude.{◌+◌, ◌<◌, length};
ghost use Rattle.road.specs.Model.{marked};
ghost use Rattle.join.specs.Problems.{town_in, costs_in, start_in, reached_in};
ghost use Rattle.join.specs.Prices.{price_in};
ghost use Rattle.join.specs.Potentials.{Cheaper};
ghost use Rattle.join.specs.Turns.{lengths_at, potential_at};
ghost use Rattle.join.specs.Passes.{After};

use crate::charged::ChargedCut;
use crate::component::Component;
use crate::level::Level;
use crate::packing::CutPacking;
use crate::turn::Found;

impl CutPacking<'_, '_, '_> {
    // Puts the charge of stage i back, and carries a cheaper set down over it. What is the same for all stages is in the packing.
    fn undo(&self, level: &mut Level, i: usize, found: Found, component: &mut Component) -> Found
        requires below { i < length self.now.stages.now }
        requires after { After self.now.prices.now self.now.stages.now (i + 1) level.old }
        requires cheaper { Cheaper (town_in self.now.prices.now.problem) (start_in self.now.prices.now.problem) (reached_in self.now.prices.now.problem) (lengths_at level.old) (potential_at level.old) found.crossing (marked found.drives) }
        ensures after { After self.now.prices.now self.now.stages.now i level.new }
        ensures cheaper { Cheaper (town_in self.now.prices.now.problem) (start_in self.now.prices.now.problem) (reached_in self.now.prices.now.problem) (lengths_at level.new) (potential_at level.new) result.crossing (marked result.drives) }
    {
        let prices = self.prices;
        let stage = &self.stages[i];
        let legs = self.borders[i].as_slice();
        level.restore(&prices.problem, stage, legs);
        let cut = ChargedCut {
            prices,
            classes: self.classes,
            level,
            stage,
            legs,
        };
        cut.carry(found, component)
    }

    // Carries a set that is cheaper after the stages of a pass down over all of them: a set that costs less than its price.
    pub(crate) fn descend(
        &self,
        level: &mut Level,
        mut found: Found,
        component: &mut Component,
    ) -> Found
        requires after { After self.now.prices.now self.now.stages.now (length self.now.stages.now) level.old }
        requires cheaper { Cheaper (town_in self.now.prices.now.problem) (start_in self.now.prices.now.problem) (reached_in self.now.prices.now.problem) (lengths_at level.old) (potential_at level.old) found.crossing (marked found.drives) }
        ensures { Cheaper (town_in self.now.prices.now.problem) (start_in self.now.prices.now.problem) (reached_in self.now.prices.now.problem) (costs_in self.now.prices.now.problem) (price_in self.now.prices.now) result.crossing (marked result.drives) }
    {
        // By number: what holds of the level is said of the stages before number i.
        for i in (0..self.stages.len()).rev() {
            found = self.undo(level, i, found, component);
        }
        found
    }
}
