// The exchange along a circuit, and a cheaper set carried down over one stage.
ghost use Rattle.std.specs.Prelude.{◌≡◌, ℕ, ◌<◌};
ghost use Rattle.road.specs.Model.{marked};
ghost use Rattle.join.specs.Joins.{◌⊞◌, Joins};
ghost use Rattle.join.specs.Exchange.{circuit as streets_of};
ghost use Rattle.join.specs.Amounts.{amount};
ghost use Rattle.join.specs.Problems.{town_in, start_in, reached_in};
ghost use Rattle.join.specs.Prices.{extra_in};
ghost use Rattle.join.specs.Classes.{way_in};
ghost use Rattle.join.specs.Potentials.{Cheaper};
ghost use Rattle.join.specs.Turns.{lengths_at, potential_at};
ghost use Rattle.join.specs.Circuits.{Closes};
ghost use Rattle.join.specs.Outcomes.{Exchanged, Over};

use crate::border::Border;
use crate::charged::ChargedCut;
use crate::circuit::Circuit;
use crate::component::Component;
use crate::cut::Cut;
use crate::outcome::Outcome;
use crate::partition::Classes;
use crate::sets::{flip, xor};
use crate::turn::Found;
use crate::weighted::Weighted;

impl Classes {
    // The streets of a circuit from b: inside to its first street, out, back in by its second, and home.
    fn around(&self, circuit: &Circuit, b: usize) -> [bool; 300]
        requires below { (b < 100) × ((circuit.now.out.inner < 100) × (circuit.now.back.inner < 100)) }
        requires streets { (circuit.now.out.street < 300) × (circuit.now.back.street < 300) }
        ensures { marked result ≡ streets_of circuit.now.out.street circuit.now.back.street (marked circuit.now.far) (way_in self.now b ⊞ way_in self.now circuit.now.out.inner) (way_in self.now b ⊞ way_in self.now circuit.now.back.inner) }
    {
        let there = xor(self.way_to(b), self.way_to(circuit.out.inner));
        let home = xor(self.way_to(b), self.way_to(circuit.back.inner));
        let out = flip(&there, circuit.out.street);
        let far = xor(&out, &circuit.far);
        let back = flip(&far, circuit.back.street);
        xor(&back, &home)
    }
}

impl ChargedCut<'_, '_, '_> {
    // The exchange along a circuit through the border of the class.
    fn exchange(&self, drives: &[bool; 300], circuit: &Circuit) -> Outcome
        requires { Closes (town_in self.now.prices.now.problem) (marked self.now.stage.now.marks) (marked drives.now) (extra_in self.now.prices.now self.now.stage.now.base) circuit.now }
        ensures { (v : ℕ) → Joins (town_in self.now.prices.now.problem) (start_in self.now.prices.now.problem) v (marked drives.now) →
            Exchanged (town_in self.now.prices.now.problem) (start_in self.now.prices.now.problem) (lengths_at self.now.level.now) (potential_at self.now.level.now) (marked self.now.stage.now.marks) (amount self.now.stage.now.charge) v (marked drives.now) circuit.now.out.outer result }
    {
        let prices = self.prices;
        let level = self.level;
        let base = self.stage.base;
        let round = self.classes.around(circuit, base);
        let turned = xor(prices.extra_for(base), &round);
        let out = self
            .classes
            .lead_on(&turned, base, circuit.out.inner, circuit.out.street);
        let streets = Weighted {
            town: prices.problem.streets.town,
            lengths: &level.lengths,
        };
        if streets.cost(&out) < level.potential[circuit.out.outer] {
            Outcome::Lower(out)
        } else {
            Outcome::Fewer(xor(drives, &round))
        }
    }

    // Carries a set that is cheaper after the charge down over it: a set that was cheaper before it.
    pub(crate) fn carry(&self, mut found: Found, component: &mut Component) -> Found
        requires { Over (town_in self.now.prices.now.problem) (start_in self.now.prices.now.problem) (reached_in self.now.prices.now.problem) (lengths_at self.now.level.now) (potential_at self.now.level.now) (marked self.now.stage.now.marks) (amount self.now.stage.now.charge) found.crossing (marked found.drives) }
        ensures { Cheaper (town_in self.now.prices.now.problem) (start_in self.now.prices.now.problem) (reached_in self.now.prices.now.problem) (lengths_at self.now.level.now) (potential_at self.now.level.now) result.crossing (marked result.drives) }
    {
        let prices = self.prices;
        let stage = self.stage;
        let cut = Cut {
            town: prices.problem.streets.town,
            marks: &stage.marks,
        };
        let border = Border {
            cut,
            legs: self.legs,
        };
        if border.outs(&found.drives) <= 1 {
            return found;
        }
        let base = prices.extra_for(stage.base);
        while let Some(circuit) = cut.circuit(&found.drives, base, component) {
            match self.exchange(&found.drives, &circuit) {
                Outcome::Lower(lower) => {
                    return Found {
                        crossing: circuit.out.outer,
                        drives: lower,
                    };
                }
                Outcome::Fewer(fewer) => found.drives = fewer,
            }
        }
        found
    }
}
