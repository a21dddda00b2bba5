// The charge of a stage taken off lengths and potentials, and put back.
ghost use Rattle.std.specs.Prelude.{◌≡◌, ℕ, ◌+◌, ◌<◌, ◌≤◌, pos, true, false, not, ◌&&◌, length};
ghost use Rattle.road.specs.Roads.{pick};
ghost use Rattle.road.specs.Counts.{size, cut as cuts};
ghost use Rattle.road.specs.Model.{marked};
ghost use Rattle.join.specs.Amounts.{amount, number, Whole, Moves, moved, shifted};
ghost use Rattle.join.specs.Borders.{street_at, Apart, Bordered};
ghost use Rattle.join.specs.Joins.{shorter};
ghost use Rattle.join.specs.Odd.{streets_of};
ghost use Rattle.join.specs.Potentials.{lower};
ghost use Rattle.join.specs.Problems.{town_in, reached_in};
ghost use Rattle.join.specs.Turns.{lengths_at, potential_at};
ghost use Rattle.join.specs.Passes.{longer, higher};

use crate::level::Level;
use crate::problem::Problem;
use crate::turn::Stage;
use road::Leg;
use std::array;

// An amount with a number added, which may be negative, if it is to be.
fn shifted_if(here: bool, held: i64, by: i64) -> i64
    requires whole { held ≡ pos (amount held) }
    requires fits { here ≡ true → Moves 1200000000000 (amount held) by }
    ensures { result ≡ pos (pick here (moved (amount held) by) (amount held)) }
{
    if here { held + by } else { held }
}

// Adds a number, which may be negative, to the amounts at the places of a set.
fn shift<const N: usize>(amounts: &mut [i64; N], places: &[bool; N], by: i64)
    requires whole { Whole amounts.old }
    requires fits { (k : ℕ) → marked places.now k ≡ true → Moves 1200000000000 (number amounts.old k) by }
    ensures long { length amounts.new ≡ N }
    ensures whole { Whole amounts.new }
    ensures is { number amounts.new ≡ shifted (marked places.now) by (number amounts.old) }
{
    // By number, since of amounts that `iter_mut` zips with places nothing is known after the loop.
    for (k, amount) in amounts.iter_mut().enumerate() {
        *amount = shifted_if(places[k], *amount, by);
    }
}

// The crossings that can be come to and are not marked.
fn unmarked(reached: &[bool; 100], marks: &[bool; 100]) -> [bool; 100]
    ensures { marked result ≡ (λ u. marked reached.now u && not (marked marks.now u)) }
{
    array::from_fn(|u| reached[u] & !marks[u])
}

// Adds a number, which may be negative, to the amounts at the streets of legs.
fn shift_along(amounts: &mut [i64; 300], legs: &[Leg], by: i64)
    requires whole { Whole amounts.old }
    requires apart { Apart legs.now }
    requires listed { (i : ℕ) → i < length legs.now → (street_at legs.now i < 300) × (streets_of legs.now (street_at legs.now i) ≡ true) }
    requires fits { (k : ℕ) → streets_of legs.now k ≡ true → Moves 1200000000000 (number amounts.old k) by }
    ensures long { length amounts.new ≡ 300 }
    ensures whole { Whole amounts.new }
    ensures is { number amounts.new ≡ shifted (streets_of legs.now) by (number amounts.old) }
{
    for leg in legs {
        amounts[leg.by] = shifted_if(true, amounts[leg.by], by);
    }
}

impl Level {
    // Adds a number to the lengths of the streets that a class cuts, and to the potentials outside it.
    fn shift(&mut self, problem: &Problem, marks: &[bool; 100], legs: &[Leg], by: i64)
        requires listed { Bordered (town_in problem.now) (marked marks.now) legs.now }
        requires streets { (k : ℕ) → k < size (town_in problem.now) → cuts (town_in problem.now) (marked marks.now) k ≡ true → Moves 4000000000 (lengths_at self.old k) by }
        requires crossings { (u : ℕ) → (reached_in problem.now u && not (marked marks.now u)) ≡ true → Moves 1200000000000 (potential_at self.old u) by }
        ensures streets { lengths_at self.new ≡ shifted (cuts (town_in problem.now) (marked marks.now)) by (lengths_at self.old) }
        ensures crossings { potential_at self.new ≡ shifted (λ u. reached_in problem.now u && not (marked marks.now u)) by (potential_at self.old) }
    {
        shift_along(&mut self.lengths, legs, by);
        shift(&mut self.potential, &unmarked(problem.reached, marks), by);
    }

    // Takes the charge of a stage off the streets that its class cuts, and off the crossings outside.
    pub(crate) fn charge(&mut self, problem: &Problem, stage: &Stage, legs: &[Leg])
        requires listed { Bordered (town_in problem.now) (marked stage.now.marks) legs.now }
        requires streets { (k : ℕ) → k < size (town_in problem.now) → cuts (town_in problem.now) (marked stage.now.marks) k ≡ true → amount stage.now.charge ≤ lengths_at self.old k }
        requires crossings { (u : ℕ) → reached_in problem.now u ≡ true → marked stage.now.marks u ≡ false → amount stage.now.charge ≤ potential_at self.old u }
        ensures streets { lengths_at self.new ≡ shorter (town_in problem.now) (marked stage.now.marks) (amount stage.now.charge) (lengths_at self.old) }
        ensures crossings { potential_at self.new ≡ lower (reached_in problem.now) (marked stage.now.marks) (amount stage.now.charge) (potential_at self.old) }
    {
        self.shift(problem, &stage.marks, legs, -stage.charge);
    }

    // Puts the charge of a stage back on the streets that its class cuts, and on the crossings outside.
    pub(crate) fn restore(&mut self, problem: &Problem, stage: &Stage, legs: &[Leg])
        requires listed { Bordered (town_in problem.now) (marked stage.now.marks) legs.now }
        requires streets { (k : ℕ) → k < size (town_in problem.now) → cuts (town_in problem.now) (marked stage.now.marks) k ≡ true → lengths_at self.old k + amount stage.now.charge ≤ 4000000000 }
        requires crossings { (u : ℕ) → reached_in problem.now u ≡ true → marked stage.now.marks u ≡ false → potential_at self.old u + amount stage.now.charge ≤ 1200000000000 }
        ensures streets { lengths_at self.new ≡ longer (town_in problem.now) (marked stage.now.marks) (amount stage.now.charge) (lengths_at self.old) }
        ensures crossings { potential_at self.new ≡ higher (reached_in problem.now) (marked stage.now.marks) (amount stage.now.charge) (potential_at self.old) }
    {
        self.shift(problem, &stage.marks, legs, stage.charge);
    }
}
