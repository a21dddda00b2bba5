// A town with the streets that have to be driven, what it costs to drive each street once more, the crossings that can be come to, and the star of each crossing.
ghost use Rattle.std.specs.Prelude.{◌≡◌, ℕ, ◌%◌, ◌<◌, true, length};
ghost use Rattle.road.specs.Counts.{size, one, two};
ghost use Rattle.road.specs.Model.{model, marked};
ghost use Rattle.join.specs.Amounts.{number};
ghost use Rattle.join.specs.Borders.{Stars};

use crate::weighted::Weighted;
use road::Leg;

// The lengths of the streets are what they cost, in half metres, and even. Drives begin at the depot.
#[derive(Clone, Copy)]
pub(crate) struct Problem<'t, 'c> {
    pub streets: Weighted<'t, 'c>,
    pub required: &'c [bool; 300],
    pub reached: &'c [bool; 100],
    pub stars: &'c [Vec<Leg>],
    ghost places: { length reached.now ≡ 100 },
    ghost rows: { Stars (model streets.town.now) stars.now streets.town.now.crossings },
    ghost even: { (k : ℕ) → number streets.lengths.now k % 2 ≡ 0 },
    ghost home: { marked reached.now streets.town.now.depot ≡ true },
    ghost ones: { (k : ℕ) → k < size (model streets.town.now) → marked reached.now (one (model streets.town.now) k) ≡ true },
    ghost twos: { (k : ℕ) → k < size (model streets.town.now) → marked reached.now (two (model streets.town.now) k) ≡ true },
}
