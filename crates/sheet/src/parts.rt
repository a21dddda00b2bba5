// The parts of a sheet of a town, over lent numbers.
ghost use Rattle.std.specs.Prelude.{◌≡◌, ℕ, ◌+◌, ◌*◌, ◌/◌, ◌<◌, ◌≤◌, length, slice_index};

use road::Town;

// For each part its weight and then a mark for each crossing.
// A part goes by its number, with the bound on it in contracts, and is no slice of its own: the first part that breaks a rule is told by its number, and a list of slices would be numbered again.
#[derive(Clone, Copy)]
pub struct Parts<'t, 'n> {
    pub town: &'t Town,
    pub numbers: &'n [u64],
    ghost few: { length numbers.now / (1 + town.now.crossings) ≤ 400 },
    ghost whole: { length numbers.now ≡ (length numbers.now / (1 + town.now.crossings)) * (1 + town.now.crossings) },
    ghost light: { (i : ℕ) → i < length numbers.now / (1 + town.now.crossings) → slice_index numbers.now (i * (1 + town.now.crossings)) ≤ 10000000 },
}
