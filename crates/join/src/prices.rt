// For each crossing a set of extra drives, with what it costs.
ghost use Rattle.std.specs.Prelude.{◌≡◌, ℕ, ◌≤◌, true, length};
ghost use Rattle.join.specs.Joins.{Joins, cost};
ghost use Rattle.join.specs.Problems.{town_in, costs_in, start_in, reached_in};
ghost use Rattle.join.specs.Drives.{drives_of, price_of};

use crate::drives::PricedDrives;
use crate::problem::Problem;

// The set for a crossing that can be come to leads there. What changes a set says that the problem stays.
#[derive(Drop)]
pub(crate) struct Prices<'t, 'c> {
    pub problem: Problem<'t, 'c>,
    pub extra: Vec<PricedDrives>,
    ghost rows: { length extra.items ≡ 100 },
    ghost high: { (u : ℕ) → price_of extra.items u ≤ 1200000000000 },
    ghost joins: { (u : ℕ) → reached_in problem u ≡ true → Joins (town_in problem) (start_in problem) u (drives_of extra.items u) },
    ghost costs: { (u : ℕ) → reached_in problem u ≡ true → price_of extra.items u ≡ cost (town_in problem) (costs_in problem) (drives_of extra.items u) },
}
