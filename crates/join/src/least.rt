// Least extra drives to every crossing, and the charged classes that show that they are least.
ghost use Rattle.std.specs.Prelude.{◌≡◌, ℕ, ◌<◌, ◌≤◌, length};
ghost use Rattle.road.specs.Counts.{all};
ghost use Rattle.road.specs.Reach.{reached as come};
ghost use Rattle.road.specs.Model.{model, marked};
ghost use Rattle.join.specs.Drives.{drives_of, price_of};
ghost use Rattle.join.specs.Certified.{charge_at, double, AllJoin, AllPriced, AllOdd, AllBear, AllSum, AllSome};

use crate::drives::PricedDrives;
use crate::turn::Stage;
use road::SoundTown;

// For each crossing that can be come to from the depot, a set of extra drives with its price in half metres, and the stages at which classes were charged.
// Passes and turns say how long it took to find them.
// What can be come to stands beside the sets, and not as an `Option` of each: it is lent as a set of crossings by itself.
#[derive(Drop)]
pub struct LeastDrives<'t> {
    pub town: &'t SoundTown,
    pub reached: [bool; 100],
    pub extra: Vec<PricedDrives>,
    pub stages: Vec<Stage>,
    pub passes: u64,
    pub turns: u64,
    ghost places: { length reached ≡ 100 },
    ghost rows: { length extra.items ≡ 100 },
    ghost found: { (u : ℕ) → marked reached u ≡ come (model town.now.town) town.now.town.depot u },
    ghost small: { (i : ℕ) → i < length stages.items → charge_at stages.items i ≤ 10000000 },
    ghost joins: { AllJoin (model town.now.town) all town.now.town.depot (marked reached) (drives_of extra.items) },
    ghost costs: { AllPriced (model town.now.town) (double (model town.now.town)) (marked reached) (price_of extra.items) (drives_of extra.items) },
    ghost odd: { AllOdd (model town.now.town) all town.now.town.depot stages.items },
    ghost bears: { AllBear (model town.now.town) (double (model town.now.town)) stages.items },
    ghost sums: { AllSum (marked reached) (price_of extra.items) stages.items },
    ghost some: { AllSome stages.items },
    ghost few: { length stages.items ≤ 400 },
}
