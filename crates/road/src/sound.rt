// A town whose streets can all be come to from the depot.
ghost use Rattle.std.specs.Prelude.{◌≡◌, ℕ, ◌<◌, true};
ghost use Rattle.road.specs.Counts.{one, size};
ghost use Rattle.road.specs.Reach.{reached};
ghost use Rattle.road.specs.Model.{model};

use crate::Town;

#[derive(Drop)]
pub struct SoundTown {
    pub town: Town,
    ghost reached: { (k : ℕ) → k < size (model town) → reached (model town) town.depot (one (model town) k) ≡ true },
}
