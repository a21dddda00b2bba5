// Whether every street of a town can be come to.
ghost use Rattle.std.specs.Prelude.{◌≡◌, ℕ, ◌<◌, true};
ghost use Rattle.road.specs.Counts.{one, size};
ghost use Rattle.road.specs.Reach.{reached};
ghost use Rattle.road.specs.Refusals.{Answers, reach_refusal, plan_refusal};
ghost use Rattle.road.specs.Model.{model};
ghost use Rattle.road.specs.Numbers.{town_in};

use crate::{Refusal, SoundTown, Town};

impl Town {
    // Refuses the first street that cannot be come to.
    fn check_reach(&self) -> Result<(), Refusal>
        ensures { Answers (reach_refusal (model self.now) self.now.depot) (λ _. (k : ℕ) → k < size (model self.now) → reached (model self.now) self.now.depot (one (model self.now) k) ≡ true) result }
    {
        let marks = self.come_to();
        (0..self.count)
            .find(|&k| !marks[self.street(k).one])
            .map_or(Ok(()), |k| Err(Refusal::Unreached(k as u64)))
    }
}

impl SoundTown {
    // The same town, if every street can be come to; else refusal 5.
    pub fn new(town: Town) -> Result<SoundTown, Refusal>
        ensures { Answers (reach_refusal (model town) town.depot) (λ s. s.town ≡ town) result }
    {
        town.check_reach()?;
        Ok(SoundTown { town })
    }

    // The town of these numbers, if it is within the limits and every street can be come to; else the first refusal of 1 to 5 that applies.
    pub fn take(crossings: u64, numbers: &[u64], depot: u64) -> Result<SoundTown, Refusal>
        ensures { Answers (plan_refusal crossings numbers.now depot) (λ s. (model s.town ≡ town_in crossings numbers.now) × (s.town.depot ≡ depot)) result }
    {
        SoundTown::new(Town::take(crossings, numbers, depot)?)
    }
}
