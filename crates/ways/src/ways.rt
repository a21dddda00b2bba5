// The ways from one crossing to each crossing that can be come to.
ghost use Rattle.std.specs.Prelude.{◌≡◌, ◌<◌, ◌≤◌, MatchResult};
ghost use Rattle.std.specs.Option.{option_map};
ghost use Rattle.road.specs.Model.{model};
ghost use Rattle.ways.specs.declared.no_ways.NoWays.TheVariants.{NoCrossing};
ghost use Rattle.ways.specs.Shown.{to, distance_of, places, AllShown, Refuses};

use crate::{NoWays, Way};
use road::Town;
use std::alloc::Global;

// Way v is the way from the start to crossing v. That it is a shortest one (`AllShown`) stands in contracts, since ways don't hold their town.
#[derive(Drop)]
pub struct Ways {
    pub(crate) start: usize,
    pub(crate) ways: Vec<Option<Way>>,
}

impl Ways {
    // A shortest way from the start to each crossing, or none where there is no drive; a start past the crossings is refused.
    pub fn new(town: &Town, start: usize, heap: Global) -> Result<Ways, NoWays>
        ensures { MatchResult result (λ ws. (start < town.now.crossings) × AllShown (model town.now) start ws) (Refuses town.now.crossings start) }
    {
        if start >= town.crossings {
            return Err(NoWays::NoCrossing(start));
        }
        let mut ways = Ways::only_start(start, town, heap)?;
        ways.relax(town, heap)?;
        Ok(ways)
    }

    // The way to a crossing, if there is one; an end past the crossings is refused.
    pub fn way(&self, end: usize) -> Result<Option<&Way>, NoWays>
        ensures { MatchResult result (λ o. (end < places self.now) × (option_map (λ x. x.now) o ≡ to self.now end)) (λ e. (e ≡ NoCrossing end) × (places self.now ≤ end)) }
    {
        let way = self.ways.get(end).ok_or(NoWays::NoCrossing(end))?;
        Ok(way.as_ref())
    }

    // The length of a shortest drive to a crossing, if there is a drive; an end past the crossings is refused.
    pub fn distance(&self, end: usize) -> Result<Option<u64>, NoWays>
        ensures { MatchResult result (λ d. (end < places self.now) × (d ≡ distance_of (to self.now end))) (λ e. (e ≡ NoCrossing end) × (places self.now ≤ end)) }
    {
        Ok(self.way(end)?.map(|way| way.length))
    }
}
