// The streets of a town, one by one and all together.
ghost use Rattle.std.specs.Prelude.{◌≡◌, ◌≤◌};
ghost use Rattle.road.specs.Roads.{street, all_streets};
ghost use Rattle.road.specs.Limits.{Within};
ghost use Rattle.road.specs.Model.{model};

use crate::{Street, Town};

impl Town {
    // The streets, by their numbers.
    pub fn streets(&self) -> &[Street]
        ensures { result.now ≡ (model self.now).streets }
    {
        &self.streets[..self.count]
    }

    // Street k; past the last a street of no length at crossing 0.
    pub fn street(&self, k: usize) -> Street
        ensures is { result ≡ street (model self.now) k }
        ensures within { Within self.now.crossings result }
    {
        self.streets().get(k).copied().unwrap_or_default()
    }

    // All streets together, in metres.
    pub fn all_streets(&self) -> u64
        ensures is { result ≡ all_streets (model self.now).streets }
        ensures most { result ≤ 30000000 }
    {
        self.streets().iter().map(|street| street.long).sum()
    }
}
