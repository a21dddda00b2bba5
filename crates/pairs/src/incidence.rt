// A town with the streets at each crossing.
ghost use Rattle.std.specs.Prelude.{◌≡◌, ◌+◌, ◌<◌};
ghost use Rattle.road.specs.Model.{model};
ghost use Rattle.pairs.specs.Incidences.{Skips, Listed};

use crate::lists::StreetLists;
use road::Town;

#[derive(Drop)]
pub struct Incidence<'t> {
    pub town: &'t Town,
    lists: StreetLists,
    ghost listed: { Listed (model town.now) 0 lists },
}

impl<'t> Incidence<'t> {
    // The town with the lists of all its streets.
    pub fn new(town: &'t Town) -> Incidence<'t>
        ensures { result.town.now ≡ town.now }
    {
        Incidence {
            town,
            lists: StreetLists::new(town),
        }
    }

    // A street before which none has an end at a crossing; past the crossings the number of streets, since no street ends there.
    pub(crate) fn first(&self, at: usize) -> usize
        ensures { Skips (model self.now.town.now) at 0 result }
    {
        if at < self.town.crossings {
            self.lists.first[at]
        } else {
            self.town.count
        }
    }

    // A street after street k, before which none after k has an end at a crossing.
    pub(crate) fn after(&self, k: usize, at: usize) -> usize
        requires { k < self.now.town.now.count }
        ensures { Skips (model self.now.town.now) at (k + 1) result }
    {
        let street = self.town.street(k);
        if street.one == at {
            self.lists.after_one[k]
        } else if street.two == at {
            self.lists.after_two[k]
        } else {
            k + 1
        }
    }
}
