// Lists of the streets at each crossing, in the order of their numbers.
use road::Town;

// For each crossing the first street there, and for each street the next one at either end; the number of streets where there is none.
// No `Vec` for each crossing, since making the lists allocates nothing.
#[derive(Drop)]
pub(crate) struct StreetLists {
    pub first: [usize; 100],
    pub after_one: [usize; 300],
    pub after_two: [usize; 300],
}

impl StreetLists {
    ghost use Rattle.std.specs.Prelude.{◌+◌, ◌<◌};
    ghost use Rattle.road.specs.Model.{model};
    ghost use Rattle.pairs.specs.Incidences.{Listed};

    // Lists of no street.
    fn empty(town: &Town) -> StreetLists
        ensures { Listed (model town.now) town.now.count result }
    {
        StreetLists {
            first: [town.count; 100],
            after_one: [0; 300],
            after_two: [0; 300],
        }
    }

    // Puts street k first at its ends, where the lists have all streets after it.
    fn put(&mut self, town: &Town, k: usize)
        requires below { k < town.now.count }
        requires listed { Listed (model town.now) (k + 1) self.old }
        ensures { Listed (model town.now) k self.new }
    {
        let street = town.street(k);
        self.after_one[k] = self.first[street.one];
        self.after_two[k] = self.first[street.two];
        self.first[street.one] = k;
        self.first[street.two] = k;
    }

    // The lists of all streets.
    pub(crate) fn new(town: &Town) -> StreetLists
        ensures { Listed (model town.now) 0 result }
    {
        let mut lists = StreetLists::empty(town);
        for k in (0..town.count).rev() {
            lists.put(town, k);
        }
        lists
    }
}
