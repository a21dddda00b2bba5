// Towns of up to four crossings and up to eight streets, at random.
use std::alloc::{AllocError, Global};
use test_towns::{Quarter, Random};

#[derive(Drop)]
pub(crate) struct SmallTown {
    crossings: u64,
    streets: Vec<[u64; 3]>,
    depot: u64,
}

impl SmallTown {
    // Streets of 0 to 4 metres, in some towns all shorter. Their ends are at random, so there are loops, streets with the same ends, and streets that cannot be come to.
    pub(crate) fn new(random: &mut Random, heap: Global) -> Result<SmallTown, AllocError> {
        let crossings = random.below(4).saturating_add(1);
        let count = random.below(9);
        let limit = random.below(5).saturating_add(1);
        let depot = random.below(crossings);
        let streets = (0..count).map(|_| random.street(crossings, limit));
        Ok(SmallTown {
            crossings,
            streets: streets.collect(heap)?,
            depot,
        })
    }

    pub(crate) fn quarter(&self) -> Quarter<'_> {
        Quarter::new(self.crossings, &self.streets, self.depot)
    }
}
