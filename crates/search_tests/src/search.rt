// The length of a shortest round, by a search through all drives from the depot.
use test_towns::Quarter;

// No drive is so long.
const FAR: u64 = u64::MAX;

// The least length that was found of a drive from the depot, by the set of streets that it drives and the crossing where it ends.
// Street k is in the set if bit k is. At most eight streets and four crossings.
#[derive(Drop)]
pub(crate) struct Search<'a> {
    streets: &'a [[u64; 3]],
    depot: u64,
    least: [[u64; 4]; 256],
}

impl<'a> Search<'a> {
    // Sweeps until nothing changes. There are 1024 sets and crossings, and some shortest drive comes to none of them twice, so as many sweeps suffice.
    pub(crate) fn new(quarter: Quarter<'a>) -> Search<'a> {
        let mut search = Search {
            streets: quarter.streets(),
            depot: quarter.depot,
            least: [[FAR; 4]; 256],
        };
        search.offer(0, quarter.depot, 0);
        for _ in 0..1024 {
            if !search.sweep() {
                break;
            }
        }
        search
    }

    fn at(&self, set: usize, v: u64) -> u64 {
        self.least[set % 256][(v % 4) as usize]
    }

    // Keeps a length if it is less than what was found before, and says whether it is.
    fn offer(&mut self, set: usize, v: u64, long: u64) -> bool {
        let least = &mut self.least[set % 256][(v % 4) as usize];
        let less = long < *least;
        if less {
            *least = long;
        }
        less
    }

    // Drives street k from a crossing, if it has an end there.
    fn drive(&mut self, set: usize, v: u64, k: usize, street: [u64; 3]) -> bool {
        let [one, two, long] = street;
        let driven = set | 1 << (k % 8);
        let length = self.at(set, v).saturating_add(long);
        let there = one == v && self.offer(driven, two, length);
        let back = two == v && self.offer(driven, one, length);
        there || back
    }

    // Drives every street that has an end at a crossing.
    fn leave(&mut self, set: usize, v: u64) -> bool {
        let mut less = false;
        for (k, street) in self.streets.iter().enumerate() {
            less |= self.drive(set, v, k, *street);
        }
        less
    }

    fn leave_all(&mut self, set: usize) -> bool {
        let mut less = false;
        for v in 0..4 {
            less |= self.leave(set, v);
        }
        less
    }

    // Goes on from every set and crossing by one street, and says whether something became less.
    pub(crate) fn sweep(&mut self) -> bool {
        let mut less = false;
        for set in 0..1 << self.streets.len().min(8) {
            less |= self.leave_all(set);
        }
        less
    }

    // The length of a shortest round, if there is one: a drive over all streets that ends at the depot.
    pub(crate) fn shortest_round(&self) -> Option<u64> {
        let all = (1usize << self.streets.len().min(8)).saturating_sub(1);
        Some(self.at(all, self.depot)).filter(|length| *length < FAR)
    }

    // Whether some drive is over street k.
    fn is_driven(&self, k: usize) -> bool {
        let mut sets = self.least.iter().enumerate();
        sets.any(|(set, ends)| set >> (k % 8) & 1 == 1 && ends.iter().any(|length| *length < FAR))
    }

    // The first street that no drive is over.
    pub(crate) fn first_unreached(&self) -> Option<usize> {
        (0..self.streets.len()).find(|k| !self.is_driven(*k))
    }
}
