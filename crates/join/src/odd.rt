// Crossings at which a set of streets has an odd number of ends.
ghost use Rattle.std.specs.Prelude.{◌≡◌, ℕ, ◌<◌, true, false, MatchOption, length};
ghost use Rattle.road.specs.Roads.{pick};
ghost use Rattle.road.specs.Counts.{one, two};
ghost use Rattle.road.specs.Model.{model, marked};
ghost use Rattle.join.specs.Joins.{◌⊞◌, single};
ghost use Rattle.join.specs.Odd.{odd_at};

use crate::subgraph::Subgraph;
use road::Town;

impl Subgraph<'_> {
    // Turns the marks of both ends of street k, if it is in the set.
    fn turn_ends(&self, odd: &mut [bool; 100], k: usize)
        requires { k < self.now.town.now.count }
        ensures { marked odd.new ≡ pick (marked self.now.set.now k) ((marked odd.old ⊞ single (one (model self.now.town.now) k)) ⊞ single (two (model self.now.town.now) k)) (marked odd.old) }
    {
        if self.set[k] {
            let street = self.town.street(k);
            odd[street.one] = !odd[street.one];
            odd[street.two] = !odd[street.two];
        }
    }

    // The odd crossings.
    pub(crate) fn odd(&self) -> [bool; 100]
        ensures { (v : ℕ) → marked result v ≡ odd_at (model self.now.town.now) (marked self.now.set.now) v }
    {
        let mut odd = [false; 100];
        for k in 0..self.town.count {
            self.turn_ends(&mut odd, k);
        }
        odd
    }
}

// The first odd crossing.
pub fn first_odd(town: &Town, set: &[bool; 300]) -> Option<usize>
    ensures { MatchOption result ((v : ℕ) → v < town.now.crossings → odd_at (model town.now) (marked set.now) v ≡ false)
        (λ v. (v < town.now.crossings) × (odd_at (model town.now) (marked set.now) v ≡ true)) }
{
    let odd = Subgraph { town, set }.odd();
    (0..town.crossings).find(|&v| odd[v])
}
