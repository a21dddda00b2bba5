// The crossing with the least potential, and what its class can be charged.
ghost use Rattle.std.specs.Prelude.{◌≡◌, ℕ, ◌/◌, ◌<◌, ◌≤◌, false, pos, MatchOption};
ghost use Rattle.road.specs.Counts.{size, cut as cuts};
ghost use Rattle.join.specs.Joins.{Room};
ghost use Rattle.join.specs.Borders.{LeadsOut};
ghost use Rattle.join.specs.Weights.{ground, side_of};
ghost use Rattle.join.specs.Problems.{reached_in};
ghost use Rattle.join.specs.Potentials.{Lowest, Tightest, slack as leaves};
ghost use Rattle.join.specs.Turns.{lengths_at, potential_at};

use crate::border::Border;
use crate::level::Level;
use crate::problem::Problem;
use road::Leg;

// Half of an amount.
fn half(amount: i64) -> i64
    ensures { (n : ℕ) → amount ≡ pos n → result ≡ pos (n / 2) }
{
    amount / 2
}

impl Level {
    // A crossing that can be come to, with the least potential.
    pub(crate) fn least(&self, problem: &Problem) -> usize
        ensures below { result < 100 }
        ensures lowest { Lowest (reached_in problem.now) (potential_at self.now) result }
    {
        (0..100).fold(problem.streets.town.depot, |b, u| {
            if problem.reached[u] && self.potential[u] < self.potential[b] {
                u
            } else {
                b
            }
        })
    }

    // How much a street that is cut leaves to be charged.
    fn slack(&self, border: &Border, b: usize, leg: Leg) -> i64
        requires base { b < 100 }
        requires room { Room (ground border.now.cut) (lengths_at self.now) (potential_at self.now) b (side_of border.now.cut) 1 }
        requires out { LeadsOut (ground border.now.cut) (side_of border.now.cut) leg }
        ensures { result ≡ pos (leaves (ground border.now.cut) (lengths_at self.now) (potential_at self.now) b (side_of border.now.cut) leg.by) }
    {
        let y = border.cut.town.end_of(leg);
        half(self.potential[y] + self.lengths[leg.by] - self.potential[b])
    }

    // The least that a cut street leaves to be charged, if a street is cut.
    pub(crate) fn least_slack(&self, border: &Border, b: usize) -> Option<i64>
        requires base { b < 100 }
        requires room { Room (ground border.now.cut) (lengths_at self.now) (potential_at self.now) b (side_of border.now.cut) 1 }
        ensures { MatchOption result ((k : ℕ) → k < size (ground border.now.cut) → cuts (ground border.now.cut) (side_of border.now.cut) k ≡ false)
            (λ e. (k : ℕ) × Tightest (ground border.now.cut) (lengths_at self.now) (potential_at self.now) b (side_of border.now.cut) border.now.cut.town.now.count k
            × (e ≡ pos (leaves (ground border.now.cut) (lengths_at self.now) (potential_at self.now) b (side_of border.now.cut) k))
            × (1 ≤ leaves (ground border.now.cut) (lengths_at self.now) (potential_at self.now) b (side_of border.now.cut) k)) }
    {
        let mut least = None;
        for leg in border.legs {
            let slack = self.slack(border, b, *leg);
            match least {
                Some(before) if before <= slack => {}
                _ => least = Some(slack),
            }
        }
        least
    }
}
