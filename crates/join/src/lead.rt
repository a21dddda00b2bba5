// Sets led on from the crossings whose prices have changed, over single legs or along walks.
ghost use Rattle.std.specs.Prelude.{◌<◌, ⊤};
ghost use Rattle.join.specs.Prices.{Lowered};

use crate::prices::Prices;
use road::Leg;

// How far a set is led on.
#[derive(Clone, Copy)]
pub(crate) enum Lead {
    // Over one leg.
    Leg,
    // Along an alternating walk.
    Walk,
}

// For each crossing its price when its set was last led on over its legs, and along walks; a number below 0 where it was not yet.
#[derive(Drop)]
pub(crate) struct Visits {
    pub legs: [i64; 100],
    pub walks: [i64; 100],
}

impl Prices<'_, '_> {
    // Leads the set for the beginning of a leg on, and says whether a set is cheaper.
    fn lead(&mut self, leg: Leg, how: Lead) -> bool
        requires { leg.by < self.old.problem.streets.town.now.count }
        ensures { Lowered self.old self.new result ⊤ }
    {
        match how {
            Lead::Leg => self.relax_over(leg),
            Lead::Walk => self.walk(leg),
        }
    }

    // Leads the set for crossing x on by each leg that begins there, and says whether a set is cheaper.
    fn lead_from(&mut self, x: usize, how: Lead) -> bool
        requires { x < self.old.problem.streets.town.now.crossings }
        ensures { Lowered self.old self.new result ⊤ }
    {
        let problem = self.problem;
        let mut lower = false;
        for leg in problem.stars[x].as_slice() {
            lower |= self.lead(*leg, how);
        }
        lower
    }

    // Leads the sets on for the crossings whose prices are others than when this was last done, and says whether a set is cheaper.
    pub(crate) fn lead_all(&mut self, visited: &mut [i64; 100], how: Lead) -> bool
        ensures { Lowered self.old self.new result ⊤ }
    {
        let mut lower = false;
        for x in 0..self.problem.streets.town.crossings {
            let price = self.price_for(x);
            if visited[x] != price {
                visited[x] = price;
                lower |= self.lead_from(x, how);
            }
        }
        lower
    }
}
