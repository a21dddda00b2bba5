// A town taken from numbers, or turned away.
ghost use Rattle.std.specs.Prelude.{◌≡◌, ℕ, ◌/◌, ◌<◌, ◌≤◌, length, take};
ghost use Rattle.road.specs.Roads.{street};
ghost use Rattle.road.specs.Limits.{Within, within};
ghost use Rattle.road.specs.Numbers.{streets_in, town_in};
ghost use Rattle.road.specs.Refusals.{Answers, crossings_refusal, numbers_refusal, streets_refusal, depot_refusal, town_refusal};
ghost use Rattle.road.specs.Model.{model};

use crate::{Refusal, Street, Town};

impl Street {
    // Whether the ends are crossings and the length is within its limit.
    fn is_within(&self, crossings: usize) -> bool
        ensures { result ≡ within crossings self.now }
    {
        self.one < crossings && self.two < crossings && self.long <= 100_000
    }
}

fn check_crossings(crossings: u64) -> Result<(), Refusal>
    ensures { Answers (crossings_refusal crossings) (λ _. (1 ≤ crossings) × (crossings ≤ 100)) result }
{
    if (1..=100).contains(&crossings) {
        Ok(())
    } else {
        Err(Refusal::Crossings(crossings))
    }
}

fn check_numbers(numbers: &[u64]) -> Result<(), Refusal>
    ensures { Answers (numbers_refusal numbers.now) (λ _. length numbers.now / 3 ≤ 300) result }
{
    if numbers.len() % 3 == 0 && numbers.len() / 3 <= 300 {
        Ok(())
    } else {
        Err(Refusal::Numbers(numbers.len() as u64))
    }
}

fn check_streets(crossings: usize, numbers: &[u64]) -> Result<(), Refusal>
    ensures { Answers (streets_refusal (town_in crossings numbers.now)) (λ _. (k : ℕ) → k < length numbers.now / 3 → Within crossings (street (town_in crossings numbers.now) k)) result }
{
    let (streets, _) = numbers.as_chunks::<3>();
    streets
        .iter()
        .position(|street| !Street::from(*street).is_within(crossings))
        .map_or(Ok(()), |k| Err(Refusal::OutOfRange(k as u64)))
}

fn check_depot(crossings: u64, depot: u64) -> Result<(), Refusal>
    ensures { Answers (depot_refusal crossings depot) (λ _. depot < crossings) result }
{
    if depot < crossings {
        Ok(())
    } else {
        Err(Refusal::Depot(depot))
    }
}

fn read_streets(numbers: &[u64]) -> [Street; 300]
    requires { length numbers.now / 3 ≤ 300 }
    ensures places { length result ≡ 300 }
    ensures streets { take (length numbers.now / 3) result ≡ streets_in (length numbers.now / 3) numbers.now }
{
    let (chunks, _) = numbers.as_chunks::<3>();
    let mut streets = [Street::default(); 300];
    // As many turns as there are streets: `from_fn` would take 300.
    for (k, chunk) in chunks.iter().enumerate() {
        streets[k] = Street::from(*chunk);
    }
    streets
}

impl Town {
    // The town of these numbers, three for each street; or the first refusal of 1 to 4 that applies. The three are a town, and one thing, only when they are taken.
    pub fn take(crossings: u64, numbers: &[u64], depot: u64) -> Result<Town, Refusal>
        ensures { Answers (town_refusal crossings numbers.now depot) (λ t. (model t ≡ town_in crossings numbers.now) × (t.depot ≡ depot)) result }
    {
        check_crossings(crossings)?;
        check_numbers(numbers)?;
        check_streets(crossings as usize, numbers)?;
        check_depot(crossings, depot)?;
        let streets = read_streets(numbers);
        Ok(Town {
            crossings: crossings as usize,
            depot: depot as usize,
            count: numbers.len() / 3,
            streets,
        })
    }
}
