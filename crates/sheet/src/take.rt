// Parts taken from numbers, or turned away.
ghost use Rattle.std.specs.Prelude.{◌≡◌, ℕ, ◌+◌, ◌*◌, ◌/◌, ◌<◌, ◌≤◌, length, slice_index};
ghost use Rattle.road.specs.Refusals.{Answers};
ghost use Rattle.sheet.specs.Words.{whole_refusal, count_refusal, weight_refusal, parts_refusal};

use crate::parts::Parts;
use road::{Refusal, Town};

fn check_whole(town: &Town, numbers: &[u64]) -> Result<(), Refusal>
    ensures { Answers (whole_refusal town.now.crossings numbers.now) (λ _. length numbers.now ≡ (length numbers.now / (1 + town.now.crossings)) * (1 + town.now.crossings)) result }
{
    if numbers.len() % (1 + town.crossings) == 0 {
        Ok(())
    } else {
        Err(Refusal::Parts(numbers.len() as u64))
    }
}

fn check_count(town: &Town, numbers: &[u64]) -> Result<(), Refusal>
    ensures { Answers (count_refusal town.now.crossings numbers.now) (λ _. length numbers.now / (1 + town.now.crossings) ≤ 400) result }
{
    let count = numbers.len() / (1 + town.crossings);
    if count <= 400 {
        Ok(())
    } else {
        Err(Refusal::Parts(count as u64))
    }
}

fn check_weights(town: &Town, numbers: &[u64]) -> Result<(), Refusal>
    ensures { Answers (weight_refusal town.now.crossings numbers.now) (λ _. (i : ℕ) → i < length numbers.now / (1 + town.now.crossings) → slice_index numbers.now (i * (1 + town.now.crossings)) ≤ 10000000) result }
{
    numbers
        .chunks_exact(1 + town.crossings)
        .position(|part| part[0] > 10_000_000)
        .map_or(Ok(()), |i| Err(Refusal::Parts(i as u64)))
}

impl<'t, 'n> Parts<'t, 'n> {
    // The parts of these numbers, or refusal 8.
    pub(crate) fn take(town: &'t Town, numbers: &'n [u64]) -> Result<Parts<'t, 'n>, Refusal>
        ensures { Answers (parts_refusal town.now.crossings numbers.now)
            (λ p. (p.town.now ≡ town.now) × (p.numbers.now ≡ numbers.now)) result }
    {
        check_whole(town, numbers)?;
        check_count(town, numbers)?;
        check_weights(town, numbers)?;
        Ok(Parts { town, numbers })
    }
}
