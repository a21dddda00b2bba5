// Random towns, small ones beside the least cost of all sets of streets.
use crate::shown::check_shown;
use join::LeastDrives;
use road::SoundTown;
use std::alloc::AllocGlobal;
use std::array;
use std::process::Abort;
use std::test::Fail;
use test_towns::{Quarter, Random};

// More than any cost.
const FAR: u64 = 1_000_000;

// Streets of lengths below a limit. Each of the first leads from a new crossing to one before it, so that all can be come to from crossing 0.
fn streets<const N: usize>(random: &mut Random, crossings: u64, limit: u64) -> [[u64; 3]; N] {
    array::from_fn(|k| {
        let next = (k as u64).saturating_add(1);
        if next < crossings {
            [next, random.below(next), random.below(limit)]
        } else {
            random.street(crossings, limit)
        }
    })
}

// Crossing v of eight, as one bit.
fn bit(v: u64) -> u8 {
    1 << (v % 8)
}

// Which crossings the streets of a set make odd, and what they cost in half metres; street k is in the set if bit k is.
fn odd_and_cost(streets: &[[u64; 3]], set: u64) -> (u8, u64) {
    let mut odd = 0;
    let mut cost = 0u64;
    let mut left = set;
    for [one, two, long] in streets {
        if left % 2 == 1 {
            odd ^= bit(*one) ^ bit(*two);
            cost = cost.saturating_add(long.saturating_mul(2));
        }
        left /= 2;
    }
    (odd, cost)
}

// The least cost of a set of streets, by the crossings that it makes odd.
#[derive(Drop)]
struct Costs {
    least: [u64; 256],
}

impl Costs {
    fn at(&self, odd: u8) -> u64 {
        self.least[usize::from(odd)]
    }

    // Looks at every set of at most 14 streets.
    fn of(streets: &[[u64; 3]]) -> Costs {
        let mut costs = Costs { least: [FAR; 256] };
        for set in 0..1 << 14 {
            let (odd, cost) = odd_and_cost(streets, set);
            let least = &mut costs.least[usize::from(odd)];
            *least = cost.min(*least);
        }
        costs
    }
}

// Checks the prices of a town of at most 8 crossings and 14 streets beside the least of all sets.
fn check_small(rt: &(impl Abort + AllocGlobal), quarter: Quarter) -> Result<(), Fail> {
    let town = SoundTown::take(quarter.crossings, quarter.numbers, quarter.depot)?;
    let drives = LeastDrives::new(&town, rt.alloc())?;
    check_shown(rt, &drives);
    let streets = quarter.streets();
    let costs = Costs::of(streets);
    let (odd, _) = odd_and_cost(streets, u64::MAX);
    for (u, (reached, set)) in (0..8).zip(drives.reached.iter().zip(&drives.extra)) {
        let cost = costs.at(odd ^ bit(quarter.depot) ^ bit(u));
        if *reached {
            assert_eq!(rt; set.price.unsigned_abs(), cost);
        } else {
            assert_eq!(rt; cost, FAR);
        }
    }
    Ok(())
}

#[test]
fn small_towns(rt: HostRuntime) -> Result<(), Fail> {
    let mut random = Random { seed: 1 };
    for _ in 0..60 {
        let crossings = 1 + random.below(8);
        let count = random.below(15) as usize;
        let streets = streets::<14>(&mut random, crossings, 4);
        let depot = random.below(crossings.min(count as u64 + 1));
        check_small(&rt, Quarter::new(crossings, &streets[..count], depot))?;
    }
    Ok(())
}

// A town of as many crossings and streets as may be.
fn check_large(
    rt: &(impl Abort + AllocGlobal),
    random: &mut Random,
    limit: u64,
) -> Result<(), Fail> {
    let streets = streets::<300>(random, 100, limit);
    let town = SoundTown::take(100, streets.as_flattened(), 0)?;
    let drives = LeastDrives::new(&town, rt.alloc())?;
    check_shown(rt, &drives);
    Ok(())
}

#[test]
fn large_towns(rt: HostRuntime) -> Result<(), Fail> {
    let mut random = Random { seed: 2 };
    check_large(&rt, &mut random, 2)?;
    check_large(&rt, &mut random, 10)?;
    check_large(&rt, &mut random, 100_001)
}
