// Random small towns, beside distances found by allowing one crossing after the other on the way.
ghost use Rattle.std.specs.Prelude.{◌<◌};

use crate::common::leads;
use road::Town;
use std::alloc::AllocGlobal;
use std::array;
use std::process::Abort;
use std::test::Fail;
use test_towns::Random;
use ways::Ways;

// More than any distance.
const FAR: u64 = 1_000_000;

// Eight streets; many have no length.
fn streets(random: &mut Random, crossings: u64) -> [[u64; 3]; 8] {
    array::from_fn(|_| {
        let [one, two, long] = random.street(crossings, 12);
        [one, two, long.saturating_sub(3)]
    })
}

// The distances between five crossings.
#[derive(Drop)]
struct Table {
    between: [[u64; 5]; 5],
}

// The distances from a crossing, where drives over one at a distance are allowed too.
fn shortened(row: &[u64; 5], distance: u64, rest: &[u64; 5]) -> [u64; 5] {
    array::from_fn(|w| row[w].min(distance.saturating_add(rest[w])))
}

impl Table {
    // Over no street.
    fn apart() -> Table {
        Table {
            between: array::from_fn(|v| array::from_fn(|w| if v == w { 0 } else { FAR })),
        }
    }

    fn shorten(&mut self, v: usize, w: usize, length: u64)
        requires first { v < 5 }
        requires second { w < 5 }
    {
        self.between[v][w] = self.between[v][w].min(length);
    }

    // Over at most one street.
    fn of(streets: &[[u64; 3]]) -> Table {
        let mut table = Table::apart();
        for [one, two, long] in streets {
            let v = (*one % 5) as usize;
            let w = (*two % 5) as usize;
            table.shorten(v, w, *long);
            table.shorten(w, v, *long);
        }
        table
    }

    // Through crossing u too.
    fn through(&self, u: usize) -> Table
        requires { u < 5 }
    {
        Table {
            between: array::from_fn(|v| {
                let row = &self.between[v];
                shortened(row, row[u], &self.between[u])
            }),
        }
    }
}

// The distances from a crossing beside those of another method, and each way driven.
fn check_start(
    rt: &(impl Abort + AllocGlobal),
    town: &Town,
    start: usize,
    row: &[u64; 5],
) -> Result<(), Fail> {
    let ways = Ways::new(town, start, rt.alloc())?;
    for (end, length) in row.iter().enumerate().take(town.crossings) {
        assert_eq!(rt;
            ways.distance(end)?,
            Some(*length).filter(|length| *length < FAR)
        );
        if let Some(way) = ways.way(end)? {
            assert!(rt; leads(town, way, start, end));
        }
    }
    Ok(())
}

fn check_town(
    rt: &(impl Abort + AllocGlobal),
    crossings: u64,
    streets: &[[u64; 3]],
) -> Result<(), Fail> {
    let town = Town::take(crossings, streets.as_flattened(), 0)?;
    let table = (0..5).fold(Table::of(streets), |table, u| table.through(u));
    for (start, row) in table.between.iter().enumerate().take(town.crossings) {
        check_start(rt, &town, start, row)?;
    }
    Ok(())
}

#[test]
fn random_towns(rt: HostRuntime) -> Result<(), Fail> {
    let mut random = Random { seed: 1 };
    for _ in 0..400 {
        let crossings = 1 + random.below(5);
        let streets = streets(&mut random, crossings);
        let count = random.below(9) as usize;
        check_town(&rt, crossings, &streets[..count])?;
    }
    Ok(())
}
