// Towns with their distances from one crossing, by hand.
use crate::common::leads;
use road::Town;
use std::alloc::AllocGlobal;
use std::process::Abort;
use std::test::Fail;
use ways::{NoWays, Ways};

// Checks the distances from a crossing, one for each crossing of the town, and drives each way.
fn check_from(
    rt: &(impl Abort + AllocGlobal),
    town: &Town,
    start: usize,
    distances: &[Option<u64>],
) -> Result<(), Fail> {
    let ways = Ways::new(town, start, rt.alloc())?;
    for (end, distance) in distances.iter().enumerate() {
        assert_eq!(rt; ways.distance(end)?, *distance);
        if let Some(way) = ways.way(end)? {
            assert!(rt; leads(town, way, start, end));
        }
    }
    assert_eq!(rt;
        ways.distance(distances.len()),
        Err(NoWays::NoCrossing(distances.len()))
    );
    Ok(())
}

#[test]
fn one_crossing(rt: HostRuntime) -> Result<(), Fail> {
    check_from(&rt, &Town::take(1, &[], 0)?, 0, &[Some(0)])?;
    check_from(&rt, &Town::take(1, &[0, 0, 7], 0)?, 0, &[Some(0)])
}

#[test]
fn no_length(rt: HostRuntime) -> Result<(), Fail> {
    let town = Town::take(3, &[0, 1, 0, 1, 2, 0, 2, 0, 0], 0)?;
    check_from(&rt, &town, 1, &[Some(0), Some(0), Some(0)])
}

#[test]
fn both_ways(rt: HostRuntime) -> Result<(), Fail> {
    let town = Town::take(3, &[2, 1, 3, 1, 0, 4], 0)?;
    check_from(&rt, &town, 0, &[Some(0), Some(4), Some(7)])?;
    check_from(&rt, &town, 2, &[Some(7), Some(3), Some(0)])
}

#[test]
fn parallel_streets_and_loops(rt: HostRuntime) -> Result<(), Fail> {
    let town = Town::take(2, &[0, 1, 9, 1, 0, 5, 0, 1, 6, 1, 1, 0], 0)?;
    check_from(&rt, &town, 0, &[Some(0), Some(5)])
}

#[test]
fn longer_by_fewer_streets(rt: HostRuntime) -> Result<(), Fail> {
    let streets = [0, 3, 100000, 0, 1, 30000, 1, 2, 30000, 2, 3, 30000];
    let town = Town::take(4, &streets, 0)?;
    check_from(
        &rt,
        &town,
        0,
        &[Some(0), Some(30000), Some(60000), Some(90000)],
    )
}

#[test]
fn apart(rt: HostRuntime) -> Result<(), Fail> {
    let town = Town::take(5, &[0, 1, 2, 2, 3, 4], 0)?;
    check_from(&rt, &town, 0, &[Some(0), Some(2), None, None, None])?;
    check_from(&rt, &town, 4, &[None, None, None, None, Some(0)])
}

#[test]
fn no_such_start(rt: HostRuntime) -> Result<(), Fail> {
    let town = Town::take(2, &[0, 1, 5], 0)?;
    assert_eq!(rt;
        Ways::new(&town, 2, rt.alloc()).err(),
        Some(NoWays::NoCrossing(2))
    );
    Ok(())
}
