// What the planner refuses of a town, with its place, and that it leaves the rooms as they were.
use crate::rooms::Rooms;
use road::Refusal;
use round::{NoPlan, plan_and_check, plan_round};
use std::alloc::AllocGlobal;
use std::process::Abort;
use std::test::*;
use test_towns::{APART, Quarter, ROAD};

// Checks that both planners refuse a town.
fn check_refused(
    rt: &(impl Abort + AllocGlobal),
    quarter: Quarter,
    refusal: Refusal,
) -> Result<(), Fail> {
    let Quarter {
        crossings,
        numbers,
        depot,
    } = quarter;
    let heap = rt.alloc();
    let mut rooms = Rooms::new(heap, 4, 5)?;
    let legs = &mut rooms.legs;
    let parts = &mut rooms.parts;
    let planned = plan_round(crossings, numbers, depot, legs, parts, heap);
    assert_eq!(rt; planned.err(), Some(NoPlan::Refused(refusal)));
    let checked = plan_and_check(crossings, numbers, depot, legs, parts, heap);
    assert_eq!(rt; checked.err(), Some(NoPlan::Refused(refusal)));
    rooms.check_filled(rt, 0, 0)
}

#[test]
fn crossings(rt: HostRuntime) -> Result<(), Fail> {
    check_refused(&rt, Quarter::new(0, &[], 0), Refusal::Crossings(0))?;
    check_refused(&rt, Quarter::new(101, &ROAD, 0), Refusal::Crossings(101))?;
    check_refused(
        &rt,
        Quarter::new(u64::MAX, &ROAD, 0),
        Refusal::Crossings(u64::MAX),
    )
}

#[test]
fn numbers(rt: HostRuntime) -> Result<(), Fail> {
    check_refused(
        &rt,
        Quarter::of_numbers(2, &[0, 1, 7, 1], 0),
        Refusal::Numbers(4),
    )?;
    check_refused(&rt, Quarter::of_numbers(2, &[0, 1], 0), Refusal::Numbers(2))?;
    check_refused(
        &rt,
        Quarter::of_numbers(1, &[0; 903], 0),
        Refusal::Numbers(903),
    )
}

#[test]
fn streets(rt: HostRuntime) -> Result<(), Fail> {
    check_refused(
        &rt,
        Quarter::new(2, &[[2, 1, 7]], 0),
        Refusal::OutOfRange(0),
    )?;
    check_refused(
        &rt,
        Quarter::new(2, &[[0, 1, 7], [1, 2, 7]], 0),
        Refusal::OutOfRange(1),
    )?;
    check_refused(
        &rt,
        Quarter::new(2, &[[0, 1, 7], [1, 0, 100_001]], 0),
        Refusal::OutOfRange(1),
    )
}

#[test]
fn depots(rt: HostRuntime) -> Result<(), Fail> {
    check_refused(&rt, Quarter::new(2, &ROAD, 2), Refusal::Depot(2))?;
    check_refused(
        &rt,
        Quarter::new(1, &[], u64::MAX),
        Refusal::Depot(u64::MAX),
    )
}

#[test]
fn unreached(rt: HostRuntime) -> Result<(), Fail> {
    check_refused(&rt, Quarter::new(3, &ROAD, 2), Refusal::Unreached(0))?;
    check_refused(&rt, Quarter::new(4, &APART, 0), Refusal::Unreached(1))?;
    check_refused(&rt, Quarter::new(4, &APART, 3), Refusal::Unreached(0))
}

// Where more than one is due the first of the list is given.
#[test]
fn order(rt: HostRuntime) -> Result<(), Fail> {
    check_refused(
        &rt,
        Quarter::of_numbers(0, &[0, 1], 0),
        Refusal::Crossings(0),
    )?;
    check_refused(&rt, Quarter::of_numbers(2, &[0, 9], 5), Refusal::Numbers(2))?;
    check_refused(
        &rt,
        Quarter::new(2, &[[0, 9, 1]], 5),
        Refusal::OutOfRange(0),
    )?;
    check_refused(&rt, Quarter::new(4, &APART, 4), Refusal::Depot(4))?;
    check_refused(&rt, Quarter::new(5, &APART, 4), Refusal::Unreached(0))
}
