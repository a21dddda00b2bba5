// Towns by hand, with the length of their shortest rounds, which is the same from every depot.
use crate::planned::check_town;
use std::test::*;
use test_towns::{FOUR_COMPLETE, LOOP, PARALLEL, QUARTER, ROAD, STAR, TWO_RINGS, TWO_ROWS};

#[test]
fn few_crossings(rt: HostRuntime) -> Result<(), Fail> {
    check_town(&rt, 3, &[[0, 1, 3], [1, 2, 4], [2, 0, 5]], 12)?;
    check_town(&rt, 2, &ROAD, 14)?;
    check_town(&rt, 2, &PARALLEL, 12)?;
    check_town(&rt, 4, &STAR, 18)?;
    check_town(&rt, 2, &LOOP, 11)
}

// Every sheet that agrees has odd weights.
#[test]
fn four_complete(rt: HostRuntime) -> Result<(), Fail> {
    check_town(&rt, 4, &FOUR_COMPLETE, 8)
}

#[test]
fn two_rings(rt: HostRuntime) -> Result<(), Fail> {
    check_town(&rt, 6, &TWO_RINGS, 18)
}

#[test]
fn two_rows(rt: HostRuntime) -> Result<(), Fail> {
    check_town(&rt, 6, &TWO_ROWS, 8)
}

// Two neighbours that are odd, though the street between them is not the shortest.
#[test]
fn a_quarter(rt: HostRuntime) -> Result<(), Fail> {
    check_town(&rt, 5, &QUARTER, 26)
}
