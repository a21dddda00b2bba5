// Towns at the edge: no streets, crossings without streets, streets of no length, and streets whose ends are one crossing.
use crate::planned::{check_from, check_town, checked_plan};
use round::Plan;
use std::alloc::AllocGlobal;
use std::process::Abort;
use std::test::*;
use test_towns::Quarter;

// Checks that a town without streets has the empty round and the empty sheet.
fn check_empty(rt: &(impl Abort + AllocGlobal), crossings: u64, depot: u64) -> Result<(), Fail> {
    let quarter = Quarter::new(crossings, &[], depot);
    assert_eq!(rt;
        checked_plan(rt, quarter)?,
        Plan {
            legs: 0,
            parts: 0,
            length: 0,
        }
    );
    Ok(())
}

#[test]
fn no_streets(rt: HostRuntime) -> Result<(), Fail> {
    check_empty(&rt, 1, 0)?;
    check_empty(&rt, 5, 3)?;
    check_empty(&rt, 100, 99)
}

#[test]
fn crossings_apart(rt: HostRuntime) -> Result<(), Fail> {
    check_from(&rt, Quarter::new(4, &[[1, 2, 3]], 1), 6)?;
    check_from(&rt, Quarter::new(4, &[[1, 2, 3]], 2), 6)?;
    check_from(&rt, Quarter::new(100, &[[99, 7, 3], [7, 50, 0]], 50), 6)
}

#[test]
fn no_length(rt: HostRuntime) -> Result<(), Fail> {
    check_town(&rt, 4, &[[0, 1, 0], [1, 2, 0], [2, 3, 0]], 0)?;
    check_town(&rt, 4, &[[0, 1, 0], [0, 2, 3], [0, 3, 0]], 6)?;
    check_town(&rt, 3, &[[0, 1, 0], [0, 1, 5], [0, 1, 5], [1, 2, 0]], 10)
}

#[test]
fn loops(rt: HostRuntime) -> Result<(), Fail> {
    check_town(&rt, 1, &[[0, 0, 7], [0, 0, 0]], 7)?;
    check_town(&rt, 2, &[[0, 0, 5], [0, 1, 2], [1, 1, 9], [1, 1, 0]], 18)?;
    check_from(&rt, Quarter::new(3, &[[2, 2, 4]], 2), 4)
}
