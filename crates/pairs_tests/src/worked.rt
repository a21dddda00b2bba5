// Towns by hand.
use crate::common::{check_from, check_town};
use std::test::Fail;
use test_towns::{
    FOUR_COMPLETE, LOOP, PARALLEL, QUARTER, Quarter, ROAD, STAR, TWO_RINGS, TWO_ROWS,
};

#[test]
fn no_pairs(rt: HostRuntime) -> Result<(), Fail> {
    check_town(&rt, 1, &[], 0, 0)?;
    check_town(&rt, 5, &[], 0, 0)?;
    check_town(&rt, 1, &[[0, 0, 7]], 0, 0)?;
    check_town(&rt, 3, &[[0, 1, 3], [1, 2, 4], [2, 0, 5]], 0, 0)
}

#[test]
fn one_pair(rt: HostRuntime) -> Result<(), Fail> {
    check_town(&rt, 2, &ROAD, 1, 7)?;
    check_town(&rt, 2, &PARALLEL, 1, 2)?;
    check_town(&rt, 2, &LOOP, 1, 4)?;
    // The way leads over crossing 2.
    check_town(&rt, 3, &[[0, 1, 10], [0, 1, 9], [0, 2, 2], [2, 1, 2]], 1, 4)?;
    // Streets of no length.
    check_town(&rt, 4, &[[0, 1, 0], [1, 2, 0], [2, 3, 0]], 1, 0)
}

#[test]
fn two_pairs(rt: HostRuntime) -> Result<(), Fail> {
    check_town(&rt, 4, &FOUR_COMPLETE, 2, 2)?;
    check_town(&rt, 4, &STAR, 2, 9)
}

#[test]
fn rings(rt: HostRuntime) -> Result<(), Fail> {
    check_town(&rt, 6, &TWO_RINGS, 1, 6)?;
    check_town(&rt, 6, &TWO_ROWS, 1, 1)?;
    check_town(&rt, 5, &QUARTER, 1, 3)
}

// Crossings without streets are in no pair.
#[test]
fn crossings_apart(rt: HostRuntime) -> Result<(), Fail> {
    check_from(&rt, Quarter::new(4, &[[1, 2, 3]], 1), 1, 3)?;
    check_from(&rt, Quarter::new(100, &[[99, 7, 3], [7, 50, 0]], 50), 1, 3)
}

// The nearest odd crossings, 1 and 2, are not paired.
#[test]
fn nearest_first_is_longer(rt: HostRuntime) -> Result<(), Fail> {
    check_town(
        &rt,
        4,
        &[
            [0, 1, 3],
            [1, 2, 2],
            [2, 3, 3],
            [3, 0, 7],
            [0, 2, 20],
            [1, 3, 20],
        ],
        2,
        6,
    )
}
