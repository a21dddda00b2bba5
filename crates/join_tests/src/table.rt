// Towns by hand, with the length of their extra drives.
use crate::common::{check_from, check_town};
use join::LeastDrives;
use road::SoundTown;
use std::test::Fail;
use test_towns::{
    FOUR_COMPLETE, LOOP, PARALLEL, QUARTER, Quarter, ROAD, STAR, TWO_RINGS, TWO_ROWS,
};

#[test]
fn worked(rt: HostRuntime) -> Result<(), Fail> {
    check_town(&rt, 3, &[[0, 1, 3], [1, 2, 4], [2, 0, 5]], 0)?;
    check_town(&rt, 2, &ROAD, 7)?;
    check_town(&rt, 2, &PARALLEL, 2)?;
    check_town(&rt, 4, &FOUR_COMPLETE, 2)?;
    check_town(&rt, 4, &STAR, 9)?;
    check_town(&rt, 2, &LOOP, 4)
}

#[test]
fn worked_rings(rt: HostRuntime) -> Result<(), Fail> {
    check_town(&rt, 6, &TWO_RINGS, 6)?;
    check_town(&rt, 6, &TWO_ROWS, 1)?;
    check_town(&rt, 5, &QUARTER, 3)
}

#[test]
fn no_streets(rt: HostRuntime) -> Result<(), Fail> {
    check_town(&rt, 1, &[], 0)?;
    check_town(&rt, 5, &[], 0)
}

#[test]
fn crossings_apart(rt: HostRuntime) -> Result<(), Fail> {
    check_from(&rt, Quarter::new(4, &[[1, 2, 3]], 1), 3)?;
    check_from(&rt, Quarter::new(100, &[[99, 7, 3], [7, 50, 0]], 50), 3)
}

#[test]
fn no_length(rt: HostRuntime) -> Result<(), Fail> {
    check_town(&rt, 4, &[[0, 1, 0], [1, 2, 0], [2, 3, 0]], 0)?;
    check_town(&rt, 4, &[[0, 1, 0], [0, 2, 3], [0, 3, 0]], 3)?;
    check_town(&rt, 3, &[[0, 1, 0], [0, 1, 5], [0, 1, 5], [1, 2, 0]], 0)
}

#[test]
fn loops(rt: HostRuntime) -> Result<(), Fail> {
    check_town(&rt, 1, &[[0, 0, 7], [0, 0, 0]], 0)?;
    check_town(&rt, 2, &[[0, 0, 5], [0, 1, 2], [1, 1, 9], [1, 1, 0]], 2)
}

#[test]
fn ties(rt: HostRuntime) -> Result<(), Fail> {
    check_town(&rt, 2, &[[0, 1, 4], [0, 1, 4], [0, 1, 4], [1, 0, 4]], 0)?;
    check_town(&rt, 2, &[[0, 1, 4], [0, 1, 4], [1, 0, 4]], 4)?;
    // Three crossings, each joined to three others.
    check_town(
        &rt,
        6,
        &[
            [0, 3, 2],
            [0, 4, 2],
            [0, 5, 2],
            [1, 3, 2],
            [1, 4, 2],
            [1, 5, 2],
            [2, 3, 2],
            [2, 4, 2],
            [2, 5, 2],
        ],
        6,
    )
}

#[test]
fn trees(rt: HostRuntime) -> Result<(), Fail> {
    check_town(&rt, 5, &[[0, 1, 1], [1, 2, 2], [2, 3, 3], [3, 4, 4]], 10)?;
    check_town(
        &rt,
        7,
        &[
            [0, 1, 5],
            [0, 2, 1],
            [1, 3, 2],
            [1, 4, 0],
            [2, 5, 3],
            [2, 6, 7],
        ],
        18,
    )
}

// The nearest odd crossings, 1 and 2, are not joined to each other.
#[test]
fn nearest_first_is_longer(rt: HostRuntime) -> Result<(), Fail> {
    check_town(
        &rt,
        4,
        &[
            [0, 1, 3],
            [1, 2, 2],
            [2, 3, 3],
            [3, 0, 7],
            [0, 2, 20],
            [1, 3, 20],
        ],
        6,
    )
}

// The odd crossings, 0 and 1, are joined by way of 2.
#[test]
fn detour(rt: HostRuntime) -> Result<(), Fail> {
    check_town(&rt, 3, &[[0, 1, 10], [0, 1, 9], [0, 2, 2], [2, 1, 2]], 4)
}

// Every sheet that agrees has odd weights.
#[test]
fn odd_charges(rt: HostRuntime) -> Result<(), Fail> {
    let town = SoundTown::take(4, FOUR_COMPLETE.as_flattened(), 0)?;
    let drives = LeastDrives::new(&town, rt.alloc())?;
    for stage in drives.stages.iter().filter(|stage| !stage.marks[0]) {
        assert_eq!(rt; stage.charge, 1);
    }
    Ok(())
}
