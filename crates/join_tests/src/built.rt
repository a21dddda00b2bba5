// Towns by rule: grids, ladders and complete graphs.
use crate::common::{check_from, check_town};
use std::test::Fail;
use test_towns::{Quarter, complete, grid};

#[test]
fn roads(rt: HostRuntime) -> Result<(), Fail> {
    let heap = rt.alloc();
    check_from(
        &rt,
        Quarter::new(100, &grid(heap, 1, 100, 100_000)?, 50),
        9_900_000,
    )
}

#[test]
fn ladders(rt: HostRuntime) -> Result<(), Fail> {
    let heap = rt.alloc();
    check_town(&rt, 10, &grid(heap, 2, 5, 3)?, 9)?;
    check_from(&rt, Quarter::new(100, &grid(heap, 2, 50, 1)?, 31), 48)
}

#[test]
fn grids(rt: HostRuntime) -> Result<(), Fail> {
    let heap = rt.alloc();
    check_town(&rt, 9, &grid(heap, 3, 3, 1)?, 4)?;
    check_from(&rt, Quarter::new(100, &grid(heap, 10, 10, 1)?, 99), 16)
}

#[test]
fn complete_graphs(rt: HostRuntime) -> Result<(), Fail> {
    let heap = rt.alloc();
    check_town(&rt, 5, &complete(heap, 5)?, 0)?;
    check_town(&rt, 6, &complete(heap, 6)?, 3)?;
    check_from(&rt, Quarter::new(24, &complete(heap, 24)?, 11), 12)?;
    check_from(&rt, Quarter::new(25, &complete(heap, 25)?, 24), 0)
}
