// Towns by rule: rings, roads, stars, ladders, grids, complete graphs, and as many crossings and streets as may be.
use crate::fits::check_rooms;
use crate::planned::{check_from, check_town};
use std::alloc::{AllocError, Global};
use std::test::*;
use test_towns::{Quarter, complete, grid};

// Crossings in a ring.
fn ring(heap: Global, crossings: u64, long: u64) -> Result<Vec<[u64; 3]>, AllocError> {
    let streets = (0..crossings).map(|v| [v, (v + 1) % crossings, long]);
    streets.collect(heap)
}

// Streets of lengths 1, 2 and so on from crossing 0.
fn star(heap: Global, crossings: u64) -> Result<Vec<[u64; 3]>, AllocError> {
    (1..crossings).map(|v| [0, v, v]).collect(heap)
}

// 100 crossings and 300 streets: each crossing is joined to five others, and half of them to themselves.
fn full(heap: Global, scatter: u64) -> Result<Vec<[u64; 3]>, AllocError> {
    let mut streets = Vec::new(heap);
    for v in 0..100u64 {
        let long = 100_000 - v.wrapping_mul(scatter) % 1_000;
        streets.push([v, (v + 1) % 100, long])?;
        streets.push([v, (v + 7) % 100, long])?;
        if v < 50 {
            streets.push([v, v + 50, long])?;
            streets.push([v, v, long])?;
        }
    }
    Ok(streets)
}

#[test]
fn rings(rt: HostRuntime) -> Result<(), Fail> {
    let heap = rt.alloc();
    check_town(&rt, 1, &ring(heap, 1, 3)?, 3)?;
    check_town(&rt, 2, &ring(heap, 2, 3)?, 6)?;
    check_town(&rt, 9, &ring(heap, 9, 5)?, 45)?;
    check_from(
        &rt,
        Quarter::new(100, &ring(heap, 100, 100_000)?, 37),
        10_000_000,
    )
}

#[test]
fn trees(rt: HostRuntime) -> Result<(), Fail> {
    let heap = rt.alloc();
    check_from(
        &rt,
        Quarter::new(100, &grid(heap, 1, 100, 100_000)?, 50),
        19_800_000,
    )?;
    check_town(&rt, 6, &star(heap, 6)?, 30)?;
    check_from(&rt, Quarter::new(100, &star(heap, 100)?, 99), 9_900)
}

#[test]
fn ladders(rt: HostRuntime) -> Result<(), Fail> {
    let heap = rt.alloc();
    check_town(&rt, 10, &grid(heap, 2, 5, 3)?, 48)?;
    check_from(&rt, Quarter::new(100, &grid(heap, 2, 50, 1)?, 31), 196)
}

#[test]
fn grids(rt: HostRuntime) -> Result<(), Fail> {
    let heap = rt.alloc();
    check_town(&rt, 9, &grid(heap, 3, 3, 1)?, 16)?;
    check_from(&rt, Quarter::new(100, &grid(heap, 10, 10, 1)?, 99), 196)
}

#[test]
fn complete_graphs(rt: HostRuntime) -> Result<(), Fail> {
    let heap = rt.alloc();
    check_town(&rt, 6, &complete(heap, 6)?, 18)?;
    check_from(&rt, Quarter::new(24, &complete(heap, 24)?, 11), 288)?;
    check_from(&rt, Quarter::new(25, &complete(heap, 25)?, 24), 300)
}

// All streets as long as may be, and streets of other lengths.
#[test]
fn limits(rt: HostRuntime) -> Result<(), Fail> {
    let heap = rt.alloc();
    let streets = full(heap, 0)?;
    assert_eq!(rt; streets.len(), 300);
    check_from(&rt, Quarter::new(100, &streets, 62), 35_000_000)?;
    check_rooms(&rt, Quarter::new(100, &full(heap, 617)?, 8))
}
