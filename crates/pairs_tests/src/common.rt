// The pairs of the odd crossings of towns checked.
use crate::paired::check_paired;
use join::LeastDrives;
use pairs::pair_up;
use road::SoundTown;
use std::alloc::AllocGlobal;
use std::process::Abort;
use std::test::Fail;
use test_towns::Quarter;

// Checks the pairs from one depot, and their number and length.
pub(crate) fn check_from(
    rt: &(impl Abort + AllocGlobal),
    quarter: Quarter,
    count: usize,
    length: u64,
) -> Result<(), Fail> {
    let town = SoundTown::take(quarter.crossings, quarter.numbers, quarter.depot)?;
    let least = LeastDrives::new(&town, rt.alloc())?;
    let pairs = pair_up(&least, rt.alloc())?;
    assert_eq!(rt; pairs.len(), count);
    check_paired(rt, &least, &pairs, length);
    Ok(())
}

// The same from every crossing.
// What is expected stands beside what is given. Those of join_tests and round_tests are apart: one for all would take the check as a closure, which each of its calls would have to write.
pub(crate) fn check_town(
    rt: &(impl Abort + AllocGlobal),
    crossings: u64,
    streets: &[[u64; 3]],
    count: usize,
    length: u64,
) -> Result<(), Fail> {
    (0..crossings).try_for_each(|depot| {
        check_from(rt, Quarter::new(crossings, streets, depot), count, length)
    })
}
