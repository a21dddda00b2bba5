// Least drives of towns checked.
use crate::shown::check_shown;
use join::LeastDrives;
use road::SoundTown;
use std::alloc::AllocGlobal;
use std::process::Abort;
use std::test::Fail;
use test_towns::Quarter;

// Checks the drives from one depot, and the length of those that lead back to it.
pub(crate) fn check_from(
    rt: &(impl Abort + AllocGlobal),
    quarter: Quarter,
    extra: u64,
) -> Result<(), Fail> {
    let town = SoundTown::take(quarter.crossings, quarter.numbers, quarter.depot)?;
    let drives = LeastDrives::new(&town, rt.alloc())?;
    check_shown(rt, &drives);
    assert_eq!(rt;
        drives.extra[town.town.depot].price.unsigned_abs(),
        extra.saturating_mul(2)
    );
    Ok(())
}

// The same from every crossing.
// Those of pairs_tests and round_tests are apart: one for all would take the check as a closure, which each of its calls would have to write.
pub(crate) fn check_town(
    rt: &(impl Abort + AllocGlobal),
    crossings: u64,
    streets: &[[u64; 3]],
    extra: u64,
) -> Result<(), Fail> {
    (0..crossings).try_for_each(|depot| {
        check_from(rt, Quarter::new(crossings, streets, depot), extra)
    })
}
