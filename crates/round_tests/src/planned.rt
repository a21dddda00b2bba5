// Towns planned, and what was written checked.
use crate::rooms::Rooms;
use round::{NoPlan, Plan, plan_and_check, plan_round};
use sheet::{Word, check_round};
use std::alloc::{AllocGlobal, Global};
use std::process::Abort;
use std::test::*;
use test_towns::Quarter;

// How often a street is driven.
fn times(legs: &[u64], street: u64) -> usize {
    legs.iter().filter(|leg| **leg / 2 == street).count()
}

// Whether a street is driven back.
fn is_driven_back(legs: &[u64], street: u64) -> bool {
    legs.iter().any(|leg| *leg / 2 == street && *leg % 2 == 1)
}

// How many numbers so many parts need.
pub(crate) fn room(quarter: Quarter, parts: usize) -> usize {
    parts.saturating_mul((quarter.crossings as usize).saturating_add(1))
}

pub(crate) fn plan_in(quarter: Quarter, rooms: &mut Rooms, heap: Global) -> Result<Plan, NoPlan> {
    plan_round(
        quarter.crossings,
        quarter.numbers,
        quarter.depot,
        &mut rooms.legs,
        &mut rooms.parts,
        heap,
    )
}

// Each street is driven once or twice, and one whose ends are one crossing once, from one to two.
fn check_drives(rt: &impl Abort, streets: &[[u64; 3]], legs: &[u64]) {
    for (k, [one, two, _]) in streets.iter().enumerate() {
        let times = times(legs, k as u64);
        assert!(rt; times == 1 || times == 2);
        if one == two {
            assert!(rt; times == 1 && !is_driven_back(legs, k as u64));
        }
    }
}

// The checker's word on what was written is that the round is a shortest one, and the rest of the rooms is as it was.
pub(crate) fn check_written(
    rt: &impl Abort,
    quarter: Quarter,
    plan: Plan,
    rooms: &Rooms,
) -> Result<(), Fail> {
    let room = room(quarter, plan.parts);
    let legs = rooms.legs(plan.legs)?;
    let parts = rooms.parts(room)?;
    assert_eq!(rt;
        check_round(
            quarter.crossings,
            quarter.numbers,
            quarter.depot,
            legs,
            parts
        ),
        Ok(Word::Shortest(u128::from(plan.length)))
    );
    check_drives(rt, quarter.streets(), legs);
    rooms.check_filled(rt, plan.legs, room)
}

// The planner that calls the checker itself tells the same.
fn check_with_word(
    rt: &(impl Abort + AllocGlobal),
    quarter: Quarter,
    plan: Plan,
) -> Result<(), Fail> {
    let mut rooms = Rooms::ample(rt.alloc())?;
    let checked = plan_and_check(
        quarter.crossings,
        quarter.numbers,
        quarter.depot,
        &mut rooms.legs,
        &mut rooms.parts,
        rt.alloc(),
    )?;
    assert_eq!(rt; checked.plan, plan);
    assert_eq!(rt; checked.word, Word::Shortest(u128::from(plan.length)));
    check_written(rt, quarter, plan, &rooms)
}

// The plan, once it is checked.
pub(crate) fn checked_plan(
    rt: &(impl Abort + AllocGlobal),
    quarter: Quarter,
) -> Result<Plan, Fail> {
    let mut rooms = Rooms::ample(rt.alloc())?;
    let plan = plan_in(quarter, &mut rooms, rt.alloc())?;
    check_written(rt, quarter, plan, &rooms)?;
    check_with_word(rt, quarter, plan)?;
    Ok(plan)
}

// Checks the plan from one depot, and its length.
pub(crate) fn check_from(
    rt: &(impl Abort + AllocGlobal),
    quarter: Quarter,
    length: u64,
) -> Result<(), Fail> {
    assert_eq!(rt; checked_plan(rt, quarter)?.length, length);
    Ok(())
}

// The same from every crossing.
// Those of join_tests and pairs_tests are apart: one for all would take the check as a closure, which each of its calls would have to write.
pub(crate) fn check_town(
    rt: &(impl Abort + AllocGlobal),
    crossings: u64,
    streets: &[[u64; 3]],
    length: u64,
) -> Result<(), Fail> {
    (0..crossings).try_for_each(|depot| {
        check_from(rt, Quarter::new(crossings, streets, depot), length)
    })
}
