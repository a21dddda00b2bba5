// Rooms that just suffice, and rooms that are too short.
use crate::planned::{check_written, checked_plan, plan_in, room};
use crate::rooms::Rooms;
use road::Refusal;
use round::{NoPlan, Plan};
use std::alloc::AllocGlobal;
use std::process::Abort;
use std::test::*;
use test_towns::{LOOP, Quarter, ROAD, STAR};

// Checks that rooms of these lengths are refused, and as they were: what is expected stands beside what is given.
fn check_short(
    rt: &(impl Abort + AllocGlobal),
    quarter: Quarter,
    legs: usize,
    parts: usize,
    need: usize,
) -> Result<(), Fail> {
    let mut rooms = Rooms::new(rt.alloc(), legs, parts)?;
    let refusal = Refusal::Room(need as u64);
    assert_eq!(rt;
        plan_in(quarter, &mut rooms, rt.alloc()),
        Err(NoPlan::Refused(refusal))
    );
    rooms.check_filled(rt, 0, 0)
}

// Checks that rooms that just suffice do.
fn check_fits(rt: &(impl Abort + AllocGlobal), quarter: Quarter, plan: Plan) -> Result<(), Fail> {
    let mut rooms = Rooms::new(rt.alloc(), plan.legs, room(quarter, plan.parts))?;
    assert_eq!(rt; plan_in(quarter, &mut rooms, rt.alloc())?, plan);
    check_written(rt, quarter, plan, &rooms)
}

// Checks rooms that just suffice, and rooms that are too short by one number or more.
pub(crate) fn check_rooms(rt: &(impl Abort + AllocGlobal), quarter: Quarter) -> Result<(), Fail> {
    let plan = checked_plan(rt, quarter)?;
    let legs = plan.legs;
    let parts = room(quarter, plan.parts);
    assert!(rt; legs > 0 && parts > 0);
    check_fits(rt, quarter, plan)?;
    check_short(rt, quarter, legs.saturating_sub(1), parts, legs)?;
    check_short(rt, quarter, legs, parts.saturating_sub(1), parts)?;
    check_short(rt, quarter, 0, 0, legs)?;
    check_short(rt, quarter, 600, 0, parts)
}

#[test]
fn rooms_by_hand(rt: HostRuntime) -> Result<(), Fail> {
    check_rooms(&rt, Quarter::new(2, &ROAD, 0))?;
    check_rooms(&rt, Quarter::new(2, &LOOP, 1))?;
    check_rooms(&rt, Quarter::new(4, &STAR, 0))
}

// Without parts no room for parts is needed, and without streets no room at all.
#[test]
fn no_rooms(rt: HostRuntime) -> Result<(), Fail> {
    let ring = Quarter::new(3, &[[0, 1, 3], [1, 2, 4], [2, 0, 5]], 0);
    check_fits(
        &rt,
        ring,
        Plan {
            legs: 3,
            parts: 0,
            length: 12,
        },
    )?;
    check_short(&rt, ring, 2, 0, 3)?;
    check_fits(
        &rt,
        Quarter::new(5, &[], 2),
        Plan {
            legs: 0,
            parts: 0,
            length: 0,
        },
    )
}
