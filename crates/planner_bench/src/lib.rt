// Least extra drives of a town, with how long it took to find them, and whole plans, for the benchmark.
#![tactic(auto)]

use join::LeastDrives;
use road::{SoundTown, Town};
use round::{Plan, plan_round};
use std::alloc::Global;

// The depot's price in half metres, how many passes and stages it took, and how many stages show that it is least.
#[repr(C)]
#[derive(Clone, Copy, Default)]
pub struct Effort {
    pub price: i64,
    pub passes: u64,
    pub turns: u64,
    pub stages: u64,
}

impl From<LeastDrives<'_>> for Effort {
    fn from(least: LeastDrives) -> Effort {
        Effort {
            price: least.extra[least.town.town.depot].price,
            passes: least.passes,
            turns: least.turns,
            stages: least.stages.len() as u64,
        }
    }
}

// Whether the numbers are a town and all of its streets can be come to. In the two steps of `SoundTown::take`, which would move out a town that nobody wants.
#[unsafe(no_mangle)]
pub extern "C" fn is_sound(crossings: u64, numbers: &[u64], depot: u64) -> bool {
    Town::take(crossings, numbers, depot)
        .and_then(SoundTown::new)
        .is_ok()
}

// What it takes for the town of these numbers; no pass if it is turned away.
#[unsafe(no_mangle)]
pub extern "C" fn least_drives(
    crossings: u64,
    numbers: &[u64],
    depot: u64,
    heap: Global,
) -> Effort {
    SoundTown::take(crossings, numbers, depot)
        .ok()
        .and_then(|town| LeastDrives::new(&town, heap).map(Effort::from).ok())
        .unwrap_or_default()
}

// How many legs and parts a plan has, and the length of its round in metres, as C++ reads them.
#[repr(C)]
#[derive(Clone, Copy, Default)]
pub struct Planned {
    pub legs: u64,
    pub parts: u64,
    pub length: u64,
}

impl From<Plan> for Planned {
    fn from(plan: Plan) -> Planned {
        Planned {
            legs: plan.legs as u64,
            parts: plan.parts as u64,
            length: plan.length,
        }
    }
}

// The plan for the town of these numbers, written to the rooms; no leg if there is none. C++ calls it.
#[unsafe(no_mangle)]
pub extern "C" fn plan_town(
    crossings: u64,
    numbers: &[u64],
    depot: u64,
    legs: &mut [u64],
    parts: &mut [u64],
    heap: Global,
) -> Planned {
    plan_round(crossings, numbers, depot, legs, parts, heap)
        .map(Planned::from)
        .unwrap_or_default()
}
