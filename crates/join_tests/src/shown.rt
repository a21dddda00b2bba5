// Whether extra drives lead where they should, and whether the classes show that they are least, counted street by street.
use join::{LeastDrives, Stage};
use road::{Street, Town};
use std::process::Abort;

// What the streets of a set cost, in half metres.
// The like of pairs_tests is apart, in metres: the contract of a shared one, and its proof, would be longer than both.
fn cost(town: &Town, set: &[bool; 300]) -> u64 {
    let streets = town.streets().iter().zip(set);
    let lengths = streets
        .filter(|(_, marked)| **marked)
        .map(|(street, _)| street.long);
    lengths.fold(0, u64::saturating_add).saturating_mul(2)
}

// Whether a crossing has an odd degree, where all streets are driven once and those of a set once more.
// That of pairs_tests is apart, without a set: the contract of a shared one, and its proof, would be longer than both.
fn is_odd(town: &Town, set: &[bool; 300], v: usize) -> bool {
    let streets = town.streets().iter().zip(set);
    let once = streets.filter(|(_, again)| !**again);
    let ends = once.filter(|(street, _)| (street.one == v) != (street.two == v));
    ends.count() % 2 == 1
}

// With the extra drives to u all degrees are even, except at the depot and at u, where these differ.
fn leads_to(town: &Town, set: &[bool; 300], u: usize) -> bool {
    (0..town.crossings).all(|v| is_odd(town, set, v) == ((v == town.depot) != (v == u)))
}

// Whether a crossing can be come to, where all streets can be come to.
fn is_reached(town: &Town, u: usize) -> bool {
    let mut streets = town.streets().iter();
    u == town.depot || streets.any(|street| street.one == u || street.two == u)
}

// Whether a street leads out of the class of a stage.
fn leads_out(stage: &Stage, street: &Street) -> bool {
    stage.marks.get(street.one) != stage.marks.get(street.two)
}

// Whether the class has a charge within the limits, and an odd number of streets lead out of it just if the depot is outside.
fn is_charged(town: &Town, stage: &Stage) -> bool {
    let streets = town.streets().iter();
    let out = streets.filter(|street| leads_out(stage, street)).count();
    (out % 2 == 1) != stage.marks[town.depot] && (1..=10_000_000).contains(&stage.charge)
}

// What the classes that count are charged together.
fn charge<F: Fn(&Stage) -> bool>(stages: &[Stage], counts: F) -> u64
    requires { F.IsAlwaysCallable counts }
{
    let charging = stages.iter().filter(|stage| counts(stage));
    let charges = charging.map(|stage| stage.charge.unsigned_abs());
    charges.fold(0, u64::saturating_add)
}

// The classes are few, are rightly charged, and charge no street more than twice its length.
fn check_stages(rt: &impl Abort, town: &Town, stages: &[Stage]) {
    assert!(rt; stages.len() <= 400);
    assert!(rt; stages.iter().all(|stage| is_charged(town, stage)));
    for street in town.streets() {
        let charged = charge(stages, |stage| leads_out(stage, street));
        assert!(rt; charged <= street.long.saturating_mul(2));
    }
}

// Each crossing that can be come to has extra drives that lead there, at a price that is their cost and what the classes without it are charged.
pub(crate) fn check_shown(rt: &impl Abort, drives: &LeastDrives) {
    let town = &drives.town.town;
    let stages = drives.stages.as_slice();
    check_stages(rt, town, stages);
    for (u, (reached, set)) in drives.reached.iter().zip(&drives.extra).enumerate() {
        assert_eq!(rt; *reached, is_reached(town, u));
        if *reached {
            assert!(rt; set.price >= 0);
            assert!(rt; leads_to(town, &set.drives, u));
            assert_eq!(rt; set.price.unsigned_abs(), cost(town, &set.drives));
            let charged = charge(stages, |stage| stage.marks.get(u) == Some(&false));
            assert_eq!(rt; set.price.unsigned_abs(), charged);
        }
    }
}
