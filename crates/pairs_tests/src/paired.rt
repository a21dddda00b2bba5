// Whether pairs are pairs of the odd crossings, over streets of the depot's extra drives, counted one by one.
use join::LeastDrives;
use pairs::Pair;
use road::Town;
use std::process::Abort;
use test_towns::end_of_drive;

// Whether a crossing has an odd degree.
fn is_odd(town: &Town, v: usize) -> bool {
    let streets = town.streets().iter();
    let ends = streets.filter(|street| (street.one == v) != (street.two == v));
    ends.count() % 2 == 1
}

// How many ends of pairs are at a crossing.
fn ends_at(pairs: &[Pair], v: usize) -> usize {
    let ends = pairs.iter().map(|pair| usize::from(pair.one == v) + usize::from(pair.two == v));
    ends.fold(0, usize::saturating_add)
}

// Each odd crossing is in one pair, and no other in any.
fn check_ends(rt: &impl Abort, town: &Town, pairs: &[Pair]) {
    for v in 0..town.crossings {
        assert_eq!(rt; ends_at(pairs, v), usize::from(is_odd(town, v)));
    }
}

// How often the ways of all pairs drive a street.
fn times(pairs: &[Pair], k: usize) -> usize {
    let times = pairs
        .iter()
        .map(|pair| pair.legs.iter().filter(|leg| leg.by == k).count());
    times.fold(0, usize::saturating_add)
}

// How long the ways of all pairs are together.
fn length(town: &Town, pairs: &[Pair]) -> u64 {
    let legs = pairs.iter().flat_map(|pair| pair.legs.iter());
    let lengths = legs.map(|leg| town.street(leg.by).long);
    lengths.fold(0, u64::saturating_add)
}

// How long the streets of a set are together.
fn set_length(town: &Town, set: &[bool; 300]) -> u64 {
    let streets = town.streets().iter().zip(set);
    let lengths = streets
        .filter(|(_, marked)| **marked)
        .map(|(street, _)| street.long);
    lengths.fold(0, u64::saturating_add)
}

// Each way leads from the one end of its pair to the other, over streets of the set, none of which is driven twice, and together they are as
// long as the set.
fn check_ways(rt: &impl Abort, town: &Town, set: &[bool; 300], pairs: &[Pair]) {
    for pair in pairs {
        assert_eq!(rt; end_of_drive(town, pair.one, &pair.legs), Some(pair.two));
    }
    for (k, marked) in set.iter().enumerate().take(town.count) {
        assert!(rt; times(pairs, k) <= usize::from(*marked));
    }
    assert_eq!(rt; length(town, pairs), set_length(town, set));
}

// Checks the pairs, and their length.
pub(crate) fn check_paired(rt: &impl Abort, least: &LeastDrives, pairs: &[Pair], expected: u64) {
    let town = &least.town.town;
    check_ends(rt, town, pairs);
    check_ways(rt, town, &least.extra[town.depot].drives, pairs);
    assert_eq!(rt; length(town, pairs), expected);
}
