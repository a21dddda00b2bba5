// All distances of a town added up, for the benchmark.
#![tactic(auto)]

use road::Town;
use std::alloc::Global;
use ways::Ways;

fn from_one(ways: &Ways, crossings: usize) -> u64 {
    (0..crossings)
        .filter_map(|end| ways.distance(end).ok().flatten())
        .fold(0, u64::wrapping_add)
}

fn from_all(town: &Town, heap: Global) -> u64 {
    (0..town.crossings)
        .filter_map(|start| Ways::new(town, start, heap).ok())
        .map(|ways| from_one(&ways, town.crossings))
        .fold(0, u64::wrapping_add)
}

// The distances between all crossings of the town of these numbers; 0 if it is turned away.
#[unsafe(no_mangle)]
pub extern "C" fn all_distances(crossings: u64, numbers: &[u64], heap: Global) -> u64 {
    Town::take(crossings, numbers, 0).map_or(0, |town| from_all(&town, heap))
}
