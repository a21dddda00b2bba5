// A town within the limits, with its depot.
ghost use Rattle.std.specs.Prelude.{◌≡◌, ℕ, ◌<◌, ◌≤◌, length, slice_index_or};
ghost use Rattle.road.specs.Roads.{no_street};
ghost use Rattle.road.specs.Limits.{Within};

use crate::Street;

// The first `count` of the streets are the town's. An array and no `Vec`, since taking a town allocates nothing; that a crossing or a street is below its bound stands in contracts,
// since a type for each number would be taken apart wherever an array is read.
#[derive(Drop)]
pub struct Town {
    pub crossings: usize,
    pub depot: usize,
    pub count: usize,
    pub streets: [Street; 300],
    ghost some: { 1 ≤ crossings },
    ghost most: { crossings ≤ 100 },
    ghost home: { depot < crossings },
    ghost few: { count ≤ 300 },
    ghost places: { length streets ≡ 300 },
    ghost within: { (k : ℕ) → k < count → Within crossings (slice_index_or streets k no_street) },
}
