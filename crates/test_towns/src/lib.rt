// Towns for tests: by hand, by rule and at random. Each street is its two ends and its length.
#![tactic(auto)]

mod drive;
mod given;
mod random;
mod rule;
mod worked;

pub use drive::end_of_drive;
pub use given::Quarter;
pub use random::Random;
pub use rule::{complete, grid};
pub use worked::{APART, FOUR_COMPLETE, LOOP, PARALLEL, QUARTER, ROAD, STAR, TWO_RINGS, TWO_ROWS};
