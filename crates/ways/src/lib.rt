// Shortest drives from one crossing to every other.
#![tactic(auto)]

mod laws;
mod no_ways;
mod relax;
mod way;
mod ways;

pub use no_ways::NoWays;
pub use way::Way;
pub use ways::Ways;
