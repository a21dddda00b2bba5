// The odd crossings of a town in pairs, each with a way over streets of the least extra drives.
#![tactic(auto)]

mod incidence;
mod laws;
mod lists;
mod multiset;
mod pair;
mod pairing;
mod walk;

pub use incidence::Incidence;
pub use multiset::Multiset;
pub use pair::Pair;
pub use pairing::{drives_to_depot, pair_up};
pub use walk::{leg_from, maximal_trail};
