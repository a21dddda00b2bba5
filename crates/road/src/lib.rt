// Towns, legs and drives: the types, how a town is taken from numbers, and how a drive is checked leg by leg.
#![tactic(auto)]

mod drive;
mod fault;
mod laws;
mod leg;
mod reach;
mod refusal;
mod sound;
mod sound_of;
mod street;
mod streets;
mod take;
mod town;

pub use fault::Fault;
pub use leg::Leg;
pub use refusal::Refusal;
pub use sound::SoundTown;
pub use street::Street;
pub use town::Town;
