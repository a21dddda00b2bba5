// The worksheet of a town, a round and the parts of a sheet: what a reader with a pencil ticks line by line.
#![tactic(auto)]

mod given;
mod laws;
mod lines;
mod part;
mod rows;
mod text;
mod write;

pub use text::worksheet;
