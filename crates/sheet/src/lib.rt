// Sheets: parts of a town with weights, and the checker's word on a round and a sheet.
#![tactic(auto)]

mod check;
mod laws;
mod parts;
mod read;
mod rules;
mod take;
mod word;

pub use check::check_round;
pub use word::{SheetFault, Word};
