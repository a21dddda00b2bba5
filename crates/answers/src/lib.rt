// What the programs answer to a text: a plan of its town, or the checker's word on its round and sheet.
#![tactic(auto)]

mod check;
mod no_answer;
mod plan;
mod with_worksheet;

pub use check::check_answer;
pub use no_answer::NoAnswer;
pub use plan::plan_answer;
pub use with_worksheet::worksheet_answer;
