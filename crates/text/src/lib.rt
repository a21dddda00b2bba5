// Towns, rounds and sheets read from text, and the words for what is wrong with them.
#![tactic(auto)]

mod laws;
mod line;
mod line_fault;
mod lines;
mod plan_lines;
mod refusal_words;
mod said;
mod text_error;
mod texts;
mod town_lines;
mod word;

pub use line_fault::LineFault;
pub use plan_lines::{PlanNumbers, plan_text};
pub use refusal_words::{RefusalWords, numbered};
pub use said::Said;
pub use text_error::TextError;
pub use texts::{RoundText, TownText};
pub use town_lines::town_text;
