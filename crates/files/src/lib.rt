// What programs share that answer texts: how one is called, what it reads and prints, and how it ends.
#![tactic(auto)]

mod answer;
mod answerer;
mod arguments;
mod entry;
mod laws;
mod one_line;
mod program;
mod source;
mod tally;

pub use answer::{Answer, Lengths, Reply};
pub use entry::run;
pub use laws::one_line_stands;
pub use program::Program;
pub use source::{Source, Texts};
