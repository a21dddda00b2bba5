// What a program answers to a text.
ghost use Rattle.std.specs.Prelude.{ℕ, List, map, IfOk};

use std::alloc::Global;
use std::fmt::Display;

// The length of a round, and that of all streets once.
#[derive(Clone, Copy)]
pub struct Lengths {
    pub round: u128,
    pub streets: u128,
}

// The answer to one text: whole lines, and the lengths if it went well.
#[derive(Drop)]
pub struct Reply {
    pub text: String,
    pub lengths: Option<Lengths>,
}

// What answers a text, given the options that the program was called with.
pub trait Answer {
    ghost use Rattle.files.specs.declared.answer.Reply.{Reply};

    type Fault: Display + Drop;

    // That this is an answer to the text, with these options.
    ghost answers: { Self → List (List ℕ) → List ℕ → Reply → Type 0 };

    fn answer(&self, heap: Global, options: &[&str], text: &str) -> Result<Reply, Self::Fault>
        ensures { IfOk result (answers self.now (map (λ o. o.now) options.now) text.now) };
}
