// Where a program reads a text, and how that is named.
ghost use Rattle.std.specs.Prelude.{◌≡◌, Some, ℕ, List, IfOk, string_bytes, ⊤};
ghost use Rattle.files.specs.Names.{name_of, shown_name};

use crate::one_line::OneLine;
use std::fmt::Display;
use std::{fmt, fs, io};

#[derive(Clone, Copy)]
pub enum Source<'a> {
    StandardInput,
    File(&'a str),
}

impl<'a> Source<'a> {
    // What an argument names.
    pub(crate) fn named(name: &'a str) -> Source<'a>
        ensures { name_of result ≡ name.now }
    {
        if name == "-" {
            Source::StandardInput
        } else {
            Source::File(name)
        }
    }
}

impl fmt::Display for Source<'_> {
    ghost output = { λ s. Some (shown_name s) };

    fn fmt<W: fmt::Write>(&self, f: &mut fmt::Formatter<W>) -> fmt::Result {
        match self {
            Source::StandardInput => f.write_str("standard input"),
            Source::File(name) => OneLine(*name).fmt(f),
        }
    }
}

// What gives a text.
pub trait Texts {
    // That what is named so may hold this text.
    ghost holds: { Self → List ℕ → List ℕ → Type 0 };

    fn read(&self, source: Source) -> io::Result<String>
        ensures { IfOk result (λ s. holds self.now (name_of source.entry) (string_bytes s)) };
}

impl Texts for HostRuntime {
    ghost holds = { λ _ _ _. ⊤ };

    fn read(&self, source: Source) -> io::Result<String> {
        match source {
            Source::StandardInput => io::read_to_string(self.alloc(), self.stdin()),
            Source::File(name) => fs::read_to_string(self, name),
        }
    }
}
