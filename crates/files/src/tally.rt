// How many texts have an answer, how many of them went well, and their lengths together.
ghost use Rattle.std.specs.Prelude.{◌≡◌, ◌+◌, ◌<◌, ◌≤◌, ◌^◌, Some};
ghost use Rattle.files.specs.Sums.{both, count, joined, none_yet, sums, last_line};

use crate::Lengths;
use std::fmt;

#[derive(Clone, Copy)]
pub(crate) struct Tally {
    pub answered: usize,
    pub well: usize,
    ghost fewer: { well ≤ answered },
    // None if the lengths together are too long for their type.
    pub together: Option<Lengths>,
}

impl Lengths {
    fn checked_add(self, other: Lengths) -> Option<Lengths>
        ensures { result ≡ both self other }
    {
        Some(Lengths {
            round: self.round.checked_add(other.round)?,
            streets: self.streets.checked_add(other.streets)?,
        })
    }
}

impl Tally {
    pub(crate) fn new() -> Tally
        ensures counts { (result.answered ≡ 0) × (result.well ≡ 0) }
        ensures together { result.together ≡ Some none_yet }
    {
        Tally {
            answered: 0,
            well: 0,
            together: Some(Lengths {
                round: 0,
                streets: 0,
            }),
        }
    }

    // Counts an answer, and its lengths if it went well.
    pub(crate) fn add(&mut self, lengths: Option<Lengths>)
        requires { self.old.answered + 1 < 2 ^ 64 }
        ensures answered { self.new.answered ≡ self.old.answered + 1 }
        ensures well { self.new.well ≡ self.old.well + count lengths }
        ensures together { self.new.together ≡ joined self.old.together lengths }
    {
        self.answered += 1;
        let Some(lengths) = lengths else {
            return;
        };
        self.well += 1;
        self.together = match self.together {
            Some(together) => together.checked_add(lengths),
            None => None,
        };
    }
}

// Lengths together, as the last line says them; nothing if they are too long.
#[derive(Clone, Copy)]
struct Sums(Option<Lengths>);

impl fmt::Display for Sums {
    ghost output = { λ s. Some (sums s.0) };

    fn fmt<W: fmt::Write>(&self, f: &mut fmt::Formatter<W>) -> fmt::Result {
        match self.0 {
            Some(Lengths { round, streets }) => write!(f, ", length {round} of {streets}"),
            None => Ok(()),
        }
    }
}

// The last line of several answers.
#[derive(Clone, Copy)]
pub(crate) struct LastLine<'a> {
    pub tally: Tally,
    pub named: usize,
    pub done: &'a str,
}

impl fmt::Display for LastLine<'_> {
    ghost output = { λ l. Some (last_line l.tally.well l.named l.done.now l.tally.together) };

    fn fmt<W: fmt::Write>(&self, f: &mut fmt::Formatter<W>) -> fmt::Result {
        let LastLine { tally, named, done } = *self;
        let well = tally.well;
        let sums = Sums(tally.together);
        writeln!(f, "# {well} of {named} {done}{sums}")
    }
}
