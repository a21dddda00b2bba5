// The checker's word, as it is printed.
ghost use Rattle.std.specs.Prelude.{Some};
ghost use Rattle.text.specs.Said.{said_text};

use road::Fault;
use sheet::{SheetFault, Word};
use std::fmt;

// A type of its own, as `Display` for another crate's type needs. A derive is no plainer: the words of the programs would stand in `sheet` and `road`, which have none.
#[derive(Clone, Copy)]
pub struct Said(pub Word);

impl fmt::Display for Said {
    ghost output = { λ s. Some (said_text s.0) };

    fn fmt<W: fmt::Write>(&self, f: &mut fmt::Formatter<W>) -> fmt::Result {
        match self.0 {
            Word::Shortest(length) => write!(f, "shortest {length}"),
            Word::Apart(length, bound) => write!(f, "apart {length} and {bound}"),
            Word::NoRound(Fault::Leg(i)) => write!(f, "no round at leg {i}"),
            Word::NoRound(Fault::Home) => f.write_str("no round home"),
            Word::NoRound(Fault::Street(k)) => write!(f, "no round street {k}"),
            Word::NoSheet(SheetFault::Part(i)) => write!(f, "no sheet at part {i}"),
            Word::NoSheet(SheetFault::Street(k)) => write!(f, "no sheet at street {k}"),
        }
    }
}
