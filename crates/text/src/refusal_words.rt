// A refusal in words: its number, its place and what is wrong.
ghost use Rattle.std.specs.Prelude.{◌≡◌};
ghost use Rattle.road.specs.Refusals.{listed};

use road::Refusal;
use std::fmt;

// A type of its own, as `Display` for another crate's type needs. A derive is no plainer: the words of the programs would stand in `road`, which has none.
#[derive(Clone, Copy)]
pub struct RefusalWords(pub Refusal);

// The number and the place of a refusal, as a pair, since `listed` gives a pair and a struct would only say it twice.
pub fn numbered(refusal: Refusal) -> (u64, u64)
    ensures { result ≡ listed refusal }
{
    match refusal {
        Refusal::Crossings(n) => (1, n),
        Refusal::Numbers(n) => (2, n),
        Refusal::OutOfRange(k) => (3, k),
        Refusal::Depot(d) => (4, d),
        Refusal::Unreached(k) => (5, k),
        Refusal::Room(n) => (6, n),
        Refusal::NoStreet(i) => (7, i),
        Refusal::Parts(n) => (8, n),
    }
}

// The words are for what a text tells: three numbers a street, and whole parts.
impl fmt::Display for RefusalWords {
    fn fmt<W: fmt::Write>(&self, f: &mut fmt::Formatter<W>) -> fmt::Result {
        let (number, place) = numbered(self.0);
        write!(f, "refusal {number} at {place}: ")?;
        match self.0 {
            Refusal::Crossings(n) => write!(f, "a town has 1 to 100 crossings, not {n}"),
            Refusal::Numbers(n) => write!(f, "a town has at most 300 streets, not {}", n / 3),
            Refusal::OutOfRange(k) => write!(
                f,
                "street {k} has an end past the crossings or is longer than 100000 metres"
            ),
            Refusal::Depot(d) => write!(f, "depot {d} is past the crossings"),
            Refusal::Unreached(k) => write!(f, "street {k} cannot be come to from the depot"),
            Refusal::Room(n) => write!(f, "the room for the answer has to be {n} numbers long"),
            Refusal::NoStreet(i) => write!(f, "leg {i} is of no street"),
            Refusal::Parts(n) if n > 400 => write!(f, "a sheet has at most 400 parts, not {n}"),
            Refusal::Parts(i) => write!(f, "part {i} weighs more than 10000000"),
        }
    }
}
