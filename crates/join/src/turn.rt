// What a turn of a pass finds.
ghost use Rattle.std.specs.Prelude.{◌≡◌, pos};
ghost use Rattle.join.specs.Amounts.{amount};

use road::Leg;

// A set of extra drives for a crossing. That it is cheaper (`Cheaper`) stands in contracts, since it is so at one level after the other.
#[derive(Drop)]
pub(crate) struct Found {
    pub crossing: usize,
    pub drives: [bool; 300],
}

// A class of crossings with what it is charged, and the crossing of the class whose potential is least.
#[derive(Clone, Copy)]
pub struct Stage {
    pub marks: [bool; 100],
    pub charge: i64,
    pub base: usize,
    ghost whole: { charge ≡ pos (amount charge) },
}

// One of three ends, each with a name: as a `Result` or a `ControlFlow` of an `Option` they would have none, so these would be no plainer.
#[derive(Drop)]
pub(crate) enum Turn {
    // A set that costs less than the potential of its crossing.
    Better(Found),
    // A class that can be charged, with the streets that it cuts, as legs that lead out.
    Charge(Stage, Vec<Leg>),
    // No potential is left.
    Done,
}
