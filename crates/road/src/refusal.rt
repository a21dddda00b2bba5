// Why something is turned away, with its place. The list of the numbers 1 to 8 is `listed` in specs/Refusals.antt.
#[derive(Clone, Copy, PartialEq, Eq, Debug)]
pub enum Refusal {
    // No crossing, or more than 100: their number.
    Crossings(u64),
    // Numbers that are not three for each street, or more than 300 streets: the length of the list.
    Numbers(u64),
    // An end past the crossings, or a length above 100,000: the street.
    OutOfRange(u64),
    // A depot past the crossings: the depot.
    Depot(u64),
    // A street that can't be come to from the depot: the street.
    Unreached(u64),
    // Room for legs or parts that is too short: what it needs.
    Room(u64),
    // A leg of no street: the leg.
    NoStreet(u64),
    // Numbers that are not a whole number of parts, more than 400 parts, or a weight above 10,000,000: the length, the number of parts or the part.
    Parts(u64),
}
