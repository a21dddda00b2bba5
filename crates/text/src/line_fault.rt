// What was expected in place of a line.
use thiserror::Error;

#[derive(Clone, Copy, Debug, Error)]
pub enum LineFault {
    // No known word is first.
    #[error("expected crossings, depot, street, round, length or part as the first word")]
    FirstWord,
    // The words after the first are not what belongs there.
    #[error("expected \"crossings N\" with one whole number of at most 19 digits")]
    Crossings,
    #[error("expected \"depot D\" with one whole number of at most 19 digits")]
    Depot,
    #[error("expected \"street A B L\" with three whole numbers of at most 19 digits")]
    Street,
    #[error("expected \"round\" and its legs, such as 4 or 4b, each below 2^63")]
    Round,
    #[error("expected \"length L of A\" with two whole numbers of at most 19 digits")]
    Length,
    #[error("expected \"part W at\" and crossings, whole numbers of at most 19 digits")]
    Part,
    // There was such a line before.
    #[error("expected no second line \"crossings N\"")]
    SecondCrossings,
    #[error("expected no second line \"depot D\"")]
    SecondDepot,
    #[error("expected no second line \"round\"")]
    SecondRound,
    // A round, its length or a part where a town stands alone.
    #[error("expected no round, length or part, which are for check")]
    OfCheck,
    // A part with a crossing past the town's.
    #[error("expected crossings of the town in the part")]
    PartCrossing,
}
