// What comes of an exchange along a circuit. Two sets, each with a name: as a `Result` or a `ControlFlow` of two sets they would have none, so these would be no plainer.
#[derive(Drop)]
pub(crate) enum Outcome {
    // A set for the first crossing outside that costs less than its potential.
    Lower([bool; 300]),
    // The set with the circuit put in, which has two streets fewer out of the class.
    Fewer([bool; 300]),
}
