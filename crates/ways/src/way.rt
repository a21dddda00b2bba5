// A way: the legs of a drive, and their length together in metres.
use road::Leg;

#[derive(Drop)]
pub struct Way {
    pub length: u64,
    pub legs: Vec<Leg>,
}
