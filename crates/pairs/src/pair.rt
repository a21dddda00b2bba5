// Two crossings, and the legs of a way from the one to the other.
use road::Leg;

#[derive(Drop)]
pub struct Pair {
    pub one: usize,
    pub two: usize,
    pub legs: Vec<Leg>,
}
