// What a plan comes to: how many legs and parts were written, and the length of the round in metres.
#[derive(Clone, Copy, PartialEq, Eq, Debug)]
pub struct Plan {
    pub legs: usize,
    pub parts: usize,
    pub length: u64,
}
