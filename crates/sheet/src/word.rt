// The checker's word on a round and a sheet.
use road::Fault;

// What is wrong with parts as a sheet.
#[derive(Clone, Copy, PartialEq, Eq, Debug)]
pub enum SheetFault {
    // The first part out of which an even number of streets lead.
    Part(usize),
    // The first street that bears more than twice its length.
    Street(usize),
}

#[derive(Clone, Copy, PartialEq, Eq, Debug)]
pub enum Word {
    // The legs are no round.
    NoRound(Fault),
    // The legs are a round, and the parts are no sheet.
    NoSheet(SheetFault),
    // Both are right and agree: the round's length, which no round is below.
    Shortest(u128),
    // Both are right and do not agree: the round's length, and half of what the sheet shows, rounded up.
    Apart(u128, u128),
}
