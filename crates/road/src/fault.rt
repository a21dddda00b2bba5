// What is wrong with a list of legs as a drive.
#[derive(Clone, Copy, PartialEq, Eq, Debug)]
pub enum Fault {
    // The first leg that does not begin where the one before ended.
    Leg(usize),
    // The drive does not end where it should.
    Home,
    // The first street that is left out.
    Street(usize),
}
