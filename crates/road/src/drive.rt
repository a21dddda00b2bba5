// A drive over a list of legs: whether it is one, which street it leaves out, and its length.
ghost use Rattle.std.specs.Prelude.{◌≡◌, ◌*◌, ◌<◌, ◌≤◌, length};
ghost use Rattle.road.specs.Roads.{from as begin_of, into as end_of, far};
ghost use Rattle.road.specs.Counts.{all};
ghost use Rattle.road.specs.Numbers.{legs_in};
ghost use Rattle.road.specs.Refusals.{Answers, legs_refusal};
ghost use Rattle.road.specs.Faults.{begins as begins_at, leg_fault, street_fault, fault, Finds, Driven as Drove};
ghost use Rattle.road.specs.Model.{model, marked};

use crate::{Fault, Leg, Refusal, Street, Town};

// Where a drive ended, and the streets that it drove.
#[derive(Drop)]
struct Driven {
    at: usize,
    marks: [bool; 300],
}

impl Town {
    // The crossings at which a leg begins and ends.
    fn ends_of(&self, leg: Leg) -> (usize, usize)
        ensures begin { result.0 ≡ begin_of (model self.now) leg }
        ensures end { result.1 ≡ end_of (model self.now) leg }
        ensures below { (result.0 < self.now.crossings) × (result.1 < self.now.crossings) }
    {
        let Street { one, two, .. } = self.street(leg.by);
        if leg.back { (two, one) } else { (one, two) }
    }

    // The crossing at which a leg begins.
    pub fn begin_of(&self, leg: Leg) -> usize
        ensures is { result ≡ begin_of (model self.now) leg }
        ensures below { result < self.now.crossings }
    {
        self.ends_of(leg).0
    }

    // Whether a leg is of a street and begins at a crossing.
    fn begins(&self, at: usize, leg: Leg) -> bool
        ensures { result ≡ begins_at (model self.now) at leg }
    {
        leg.by < self.count && self.begin_of(leg) == at
    }

    // The crossing at which a leg ends.
    pub fn end_of(&self, leg: Leg) -> usize
        ensures is { result ≡ end_of (model self.now) leg }
        ensures below { result < self.now.crossings }
    {
        self.ends_of(leg).1
    }

    // Drives the legs one after the other, up to the first that does not begin where the one before ended.
    fn drive(&self, start: usize, legs: &[u64]) -> Result<Driven, Fault>
        ensures { Finds (leg_fault (model self.now) start (legs_in legs.now)) (λ d. Drove (model self.now) start (legs_in legs.now) d.at d.marks) result }
    {
        let mut at = start;
        let mut marks = [false; 300];
        for (i, number) in legs.iter().enumerate() {
            let leg = Leg::from(*number);
            if !self.begins(at, leg) {
                return Err(Fault::Leg(i));
            }
            marks[leg.by] = true;
            at = self.end_of(leg);
        }
        Ok(Driven { at, marks })
    }

    // Finds the first street that is required and not marked.
    fn check_driven(&self, required: &[bool; 300], marks: &[bool; 300]) -> Result<(), Fault>
        ensures { Finds (street_fault (model self.now) (marked required.now) (marked marks.now)) (λ _. Unit {0}) result }
    {
        (0..self.count)
            .find(|&k| required[k] && !marks[k])
            .map_or(Ok(()), |k| Err(Fault::Street(k)))
    }

    // Whether the legs are a drive from start to end over each required street; else the first leg that does not begin where the one before
    // ended, or that the drive does not end there, or the first required street that is left out. No other function takes the four together.
    pub fn check_drive(
        &self,
        start: usize,
        end: usize,
        required: &[bool; 300],
        legs: &[u64],
    ) -> Result<(), Fault>
        ensures { Finds (fault (model self.now) start end (marked required.now) (legs_in legs.now)) (λ _. Unit {0}) result }
    {
        let driven = self.drive(start, legs)?;
        if driven.at != end {
            return Err(Fault::Home);
        }
        self.check_driven(required, &driven.marks)
    }

    // The first leg of no street is refused.
    pub fn check_legs(&self, legs: &[u64]) -> Result<(), Refusal>
        ensures { Answers (legs_refusal (model self.now) legs.now) (λ _. Unit {0}) result }
    {
        let numbers = 2 * self.count as u64;
        legs.iter()
            .position(|number| *number >= numbers)
            .map_or(Ok(()), |i| Err(Refusal::NoStreet(i as u64)))
    }

    // The length of the legs together; a leg of no street has none. A list is shorter than 2^64 and a street than 2^17, so the sum fits.
    pub fn length(&self, legs: &[u64]) -> u128
        ensures is { result ≡ far (model self.now) (legs_in legs.now) }
        ensures most { result ≤ 100000 * length legs.now }
    {
        legs.iter()
            .map(|number| u128::from(self.street(Leg::from(*number).by).long))
            .sum()
    }

    // Whether the legs are a round: a drive from the depot over every street and home.
    pub fn check_as_round(&self, legs: &[u64]) -> Result<(), Fault>
        ensures { Finds (fault (model self.now) self.now.depot self.now.depot all (legs_in legs.now)) (λ _. Unit {0}) result }
    {
        self.check_drive(self.depot, self.depot, &[true; 300], legs)
    }
}
