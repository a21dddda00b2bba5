// Rooms for legs and parts, filled beforehand.
use std::alloc::Global;
use std::process::Abort;
use std::test::*;

// What the rooms are filled with: no leg, no weight and no mark.
const FILL: u64 = u64::MAX;

#[derive(Drop)]
pub(crate) struct Rooms {
    pub legs: Vec<u64>,
    pub parts: Vec<u64>,
}

// Whether all numbers from a place on are as they were.
fn is_filled(room: &[u64], from: usize) -> bool {
    room.iter().skip(from).all(|number| *number == FILL)
}

fn front(room: &[u64], count: usize) -> Result<&[u64], Fail> {
    room.get(..count)
        .ok_or_else(|| Fail::new("more was written than there is room for"))
}

impl Rooms {
    pub(crate) fn new(heap: Global, legs: usize, parts: usize) -> Result<Rooms, Fail> {
        Ok(Rooms {
            legs: vec![in heap; FILL; legs]?,
            parts: vec![in heap; FILL; parts]?,
        })
    }

    // Rooms that always suffice.
    pub(crate) fn ample(heap: Global) -> Result<Rooms, Fail> {
        Rooms::new(heap, 600, 40_400)
    }

    // So many numbers of legs.
    pub(crate) fn legs(&self, count: usize) -> Result<&[u64], Fail> {
        front(&self.legs, count)
    }

    // So many numbers of parts.
    pub(crate) fn parts(&self, count: usize) -> Result<&[u64], Fail> {
        front(&self.parts, count)
    }

    // Whether past so many numbers of legs and of parts all are as they were.
    pub(crate) fn check_filled(
        &self,
        rt: &impl Abort,
        legs: usize,
        parts: usize,
    ) -> Result<(), Fail> {
        assert!(rt; is_filled(&self.legs, legs));
        assert!(rt; is_filled(&self.parts, parts));
        Ok(())
    }
}
