// A round and a sheet written as numbers into a room that is lent.
ghost use Rattle.std.specs.Prelude.{◌≡◌, ℕ, ◌+◌, ◌*◌, ◌^◌, ◌<◌, ◌≤◌, not, map, length, All};
ghost use Rattle.road.specs.Counts.{bit};
ghost use Rattle.road.specs.Model.{marked};
ghost use Rattle.join.specs.Certified.{sheet_of};
ghost use Rattle.road.specs.Numbers.{leg_number};
ghost use Rattle.sheet.specs.Numbers.{part_numbers, sheet_numbers, AllMarked};
ghost use Rattle.round.specs.Rooms.{part_of, over};

use join::Stage;
use road::{Leg, Town};

// What is written as one number. No `Into<u64>`: the law says which number it is, and only what fits may be written.
pub(crate) trait Numbered {
    ghost number: { Self → ℕ };

    fn number(&self) -> u64
        requires { number self.now < 2 ^ 64 }
        ensures { result ≡ number self.now };
}

// Twice the street's number, and one more if the leg is driven back.
impl Numbered for Leg {
    ghost number = { leg_number };

    fn number(&self) -> u64 {
        2 * self.by as u64 + u64::from(self.back)
    }
}

// 1 for a mark, else 0.
impl Numbered for bool {
    ghost number = { bit };

    fn number(&self) -> u64 {
        u64::from(*self)
    }
}

// The numbers of the items at the front of the room. Over `room.iter_mut().zip(items)` the proof doesn't close: of what was written nothing is known then.
pub(crate) fn write_front<T: Numbered>(room: &mut [u64], items: &[T])
    requires long { length items.now ≤ length room.old }
    requires small { All (λ x. T.number x < 2 ^ 64) items.now }
    ensures { room.new ≡ over (map T.number items.now) room.old }
{
    for (i, item) in items.iter().enumerate() {
        room[i] = item.number();
    }
}

// A class as a part, at the front of the room.
pub(crate) fn write_part(room: &mut [u64], stage: &Stage, town: &Town)
    requires { 1 + town.now.crossings ≤ length room.old }
    ensures { room.new ≡ over (part_numbers (part_of town.now.crossings stage.now)) room.old }
{
    room[0] = stage.charge.unsigned_abs();
    write_front(&mut room[1..], &stage.marks[..town.crossings]);
}

// Whether a class is a part of the sheet: the depot is not in it.
fn is_part(stage: &Stage, town: &Town) -> bool
    ensures is { marked stage.now.marks town.now.depot ≡ not result }
    ensures places { length stage.now.marks ≡ 100 }
{
    !stage.marks[town.depot]
}

// How many parts the sheet of the classes has: those without the depot.
pub(crate) fn count_parts(stages: &[Stage], town: &Town) -> usize
    ensures { result ≡ length (sheet_of town.now.crossings town.now.depot stages.now) }
{
    stages.iter().filter(|stage| is_part(stage, town)).count()
}

// The classes without the depot as parts, one after the other, at the front of the room. The room from one part on is lent on to write the next.
pub(crate) fn write_parts(room: &mut [u64], stages: &[Stage], town: &Town)
    requires { length (sheet_of town.now.crossings town.now.depot stages.now) * (1 + town.now.crossings) ≤ length room.old }
    ensures written { room.new ≡ over (sheet_numbers (sheet_of town.now.crossings town.now.depot stages.now)) room.old }
    ensures marks { AllMarked town.now.crossings (sheet_of town.now.crossings town.now.depot stages.now) }
{
    let [stage, others @ ..] = stages else {
        return;
    };
    if is_part(stage, town) {
        let (part, rest) = room.split_at_mut(1 + town.crossings);
        write_part(part, stage, town);
        write_parts(rest, others, town);
    } else {
        write_parts(room, others, town);
    }
}
