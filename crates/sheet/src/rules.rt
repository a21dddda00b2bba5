// The two rules of a sheet, and what its parts weigh together.
ghost use Rattle.std.specs.Prelude.{◌≡◌, ◌%◌, ◌<◌, ◌≤◌, ◌==◌, length, slice_index_or};
ghost use Rattle.road.specs.Roads.{street};
ghost use Rattle.road.specs.Counts.{when};
ghost use Rattle.sheet.specs.Sheet.{no_part, leads_out, ways_out, load, weights};
ghost use Rattle.sheet.specs.Words.{part_fault, load_fault, Finds};
ghost use Rattle.sheet.specs.Model.{parts_of, town_of};

use crate::SheetFault;
use crate::parts::Parts;

impl Parts<'_, '_> {
    // Whether an odd number of streets lead out of part i.
    fn is_odd(&self, i: usize) -> bool
        requires { i < length (parts_of self.now) }
        ensures { result ≡ (ways_out (slice_index_or (parts_of self.now) i no_part).marks (town_of self.now).streets % 2 == 1) }
    {
        let out = (0..self.town.count).filter(|&k| self.leads_out(i, k));
        out.count() % 2 == 1
    }

    // Out of each part lead an odd number of streets.
    pub(crate) fn check_odd(&self) -> Result<(), SheetFault>
        ensures { Finds (part_fault (town_of self.now) (parts_of self.now)) result }
    {
        (0..self.count())
            .find(|&i| !self.is_odd(i))
            .map_or(Ok(()), |i| Err(SheetFault::Part(i)))
    }

    // The weight of part i where street k leads out of it, and nothing where it does not.
    fn weight_on(&self, i: usize, k: usize) -> u64
        requires { i < length (parts_of self.now) }
        ensures { result ≡ when (leads_out (slice_index_or (parts_of self.now) i no_part).marks (street (town_of self.now) k)) (slice_index_or (parts_of self.now) i no_part).weight }
    {
        if self.leads_out(i, k) {
            self.weight(i)
        } else {
            0
        }
    }

    // What the parts out of which street k leads weigh together.
    fn load(&self, k: usize) -> u64
        ensures { result ≡ load (parts_of self.now) (street (town_of self.now) k) }
    {
        (0..self.count()).map(|i| self.weight_on(i, k)).sum()
    }

    // No street bears more than twice its length.
    pub(crate) fn check_loads(&self) -> Result<(), SheetFault>
        ensures { Finds (load_fault (town_of self.now) (parts_of self.now)) result }
    {
        (0..self.town.count)
            .find(|&k| self.load(k) > 2 * self.town.street(k).long)
            .map_or(Ok(()), |k| Err(SheetFault::Street(k)))
    }

    // What all parts weigh together.
    pub(crate) fn weights(&self) -> u64
        ensures is { result ≡ weights (parts_of self.now) }
        ensures most { result ≤ 4000000000 }
    {
        (0..self.count()).map(|i| self.weight(i)).sum()
    }
}
