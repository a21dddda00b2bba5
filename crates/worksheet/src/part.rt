// A part of a sheet, over lent numbers.
ghost use Rattle.std.specs.Prelude.{◌≡◌, IfOk};
ghost use Rattle.road.specs.Model.{model, marked};
ghost use Rattle.sheet.specs.Sheet.{leads_out};
ghost use Rattle.sheet.specs.Numbers.{sheet_in};
ghost use Rattle.worksheet.specs.Model.{part_of, parts_of};
ghost use Rattle.worksheet.specs.Worksheet.{crossings_of, streets_out};

use road::{Street, Town};
use std::alloc::{AllocError, Global};

// Its weight, and a mark for each crossing.
#[derive(Clone, Copy)]
pub(crate) struct Part<'n> {
    pub(crate) weight: u64,
    marks: &'n [u64],
}

impl<'n> Part<'n> {
    // The parts that numbers say, for a town.
    pub(crate) fn read(
        heap: Global,
        town: &Town,
        numbers: &'n [u64],
    ) -> Result<Vec<Part<'n>>, AllocError>
        ensures { IfOk result (λ v. parts_of v.items ≡ sheet_in town.now.crossings numbers.now) }
    {
        numbers
            .chunks_exact(1 + town.crossings)
            .map(|part| Part {
                weight: part[0],
                marks: &part[1..],
            })
            .collect(heap)
    }

    fn is_marked(&self, v: usize) -> bool
        ensures { result ≡ marked (part_of self.now).marks v }
    {
        self.marks.get(v).is_some_and(|mark| *mark > 0)
    }

    // Whether a street leads out.
    pub(crate) fn leads_out(&self, street: Street) -> bool
        ensures { result ≡ leads_out (part_of self.now).marks street }
    {
        self.is_marked(street.one) != self.is_marked(street.two)
    }

    // Its crossings.
    pub(crate) fn crossings(&self, heap: Global, town: &Town) -> Result<Vec<usize>, AllocError>
        ensures { IfOk result (λ v. v.items ≡ crossings_of (model town.now) (part_of self.now)) }
    {
        (0..town.crossings)
            .filter(|&v| self.is_marked(v))
            .collect(heap)
    }

    // The streets that lead out.
    pub(crate) fn streets_out(&self, heap: Global, town: &Town) -> Result<Vec<usize>, AllocError>
        ensures { IfOk result (λ v. v.items ≡ streets_out (model town.now) (part_of self.now)) }
    {
        (0..town.count)
            .filter(|&k| self.leads_out(town.street(k)))
            .collect(heap)
    }
}
