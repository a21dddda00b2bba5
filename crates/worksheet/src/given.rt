// What is put on a worksheet: a town, the legs of a round and the parts of a sheet, and the numbers that follow from them.
ghost use Rattle.std.specs.Prelude.{◌≡◌, ◌+◌, ◌^◌, ◌<◌, IfOk};
ghost use Rattle.road.specs.Numbers.{legs_in};
ghost use Rattle.road.specs.Model.{model};
ghost use Rattle.sheet.specs.Sheet.{weights};
ghost use Rattle.worksheet.specs.Model.{parts_of};
ghost use Rattle.worksheet.specs.Worksheet.{borne, all_weights, street_lengths, leg_lengths};

use crate::part::Part;
use crate::rows::total;
use road::{Leg, Street, Town};
use std::alloc::{AllocError, Global};

#[derive(Clone, Copy)]
pub(crate) struct Given<'a> {
    pub(crate) heap: Global,
    pub(crate) town: &'a Town,
    pub(crate) legs: &'a [u64],
    pub(crate) parts: &'a [Part<'a>],
}

impl Given<'_> {
    // The weights of the parts out of which a street leads.
    pub(crate) fn borne(&self, street: Street) -> Result<Vec<u64>, AllocError>
        ensures { IfOk result (λ v. v.items ≡ borne (parts_of self.now.parts.now) street) }
    {
        self.parts
            .iter()
            .filter(|part| part.leads_out(street))
            .map(|part| part.weight)
            .collect(self.heap)
    }

    pub(crate) fn all_weights(&self) -> Result<Vec<u64>, AllocError>
        ensures { IfOk result (λ v. v.items ≡ all_weights (parts_of self.now.parts.now)) }
    {
        self.parts.iter().map(|part| part.weight).collect(self.heap)
    }

    // What all parts weigh together.
    pub(crate) fn weights(&self) -> Result<u128, AllocError>
        ensures { IfOk result (λ n. (n ≡ weights (parts_of self.now.parts.now)) × (n + 2 ^ 64 < 2 ^ 128)) }
    {
        Ok(total(self.all_weights()?.as_slice()))
    }

    pub(crate) fn street_lengths(&self) -> Result<Vec<u64>, AllocError>
        ensures { IfOk result (λ v. v.items ≡ street_lengths (model self.now.town.now)) }
    {
        self.town
            .streets()
            .iter()
            .map(|street| street.long)
            .collect(self.heap)
    }

    pub(crate) fn leg_lengths(&self) -> Result<Vec<u64>, AllocError>
        ensures { IfOk result (λ v. v.items ≡ leg_lengths (model self.now.town.now) (legs_in self.now.legs.now)) }
    {
        self.legs
            .iter()
            .map(|number| self.town.street(Leg::from(*number).by).long)
            .collect(self.heap)
    }
}
