// The lines of a worksheet.
ghost use Rattle.std.specs.Prelude.{◌≡◌, ◌++◌, string_bytes, OnOk};
ghost use Rattle.road.specs.Numbers.{legs_in};
ghost use Rattle.road.specs.Model.{model};
ghost use Rattle.worksheet.specs.Model.{part_of, parts_of};
ghost use Rattle.worksheet.specs.Worksheet.{crossings_text, part_line, street_line, weights_line, streets_line, round_line, sums_text, compared_line, worksheet_text, numbered};

use crate::given::Given;
use crate::lines::{write_bears, write_compared, write_streets_out, write_sum_line, write_weight};
use crate::part::Part;
use crate::rows::write_row;
use road::Street;
use std::alloc::AllocError;

impl Given<'_> {
    fn write_crossings(&self, out: &mut String, i: usize, part: &Part) -> Result<(), AllocError>
        ensures { OnOk result (string_bytes out.new ≡ string_bytes out.old ++ crossings_text (model self.now.town.now) i (part_of part.now)) }
    {
        let crossings = part.crossings(self.heap, self.town)?;
        write!(out, "part {i}: crossings")?;
        write_row(out, crossings.as_slice())
    }

    // A part: its crossings, the streets that lead out of it, and its weight.
    fn write_part(&self, out: &mut String, i: usize, part: &Part) -> Result<(), AllocError>
        ensures { OnOk result (string_bytes out.new ≡ string_bytes out.old ++ part_line (model self.now.town.now) i (part_of part.now)) }
    {
        let streets = part.streets_out(self.heap, self.town)?;
        self.write_crossings(out, i, part)?;
        write_streets_out(out, streets.as_slice())?;
        write_weight(out, streets.len(), part.weight)
    }

    fn write_parts(&self, out: &mut String) -> Result<(), AllocError>
        ensures { OnOk result (string_bytes out.new ≡ string_bytes out.old ++ numbered (part_line (model self.now.town.now)) 0 (parts_of self.now.parts.now)) }
    {
        for (i, part) in self.parts.iter().enumerate() {
            self.write_part(out, i, part)?;
        }
        Ok(())
    }

    // A street: the weights that it bears, and twice its length.
    fn write_street(&self, out: &mut String, k: usize, street: Street) -> Result<(), AllocError>
        ensures { OnOk result (string_bytes out.new ≡ string_bytes out.old ++ street_line (parts_of self.now.parts.now) k street) }
    {
        let weights = self.borne(street)?;
        write_bears(out, k, weights.as_slice(), 2 * u128::from(street.long))
    }

    fn write_streets(&self, out: &mut String) -> Result<(), AllocError>
        ensures { OnOk result (string_bytes out.new ≡ string_bytes out.old ++ numbered (street_line (parts_of self.now.parts.now)) 0 (model self.now.town.now).streets) }
    {
        for (k, street) in self.town.streets().iter().enumerate() {
            self.write_street(out, k, *street)?;
        }
        Ok(())
    }

    fn write_weights(&self, out: &mut String) -> Result<(), AllocError>
        ensures { OnOk result (string_bytes out.new ≡ string_bytes out.old ++ weights_line (parts_of self.now.parts.now)) }
    {
        let weights = self.all_weights()?;
        write_sum_line(out, "all parts weigh ", weights.as_slice())
    }

    fn write_street_lengths(&self, out: &mut String) -> Result<(), AllocError>
        ensures { OnOk result (string_bytes out.new ≡ string_bytes out.old ++ streets_line (model self.now.town.now)) }
    {
        let lengths = self.street_lengths()?;
        write_sum_line(out, "all streets measure ", lengths.as_slice())
    }

    fn write_leg_lengths(&self, out: &mut String) -> Result<(), AllocError>
        ensures { OnOk result (string_bytes out.new ≡ string_bytes out.old ++ round_line (model self.now.town.now) (legs_in self.now.legs.now)) }
    {
        let lengths = self.leg_lengths()?;
        write_sum_line(out, "the round measures ", lengths.as_slice())
    }

    fn write_sums(&self, out: &mut String) -> Result<(), AllocError>
        ensures { OnOk result (string_bytes out.new ≡ string_bytes out.old ++ sums_text (model self.now.town.now) (legs_in self.now.legs.now) (parts_of self.now.parts.now)) }
    {
        self.write_weights(out)?;
        self.write_street_lengths(out)?;
        self.write_leg_lengths(out)
    }

    // Twice the round, beside twice all streets and the weights.
    fn write_compared(&self, out: &mut String) -> Result<(), AllocError>
        ensures { OnOk result (string_bytes out.new ≡ string_bytes out.old ++ compared_line (model self.now.town.now) (legs_in self.now.legs.now) (parts_of self.now.parts.now)) }
    {
        let weights = self.weights()?;
        let round = 2 * self.town.length(self.legs);
        let streets = 2 * u128::from(self.town.all_streets());
        write_compared(out, round, streets, weights)
    }

    // The whole worksheet.
    pub(crate) fn write(&self, out: &mut String) -> Result<(), AllocError>
        ensures { OnOk result (string_bytes out.new ≡ string_bytes out.old ++ worksheet_text (model self.now.town.now) (legs_in self.now.legs.now) (parts_of self.now.parts.now)) }
    {
        self.write_parts(out)?;
        self.write_streets(out)?;
        self.write_sums(out)?;
        self.write_compared(out)
    }
}
