// A plan as text: the round, its length and the parts of the sheet.
ghost use Rattle.std.specs.Prelude.{◌≡◌, ◌++◌, IfOk, string_bytes, OnOk, nat_lt};
ghost use Rattle.std.specs.List.{flat_map};
ghost use Rattle.road.specs.Numbers.{leg_in, legs_in};
ghost use Rattle.sheet.specs.Numbers.{marks_in, sheet_in};
ghost use Rattle.text.specs.Plans.{leg_text, round_line, length_line, mark_text, marks_text, part_in, part_line, planned_text};

use road::Leg;
use std::alloc::{AllocError, Global};

// A leg: its street's number, with b if it is driven back.
fn write_leg(out: &mut String, leg: u64) -> Result<(), AllocError>
    ensures { OnOk result (string_bytes out.new ≡ string_bytes out.old ++ leg_text (leg_in leg)) }
{
    let Leg { by, back } = Leg::from(leg);
    let mark = if back { "b" } else { "" };
    write!(out, " {by}{mark}")
}

// The legs of a round.
fn write_legs(out: &mut String, legs: &[u64]) -> Result<(), AllocError>
    ensures { OnOk result (string_bytes out.new ≡ string_bytes out.old ++ flat_map leg_text (legs_in legs.now)) }
{
    for leg in legs {
        write_leg(out, *leg)?;
    }
    Ok(())
}

fn write_round(out: &mut String, legs: &[u64]) -> Result<(), AllocError>
    ensures { OnOk result (string_bytes out.new ≡ string_bytes out.old ++ round_line (legs_in legs.now)) }
{
    out.push_str("round")?;
    write_legs(out, legs)?;
    out.push_str("\n")
}

// The length of a round, and of all streets.
fn write_length(out: &mut String, long: u64, all: u64) -> Result<(), AllocError>
    ensures { OnOk result (string_bytes out.new ≡ string_bytes out.old ++ length_line long all) }
{
    writeln!(out, "length {long} of {all}")
}

// A crossing, if it is marked.
fn write_mark(out: &mut String, v: usize, mark: u64) -> Result<(), AllocError>
    ensures { OnOk result (string_bytes out.new ≡ string_bytes out.old ++ mark_text v (nat_lt 0 mark)) }
{
    if mark > 0 {
        write!(out, " {v}")
    } else {
        Ok(())
    }
}

// The crossings of a part.
fn write_marks(out: &mut String, marks: &[u64]) -> Result<(), AllocError>
    ensures { OnOk result (string_bytes out.new ≡ string_bytes out.old ++ marks_text 0 (marks_in marks.now)) }
{
    for (v, mark) in marks.iter().enumerate() {
        write_mark(out, v, *mark)?;
    }
    Ok(())
}

// A part: its weight and its crossings.
fn write_part(out: &mut String, weight: u64, marks: &[u64]) -> Result<(), AllocError>
    ensures { OnOk result (string_bytes out.new ≡ string_bytes out.old ++ part_line (part_in weight marks.now)) }
{
    write!(out, "part {weight} at")?;
    write_marks(out, marks)?;
    out.push_str("\n")
}

// The parts of a sheet; a part of 2^64 numbers would be longer than any list.
fn write_parts(out: &mut String, crossings: usize, numbers: &[u64]) -> Result<(), AllocError>
    ensures { OnOk result (string_bytes out.new ≡ string_bytes out.old ++ flat_map part_line (sheet_in crossings numbers.now)) }
{
    let Some(width) = crossings.checked_add(1) else {
        return Ok(());
    };
    for part in numbers.chunks_exact(width) {
        write_part(out, part[0], &part[1..])?;
    }
    Ok(())
}

// A plan in numbers: its legs, its parts in a town of so many crossings, the length of its round and that of all streets.
#[derive(Clone, Copy)]
pub struct PlanNumbers<'a> {
    pub crossings: u64,
    pub legs: &'a [u64],
    pub parts: &'a [u64],
    pub long: u64,
    pub all: u64,
}

impl PlanNumbers<'_> {
    fn write(&self, out: &mut String) -> Result<(), AllocError>
        ensures { OnOk result (string_bytes out.new ≡ string_bytes out.old ++ planned_text (legs_in self.now.legs.now) self.now.long self.now.all (sheet_in self.now.crossings self.now.parts.now)) }
    {
        write_round(out, self.legs)?;
        write_length(out, self.long, self.all)?;
        write_parts(out, self.crossings as usize, self.parts)
    }
}

// The text of a plan: its round, its length beside that of all streets, and its sheet.
pub fn plan_text(heap: Global, plan: &PlanNumbers) -> Result<String, AllocError>
    ensures { IfOk result (λ s. string_bytes s ≡ planned_text (legs_in plan.now.legs.now) plan.now.long plan.now.all (sheet_in plan.now.crossings plan.now.parts.now)) }
{
    let mut out = String::new(heap);
    plan.write(&mut out)?;
    Ok(out)
}
