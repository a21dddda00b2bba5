// The worksheet of a town, a round and the parts of a sheet.
ghost use Rattle.std.specs.Prelude.{◌≡◌, IfOk, string_bytes};
ghost use Rattle.road.specs.Numbers.{legs_in};
ghost use Rattle.road.specs.Model.{model};
ghost use Rattle.sheet.specs.Numbers.{sheet_in};
ghost use Rattle.worksheet.specs.Worksheet.{worksheet_text};

use crate::given::Given;
use crate::part::Part;
use road::Town;
use std::alloc::{AllocError, Global};

// The text of the worksheet of a town, of legs and of the parts that numbers say, whether they are a round and a sheet or not; numbers behind the last
// whole part are left out. The legs and the parts are lent as numbers, as they are for the checker.
pub fn worksheet(
    heap: Global,
    town: &Town,
    legs: &[u64],
    parts: &[u64],
) -> Result<String, AllocError>
    ensures { IfOk result (λ s. string_bytes s ≡ worksheet_text (model town.now) (legs_in legs.now) (sheet_in town.now.crossings parts.now)) }
{
    let parts = Part::read(heap, town, parts)?;
    let given = Given {
        heap,
        town,
        legs,
        parts: parts.as_slice(),
    };
    let mut out = String::new(heap);
    given.write(&mut out)?;
    Ok(out)
}
