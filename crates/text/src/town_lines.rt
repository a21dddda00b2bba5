// A town as text: its crossings, its depot and its streets.
ghost use Rattle.std.specs.Prelude.{◌≡◌, ◌++◌, IfOk, Ok, string_bytes, OnOk};
ghost use Rattle.std.specs.List.{flat_map};
ghost use Rattle.road.specs.Model.{model};
ghost use Rattle.text.specs.Format.{told_town};
ghost use Rattle.text.specs.Towns.{crossings_line, depot_line, street_line, town_text as text_of};
ghost use Rattle.text.specs.Laws.{numbers_of};

use road::{Street, Town};
use std::alloc::{AllocError, Global};

fn write_street(out: &mut String, street: Street) -> Result<(), AllocError>
    ensures { OnOk result (string_bytes out.new ≡ string_bytes out.old ++ street_line street) }
{
    let Street { one, two, long } = street;
    writeln!(out, "street {one} {two} {long}")
}

fn write_streets(out: &mut String, streets: &[Street]) -> Result<(), AllocError>
    ensures { OnOk result (string_bytes out.new ≡ string_bytes out.old ++ flat_map street_line streets.now) }
{
    for street in streets {
        write_street(out, *street)?;
    }
    Ok(())
}

fn write_head(out: &mut String, crossings: usize, depot: usize) -> Result<(), AllocError>
    ensures { OnOk result (string_bytes out.new ≡ string_bytes out.old ++ (crossings_line crossings ++ depot_line depot)) }
{
    writeln!(out, "crossings {crossings}")?;
    writeln!(out, "depot {depot}")
}

// The text of a town, from which the same town is read.
pub fn town_text(heap: Global, town: &Town) -> Result<String, AllocError>
    ensures is { IfOk result (λ s. string_bytes s ≡ text_of (model town.now) town.now.depot) }
    ensures read_back { IfOk result (λ s. told_town (string_bytes s) ≡ Ok (numbers_of (model town.now) town.now.depot)) }
{
    let mut out = String::new(heap);
    write_head(&mut out, town.crossings, town.depot)?;
    write_streets(&mut out, town.streets())?;
    Ok(out)
}
