// Towns by rule.
ghost use Rattle.std.specs.Prelude.{ℕ, ◌*◌, ◌<◌, IfOk, OnOk};
ghost use Rattle.test_towns.specs.Streets.{AllJoin};

use std::alloc::{AllocError, Global};

// Rows of crossings, each joined to its neighbours; every street is as long as the others.
pub fn grid(heap: Global, wide: u8, high: u8, metres: u64) -> Result<Vec<[u64; 3]>, AllocError>
    ensures { IfOk result (λ streets. AllJoin (wide * high) metres streets.items) }
{
    let row = u64::from(wide);
    let crossings = row * u64::from(high);
    let mut streets = Vec::new(heap);
    for v in 0..crossings {
        if v % row + 1 < row {
            streets.push([v, v + 1, metres])?;
        }
        if v + row < crossings {
            streets.push([v, v + row, metres])?;
        }
    }
    Ok(streets)
}

// Joins a crossing to each before it.
fn join_to_earlier(streets: &mut Vec<[u64; 3]>, two: u64) -> Result<(), AllocError>
    ensures { (n : ℕ) → two < n → AllJoin n 1 streets.old.items → OnOk result (AllJoin n 1 streets.new.items) }
{
    for one in 0..two {
        streets.push([one, two, 1])?;
    }
    Ok(())
}

// A street of length 1 between any two crossings.
pub fn complete(heap: Global, crossings: u8) -> Result<Vec<[u64; 3]>, AllocError>
    ensures { IfOk result (λ streets. AllJoin crossings 1 streets.items) }
{
    let mut streets = Vec::new(heap);
    for two in 0..u64::from(crossings) {
        join_to_earlier(&mut streets, two)?;
    }
    Ok(streets)
}
