// Classes as a pass begins: each crossing is alone.
ghost use Rattle.std.specs.Prelude.{◌≡◌, ℕ, ◌<◌, IfOk, slice_index};
ghost use Rattle.join.specs.Classes.{Alone};

use crate::partition::Classes;
use crate::sets::no_ways;
use std::alloc::{AllocError, Global};
use std::array::from_fn;

// Each crossing, as its own label.
fn own_labels() -> [usize; 100]
    ensures { (v : ℕ) → v < 100 → slice_index result v ≡ v }
{
    from_fn(|v| v)
}

impl Classes {
    // Each crossing a class of its own.
    pub(crate) fn alone(heap: Global) -> Result<Classes, AllocError>
        ensures { IfOk result Alone }
    {
        Ok(Classes {
            label: own_labels(),
            way: no_ways(heap)?,
            size: [1; 100],
        })
    }
}
