// Sets of streets, and of crossings.
ghost use Rattle.std.specs.Prelude.{◌≡◌, ◌<◌, true, false, replicate, IfOk, slice_set};
ghost use Rattle.road.specs.Model.{marked};
ghost use Rattle.join.specs.Joins.{◌⊞◌, single};
ghost use Rattle.join.specs.Amounts.{AllEmpty};

use std::alloc::{AllocError, Global};
use std::array::from_fn;

// The streets that are in just one of two sets.
pub(crate) fn xor(a: &[bool; 300], b: &[bool; 300]) -> [bool; 300]
    ensures { marked result ≡ marked a.now ⊞ marked b.now }
{
    from_fn(|k| a[k] != b[k])
}

// Puts street k into a set, or takes it out.
pub(crate) fn toggle(a: &mut [bool; 300], k: usize)
    requires { k < 300 }
    ensures { marked a.new ≡ marked a.old ⊞ single k }
{
    a[k] = !a[k];
}

// A set with street k put in, or taken out.
pub(crate) fn flip(a: &[bool; 300], k: usize) -> [bool; 300]
    requires { k < 300 }
    ensures { marked result ≡ marked a.now ⊞ single k }
{
    let mut out = *a;
    toggle(&mut out, k);
    out
}

// One crossing.
pub(crate) fn only(v: usize) -> [bool; 100]
    requires { v < 100 }
    ensures { result ≡ slice_set (replicate 100 false) v true }
{
    let mut marks = [false; 100];
    marks[v] = true;
    marks
}

// No streets, for each crossing.
pub(crate) fn no_ways(heap: Global) -> Result<Vec<[bool; 300]>, AllocError>
    ensures { IfOk result (λ rows. AllEmpty rows.items 100) }
{
    Ok(vec![in heap; [false; 300]; 100]?)
}
