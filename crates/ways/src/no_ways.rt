// Why no ways are given.
ghost use Rattle.std.specs.Prelude.{◌≡◌};
ghost use Rattle.ways.specs.declared.no_ways.NoWays.TheVariants.{Memory};

use std::alloc::AllocError;

#[derive(Clone, Copy, PartialEq, Eq, Debug)]
pub enum NoWays {
    // A start or an end past the crossings: its number.
    NoCrossing(usize),
    // Want of memory: the allocator's own error.
    Memory(AllocError),
}

// By hand, since contracts read what it gives.
impl From<AllocError> for NoWays {
    ghost from_gives = { λ e r. r ≡ Memory e };

    fn from(e: AllocError) -> NoWays {
        NoWays::Memory(e)
    }
}
