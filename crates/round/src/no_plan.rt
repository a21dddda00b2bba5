// Why no plan is given.
ghost use Rattle.std.specs.Prelude.{◌≡◌};
ghost use Rattle.round.specs.declared.no_plan.NoPlan.TheVariants.{Refused, Memory};

use road::Refusal;
use std::alloc::AllocError;

#[derive(Clone, Copy, PartialEq, Eq, Debug)]
pub enum NoPlan {
    // A refusal of the list.
    Refused(Refusal),
    // Want of memory: the allocator's own error.
    Memory(AllocError),
}

// By hand, as the next, since contracts read what they give.
impl From<Refusal> for NoPlan {
    ghost from_gives = { λ e r. r ≡ Refused e };

    fn from(e: Refusal) -> NoPlan {
        NoPlan::Refused(e)
    }
}

impl From<AllocError> for NoPlan {
    ghost from_gives = { λ e r. r ≡ Memory e };

    fn from(e: AllocError) -> NoPlan {
        NoPlan::Memory(e)
    }
}
