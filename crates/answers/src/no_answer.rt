// Why a text gets no answer.
ghost use Rattle.std.specs.Prelude.{◌≡◌};
ghost use Rattle.text.specs.declared.text_error.TextError.TheVariants.{Memory};
ghost use Rattle.answers.specs.declared.no_answer.NoAnswer.TheVariants.{Text, Refused};
ghost use Rattle.answers.specs.Stopped.{stopped};

use road::Refusal;
use round::NoPlan;
use std::alloc::AllocError;
use text::{RefusalWords, TextError};
use thiserror::Error;

#[derive(Debug, Drop, Error)]
pub enum NoAnswer {
    // What is wrong with the text, or want of memory.
    #[error("{0}")]
    Text(TextError),
    // A refusal of the list.
    #[error("{words}", words = RefusalWords(*.0))]
    Refused(Refusal),
}

// By hand, as the next, since they say what they give.
impl From<TextError> for NoAnswer {
    ghost from_gives = { λ e r. r ≡ Text e };

    fn from(e: TextError) -> NoAnswer {
        NoAnswer::Text(e)
    }
}

impl From<Refusal> for NoAnswer {
    ghost from_gives = { λ e r. r ≡ Refused e };

    fn from(e: Refusal) -> NoAnswer {
        NoAnswer::Refused(e)
    }
}

impl From<AllocError> for NoAnswer {
    ghost from_gives = { λ _ r. r ≡ Text Memory };

    fn from(_e: AllocError) -> NoAnswer {
        NoAnswer::Text(TextError::Memory)
    }
}

impl From<NoPlan> for NoAnswer {
    ghost from_gives = { λ e r. r ≡ stopped e };

    fn from(e: NoPlan) -> NoAnswer {
        match e {
            NoPlan::Refused(refusal) => NoAnswer::Refused(refusal),
            NoPlan::Memory(_) => NoAnswer::Text(TextError::Memory),
        }
    }
}
