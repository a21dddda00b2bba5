// What is wrong with a text, or that memory is wanting.
ghost use Rattle.std.specs.Prelude.{◌≡◌};
ghost use Rattle.text.specs.declared.text_error.TextError.TheVariants.{Memory};

use crate::LineFault;
use std::alloc::{AllocError, AllocFailed};
use thiserror::Error;

#[derive(Debug, Drop, Error)]
pub enum TextError {
    // The number of the line, from 1.
    #[error("line {0}: {1}")]
    Line(usize, LineFault),
    #[error("expected a line \"crossings N\"")]
    NoCrossings,
    #[error("expected a line \"depot D\"")]
    NoDepot,
    #[error("expected a line \"round\"")]
    NoRound,
    #[error("out of memory")]
    Memory,
}

// By hand, since it says which case it gives.
impl From<AllocError> for TextError {
    ghost from_gives = { λ _ r. r ≡ Memory };

    fn from(_e: AllocError) -> TextError {
        TextError::Memory
    }
}

impl<T: Drop> From<AllocFailed<T>> for TextError {
    ghost from_gives = { λ _ r. r ≡ Memory };

    fn from(_e: AllocFailed<T>) -> TextError {
        TextError::Memory
    }
}
