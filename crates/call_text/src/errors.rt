// Why a text of calls is not read.
ghost use Rattle.std.specs.Prelude.{◌≡◌};
ghost use Rattle.call_text.specs.declared.errors.TextError.TheVariants.{Memory};

use std::alloc::{AllocError, AllocFailed};
use thiserror::Error;

#[derive(Clone, Copy, PartialEq, Eq, Debug, Error)]
pub enum TextError {
    /// Counted from 1.
    #[error("line {0} is none that a text of calls has")]
    Line(usize),
    #[error("no memory")]
    Memory,
}

// derived, the conversions would not say which error they give

impl From<AllocError> for TextError {
    ghost from_gives = { λ _ r. r ≡ Memory };

    fn from(_: AllocError) -> TextError {
        TextError::Memory
    }
}

impl<T: Drop> From<AllocFailed<T>> for TextError {
    ghost from_gives = { λ _ r. r ≡ Memory };

    fn from(error: AllocFailed<T>) -> TextError {
        TextError::from(AllocError::from(error))
    }
}
