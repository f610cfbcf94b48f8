// Why no script was read.
ghost use Rattle.std.specs.Prelude.{◌≡◌};
ghost use Rattle.script.specs.declared.errors.ReadError.TheVariants.{Refused, Memory};

use crate::refusals::Refusal;
use std::alloc::{AllocError, AllocFailed};

#[derive(Clone, Copy, PartialEq, Eq, Debug)]
pub enum ReadError {
    Refused(Refusal),
    /// No memory for the script: this says nothing of the text.
    Memory,
}

// derived, the conversions would not say which error they give

impl From<Refusal> for ReadError {
    ghost from_gives = { λ q r. r ≡ Refused q };

    fn from(refusal: Refusal) -> ReadError {
        ReadError::Refused(refusal)
    }
}

impl From<AllocError> for ReadError {
    ghost from_gives = { λ _ r. r ≡ Memory };

    fn from(_: AllocError) -> ReadError {
        ReadError::Memory
    }
}

impl<T: Drop> From<AllocFailed<T>> for ReadError {
    ghost from_gives = { λ _ r. r ≡ Memory };

    fn from(error: AllocFailed<T>) -> ReadError {
        ReadError::from(AllocError::from(error))
    }
}
