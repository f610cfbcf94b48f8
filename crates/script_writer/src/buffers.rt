// Writing into a buffer of the caller's.
ghost use Rattle.std.specs.Prelude.{◌≡◌};
ghost use Rattle.script_writer.specs.declared.buffers.WriteError.TheVariants.{Memory};

use std::alloc::AllocError;
use thiserror::Error;

mod copying;

pub use copying::copy_whole;

/// Why nothing was written.
#[derive(Clone, Copy, PartialEq, Eq, Debug, Error)]
pub enum WriteError {
    /// The buffer does not hold the whole.
    #[error("no room for the text")]
    Short,
    #[error("no memory")]
    Memory,
}

// derived, the conversion would not say which error it gives

impl From<AllocError> for WriteError {
    ghost from_gives = { λ _ r. r ≡ Memory };

    fn from(_: AllocError) -> WriteError {
        WriteError::Memory
    }
}
