//! Why a body could not be made.

ghost use Rattle.std.specs.Prelude.{◌≡◌};
ghost use Rattle.wl_synth.specs.declared.error.SynthError.TheVariants.{OutOfMemory};

use std::alloc::{AllocError, AllocFailed};
use thiserror::Error;

/// Why a body could not be made.
#[derive(Clone, Copy, Debug, PartialEq, Eq, Error)]
pub enum SynthError {
    /// There was no memory for the body.
    #[error("OutOfMemory")]
    OutOfMemory,
    /// This number was to be a constant of 32 bits, and is above 2147483647, the greatest that a
    /// signed number of 32 bits can be.
    #[error("Range")]
    Range(u32),
}

impl From<AllocError> for SynthError {
    ghost from_gives = { λ _ e. e ≡ OutOfMemory };

    fn from(_e: AllocError) -> SynthError {
        SynthError::OutOfMemory
    }
}

impl<T: Drop> From<AllocFailed<T>> for SynthError {
    ghost from_gives = { λ _ e. e ≡ OutOfMemory };

    fn from(_e: AllocFailed<T>) -> SynthError {
        SynthError::OutOfMemory
    }
}
