//! Why a run was not made.

ghost use Rattle.std.specs.Prelude.{◌≡◌};
ghost use Rattle.attr_engine.specs.declared.error.EngineError.TheVariants as errors;

use std::alloc::AllocError;
use thiserror::Error;

/// Why a run was not made.
#[derive(Clone, Copy, Debug, PartialEq, Eq, Error)]
pub enum EngineError {
    #[error("out of memory")]
    Memory,
    /// There are more than 62: a memory has 64 seats, and the last answers take two.
    #[error("too many readers")]
    TooManyReaders,
}

impl From<AllocError> for EngineError {
    ghost from_gives = { λ _ e. e ≡ errors.Memory };

    fn from(_e: AllocError) -> EngineError {
        EngineError::Memory
    }
}
