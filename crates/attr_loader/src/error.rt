//! Why a loading failed.

ghost use Rattle.std.specs.Prelude.{◌≡◌};
ghost use Rattle.attr_loader.specs.declared.error.LoadError.TheVariants as errors;

use std::alloc::AllocError;
use thiserror::Error;

/// Why a loading failed.
#[derive(Clone, Copy, Debug, PartialEq, Eq, Error)]
pub enum LoadError {
    #[error("out of memory")]
    Memory,
    /// The last possible commit is made, and there are operations after it.
    #[error("no commit is left")]
    CommitsSpent,
}

impl From<AllocError> for LoadError {
    ghost from_gives = { λ _ e. e ≡ errors.Memory };

    fn from(_e: AllocError) -> LoadError {
        LoadError::Memory
    }
}
