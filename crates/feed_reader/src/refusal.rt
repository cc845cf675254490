//! Why a line is refused.

ghost use Rattle.std.specs.Prelude.{◌≡◌};
ghost use Rattle.feed_reader.specs.declared.refusal.LineError.TheVariants as line_errors;

use std::alloc::{AllocError, AllocFailed};

/// Why a line is refused. The checks run in this order.
#[derive(Clone, Copy, Debug, PartialEq, Eq)]
pub enum Refusal {
    NotJson,
    NoOperation,
    BadId,
    BadValue,
    Unsupported,
    TooManyItems,
}

/// Why a line was not read.
#[derive(Debug, Drop)]
pub enum LineError {
    Refused(Refusal),
    Memory,
}

impl From<Refusal> for LineError {
    ghost from_gives = { λ r e. e ≡ line_errors.Refused r };

    fn from(refusal: Refusal) -> LineError {
        LineError::Refused(refusal)
    }
}

impl From<AllocError> for LineError {
    ghost from_gives = { λ _ e. e ≡ line_errors.Memory };

    fn from(_e: AllocError) -> LineError {
        LineError::Memory
    }
}

impl<T: Drop> From<AllocFailed<T>> for LineError {
    ghost from_gives = { λ _ e. e ≡ line_errors.Memory };

    fn from(_e: AllocFailed<T>) -> LineError {
        LineError::Memory
    }
}
