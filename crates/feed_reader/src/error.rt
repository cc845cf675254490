//! Why a feed was not read.

ghost use Rattle.std.specs.Prelude.{◌≡◌};
ghost use Rattle.feed_reader.specs.declared.error.LinesError.TheVariants as lines_errors;

use crate::refusal::Refusal;
use std::alloc::AllocError;
use thiserror::Error;

/// Why the lines of a feed were not read.
#[derive(Debug, Drop)]
pub enum LinesError {
    Line { line: u32, refusal: Refusal },
    Memory,
}

impl From<AllocError> for LinesError {
    ghost from_gives = { λ _ e. e ≡ lines_errors.Memory };

    fn from(_e: AllocError) -> LinesError {
        LinesError::Memory
    }
}

/// Why a feed was not read. Lines are numbered from 1, including blank ones. The first faulty line decides, and on
/// that line the first check that fails, in this order.
#[derive(Clone, Copy, Debug, PartialEq, Eq, Error)]
pub enum FeedError {
    /// The line is not a JSON value.
    #[error("line {line}: NotJson")]
    NotJson { line: u32 },
    /// The line is not an object with exactly one of `put`, `update` and `remove`.
    #[error("line {line}: NoOperation")]
    NoOperation { line: u32 },
    /// That member is not an id that ends with a document's number.
    #[error("line {line}: BadId")]
    BadId { line: u32 },
    /// In a put or an update, `create` is neither `true` nor `false`, `fields` is not an object, or a named field
    /// does not have its form.
    #[error("line {line}: BadValue")]
    BadValue { line: u32 },
    /// There is a member `condition`, or in a remove `create`, or an attribute does not have such an operator.
    #[error("line {line}: Unsupported")]
    Unsupported { line: u32 },
    /// The list or object of items has more than 1,023 members.
    #[error("line {line}: TooManyItems")]
    TooManyItems { line: u32 },
    /// The feed has more than 16,777,216 bytes.
    #[error("FeedTooLong")]
    FeedTooLong,
    /// The source failed.
    #[error("ReadFault")]
    ReadFault,
    /// Memory is exhausted.
    #[error("Memory")]
    Memory,
}
