//! Why a text is no query for these attributes.

use std::alloc::AllocError;
use thiserror::Error;

/// Why a text is not a query for these attributes. The checks run in this order, each over the whole text.
#[derive(Debug, Drop, Error)]
pub enum QueryError {
    /// The text is not a query. `place` is the offset of the first byte that no query continues with, or the length
    /// of the text if it ended too early.
    #[error("Syntax at {place}")]
    Syntax { place: u64 },
    /// A name is not the name of an attribute. `place` is the offset at which the first such name begins.
    #[error("NoField")]
    NoField { place: u64 },
    /// A leaf has another value type than its attribute.
    #[error("WrongType")]
    WrongType,
    /// A number is outside 64 signed bits, or a text is longer than 1,024 bytes.
    #[error("OutOfRange")]
    OutOfRange,
    /// The query has more than 32 levels.
    #[error("TooDeep")]
    TooDeep,
    /// Memory is exhausted.
    #[error("Memory")]
    Memory,
}
