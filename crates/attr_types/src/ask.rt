//! What one word of the command line asks for: hits or scores.

use crate::part::Parts;
use crate::{ListOf, Query};

/// One question to a table.
#[derive(Debug, Drop)]
pub enum Ask {
    /// The documents that a query matches.
    Hits(Query),
    /// The documents that have the value of some part in the attribute with this number, which must be a weighted
    /// set; each with its score.
    Dot { field: u32, parts: Parts },
}

/// Asks, in order.
pub type Asks = Vec<Ask>;
