//! Queries: conditions on values, joined by and and or.

use crate::text::Text;
use crate::value::Value;

/// A condition on one value.
#[derive(Debug, Drop)]
pub enum Leaf {
    /// The value itself.
    Is(Value),
    /// Texts that begin with these bytes.
    Prefix(Text),
    /// From `low` to `high`, both included. A missing bound sets no limit.
    Range {
        low: Option<Value>,
        high: Option<Value>,
    },
    /// Strictly below the value.
    Below(Value),
    /// Strictly above the value.
    Above(Value),
}

/// Queries in order.
pub type Queries = Vec<Query>;

/// A condition on a document.
#[derive(Debug, Drop)]
pub enum Query {
    /// Some item in the attribute with this number meets the leaf.
    One { field: u32, leaf: Leaf },
    /// The document has an item in some attribute, and every member matches.
    And(Queries),
    /// Some member matches.
    Or(Queries),
}
