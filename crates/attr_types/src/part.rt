//! One part of a dot product: a value and its factor.

use crate::{ListOf, Value};

/// One part of a dot product: a value, and the factor for the weight of an item with this value.
#[derive(Debug, Drop)]
pub struct Part {
    pub value: Value,
    pub weight: i32,
}

/// The parts of a dot product, in the given order. A value may occur in several parts.
pub type Parts = ListOf<Part>;
