//! The items of a document: values with weights.

use crate::list::ListOf;
use crate::value::Value;

/// A value with its weight. The weight is 1 outside weighted sets.
#[derive(Clone, Debug, Drop)]
pub struct Item {
    pub value: Value,
    pub weight: i32,
}

/// The items of a document in one attribute.
pub type Items = ListOf<Item>;

/// The greatest number of items of a document in one attribute.
pub const MOST_ITEMS: usize = 1023;

/// The items of a document, one list for each attribute, in the order of the attributes.
pub type FieldItems = ListOf<Items>;
