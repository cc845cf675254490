//! What an update does to the items of a document.

use crate::items::Items;
use crate::list::ListOf;
use crate::value::{Value, Values};

/// A change of the value of one item.
#[derive(Debug, Drop)]
pub enum Act {
    Set(Value),
    /// Adds an amount to a whole number. The change is skipped if the result does not fit in 64 signed bits.
    Shift(i64),
}

/// A change of the weight of one item.
#[derive(Debug, Drop)]
pub enum WeightAct {
    Set(i32),
    /// Adds an amount to the weight. The change is skipped if the result does not fit in 32 signed bits.
    Shift(i64),
}

/// What an update does to the items of a document in one attribute.
/// <https://docs.vespa.ai/en/reference/document-json-format.html#update>
#[derive(Debug, Drop)]
pub enum Change {
    /// Changes nothing.
    Keep,
    /// Replaces the items.
    Assign(Items),
    /// Adds items: at the end of an array, by value into a weighted set.
    Add(Items),
    /// Removes values from a weighted set.
    Take(Values),
    /// Adds an amount to a single whole number.
    Shift(i64),
    /// Changes the array item at an index, counted from 0.
    At { index: u32, act: Act },
    /// Changes the weight of a value in a weighted set.
    Of { value: Value, act: WeightAct },
}

/// The changes of an update, one for each attribute, in the order of the attributes.
pub type FieldChanges = ListOf<Change>;
