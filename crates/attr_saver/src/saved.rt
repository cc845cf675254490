//! What a save holds.

use attr_types::{Doc, Items, Kind, ListOf, ValueType};

/// A document with its items in the saved attribute.
#[derive(Debug, Drop)]
pub struct SavedDocument {
    pub doc: Doc,
    pub items: Items,
}

/// Documents in ascending order.
pub type SavedTable = ListOf<SavedDocument>;

/// The content of a save.
#[derive(Debug, Drop)]
pub struct Saved {
    pub kind: Kind,
    pub value: ValueType,
    /// The number of operations that made the table.
    pub operations: u32,
    pub table: SavedTable,
}
