//! What a line asks for: its member put, update or remove.

use attr_types::{FieldChanges, FieldItems};

/// The member that says what a line does.
#[derive(Clone, Copy, Debug, PartialEq, Eq)]
pub enum OpName {
    Put,
    Update,
    Remove,
}

/// What a line asks for.
#[derive(Debug, Drop)]
pub enum Asked {
    Put(FieldItems),
    /// `None` if some operator does not exist for its attribute.
    Update {
        create: bool,
        changes: Option<FieldChanges>,
    },
    Remove,
}
