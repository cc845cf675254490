//! An operation on one document: a put, an update or a remove.

use crate::change::FieldChanges;
use crate::doc::Doc;
use crate::items::FieldItems;
use crate::list::ListOf;

/// An operation on one document.
#[derive(Debug, Drop)]
pub enum Op {
    /// Stores the document with exactly these items.
    Put {
        doc: Doc,
        items: FieldItems,
    },
    /// Changes the document by one change for each attribute, or not at all. With `create` a missing document is
    /// treated as one without items.
    Update {
        doc: Doc,
        create: bool,
        change: FieldChanges,
    },
    /// Removes the document.
    Remove {
        doc: Doc,
    },
}

/// Operations in order.
pub type Ops = ListOf<Op>;
