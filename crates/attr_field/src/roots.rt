//! An attribute, by the roots of its document tree and its dictionary.

use entry_ref::EntryRef;

/// An attribute, by the roots of its two trees. Each root is 0 if the attribute has no documents.
#[derive(Clone, Copy, Debug, PartialEq, Eq, Drop)]
pub struct FieldRoots<const OFFSET_BITS: u32> {
    /// The tree of documents, each with the reference of its items.
    pub documents: EntryRef<OFFSET_BITS>,
    /// The tree of values, each with the documents that have it.
    pub dictionary: EntryRef<OFFSET_BITS>,
}
