//! The dictionary of an attribute, as a query reads it.

use attr_types::ValueType;
use entry_ref::EntryRef;

/// The dictionary of an attribute, by its root, and the type of its values.
#[derive(Clone, Copy, Drop)]
pub struct Dictionary<const OFFSET_BITS: u32> {
    pub root: EntryRef<OFFSET_BITS>,
    pub values: ValueType,
}
