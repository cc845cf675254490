//! Whether a document has these items already, so that nothing is to be done.

ghost use Rattle.std.specs.Prelude.{◌≡◌, ◌↔◌, true, Some, IsTrue, IfOk, is_some};
ghost use Rattle.std.specs.BTreeMap.{is_at};
ghost use Rattle.std.specs.Map.{lookup};
ghost use Rattle.std.specs.Ordering.{int_eq, is_eq, nat_cmp};
ghost use Rattle.attr_types.specs.Value.{value_cmp};
ghost use Rattle.attr_field.specs.Documents.{IsDocuments};
ghost use Rattle.image_format.specs.Documents.{column_at};
ghost use Rattle.index_model.specs.Columns.{items_of};

use crate::document_items;
use arena_api::Frozen;
use attr_types::{Doc, Item, Kind, Value, ValueType};
use entry_ref::EntryRef;
use std::alloc::{AllocError, Global};

/// Returns whether two values are equal.
fn same_value(a: &Value, b: &Value) -> bool
    ensures { result ≡ is_eq (value_cmp a.now b.now) }
{
    a == b
}

/// Returns whether two weights are equal.
fn same_weight(a: i32, b: i32) -> bool
    ensures { result ≡ int_eq a b }
{
    a == b
}

/// Returns whether two items are equal.
#[tactic(none)]
fn same_item(a: &Item, b: &Item) -> bool
    ensures { IsTrue result ↔ (a.now ≡ b.now) }
{
    if !same_value(&a.value, &b.value) {
        return false;
    }
    same_weight(a.weight, b.weight)
}

/// Returns whether two lists of items are equal.
#[tactic(none)]
fn same_items(a: &[Item], b: &[Item]) -> bool
    ensures { IsTrue result ↔ (a.now ≡ b.now) }
{
    if a.len() != b.len() {
        return false;
    }
    for i in 0..a.len() {
        if !same_item(&a[i], &b[i]) {
            return false;
        }
    }
    true
}

/// Returns whether a document exists.
fn is_there<const OFFSET_BITS: u32, F: Frozen<OFFSET_BITS>>(
    alloc: Global,
    frozen: &mut F,
    kind: Kind,
    value_type: ValueType,
    root: EntryRef<OFFSET_BITS>,
    doc: Doc,
) -> Result<bool, AllocError>
    requires { IsDocuments kind value_type (F.records frozen.old) root }
    ensures there { IfOk result (λ there. there
        ≡ is_some (lookup (is_at (nat_cmp doc)) (column_at kind value_type (F.records frozen.old) root.entry))) }
    ensures same { frozen.new ≡ frozen.old }
{
    Ok(document_items(alloc, frozen, kind, value_type, root, doc)?.is_some())
}

/// Returns whether a document exists and already has these items. `old` are the items that it has if it exists.
#[tactic(none)]
pub fn has_already<const OFFSET_BITS: u32, F: Frozen<OFFSET_BITS>>(
    alloc: Global,
    frozen: &mut F,
    kind: Kind,
    value_type: ValueType,
    root: EntryRef<OFFSET_BITS>,
    doc: Doc,
    old: &[Item],
    new: &[Item],
) -> Result<bool, AllocError>
    requires documents { IsDocuments kind value_type (F.records frozen.old) root }
    requires was { old.now ≡ items_of (column_at kind value_type (F.records frozen.old) root) doc }
    ensures has { IfOk result (λ same. IsTrue same
        ↔ (lookup (is_at (nat_cmp doc)) (column_at kind value_type (F.records frozen.old) root.entry) ≡ Some new.now)) }
    ensures same { frozen.new ≡ frozen.old }
{
    if !same_items(old, new) {
        return Ok(false);
    }
    if !old.is_empty() {
        return Ok(true);
    }
    is_there(alloc, frozen, kind, value_type, root, doc)
}
