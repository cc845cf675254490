//! Adds a document to the lists of all its new values.

ghost use Rattle.std.specs.Prelude.{◌≡◌, ℕ, ◌∷◌, [], true, None, IfOk, IfErr};
ghost use Rattle.std.specs.BTreeMap.{get, is_at};
ghost use Rattle.std.specs.Map.{keys_of, lookup};
ghost use Rattle.std.specs.Ordering.{nat_cmp};
ghost use Rattle.store_api.specs.Calls.{RefusesOf};
ghost use Rattle.store_api.specs.Parts.{Owns};
ghost use Rattle.store_api.specs.Units.{MayDo, MakesWithin};
ghost use Rattle.image_format.specs.Postings.{index_of};
ghost use Rattle.index_model.specs.Changes.{is_weight};
ghost use Rattle.index_model.specs.Index.{list_of};
ghost use Rattle.attr_types.specs.Value.{value_cmp, AreOfType};
ghost use Rattle.attr_types.specs.declared.value.Value.{Value as OneValue};
ghost use Rattle.value_index.specs.Forms.{IsOfForm, WeighOnes};
ghost use Rattle.value_index.specs.Indexes.{index_part, IsIndex};
ghost use Rattle.value_index.specs.Counts.{added_most, value_nodes, AddsLow};
ghost use Rattle.value_index.specs.Walks.{WalksIndex};
ghost use Rattle.value_index.specs.Widths.{IsWalkWidth};

use crate::{add, index_law, key_law};
use attr_types::{Doc, Value, ValueType};
use entry_ref::EntryRef;
use std::alloc::Global;
use std::collections::BTreeMap;
use store_api::{Store, StoreError};

/// Returns whether a value has this weight.
fn has_weight(weights: &BTreeMap<Value, i32>, value: &Value, weight: i32) -> bool
    ensures { result ≡ is_weight weight (get value_cmp weights.now value.now) }
{
    match weights.get(value) {
        Some(other) => weight == *other,
        None => false,
    }
}

/// Adds a document to the lists of its new values, unless the old ones include the value with the same weight.
/// Returns the root of the new index. With `dense` the list of a frequent value among `documents` documents becomes a bit
/// vector; then each weight has to be 1.
#[tactic(none)]
pub fn add_all<const OFFSET_BITS: u32, S: Store<OFFSET_BITS>>(
    alloc: Global,
    store: &mut S,
    value_type: ValueType,
    root: EntryRef<OFFSET_BITS>,
    doc: Doc,
    old: &BTreeMap<Value, i32>,
    new: &BTreeMap<Value, i32>,
    dense: bool,
    documents: u32,
) -> Result<EntryRef<OFFSET_BITS>, StoreError>
    requires unit { (S.ledger store.old).unit ≡ true }
    requires index { IsIndex value_type (S.records store.old) root }
    requires owns { Owns (S.ledger store.old) (S.records store.old) (index_part root ∷ []) }
    requires form { IsOfForm dense value_type (S.records store.old) root }
    requires ones { WeighOnes dense new.now.entries }
    requires typed { AreOfType value_type (keys_of new.now.entries) }
    requires has { (value : OneValue) → lookup (is_at (nat_cmp doc)) (list_of value (index_of value_type (S.records store.old) root))
        ≡ get value_cmp old.now value }
    ensures makes { IfOk result (WalksIndex value_type (S.ledger store.old) (S.ledger store.new) (S.records store.old) (S.records store.new)
        root.entry doc (get value_cmp new.now) (λ value. None)) }
    ensures form { IfOk result (IsOfForm dense value_type (S.records store.new)) }
    ensures counts { MakesWithin (S.ledger store.old) (S.ledger store.new)
        (added_most dense (index_of value_type (S.records store.old) root.entry) doc (get value_cmp old.now) new.now.entries 34) }
    ensures low { (levels : ℕ) → AddsLow levels (index_of value_type (S.records store.old) root.entry) doc new.now.entries
        → MakesWithin (S.ledger store.old) (S.ledger store.new)
        (added_most dense (index_of value_type (S.records store.old) root.entry) doc (get value_cmp old.now) new.now.entries (value_nodes levels)) }
    ensures refuses { IfErr result (RefusesOf
        (IsWalkWidth dense (index_of value_type (S.records store.old) root.entry) doc (get value_cmp new.now) (λ value. None))
        (S.ledger store.old) (S.ledger store.new)) }
    ensures may { MayDo (S.ledger store.old) (S.ledger store.new) }
{
    index_law();
    key_law();
    let _ = value_type;
    let mut next = root;
    for (value, weight) in new.iter() {
        if !has_weight(old, value, *weight) {
            next = add(alloc, store, next, value, doc, *weight, dense, documents)?;
        }
    }
    Ok(next)
}
