//! Removes a document from the lists of all its old values.

ghost use Rattle.std.specs.Prelude.{◌≡◌, ℕ, ◌∷◌, [], true, IfOk, IfErr};
ghost use Rattle.std.specs.BTreeMap.{get, is_at};
ghost use Rattle.std.specs.Map.{keys_of, lookup};
ghost use Rattle.std.specs.Ordering.{nat_cmp};
ghost use Rattle.store_api.specs.Calls.{RefusesOf};
ghost use Rattle.store_api.specs.Parts.{Owns};
ghost use Rattle.store_api.specs.Units.{MayDo, MakesWithin};
ghost use Rattle.image_format.specs.Postings.{index_of};
ghost use Rattle.index_model.specs.Changes.{first_given};
ghost use Rattle.index_model.specs.Index.{list_of};
ghost use Rattle.attr_types.specs.Value.{value_cmp, AreOfType};
ghost use Rattle.attr_types.specs.declared.value.Value.{Value as OneValue};
ghost use Rattle.value_index.specs.Forms.{IsOfForm};
ghost use Rattle.value_index.specs.Indexes.{index_part, IsIndex};
ghost use Rattle.value_index.specs.Counts.{gone_most, value_nodes, RemovesLow};
ghost use Rattle.value_index.specs.Walks.{WalksIndex};
ghost use Rattle.value_index.specs.Widths.{IsWalkWidth};

use crate::{index_law, remove};
use attr_types::{Doc, Value, ValueType};
use entry_ref::EntryRef;
use std::alloc::Global;
use std::collections::BTreeMap;
use store_api::{Store, StoreError};

/// Removes a document from the lists of its old values that are not among the new ones. Returns the root of the new
/// index. With `dense` the list of a frequent value among `documents` documents becomes or remains a bit vector.
#[tactic(none)]
pub fn remove_all<const OFFSET_BITS: u32, S: Store<OFFSET_BITS>>(
    alloc: Global,
    store: &mut S,
    value_type: ValueType,
    root: EntryRef<OFFSET_BITS>,
    doc: Doc,
    old: &BTreeMap<Value, i32>,
    new: &BTreeMap<Value, i32>,
    dense: bool,
    documents: u32,
) -> Result<EntryRef<OFFSET_BITS>, StoreError>
    requires unit { (S.ledger store.old).unit ≡ true }
    requires index { IsIndex value_type (S.records store.old) root }
    requires owns { Owns (S.ledger store.old) (S.records store.old) (index_part root ∷ []) }
    requires form { IsOfForm dense value_type (S.records store.old) root }
    requires typed { AreOfType value_type (keys_of old.now.entries) }
    requires has { (value : OneValue) → lookup (is_at (nat_cmp doc)) (list_of value (index_of value_type (S.records store.old) root))
        ≡ first_given (get value_cmp new.now value) (get value_cmp old.now value) }
    ensures makes { IfOk result (WalksIndex value_type (S.ledger store.old) (S.ledger store.new) (S.records store.old) (S.records store.new)
        root.entry doc (get value_cmp new.now) (get value_cmp old.now)) }
    ensures form { IfOk result (IsOfForm dense value_type (S.records store.new)) }
    ensures counts { MakesWithin (S.ledger store.old) (S.ledger store.new)
        (gone_most dense (index_of value_type (S.records store.old) root.entry) doc (get value_cmp new.now) old.now.entries 34) }
    ensures low { (levels : ℕ)
        → RemovesLow levels (index_of value_type (S.records store.old) root.entry) doc (get value_cmp new.now) old.now.entries
        → MakesWithin (S.ledger store.old) (S.ledger store.new)
        (gone_most dense (index_of value_type (S.records store.old) root.entry) doc (get value_cmp new.now) old.now.entries (value_nodes levels)) }
    ensures refuses { IfErr result (RefusesOf
        (IsWalkWidth dense (index_of value_type (S.records store.old) root.entry) doc (get value_cmp new.now) (get value_cmp old.now))
        (S.ledger store.old) (S.ledger store.new)) }
    ensures may { MayDo (S.ledger store.old) (S.ledger store.new) }
{
    index_law();
    let _ = value_type;
    let mut next = root;
    for (value, _) in old.iter() {
        if !new.contains_key(value) {
            next = remove(alloc, store, next, value, doc, dense, documents)?;
        }
    }
    Ok(next)
}
