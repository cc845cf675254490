//! The map from documents to the records of their items, changed.

ghost use Rattle.std.specs.Prelude.{◌≡◌, ◌+◌, ◌*◌, ◌∷◌, [], true, length, None, Some, IsSome, IfOk, IfErr, unwrap_or};
ghost use Rattle.std.specs.BTreeMap.{is_at};
ghost use Rattle.std.specs.Map.{lookup};
ghost use Rattle.std.specs.Ordering.{nat_cmp};
ghost use Rattle.tree_read.specs.Trees.{tree_pairs};
ghost use Rattle.tree_read.specs.declared.node_format.TheConstants.{NODE_WORDS};
ghost use Rattle.tree_read.specs.Pairs.{lookup as found, put, take_out};
ghost use Rattle.store_api.specs.Calls.{Refuses, RefusesOf};
ghost use Rattle.store_api.specs.Parts.{Owns};
ghost use Rattle.store_api.specs.Units.{MayDo, MakesWithin};
ghost use Rattle.frozen_btree.specs.Changes.{levels};
ghost use Rattle.frozen_btree.specs.Makes.{CountsNodes};
ghost use Rattle.doc_vector.specs.Documents.{beside_document, IsDocumentMap};
ghost use Rattle.image_format.specs.Documents.{column_at};
ghost use Rattle.index_model.specs.Columns.{with_change};
ghost use Rattle.attr_types.specs.Lawful.{IsLawfulItems};
ghost use Rattle.attr_field.specs.DocumentsChanges.{documents_most, AreBeside, AreKeysOf, ChangesPair, IsDocumentWidth, MakesDocuments};
ghost use Rattle.attr_field.specs.DocumentsChanges.{SetsItems};
ghost use Rattle.attr_field.specs.Documents.{documents_part, documents_refer, IsDocuments};

use crate::making::{drop_items, make_items};
use arena_api::Frozen;
use attr_types::{Doc, Item, Kind, ValueType};
use doc_vector::{get, remove, set};
use entry_ref::EntryRef;
use std::alloc::Global;
use store_api::{Store, StoreError};

/// Returns the reference of a document's items, or 0 if it has none or does not exist.
fn reference_of<const OFFSET_BITS: u32, F: Frozen<OFFSET_BITS>>(
    frozen: &mut F,
    root: EntryRef<OFFSET_BITS>,
    doc: Doc,
) -> EntryRef<OFFSET_BITS>
    requires { IsDocumentMap (F.records frozen.old) root }
    ensures reference { result ≡ unwrap_or (found (beside_document doc) (tree_pairs (F.records frozen.old) root.entry)) 0 }
    ensures same { frozen.new ≡ frozen.old }
{
    match get(frozen, root, doc) {
        Some(reference) => reference,
        None => EntryRef::from_raw(0),
    }
}

/// Sets the reference of a document's items, and drops the record that the old reference owned.
fn set_reference<const OFFSET_BITS: u32, S: Store<OFFSET_BITS>>(
    store: &mut S,
    kind: Kind,
    root: EntryRef<OFFSET_BITS>,
    doc: Doc,
    reference: EntryRef<OFFSET_BITS>,
) -> Result<EntryRef<OFFSET_BITS>, StoreError>
    requires unit { (S.ledger store.old).unit ≡ true }
    requires map { IsDocumentMap (S.records store.old) root }
    requires owns { Owns (S.ledger store.old) (S.records store.old) (documents_part kind root ∷ []) }
    ensures changes { IfOk result (ChangesPair kind (S.ledger store.old) (S.ledger store.new) (S.records store.old) (S.records store.new)
        root.entry (take_out (beside_document doc) (tree_pairs (S.records store.old) root.entry))
        (put (beside_document doc) (doc, reference.entry) (tree_pairs (S.records store.old) root.entry))) }
    ensures counts { CountsNodes (S.ledger store.old) (S.ledger store.new) (2 * levels (S.records store.old) root.entry + 1) }
    ensures refuses { IfErr result (Refuses (S.ledger store.old) (S.ledger store.new) NODE_WORDS) }
    ensures may { MayDo (S.ledger store.old) (S.ledger store.new) }
{
    let old = reference_of(store, root, doc);
    let next = set(store, root, doc, reference)?;
    drop_items(store, kind, old);
    Ok(next)
}

/// Sets the items of a document, given the records of their values, one for each item. Returns the root of the new
/// documents.
pub fn set_document<const OFFSET_BITS: u32, S: Store<OFFSET_BITS>>(
    alloc: Global,
    store: &mut S,
    kind: Kind,
    value_type: ValueType,
    root: EntryRef<OFFSET_BITS>,
    doc: Doc,
    keys: &[EntryRef<OFFSET_BITS>],
    items: &[Item],
) -> Result<EntryRef<OFFSET_BITS>, StoreError>
    requires unit { (S.ledger store.old).unit ≡ true }
    requires documents { IsDocuments kind value_type (S.records store.old) root }
    requires owns { Owns (S.ledger store.old) (S.records store.old) (documents_part kind root ∷ []) }
    requires beside { AreBeside (S.ledger store.old) (S.records store.old) (documents_part kind root ∷ [])
        (documents_refer kind (S.records store.old) root) }
    requires keys { AreKeysOf value_type (S.records store.old) keys.now items.now }
    requires keys_beside { AreBeside (S.ledger store.old) (S.records store.old) (documents_part kind root ∷ []) keys.now }
    requires lawful { IsLawfulItems kind items.now }
    ensures makes { IfOk result (MakesDocuments kind value_type (S.ledger store.old) (S.ledger store.new) (S.records store.old)
        (S.records store.new) root.entry keys.now
        (with_change (column_at kind value_type (S.records store.old) root.entry) doc (Some items.now))) }
    ensures sets { IfOk result (SetsItems kind (S.ledger store.old) (S.records store.old) (S.records store.new) root.entry doc keys.now) }
    ensures counts { MakesWithin (S.ledger store.old) (S.ledger store.new)
        (documents_most kind (length items.now) (2 * levels (S.records store.old) root.entry + 1)) }
    ensures refuses { IfErr result (RefusesOf (IsDocumentWidth kind (length items.now)) (S.ledger store.old) (S.ledger store.new)) }
    ensures may { MayDo (S.ledger store.old) (S.ledger store.new) }
{
    let reference = make_items(alloc, store, kind, keys, items)?;
    set_reference(store, kind, root, doc, reference)
}

/// Removes a document that exists. Returns the root of the new documents.
pub fn remove_document<const OFFSET_BITS: u32, S: Store<OFFSET_BITS>>(
    store: &mut S,
    kind: Kind,
    value_type: ValueType,
    root: EntryRef<OFFSET_BITS>,
    doc: Doc,
) -> Result<EntryRef<OFFSET_BITS>, StoreError>
    requires unit { (S.ledger store.old).unit ≡ true }
    requires documents { IsDocuments kind value_type (S.records store.old) root }
    requires owns { Owns (S.ledger store.old) (S.records store.old) (documents_part kind root ∷ []) }
    requires beside { AreBeside (S.ledger store.old) (S.records store.old) (documents_part kind root ∷ [])
        (documents_refer kind (S.records store.old) root) }
    requires there { IsSome (lookup (is_at (nat_cmp doc)) (column_at kind value_type (S.records store.old) root)) }
    ensures makes { IfOk result (MakesDocuments kind value_type (S.ledger store.old) (S.ledger store.new) (S.records store.old)
        (S.records store.new) root.entry [] (with_change (column_at kind value_type (S.records store.old) root.entry) doc None)) }
    ensures counts { CountsNodes (S.ledger store.old) (S.ledger store.new) (levels (S.records store.old) root.entry + 1) }
    ensures refuses { IfErr result (Refuses (S.ledger store.old) (S.ledger store.new) NODE_WORDS) }
    ensures may { MayDo (S.ledger store.old) (S.ledger store.new) }
{
    let old = reference_of(store, root, doc);
    let next = remove(store, root, doc)?;
    drop_items(store, kind, old);
    Ok(next)
}
