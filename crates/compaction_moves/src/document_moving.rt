//! Moves the items of one document out of the victim.

ghost use Rattle.std.specs.Prelude.{◌≡◌, ◌+◌, ◌*◌, true, length, Ok, Some, IfOk, IfErr};
ghost use Rattle.std.specs.BTreeMap.{is_at};
ghost use Rattle.std.specs.Map.{lookup};
ghost use Rattle.std.specs.Ordering.{nat_cmp};
ghost use Rattle.store_api.specs.Calls.{IsUsedWidth, RefusesOf};
ghost use Rattle.store_api.specs.Units.{MayDo, MakesWithin};
ghost use Rattle.frozen_btree.specs.Changes.{levels};
ghost use Rattle.image_format.specs.Documents.{column_at};
ghost use Rattle.index_model.specs.Columns.{items_of};
ghost use Rattle.attr_field.specs.DocumentsChanges.{documents_most};
ghost use Rattle.attr_field.specs.DocumentsFlows.{reference_at};
ghost use Rattle.compaction_moves.specs.DocumentMoves.{AreItemsApart, CanMoveItems, MovesItems};

use crate::lying::document_lies;
use attr_field::{document_items as read_items, keys_of, set_document};
use attr_types::{Doc, Item, Kind, ValueType};
use entry_ref::EntryRef;
use std::alloc::Global;
use store_api::{Store, StoreError};
use value_index::key_law;

/// Sets a document to the items that it has, with the keys of the index.
#[tactic(none)]
fn set_again<const OFFSET_BITS: u32, S: Store<OFFSET_BITS>>(
    alloc: Global,
    store: &mut S,
    kind: Kind,
    value_type: ValueType,
    documents: EntryRef<OFFSET_BITS>,
    dictionary: EntryRef<OFFSET_BITS>,
    doc: Doc,
    items: &[Item],
    buffer: u32,
) -> Result<EntryRef<OFFSET_BITS>, StoreError>
    requires unit { (S.ledger store.old).unit ≡ true }
    requires sealed { (S.ledger store.old).sealed buffer ≡ true }
    requires can { CanMoveItems OFFSET_BITS buffer kind value_type (S.ledger store.old) (S.records store.old) documents dictionary }
    requires there { lookup (is_at (nat_cmp doc)) (column_at kind value_type (S.records store.old) documents) ≡ Some items.now }
    ensures moves { IfOk result (MovesItems OFFSET_BITS buffer doc kind value_type (S.ledger store.old) (S.ledger store.new)
        (S.records store.old) (S.records store.new) documents.entry dictionary.entry) }
    ensures counts { MakesWithin (S.ledger store.old) (S.ledger store.new)
        (documents_most kind (length items.now) (2 * levels (S.records store.old) documents.entry + 1)) }
    ensures refuses { IfErr result (RefusesOf (IsUsedWidth (S.ledger store.old) (S.records store.old)) (S.ledger store.old)
        (S.ledger store.new)) }
    ensures may { MayDo (S.ledger store.old) (S.ledger store.new) }
{
    key_law();
    let _ = buffer;
    let Ok(keys) = keys_of(alloc, store, value_type, dictionary, items) else {
        return Err(StoreError::Memory);
    };
    set_document(
        alloc,
        store,
        kind,
        value_type,
        documents,
        doc,
        keys.as_slice(),
        items,
    )
}

/// Reads the items of a document, and sets the document to them.
#[tactic(none)]
fn read_again<const OFFSET_BITS: u32, S: Store<OFFSET_BITS>>(
    alloc: Global,
    store: &mut S,
    kind: Kind,
    value_type: ValueType,
    documents: EntryRef<OFFSET_BITS>,
    dictionary: EntryRef<OFFSET_BITS>,
    doc: Doc,
    buffer: u32,
) -> Result<EntryRef<OFFSET_BITS>, StoreError>
    requires unit { (S.ledger store.old).unit ≡ true }
    requires sealed { (S.ledger store.old).sealed buffer ≡ true }
    requires can { CanMoveItems OFFSET_BITS buffer kind value_type (S.ledger store.old) (S.records store.old) documents dictionary }
    ensures moves { IfOk result (MovesItems OFFSET_BITS buffer doc kind value_type (S.ledger store.old) (S.ledger store.new)
        (S.records store.old) (S.records store.new) documents.entry dictionary.entry) }
    ensures counts { MakesWithin (S.ledger store.old) (S.ledger store.new)
        (documents_most kind (length (items_of (column_at kind value_type (S.records store.old) documents.entry) doc))
        (2 * levels (S.records store.old) documents.entry + 1)) }
    ensures refuses { IfErr result (RefusesOf (IsUsedWidth (S.ledger store.old) (S.records store.old)) (S.ledger store.old)
        (S.ledger store.new)) }
    ensures may { MayDo (S.ledger store.old) (S.ledger store.new) }
{
    let Ok(found) = read_items(alloc, store, kind, value_type, documents, doc) else {
        return Err(StoreError::Memory);
    };
    match found {
        Some(items) => set_again(
            alloc,
            store,
            kind,
            value_type,
            documents,
            dictionary,
            doc,
            items.as_slice(),
            buffer,
        ),
        None => Ok(documents),
    }
}

/// Moves the items of a document out of a sealed buffer: if its record, or one to which it refers, lies there, its
/// items are set again, with the keys of the index. Returns the root of the new documents.
#[tactic(none)]
pub fn move_items<const OFFSET_BITS: u32, S: Store<OFFSET_BITS>>(
    alloc: Global,
    store: &mut S,
    kind: Kind,
    value_type: ValueType,
    documents: EntryRef<OFFSET_BITS>,
    dictionary: EntryRef<OFFSET_BITS>,
    doc: Doc,
    buffer: u32,
) -> Result<EntryRef<OFFSET_BITS>, StoreError>
    requires unit { (S.ledger store.old).unit ≡ true }
    requires sealed { (S.ledger store.old).sealed buffer ≡ true }
    requires can { CanMoveItems OFFSET_BITS buffer kind value_type (S.ledger store.old) (S.records store.old) documents dictionary }
    ensures moves { IfOk result (MovesItems OFFSET_BITS buffer doc kind value_type (S.ledger store.old) (S.ledger store.new)
        (S.records store.old) (S.records store.new) documents.entry dictionary.entry) }
    ensures still { AreItemsApart OFFSET_BITS buffer kind (S.records store.old) (reference_at (S.records store.old) documents.entry doc)
        → result ≡ Ok documents.entry }
    ensures counts { MakesWithin (S.ledger store.old) (S.ledger store.new)
        (documents_most kind (length (items_of (column_at kind value_type (S.records store.old) documents.entry) doc))
        (2 * levels (S.records store.old) documents.entry + 1)) }
    ensures refuses { IfErr result (RefusesOf (IsUsedWidth (S.ledger store.old) (S.records store.old)) (S.ledger store.old)
        (S.ledger store.new)) }
    ensures may { MayDo (S.ledger store.old) (S.ledger store.new) }
{
    if !document_lies(store, kind, value_type, documents, doc, buffer) {
        return Ok(documents);
    }
    read_again(
        alloc, store, kind, value_type, documents, dictionary, doc, buffer,
    )
}
