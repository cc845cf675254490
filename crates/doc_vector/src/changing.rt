//! Sets and removes the reference of a document's items.

ghost use Rattle.std.specs.Prelude.{◌≡◌, ◌+◌, ◌*◌, ◌∷◌, [], true, IsSome, IfOk, IfErr};
ghost use Rattle.tree_read.specs.Trees.{tree_pairs};
ghost use Rattle.tree_read.specs.Pairs.{lookup, put, take_out};
ghost use Rattle.store_api.specs.Calls.{Refuses};
ghost use Rattle.store_api.specs.Parts.{Owns};
ghost use Rattle.store_api.specs.Units.{MayDo};
ghost use Rattle.frozen_btree.specs.Changes.{levels, tree};
ghost use Rattle.frozen_btree.specs.Makes.{CountsNodes};
ghost use Rattle.doc_vector.specs.Documents.{beside_document, IsDocumentMap, MakesMap};

use attr_types::Doc;
use entry_ref::EntryRef;
use frozen_btree::{NumberKey, insert, remove as remove_pair};
use store_api::{Store, StoreError};
use tree_read::NODE_WORDS;

/// Sets the reference of a document's items, or 0 for none. Returns the root of the new map.
pub fn set<const OFFSET_BITS: u32, S: Store<OFFSET_BITS>>(
    store: &mut S,
    root: EntryRef<OFFSET_BITS>,
    doc: Doc,
    items: EntryRef<OFFSET_BITS>,
) -> Result<EntryRef<OFFSET_BITS>, StoreError>
    requires unit { (S.ledger store.old).unit ≡ true }
    requires map { IsDocumentMap (S.records store.old) root }
    requires owns { Owns (S.ledger store.old) (S.records store.old) (tree root ∷ []) }
    ensures makes { IfOk result (MakesMap (S.ledger store.old) (S.ledger store.new) (S.records store.old) (S.records store.new) root.entry
        (put (beside_document doc) (doc, items.entry) (tree_pairs (S.records store.old) root.entry))) }
    ensures counts { CountsNodes (S.ledger store.old) (S.ledger store.new) (2 * levels (S.records store.old) root.entry + 1) }
    ensures refuses { IfErr result (Refuses (S.ledger store.old) (S.ledger store.new) NODE_WORDS) }
    ensures may { MayDo (S.ledger store.old) (S.ledger store.new) }
{
    let number = doc.number() as u64;
    insert(store, root, &NumberKey(number), number, items.raw() as u64)
}

/// Removes a document that exists. Returns the root of the new map, or 0 if no document is left.
pub fn remove<const OFFSET_BITS: u32, S: Store<OFFSET_BITS>>(
    store: &mut S,
    root: EntryRef<OFFSET_BITS>,
    doc: Doc,
) -> Result<EntryRef<OFFSET_BITS>, StoreError>
    requires unit { (S.ledger store.old).unit ≡ true }
    requires map { IsDocumentMap (S.records store.old) root }
    requires there { IsSome (lookup (beside_document doc) (tree_pairs (S.records store.old) root)) }
    requires owns { Owns (S.ledger store.old) (S.records store.old) (tree root ∷ []) }
    ensures makes { IfOk result (MakesMap (S.ledger store.old) (S.ledger store.new) (S.records store.old) (S.records store.new) root.entry
        (take_out (beside_document doc) (tree_pairs (S.records store.old) root.entry))) }
    ensures counts { CountsNodes (S.ledger store.old) (S.ledger store.new) (levels (S.records store.old) root.entry + 1) }
    ensures refuses { IfErr result (Refuses (S.ledger store.old) (S.ledger store.new) NODE_WORDS) }
    ensures may { MayDo (S.ledger store.old) (S.ledger store.new) }
{
    remove_pair(store, root, &NumberKey(doc.number() as u64))
}
