//! Moves the nodes above one document out of the victim.

ghost use Rattle.std.specs.Prelude.{◌≡◌, ◌∷◌, [], true, IfOk, IfErr, OnErr};
ghost use Rattle.store_api.specs.Calls.{IsUsedWidth, Refuses};
ghost use Rattle.store_api.specs.Parts.{Owns};
ghost use Rattle.store_api.specs.Units.{MayDo};
ghost use Rattle.frozen_btree.specs.Changes.{levels};
ghost use Rattle.frozen_btree.specs.Makes.{CountsNodes};
ghost use Rattle.attr_field.specs.DocumentsChanges.{AreBeside};
ghost use Rattle.attr_field.specs.Documents.{documents_part, documents_refer, IsDocuments};
ghost use Rattle.compaction_moves.specs.DocumentMoves.{MovesDocumentNodes};

use attr_types::{Doc, Kind, ValueType};
use entry_ref::EntryRef;
use frozen_btree::{NumberKey, touch};
use store_api::{Store, StoreError};
use tree_read::NODE_WORDS;

/// Moves the nodes of the map on the way to a document out of a sealed buffer. Returns the root of the new documents.
pub fn move_document_nodes<const OFFSET_BITS: u32, S: Store<OFFSET_BITS>>(
    store: &mut S,
    kind: Kind,
    value_type: ValueType,
    root: EntryRef<OFFSET_BITS>,
    doc: Doc,
    buffer: u32,
) -> Result<EntryRef<OFFSET_BITS>, StoreError>
    requires unit { (S.ledger store.old).unit ≡ true }
    requires sealed { (S.ledger store.old).sealed buffer ≡ true }
    requires documents { IsDocuments kind value_type (S.records store.old) root }
    requires beside { AreBeside (S.ledger store.old) (S.records store.old) (documents_part kind root ∷ [])
        (documents_refer kind (S.records store.old) root) }
    requires owns { Owns (S.ledger store.old) (S.records store.old) (documents_part kind root ∷ []) }
    ensures moves { IfOk result (MovesDocumentNodes OFFSET_BITS buffer doc kind value_type (S.ledger store.old) (S.ledger store.new)
        (S.records store.old) (S.records store.new) root.entry) }
    ensures counts { CountsNodes (S.ledger store.old) (S.ledger store.new) (levels (S.records store.old) root.entry) }
    ensures refuses { IfErr result (Refuses (S.ledger store.old) (S.ledger store.new) NODE_WORDS) }
    ensures used { OnErr result (IsUsedWidth (S.ledger store.old) (S.records store.old) NODE_WORDS) }
    ensures may { MayDo (S.ledger store.old) (S.ledger store.new) }
{
    let _ = kind;
    let _ = value_type;
    if !root.valid() {
        return Ok(root);
    }
    touch(store, root, &NumberKey(doc.number() as u64), buffer)
}
