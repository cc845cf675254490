//! Reads the reference of a document's items, and walks the documents.

ghost use Rattle.std.specs.Prelude.{◌≡◌};
ghost use Rattle.tree_read.specs.Trees.{tree_pairs};
ghost use Rattle.tree_read.specs.Pairs.{lookup, seek};
ghost use Rattle.tree_read.specs.SearchPlaces.{IsAt, pairs_from};
ghost use Rattle.doc_vector.specs.Documents.{beside_document, IsDocumentMap};

use arena_api::Frozen;
use attr_types::Doc;
use entry_ref::EntryRef;
use frozen_btree::{Cursor, NumberKey, find};

/// Returns the reference of a document's items, or 0 if it has none. Returns `None` if the document does not exist.
pub fn get<const OFFSET_BITS: u32, F: Frozen<OFFSET_BITS>>(
    frozen: &mut F,
    root: EntryRef<OFFSET_BITS>,
    doc: Doc,
) -> Option<EntryRef<OFFSET_BITS>>
    requires { IsDocumentMap (F.records frozen.old) root }
    ensures items { result ≡ lookup (beside_document doc) (tree_pairs (F.records frozen.old) root.entry) }
    ensures same { frozen.new ≡ frozen.old }
{
    match find(frozen, root, &NumberKey(doc.number() as u64)) {
        Some((_, items)) => Some(EntryRef::from_raw(items as u32)),
        None => None,
    }
}

/// Returns a cursor before the first document that is not below this one. The key of a pair is the document, and its
/// value the reference of the items.
pub fn walk_from<const OFFSET_BITS: u32, F: Frozen<OFFSET_BITS>>(
    frozen: &mut F,
    root: EntryRef<OFFSET_BITS>,
    doc: Doc,
) -> Cursor<OFFSET_BITS>
    requires { IsDocumentMap (F.records frozen.old) root }
    ensures at { IsAt (F.records frozen.old) result }
    ensures pairs { pairs_from (F.records frozen.old) result ≡ seek (beside_document doc) (tree_pairs (F.records frozen.old) root.entry) }
    ensures root { result.root ≡ root.entry }
    ensures same { frozen.new ≡ frozen.old }
{
    Cursor::seek(frozen, root, &NumberKey(doc.number() as u64))
}
