//! The documents of an image, each with its items, written from their records and measured.
ghost use Rattle.std.specs.Prelude.{◌≡◌, ◌≢◌, ◌≤◌, ◌<◌, ◌^◌, [], length};
ghost use Rattle.std.specs.List.{flat_map, AllByRecursion};
ghost use Rattle.image_format.specs.Documents.{AreItemRecords};
ghost use Rattle.tree_read.specs.SearchPlaces.{first_key, first_value, pairs_from, HasPair, IsAt};
ghost use Rattle.tree_read.specs.Trees.{tree_pairs};
ghost use Rattle.attr_saver.specs.Bytes.{document_bytes};
ghost use Rattle.attr_saver.specs.Stored.{document_of, documents_of, AreStored, IsStoredPair, Writes};

use crate::stored_items::{items_size, write_items};
use crate::stored_values::put;
use arena_api::Frozen;
use attr_io::{Failed, Sink};
use attr_types::{Kind, ValueType};
use entry_ref::EntryRef;
use tree_read::Cursor;

/// Writes a document: its number, and its items.
fn write_document<const OFFSET_BITS: u32, F: Frozen<OFFSET_BITS>, K: Sink>(
    frozen: &mut F,
    kind: Kind,
    value_type: ValueType,
    doc: u32,
    reference: EntryRef<OFFSET_BITS>,
    sink: &mut K,
) -> Result<(), Failed>
    requires { AreItemRecords kind value_type (F.records frozen.old) reference }
    ensures writes { Writes (K.taken sink.old) (K.taken sink.new) (K.faults sink.old) (K.faults sink.new) result
        (document_bytes kind (document_of kind value_type (F.records frozen.old) (doc, reference.entry))) }
    ensures same { frozen.new ≡ frozen.old }
{
    put(sink, &doc.to_be_bytes())?;
    write_items(frozen, kind, value_type, reference, sink)
}

/// Writes the document at a cursor.
fn write_next<const OFFSET_BITS: u32, F: Frozen<OFFSET_BITS>, K: Sink>(
    frozen: &mut F,
    kind: Kind,
    value_type: ValueType,
    cursor: &Cursor<OFFSET_BITS>,
    sink: &mut K,
) -> Result<(), Failed>
    requires at { IsAt (F.records frozen.old) cursor.now }
    requires pair { HasPair cursor.now }
    requires some { pairs_from (F.records frozen.old) cursor.now ≢ [] }
    requires stored { AllByRecursion (IsStoredPair kind value_type (F.records frozen.old)) (pairs_from (F.records frozen.old) cursor.now) }
    ensures writes { Writes (K.taken sink.old) (K.taken sink.new) (K.faults sink.old) (K.faults sink.new) result
        (document_bytes kind (document_of kind value_type (F.records frozen.old)
        (first_key (pairs_from (F.records frozen.old) cursor.now), first_value (pairs_from (F.records frozen.old) cursor.now)))) }
    ensures same { frozen.new ≡ frozen.old }
{
    let doc = cursor.key() as u32;
    let reference = EntryRef::from_raw(cursor.value() as u32);
    write_document(frozen, kind, value_type, doc, reference, sink)
}

/// Returns the number of bytes of the document at a cursor.
fn next_size<const OFFSET_BITS: u32, F: Frozen<OFFSET_BITS>>(
    frozen: &mut F,
    kind: Kind,
    value_type: ValueType,
    cursor: &Cursor<OFFSET_BITS>,
) -> u64
    requires at { IsAt (F.records frozen.old) cursor.now }
    requires pair { HasPair cursor.now }
    requires some { pairs_from (F.records frozen.old) cursor.now ≢ [] }
    requires stored { AllByRecursion (IsStoredPair kind value_type (F.records frozen.old)) (pairs_from (F.records frozen.old) cursor.now) }
    ensures size { result ≡ length (document_bytes kind (document_of kind value_type (F.records frozen.old)
        (first_key (pairs_from (F.records frozen.old) cursor.now), first_value (pairs_from (F.records frozen.old) cursor.now)))) }
    ensures small { result ≤ 1053696 }
    ensures same { frozen.new ≡ frozen.old }
{
    let reference = EntryRef::from_raw(cursor.value() as u32);
    6 + items_size(frozen, kind, value_type, reference)
}

/// Writes the documents of a tree.
pub(crate) fn write_documents<const OFFSET_BITS: u32, F: Frozen<OFFSET_BITS>, K: Sink>(
    frozen: &mut F,
    kind: Kind,
    value_type: ValueType,
    tree: EntryRef<OFFSET_BITS>,
    sink: &mut K,
) -> Result<(), Failed>
    requires { AreStored kind value_type (F.records frozen.old) tree }
    ensures writes { Writes (K.taken sink.old) (K.taken sink.new) (K.faults sink.old) (K.faults sink.new) result
        (flat_map (document_bytes kind)
        (documents_of kind value_type (F.records frozen.old) (tree_pairs (F.records frozen.old) tree.entry))) }
    ensures same { frozen.new ≡ frozen.old }
{
    let mut cursor = Cursor::first(frozen, tree);
    while !cursor.at_end() {
        write_next(frozen, kind, value_type, &cursor, sink)?;
        cursor.next(frozen);
    }
    Ok(())
}

/// Returns the number of bytes of the documents of a tree.
pub(crate) fn documents_size<const OFFSET_BITS: u32, F: Frozen<OFFSET_BITS>>(
    frozen: &mut F,
    kind: Kind,
    value_type: ValueType,
    tree: EntryRef<OFFSET_BITS>,
) -> u64
    requires { AreStored kind value_type (F.records frozen.old) tree }
    ensures size { result ≡ length (flat_map (document_bytes kind)
        (documents_of kind value_type (F.records frozen.old) (tree_pairs (F.records frozen.old) tree.entry))) }
    ensures small { result < 2 ^ 62 }
    ensures same { frozen.new ≡ frozen.old }
{
    let mut size = 0;
    let mut cursor = Cursor::first(frozen, tree);
    while !cursor.at_end() {
        size += next_size(frozen, kind, value_type, &cursor);
        cursor.next(frozen);
    }
    size
}
