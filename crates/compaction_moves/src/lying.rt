//! Whether a document's items lie in a buffer.
ghost use Rattle.std.specs.Prelude.{◌≡◌, ◌≢◌, map, true, false};
ghost use Rattle.std.specs.List.{AllByRecursion};
ghost use Rattle.array_store.specs.Arrays.{IsArray};
ghost use Rattle.image_format.specs.Documents.{AreItemRecords};
ghost use Rattle.image_format.specs.Values.{IsValueRecord};
ghost use Rattle.image_format.specs.Words.{stored_items};
ghost use Rattle.attr_field.specs.Documents.{IsDocuments};
ghost use Rattle.attr_field.specs.DocumentsFlows.{reference_at};
ghost use Rattle.attr_field.specs.Items.{word_entry};
ghost use Rattle.compaction_moves.specs.DocumentMoves.{AreItemsApart};
ghost use Rattle.entry_ref.specs.References.{buffer_of};
ghost use Rattle.frozen_btree.specs.Paths.{NoneIn};

use arena_api::Frozen;
use array_store::{count, get as array_item};
use attr_types::{Doc, Kind, ValueType};
use doc_vector::get;
use entry_ref::EntryRef;
use image_format::WEIGHT_BASE;
use unique_store::value_law;

/// Returns the record of the value in a word of a document's record.
fn record_in(kind: Kind, word: u64) -> u64
    ensures { result ≡ (word_entry kind word).0 }
{
    match kind {
        Kind::Single => word,
        Kind::Array => word,
        Kind::WeightedSet => word / WEIGHT_BASE,
    }
}

/// Returns whether the record of a value lies in the buffer.
fn value_lies<const OFFSET_BITS: u32, F: Frozen<OFFSET_BITS>>(
    frozen: &mut F,
    value_type: ValueType,
    key: u64,
    buffer: u32,
) -> bool
    requires { IsValueRecord value_type (F.records frozen.old key) }
    ensures lies { result ≡ true → buffer_of OFFSET_BITS key ≡ buffer }
    ensures away { result ≡ false → buffer_of OFFSET_BITS key ≢ buffer }
    ensures same { frozen.new ≡ frozen.old }
{
    value_law();
    let _ = frozen;
    let _ = value_type;
    EntryRef::<OFFSET_BITS>::from_raw(key as u32).buffer() == buffer
}

/// Returns whether the record of a value to which a list refers lies in the buffer.
fn list_lies<const OFFSET_BITS: u32, F: Frozen<OFFSET_BITS>>(
    frozen: &mut F,
    kind: Kind,
    value_type: ValueType,
    list: EntryRef<OFFSET_BITS>,
    buffer: u32,
) -> bool
    requires array { IsArray (F.records frozen.old list) }
    requires values { AllByRecursion (λ word. IsValueRecord value_type (F.records frozen.old (word_entry kind word).0))
        (stored_items (F.records frozen.old list)) }
    ensures lies { result ≡ true
        → NoneIn OFFSET_BITS buffer (map (λ word. (word_entry kind word).0) (stored_items (F.records frozen.old list.entry))) → ⊥ }
    ensures away { result ≡ false
        → NoneIn OFFSET_BITS buffer (map (λ word. (word_entry kind word).0) (stored_items (F.records frozen.old list.entry))) }
    ensures same { frozen.new ≡ frozen.old }
{
    for i in 0..count(frozen, list) {
        let word = array_item(frozen, list, i);
        let key = record_in(kind, word);
        if value_lies(frozen, value_type, key, buffer) {
            return true;
        }
    }
    false
}

/// Returns whether the record that items own, or one to which they refer, lies in the buffer.
pub fn items_lie<const OFFSET_BITS: u32, F: Frozen<OFFSET_BITS>>(
    frozen: &mut F,
    kind: Kind,
    value_type: ValueType,
    reference: EntryRef<OFFSET_BITS>,
    buffer: u32,
) -> bool
    requires { AreItemRecords kind value_type (F.records frozen.old) reference }
    ensures lies { result ≡ true → AreItemsApart OFFSET_BITS buffer kind (F.records frozen.old) reference.entry → ⊥ }
    ensures away { result ≡ false → AreItemsApart OFFSET_BITS buffer kind (F.records frozen.old) reference.entry }
    ensures same { frozen.new ≡ frozen.old }
{
    if !reference.valid() {
        return false;
    }
    if reference.buffer() == buffer {
        return true;
    }
    match kind {
        Kind::Single => false,
        Kind::Array => list_lies(frozen, kind, value_type, reference, buffer),
        Kind::WeightedSet => list_lies(frozen, kind, value_type, reference, buffer),
    }
}

/// Returns whether items of a document lie in the buffer.
pub fn document_lies<const OFFSET_BITS: u32, F: Frozen<OFFSET_BITS>>(
    frozen: &mut F,
    kind: Kind,
    value_type: ValueType,
    root: EntryRef<OFFSET_BITS>,
    doc: Doc,
    buffer: u32,
) -> bool
    requires { IsDocuments kind value_type (F.records frozen.old) root }
    ensures lies { result ≡ true
        → AreItemsApart OFFSET_BITS buffer kind (F.records frozen.old) (reference_at (F.records frozen.old) root.entry doc) → ⊥ }
    ensures away { result ≡ false
        → AreItemsApart OFFSET_BITS buffer kind (F.records frozen.old) (reference_at (F.records frozen.old) root.entry doc) }
    ensures same { frozen.new ≡ frozen.old }
{
    match get(frozen, root, doc) {
        Some(reference) => items_lie(frozen, kind, value_type, reference, buffer),
        None => false,
    }
}
