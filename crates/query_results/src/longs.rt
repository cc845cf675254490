//! The whole numbers of given documents, written into lists of the caller. Nothing is allocated.
ghost use Rattle.std.specs.Prelude.{◌≡◌, ◌<◌, ◌≤◌, ◌^◌, pos, length, map, replicate, unwrap_or};
ghost use Rattle.std.specs.List.{filter_map, AllByRecursion};
ghost use Rattle.std.specs.Option.{option_and_then};
ghost use Rattle.array_store.specs.Arrays.{IsArray};
ghost use Rattle.image_format.specs.Documents.{items_at, AreItemRecords};
ghost use Rattle.image_format.specs.Images.{table_of, IsLawfulImage};
ghost use Rattle.image_format.specs.Shapes.{shape_of, types_of};
ghost use Rattle.image_format.specs.Values.{stored_value, IsValueRecord};
ghost use Rattle.image_format.specs.Words.{stored_items};
ghost use Rattle.attr_types.specs.declared.field.TheConstants.{MOST_FIELDS};
ghost use Rattle.attr_types.specs.declared.kind.ValueType.TheVariants as types;
ghost use Rattle.attr_types.specs.declared.value.Value.TheVariants as values;
ghost use Rattle.attr_field.specs.Items.{item_of, word_entry};
ghost use Rattle.result_model.specs.Totals.{long_of, number_of};
ghost use Rattle.result_model.specs.Values.{first_value};
ghost use Rattle.query_results.specs.Attributes.{number_in, HasDocuments};
ghost use Rattle.query_results.specs.Longs.{presence};
ghost use Rattle.query_results.specs.Walks.{IsWalk};

use crate::attribute::{Attribute, attribute_of};
use crate::items::next_reference;
use crate::walks::{Walk, walk_of};
use arena_api::{Frozen, word_of};
use array_store::{count, get};
use attr_types::{Doc, Fields, Kind, ValueType};
use entry_ref::EntryRef;
use image_format::WEIGHT_BASE;

/// The width of a long's record.
const LONG_WORDS: u32 = 2;

/// Returns the reference of the value of the item of a word of a document's record.
fn value_reference<const OFFSET_BITS: u32>(kind: Kind, word: u64) -> EntryRef<OFFSET_BITS>
    requires { (word_entry kind word).0 < 2 ^ 32 }
    ensures { result ≡ (word_entry kind word).0 }
{
    match kind {
        Kind::Single => EntryRef::from_raw(word as u32),
        Kind::Array => EntryRef::from_raw(word as u32),
        Kind::WeightedSet => EntryRef::from_raw((word / WEIGHT_BASE) as u32),
    }
}

/// Returns the long of the item of a word of a document's record.
fn long_in<const OFFSET_BITS: u32, F: Frozen<OFFSET_BITS>>(
    frozen: &mut F,
    kind: Kind,
    word: u64,
) -> i64
    requires { IsValueRecord types.Long (F.records frozen.old (word_entry kind word).0) }
    ensures long { values.Long result ≡ stored_value types.Long (F.records frozen.old) (word_entry kind word).0 }
    ensures same { frozen.new ≡ frozen.old }
{
    word_of(frozen, value_reference(kind, word), LONG_WORDS, 1).cast_signed()
}

/// Returns the long of the first item of a record.
fn first_in_list<const OFFSET_BITS: u32, F: Frozen<OFFSET_BITS>>(
    frozen: &mut F,
    kind: Kind,
    list: EntryRef<OFFSET_BITS>,
) -> Option<i64>
    requires array { IsArray (F.records frozen.old list) }
    requires values { AllByRecursion (λ word. IsValueRecord types.Long (F.records frozen.old (word_entry kind word).0))
        (stored_items (F.records frozen.old list)) }
    ensures long { result ≡ option_and_then long_of (first_value (map (λ word. item_of types.Long (F.records frozen.old) (word_entry kind word))
        (stored_items (F.records frozen.old list.entry)))) }
    ensures same { frozen.new ≡ frozen.old }
{
    if count(frozen, list) == 0 {
        return None;
    }
    let word = get(frozen, list, 0);
    Some(long_in(frozen, kind, word))
}

/// Returns the long of a document's first item, by its reference.
fn first_long<const OFFSET_BITS: u32, F: Frozen<OFFSET_BITS>>(
    frozen: &mut F,
    kind: Kind,
    reference: EntryRef<OFFSET_BITS>,
) -> Option<i64>
    requires { AreItemRecords kind types.Long (F.records frozen.old) reference }
    ensures long { result ≡ option_and_then long_of (first_value (items_at kind types.Long (F.records frozen.old) reference.entry)) }
    ensures same { frozen.new ≡ frozen.old }
{
    if !reference.valid() {
        return None;
    }
    match kind {
        Kind::Single => Some(long_in(frozen, kind, reference.raw() as u64)),
        Kind::Array => first_in_list(frozen, kind, reference),
        Kind::WeightedSet => first_in_list(frozen, kind, reference),
    }
}

/// Returns the long of a document, at the next step of a walk. A number that is none of a document has none.
fn next_long<const OFFSET_BITS: u32, F: Frozen<OFFSET_BITS>>(
    frozen: &mut F,
    attribute: &Attribute<OFFSET_BITS>,
    walk: &mut Walk<OFFSET_BITS>,
    document: u32,
) -> Option<i64>
    requires longs { attribute.now.value_type ≡ types.Long }
    requires documents { HasDocuments OFFSET_BITS (F.records frozen.old) attribute.now }
    requires walk { IsWalk (F.records frozen.old) attribute.now.documents walk.old }
    ensures long { result ≡ number_in OFFSET_BITS (F.records frozen.old) attribute.now document }
    ensures walk { IsWalk (F.records frozen.old) attribute.now.documents walk.new }
    ensures same { frozen.new ≡ frozen.old }
{
    if document < 1 || document > Doc::LAST {
        return None;
    }
    let reference = next_reference(frozen, attribute, walk, Doc::new(document));
    first_long(frozen, attribute.kind, reference)
}

/// Returns 1 if there is a number, and 0 if there is none.
fn presence(number: Option<i64>) -> u8
    ensures { result ≡ presence number }
{
    match number {
        Some(_) => 1,
        None => 0,
    }
}

/// Writes the longs of these documents in an attribute of longs, and which of them have one. Returns how many have one.
fn longs_along<const OFFSET_BITS: u32, F: Frozen<OFFSET_BITS>>(
    frozen: &mut F,
    attribute: &Attribute<OFFSET_BITS>,
    documents: &[u32],
    numbers: &mut [i64],
    present: &mut [u8],
) -> usize
    requires longs { attribute.now.value_type ≡ types.Long }
    requires documents { HasDocuments OFFSET_BITS (F.records frozen.old) attribute.now }
    requires numbers { length numbers.old ≡ length documents.now }
    requires present { length present.old ≡ length documents.now }
    ensures numbers { numbers.new ≡ map (λ document. unwrap_or (number_in OFFSET_BITS (F.records frozen.old) attribute.now document) (pos 0)) documents.now }
    ensures present { present.new ≡ map (λ document. presence (number_in OFFSET_BITS (F.records frozen.old) attribute.now document)) documents.now }
    ensures count { result ≡ length (filter_map (number_in OFFSET_BITS (F.records frozen.old) attribute.now) documents.now) }
    ensures same { frozen.new ≡ frozen.old }
{
    let mut walk = walk_of(frozen, attribute.documents);
    let mut found = 0;
    for i in 0..documents.len() {
        let number = next_long(frozen, attribute, &mut walk, documents[i]);
        let one = presence(number);
        numbers[i] = number.unwrap_or(0);
        present[i] = one;
        found += one as usize;
    }
    found
}

/// Writes that no document has a number.
fn no_longs(numbers: &mut [i64], present: &mut [u8]) -> usize
    ensures numbers { numbers.new ≡ replicate (length numbers.old) (pos 0) }
    ensures present { present.new ≡ replicate (length present.old) 0 }
    ensures count { result ≡ 0 }
{
    numbers.fill(0);
    present.fill(0);
    0
}

/// Writes for each of these documents the whole number that it has in the attribute with this number, or 0, and whether
/// it has one: 1 or 0. Returns how many have one. Documents may be in any order, repeat or not exist; it is fastest if
/// they ascend.
pub fn write_longs<const OFFSET_BITS: u32, F: Frozen<OFFSET_BITS>>(
    frozen: &mut F,
    root: EntryRef<OFFSET_BITS>,
    fields: &Fields,
    field: u32,
    documents: &[u32],
    numbers: &mut [i64],
    present: &mut [u8],
) -> usize
    requires few { length fields.now ≤ MOST_FIELDS }
    requires shape { F.shape frozen.old ≡ shape_of (types_of fields.now) }
    requires image { IsLawfulImage (F.shape frozen.old) (F.records frozen.old) root }
    requires numbers { length numbers.old ≡ length documents.now }
    requires present { length present.old ≡ length documents.now }
    ensures numbers { numbers.new ≡ map (λ document. unwrap_or
        (number_of field (table_of (F.shape frozen.old) (F.records frozen.old) root.entry) document) (pos 0)) documents.now }
    ensures present { present.new ≡ map (λ document. presence
        (number_of field (table_of (F.shape frozen.old) (F.records frozen.old) root.entry) document)) documents.now }
    ensures count { result
        ≡ length (filter_map (number_of field (table_of (F.shape frozen.old) (F.records frozen.old) root.entry)) documents.now) }
    ensures same { frozen.new ≡ frozen.old }
{
    let attribute = attribute_of(frozen, root, fields.as_slice(), field);
    match attribute.value_type {
        ValueType::Long => longs_along(frozen, &attribute, documents, numbers, present),
        ValueType::Text => no_longs(numbers, present),
    }
}
