//! The items of a document, and its value, at the next step of a walk.
ghost use Rattle.std.specs.Prelude.{◌≡◌, map, IfOk};
ghost use Rattle.std.specs.List.{AllByRecursion};
ghost use Rattle.array_store.specs.Arrays.{IsArray};
ghost use Rattle.image_format.specs.Documents.{items_at, AreItemRecords};
ghost use Rattle.image_format.specs.Values.{stored_value, IsValueRecord};
ghost use Rattle.image_format.specs.Words.{stored_items};
ghost use Rattle.attr_field.specs.Items.{item_of, word_entry};
ghost use Rattle.index_model.specs.Columns.{items_of};
ghost use Rattle.result_model.specs.Values.{first_value};
ghost use Rattle.query_results.specs.Attributes.{column_in, HasDocuments};
ghost use Rattle.query_results.specs.Walks.{IsWalk};

use crate::attribute::Attribute;
use crate::walks::{Walk, find};
use arena_api::Frozen;
use array_store::{count, get};
use attr_field::{read_item, read_items};
use attr_types::{Doc, Items, Kind, Value, ValueType};
use entry_ref::EntryRef;
use std::alloc::{AllocError, Global};

/// Returns the reference of a document's items, at the next step of a walk. It is 0 if the document has none or does not
/// exist.
pub fn next_reference<const OFFSET_BITS: u32, F: Frozen<OFFSET_BITS>>(
    frozen: &mut F,
    attribute: &Attribute<OFFSET_BITS>,
    walk: &mut Walk<OFFSET_BITS>,
    doc: Doc,
) -> EntryRef<OFFSET_BITS>
    requires documents { HasDocuments OFFSET_BITS (F.records frozen.old) attribute.now }
    requires walk { IsWalk (F.records frozen.old) attribute.now.documents walk.old }
    ensures records { AreItemRecords attribute.now.kind attribute.now.value_type (F.records frozen.old) result }
    ensures items { items_at attribute.now.kind attribute.now.value_type (F.records frozen.old) result
        ≡ items_of (column_in OFFSET_BITS (F.records frozen.old) attribute.now) doc }
    ensures walk { IsWalk (F.records frozen.old) attribute.now.documents walk.new }
    ensures same { frozen.new ≡ frozen.old }
{
    match find(frozen, attribute.documents, walk, doc) {
        Some(reference) => reference,
        None => EntryRef::from_raw(0),
    }
}

/// Returns the items of a document, at the next step of a walk.
pub fn next_items<const OFFSET_BITS: u32, F: Frozen<OFFSET_BITS>>(
    alloc: Global,
    frozen: &mut F,
    attribute: &Attribute<OFFSET_BITS>,
    walk: &mut Walk<OFFSET_BITS>,
    doc: Doc,
) -> Result<Items, AllocError>
    requires documents { HasDocuments OFFSET_BITS (F.records frozen.old) attribute.now }
    requires walk { IsWalk (F.records frozen.old) attribute.now.documents walk.old }
    ensures items { IfOk result (λ items. items ≡ items_of (column_in OFFSET_BITS (F.records frozen.old) attribute.now) doc) }
    ensures walk { IsWalk (F.records frozen.old) attribute.now.documents walk.new }
    ensures same { frozen.new ≡ frozen.old }
{
    let reference = next_reference(frozen, attribute, walk, doc);
    read_items(
        alloc,
        frozen,
        attribute.kind,
        attribute.value_type,
        reference,
    )
}

/// Returns the value of the item of a word of a document's record.
fn value_in<const OFFSET_BITS: u32, F: Frozen<OFFSET_BITS>>(
    alloc: Global,
    frozen: &mut F,
    kind: Kind,
    value_type: ValueType,
    word: u64,
) -> Result<Value, AllocError>
    requires { IsValueRecord value_type (F.records frozen.old (word_entry kind word).0) }
    ensures value { IfOk result (λ value. value ≡ stored_value value_type (F.records frozen.old) (word_entry kind word).0) }
    ensures same { frozen.new ≡ frozen.old }
{
    let item = read_item(alloc, frozen, kind, value_type, word)?;
    Ok(item.value)
}

/// Returns the value of the first item of a record.
fn first_in_list<const OFFSET_BITS: u32, F: Frozen<OFFSET_BITS>>(
    alloc: Global,
    frozen: &mut F,
    kind: Kind,
    value_type: ValueType,
    list: EntryRef<OFFSET_BITS>,
) -> Result<Option<Value>, AllocError>
    requires array { IsArray (F.records frozen.old list) }
    requires values { AllByRecursion (λ word. IsValueRecord value_type (F.records frozen.old (word_entry kind word).0))
        (stored_items (F.records frozen.old list)) }
    ensures value { IfOk result (λ value. value ≡ first_value (map (λ word. item_of value_type (F.records frozen.old) (word_entry kind word))
        (stored_items (F.records frozen.old list.entry)))) }
    ensures same { frozen.new ≡ frozen.old }
{
    if count(frozen, list) == 0 {
        return Ok(None);
    }
    let word = get(frozen, list, 0);
    Ok(Some(value_in(alloc, frozen, kind, value_type, word)?))
}

/// Returns the value of a document's first item, by its reference.
fn first_at<const OFFSET_BITS: u32, F: Frozen<OFFSET_BITS>>(
    alloc: Global,
    frozen: &mut F,
    kind: Kind,
    value_type: ValueType,
    reference: EntryRef<OFFSET_BITS>,
) -> Result<Option<Value>, AllocError>
    requires { AreItemRecords kind value_type (F.records frozen.old) reference }
    ensures value { IfOk result (λ value. value ≡ first_value (items_at kind value_type (F.records frozen.old) reference.entry)) }
    ensures same { frozen.new ≡ frozen.old }
{
    if !reference.valid() {
        return Ok(None);
    }
    match kind {
        Kind::Single => Ok(Some(value_in(
            alloc,
            frozen,
            kind,
            value_type,
            reference.raw() as u64,
        )?)),
        Kind::Array => first_in_list(alloc, frozen, kind, value_type, reference),
        Kind::WeightedSet => first_in_list(alloc, frozen, kind, value_type, reference),
    }
}

/// Returns the value of a document's first item, at the next step of a walk.
pub fn next_value<const OFFSET_BITS: u32, F: Frozen<OFFSET_BITS>>(
    alloc: Global,
    frozen: &mut F,
    attribute: &Attribute<OFFSET_BITS>,
    walk: &mut Walk<OFFSET_BITS>,
    doc: Doc,
) -> Result<Option<Value>, AllocError>
    requires documents { HasDocuments OFFSET_BITS (F.records frozen.old) attribute.now }
    requires walk { IsWalk (F.records frozen.old) attribute.now.documents walk.old }
    ensures value { IfOk result (λ value. value ≡ first_value (items_of (column_in OFFSET_BITS (F.records frozen.old) attribute.now) doc)) }
    ensures walk { IsWalk (F.records frozen.old) attribute.now.documents walk.new }
    ensures same { frozen.new ≡ frozen.old }
{
    let reference = next_reference(frozen, attribute, walk, doc);
    first_at(
        alloc,
        frozen,
        attribute.kind,
        attribute.value_type,
        reference,
    )
}
