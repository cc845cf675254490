//! The items of a document, read from their record.

ghost use Rattle.std.specs.Prelude.{◌≡◌, map, IfOk};
ghost use Rattle.std.specs.BTreeMap.{is_at};
ghost use Rattle.std.specs.List.{AllByRecursion};
ghost use Rattle.std.specs.Map.{lookup};
ghost use Rattle.std.specs.Ordering.{nat_cmp};
ghost use Rattle.array_store.specs.Arrays.{IsArray};
ghost use Rattle.image_format.specs.Documents.{column_at, items_at, AreItemRecords};
ghost use Rattle.image_format.specs.Values.{stored_value, IsValueRecord};
ghost use Rattle.image_format.specs.Words.{stored_items, unpacked};
ghost use Rattle.attr_types.specs.declared.items.Item.{Item};
ghost use Rattle.attr_field.specs.Documents.{IsDocuments};
ghost use Rattle.attr_field.specs.Items.{item_of, word_entry};

use arena_api::Frozen;
use array_store::{count, get as array_item};
use attr_types::{Doc, Item, Items, Kind, Value, ValueType};
use doc_vector::get;
use entry_ref::EntryRef;
use image_format::WEIGHT_BASE;
use std::alloc::{AllocError, Global};
use unique_store::{get as stored, value_law};

/// Returns the value of a record, by its reference as a number.
fn read_value<const OFFSET_BITS: u32, F: Frozen<OFFSET_BITS>>(
    alloc: Global,
    frozen: &mut F,
    value_type: ValueType,
    key: u64,
) -> Result<Value, AllocError>
    requires { IsValueRecord value_type (F.records frozen.old key) }
    ensures value { IfOk result (λ value. value ≡ stored_value value_type (F.records frozen.old) key) }
    ensures same { frozen.new ≡ frozen.old }
{
    value_law();
    stored(alloc, frozen, EntryRef::from_raw(key as u32), value_type)
}

/// Returns the weight in a word of a weighted set.
fn weight_of(word: u64) -> i32
    ensures { result ≡ (unpacked word).1 }
{
    ((word % WEIGHT_BASE) as u32).cast_signed()
}

/// Returns the item of a word of a document's record. The reference of a single value is such a word.
pub fn read_item<const OFFSET_BITS: u32, F: Frozen<OFFSET_BITS>>(
    alloc: Global,
    frozen: &mut F,
    kind: Kind,
    value_type: ValueType,
    word: u64,
) -> Result<Item, AllocError>
    requires { IsValueRecord value_type (F.records frozen.old (word_entry kind word).0) }
    ensures item { IfOk result (λ item. item ≡ item_of value_type (F.records frozen.old) (word_entry kind word)) }
    ensures same { frozen.new ≡ frozen.old }
{
    match kind {
        Kind::Single => Ok(Item {
            value: read_value(alloc, frozen, value_type, word)?,
            weight: 1,
        }),
        Kind::Array => Ok(Item {
            value: read_value(alloc, frozen, value_type, word)?,
            weight: 1,
        }),
        Kind::WeightedSet => Ok(Item {
            value: read_value(alloc, frozen, value_type, word / WEIGHT_BASE)?,
            weight: weight_of(word),
        }),
    }
}

/// Returns the items of a record.
fn read_list<const OFFSET_BITS: u32, F: Frozen<OFFSET_BITS>>(
    alloc: Global,
    frozen: &mut F,
    kind: Kind,
    value_type: ValueType,
    list: EntryRef<OFFSET_BITS>,
) -> Result<Items, AllocError>
    requires array { IsArray (F.records frozen.old list) }
    requires values { AllByRecursion (λ word. IsValueRecord value_type (F.records frozen.old (word_entry kind word).0))
        (stored_items (F.records frozen.old list)) }
    ensures items { IfOk result (λ items. items ≡ map (λ word. item_of value_type (F.records frozen.old) (word_entry kind word))
        (stored_items (F.records frozen.old list.entry))) }
    ensures same { frozen.new ≡ frozen.old }
{
    let mut items = Vec::new(alloc);
    for i in 0..count(frozen, list) {
        let word = array_item(frozen, list, i);
        let item = read_item(alloc, frozen, kind, value_type, word)?;
        items.push(item)?;
    }
    Ok(Items::from_vec(items))
}

/// Returns the items of a document, by its reference.
pub fn read_items<const OFFSET_BITS: u32, F: Frozen<OFFSET_BITS>>(
    alloc: Global,
    frozen: &mut F,
    kind: Kind,
    value_type: ValueType,
    reference: EntryRef<OFFSET_BITS>,
) -> Result<Items, AllocError>
    requires { AreItemRecords kind value_type (F.records frozen.old) reference }
    ensures items { IfOk result (λ items. items ≡ items_at kind value_type (F.records frozen.old) reference.entry) }
    ensures same { frozen.new ≡ frozen.old }
{
    if !reference.valid() {
        return Ok(Items::new(alloc));
    }
    match kind {
        Kind::Single => Items::of_one(
            alloc,
            read_item(alloc, frozen, kind, value_type, reference.raw() as u64)?,
        ),
        Kind::Array => read_list(alloc, frozen, kind, value_type, reference),
        Kind::WeightedSet => read_list(alloc, frozen, kind, value_type, reference),
    }
}

/// Returns the items of a document, or `None` if it does not exist.
pub fn document_items<const OFFSET_BITS: u32, F: Frozen<OFFSET_BITS>>(
    alloc: Global,
    frozen: &mut F,
    kind: Kind,
    value_type: ValueType,
    root: EntryRef<OFFSET_BITS>,
    doc: Doc,
) -> Result<Option<Items>, AllocError>
    requires { IsDocuments kind value_type (F.records frozen.old) root }
    ensures items { IfOk result (λ found. found
        ≡ lookup (is_at (nat_cmp doc)) (column_at kind value_type (F.records frozen.old) root.entry)) }
    ensures same { frozen.new ≡ frozen.old }
{
    match get(frozen, root, doc) {
        Some(reference) => Ok(Some(read_items(alloc, frozen, kind, value_type, reference)?)),
        None => Ok(None),
    }
}
