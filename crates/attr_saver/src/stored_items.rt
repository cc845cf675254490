//! The items of a document of an image, written from their records and measured.
ghost use Rattle.std.specs.Prelude.{◌≡◌, ◌≤◌, ◌++◌, length};
ghost use Rattle.std.specs.Int.{w16, to_be_bytes};
ghost use Rattle.std.specs.List.{flat_map, AllByRecursion};
ghost use Rattle.array_store.specs.Arrays.{IsArray};
ghost use Rattle.image_format.specs.Documents.{items_at, AreItemRecords};
ghost use Rattle.image_format.specs.Values.{stored_value, IsValueRecord};
ghost use Rattle.image_format.specs.Words.{stored_items};
ghost use Rattle.attr_types.specs.declared.kind.Kind.TheVariants.{WeightedSet};
ghost use Rattle.attr_saver.specs.Bytes.{value_bytes, item_bytes};
ghost use Rattle.attr_saver.specs.Stored.{entry_in, item_in, Writes};

use crate::stored_values::{put, value_size, write_value};
use arena_api::Frozen;
use array_store::{count, get};
use attr_io::{Failed, Sink};
use attr_types::{Kind, ValueType};
use entry_ref::EntryRef;
use image_format::WEIGHT_BASE;
use unique_store::value_law;

/// Writes the value of a record, given its reference as a number.
fn write_key<const OFFSET_BITS: u32, F: Frozen<OFFSET_BITS>, K: Sink>(
    frozen: &mut F,
    value_type: ValueType,
    key: u64,
    sink: &mut K,
) -> Result<(), Failed>
    requires { IsValueRecord value_type (F.records frozen.old key) }
    ensures writes { Writes (K.taken sink.old) (K.taken sink.new) (K.faults sink.old) (K.faults sink.new) result
        (value_bytes (stored_value value_type (F.records frozen.old) key)) }
    ensures same { frozen.new ≡ frozen.old }
{
    value_law();
    write_value(frozen, value_type, EntryRef::from_raw(key as u32), sink)
}

/// Writes a value and its weight, given a word of a weighted set.
fn write_weighted<const OFFSET_BITS: u32, F: Frozen<OFFSET_BITS>, K: Sink>(
    frozen: &mut F,
    value_type: ValueType,
    word: u64,
    sink: &mut K,
) -> Result<(), Failed>
    requires { IsValueRecord value_type (F.records frozen.old (entry_in WeightedSet word).0) }
    ensures writes { Writes (K.taken sink.old) (K.taken sink.new) (K.faults sink.old) (K.faults sink.new) result
        (item_bytes WeightedSet (item_in WeightedSet value_type (F.records frozen.old) word)) }
    ensures same { frozen.new ≡ frozen.old }
{
    write_key(frozen, value_type, word / WEIGHT_BASE, sink)?;
    put(sink, &((word % WEIGHT_BASE) as u32).to_be_bytes())
}

/// Writes the item of a word.
fn write_item<const OFFSET_BITS: u32, F: Frozen<OFFSET_BITS>, K: Sink>(
    frozen: &mut F,
    kind: Kind,
    value_type: ValueType,
    word: u64,
    sink: &mut K,
) -> Result<(), Failed>
    requires { IsValueRecord value_type (F.records frozen.old (entry_in kind word).0) }
    ensures writes { Writes (K.taken sink.old) (K.taken sink.new) (K.faults sink.old) (K.faults sink.new) result
        (item_bytes kind (item_in kind value_type (F.records frozen.old) word)) }
    ensures same { frozen.new ≡ frozen.old }
{
    match kind {
        Kind::Single => write_key(frozen, value_type, word, sink),
        Kind::Array => write_key(frozen, value_type, word, sink),
        Kind::WeightedSet => write_weighted(frozen, value_type, word, sink),
    }
}

/// Returns the number of bytes of the item of a word.
fn item_size<const OFFSET_BITS: u32, F: Frozen<OFFSET_BITS>>(
    frozen: &mut F,
    kind: Kind,
    value_type: ValueType,
    word: u64,
) -> u64
    requires { IsValueRecord value_type (F.records frozen.old (entry_in kind word).0) }
    ensures size { result ≡ length (item_bytes kind (item_in kind value_type (F.records frozen.old) word)) }
    ensures small { result ≤ 1030 }
    ensures same { frozen.new ≡ frozen.old }
{
    value_law();
    match kind {
        Kind::Single => value_size(frozen, value_type, EntryRef::from_raw(word as u32)),
        Kind::Array => value_size(frozen, value_type, EntryRef::from_raw(word as u32)),
        Kind::WeightedSet => {
            4 + value_size(
                frozen,
                value_type,
                EntryRef::from_raw((word / WEIGHT_BASE) as u32),
            )
        }
    }
}

/// Writes the items of a record.
fn write_list<const OFFSET_BITS: u32, F: Frozen<OFFSET_BITS>, K: Sink>(
    frozen: &mut F,
    kind: Kind,
    value_type: ValueType,
    list: EntryRef<OFFSET_BITS>,
    sink: &mut K,
) -> Result<(), Failed>
    requires array { IsArray (F.records frozen.old list) }
    requires values { AllByRecursion (λ word. IsValueRecord value_type (F.records frozen.old (entry_in kind word).0))
        (stored_items (F.records frozen.old list)) }
    ensures writes { Writes (K.taken sink.old) (K.taken sink.new) (K.faults sink.old) (K.faults sink.new) result
        (flat_map (λ word. item_bytes kind (item_in kind value_type (F.records frozen.old) word))
        (stored_items (F.records frozen.old list.entry))) }
    ensures same { frozen.new ≡ frozen.old }
{
    for i in 0..count(frozen, list) {
        let word = get(frozen, list, i);
        write_item(frozen, kind, value_type, word, sink)?;
    }
    Ok(())
}

/// Returns the number of bytes of the items of a record.
fn list_size<const OFFSET_BITS: u32, F: Frozen<OFFSET_BITS>>(
    frozen: &mut F,
    kind: Kind,
    value_type: ValueType,
    list: EntryRef<OFFSET_BITS>,
) -> u64
    requires array { IsArray (F.records frozen.old list) }
    requires values { AllByRecursion (λ word. IsValueRecord value_type (F.records frozen.old (entry_in kind word).0))
        (stored_items (F.records frozen.old list)) }
    ensures size { result ≡ length (flat_map (λ word. item_bytes kind (item_in kind value_type (F.records frozen.old) word))
        (stored_items (F.records frozen.old list.entry))) }
    ensures small { result ≤ 1053690 }
    ensures same { frozen.new ≡ frozen.old }
{
    let mut size = 0;
    for i in 0..count(frozen, list) {
        let word = get(frozen, list, i);
        size += item_size(frozen, kind, value_type, word);
    }
    size
}

/// Writes the number of items of a record, and the items.
fn write_counted<const OFFSET_BITS: u32, F: Frozen<OFFSET_BITS>, K: Sink>(
    frozen: &mut F,
    kind: Kind,
    value_type: ValueType,
    list: EntryRef<OFFSET_BITS>,
    sink: &mut K,
) -> Result<(), Failed>
    requires array { IsArray (F.records frozen.old list) }
    requires values { AllByRecursion (λ word. IsValueRecord value_type (F.records frozen.old (entry_in kind word).0))
        (stored_items (F.records frozen.old list)) }
    ensures writes { Writes (K.taken sink.old) (K.taken sink.new) (K.faults sink.old) (K.faults sink.new) result
        (to_be_bytes w16 (length (stored_items (F.records frozen.old list.entry)))
        ++ flat_map (λ word. item_bytes kind (item_in kind value_type (F.records frozen.old) word))
        (stored_items (F.records frozen.old list.entry))) }
    ensures same { frozen.new ≡ frozen.old }
{
    let items = count(frozen, list);
    put(sink, &(items as u16).to_be_bytes())?;
    write_list(frozen, kind, value_type, list, sink)
}

/// Writes that there is one item, and the item.
fn write_one<const OFFSET_BITS: u32, F: Frozen<OFFSET_BITS>, K: Sink>(
    frozen: &mut F,
    kind: Kind,
    value_type: ValueType,
    word: u64,
    sink: &mut K,
) -> Result<(), Failed>
    requires { IsValueRecord value_type (F.records frozen.old (entry_in kind word).0) }
    ensures writes { Writes (K.taken sink.old) (K.taken sink.new) (K.faults sink.old) (K.faults sink.new) result
        (to_be_bytes w16 1 ++ item_bytes kind (item_in kind value_type (F.records frozen.old) word)) }
    ensures same { frozen.new ≡ frozen.old }
{
    put(sink, &1u16.to_be_bytes())?;
    write_item(frozen, kind, value_type, word, sink)
}

/// Writes the number of items of a document, and the items.
pub(crate) fn write_items<const OFFSET_BITS: u32, F: Frozen<OFFSET_BITS>, K: Sink>(
    frozen: &mut F,
    kind: Kind,
    value_type: ValueType,
    reference: EntryRef<OFFSET_BITS>,
    sink: &mut K,
) -> Result<(), Failed>
    requires { AreItemRecords kind value_type (F.records frozen.old) reference }
    ensures writes { Writes (K.taken sink.old) (K.taken sink.new) (K.faults sink.old) (K.faults sink.new) result
        (to_be_bytes w16 (length (items_at kind value_type (F.records frozen.old) reference.entry))
        ++ flat_map (item_bytes kind) (items_at kind value_type (F.records frozen.old) reference.entry)) }
    ensures same { frozen.new ≡ frozen.old }
{
    if !reference.valid() {
        return put(sink, &0u16.to_be_bytes());
    }
    match kind {
        Kind::Single => write_one(frozen, kind, value_type, reference.raw() as u64, sink),
        Kind::Array => write_counted(frozen, kind, value_type, reference, sink),
        Kind::WeightedSet => write_counted(frozen, kind, value_type, reference, sink),
    }
}

/// Returns the number of bytes of the items of a document.
pub(crate) fn items_size<const OFFSET_BITS: u32, F: Frozen<OFFSET_BITS>>(
    frozen: &mut F,
    kind: Kind,
    value_type: ValueType,
    reference: EntryRef<OFFSET_BITS>,
) -> u64
    requires { AreItemRecords kind value_type (F.records frozen.old) reference }
    ensures size { result ≡ length (flat_map (item_bytes kind) (items_at kind value_type (F.records frozen.old) reference.entry)) }
    ensures small { result ≤ 1053690 }
    ensures same { frozen.new ≡ frozen.old }
{
    if !reference.valid() {
        return 0;
    }
    match kind {
        Kind::Single => item_size(frozen, kind, value_type, reference.raw() as u64),
        Kind::Array => list_size(frozen, kind, value_type, reference),
        Kind::WeightedSet => list_size(frozen, kind, value_type, reference),
    }
}
