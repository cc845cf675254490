//! Checks the items of a document.

ghost use Rattle.std.specs.Prelude.{◌≡◌, ◌≤◌, ℕ, ℤ, pos, map, IfOk, OnOk, IfErr};
ghost use Rattle.std.specs.List.{AllByRecursion};
ghost use Rattle.image_format.specs.Documents.{weighted, IsItemsRecord, items_at, AreItemRecords};
ghost use Rattle.image_format.specs.Values.{stored_value, IsValueRecord};
ghost use Rattle.entry_ref.specs.Maps.{seen};
ghost use Rattle.check_images.specs.Refutations.{Refutes};
ghost use Rattle.check_images.specs.Told.{Tells};
ghost use Rattle.check_images.specs.Weights.{weights};

use crate::CheckFault;
use crate::values::read_value;
use crate::words::{read_list, unpack_all};
use attr_types::{Item, Items, Kind, MOST_ITEMS, ValueType};
use entry_ref::words_at;
use std::alloc::{AllocError, Global};
use std::collections::BTreeMap;

/// Returns items with weight 1.
fn weigh_one(alloc: Global, items: &[u64]) -> Result<Vec<(u64, i32)>, AllocError>
    ensures { IfOk result (λ list. list.items ≡ map (λ item. (item, pos 1)) items.now) }
{
    items.iter().map(|item| (*item, 1)).collect(alloc)
}

/// Returns the items of a stored list as references with weights; those of an array have weight 1.
fn weigh_list(alloc: Global, kind: Kind, items: &[u64]) -> Result<Vec<(u64, i32)>, AllocError>
    ensures { IfOk result (λ list. list.items ≡ weights kind items.now) }
{
    match kind {
        Kind::Single | Kind::Array => weigh_one(alloc, items),
        Kind::WeightedSet => unpack_all(alloc, items),
    }
}

/// Returns the references of a document's values, each with its weight, if the record of its items is well formed.
fn weigh(
    alloc: Global,
    kind: Kind,
    reference: u64,
    words: &[u64],
) -> Result<Option<Vec<(u64, i32)>>, AllocError>
    ensures { IfOk result (Tells (IsItemsRecord kind reference words.now) (λ list. list.items ≡ weighted kind reference words.now)) }
{
    if reference == 0 {
        return Ok(Some(Vec::new(alloc)));
    }
    if let Kind::Single = kind {
        return Ok(Some(vec![in alloc; (reference, 1)]?));
    }
    match read_list(alloc, MOST_ITEMS, words)? {
        Some(items) => Ok(Some(weigh_list(alloc, kind, items)?)),
        None => Ok(None),
    }
}

/// Returns the items with these references of values, if each of these records is the record of a value.
fn read_values(
    alloc: Global,
    value_type: ValueType,
    records: &BTreeMap<u32, Vec<u64>>,
    list: &[(u64, i32)],
) -> Result<Option<Items>, AllocError>
    ensures { IfOk result (Tells (AllByRecursion (λ (e : ℕ × ℤ). IsValueRecord value_type (seen records.now e.0)) list.now)
        (λ items. items ≡ map (λ (e : ℕ × ℤ). record { value = stored_value value_type (seen records.now) e.0; weight = e.1 }) list.now)) }
{
    let mut items = Items::new(alloc);
    for entry in list {
        match read_value(alloc, value_type, words_at(records, entry.0))? {
            Some(value) => items.push(Item {
                value,
                weight: entry.1,
            })?,
            None => return Ok(None),
        }
    }
    Ok(Some(items))
}

/// Returns the items of a document, if their records are well formed.
fn read_items(
    alloc: Global,
    kind: Kind,
    value_type: ValueType,
    records: &BTreeMap<u32, Vec<u64>>,
    reference: u64,
) -> Result<Option<Items>, AllocError>
    ensures { IfOk result (Tells (AreItemRecords kind value_type (seen records.now) reference)
        (λ items. items ≡ items_at kind value_type (seen records.now) reference)) }
{
    match weigh(alloc, kind, reference, words_at(records, reference))? {
        Some(list) => read_values(alloc, value_type, records, list.as_slice()),
        None => Ok(None),
    }
}

/// Returns the documents of these pairs with their items, if all records of the items are well formed.
pub fn read_documents(
    alloc: Global,
    kind: Kind,
    value_type: ValueType,
    records: &BTreeMap<u32, Vec<u64>>,
    pairs: &[(u64, u64)],
) -> Result<Vec<(u64, Items)>, CheckFault>
    ensures items { OnOk result (AllByRecursion (λ (p : ℕ × ℕ). AreItemRecords kind value_type (seen records.now) p.1) pairs.now) }
    ensures column { IfOk result (λ column. column.items
        ≡ map (λ (p : ℕ × ℕ). (p.0, items_at kind value_type (seen records.now) p.1)) pairs.now) }
    ensures exact { IfErr result (Refutes (AllByRecursion
        (λ (p : ℕ × ℕ). AreItemRecords kind value_type (seen records.now) p.1) pairs.now)) }
{
    let mut column = Vec::new(alloc);
    for pair in pairs {
        match read_items(alloc, kind, value_type, records, pair.1)? {
            Some(items) => {
                if column.push((pair.0, items)).is_err() {
                    return Err(CheckFault::Memory);
                }
            }
            None => return Err(CheckFault::Broken),
        }
    }
    Ok(column)
}
