//! Checks a dictionary against the documents.

ghost use Rattle.std.specs.Prelude.{◌≡◌, ℕ, map, option_map, OnOk, IfOk, IfErr};
ghost use Rattle.std.specs.List.{find, AllByRecursion};
ghost use Rattle.std.specs.Ordering.{is_eq};
ghost use Rattle.index_model.specs.Columns.{documents_with};
ghost use Rattle.image_format.specs.Postings.{list_form, postings_at, IsDictionaryEntry};
ghost use Rattle.image_format.specs.Values.{stored_value};
ghost use Rattle.attr_types.specs.Value.{value_cmp};
ghost use Rattle.attr_types.specs.declared.items.Item.{Item};
ghost use Rattle.entry_ref.specs.Maps.{seen};
ghost use Rattle.check_images.specs.Refutations.{Refutes};

use crate::CheckFault;
use crate::postings::read_postings;
use crate::values::read_value;
use attr_types::{Item, Items, Value, ValueType, compare};
use entry_ref::words_at;
use std::alloc::{AllocError, Global};
use std::collections::BTreeMap;

/// Returns a document with the weight of its first item with a value, if it has one.
fn document_with(value: &Value, document: u64, items: &[Item]) -> Option<(u64, i32)>
    ensures { result ≡ option_map (λ (item : Item). (document, item.weight))
        (find (λ (item : Item). is_eq (value_cmp value.now item.value)) items.now) }
{
    for item in items {
        if compare(value, &item.value).is_eq() {
            return Some((document, item.weight));
        }
    }
    None
}

/// Returns the documents of a column that have a value, each with its weight.
fn documents_with(
    alloc: Global,
    value: &Value,
    column: &[(u64, Items)],
) -> Result<Vec<(u64, i32)>, AllocError>
    ensures { IfOk result (λ list. list.items ≡ documents_with value.now column.now) }
{
    let mut list = Vec::new(alloc);
    for entry in column {
        if let Some(pair) = document_with(value, entry.0, entry.1.as_slice()) {
            list.push(pair)?;
        }
    }
    Ok(list)
}

/// Returns the value of a pair of the dictionary, whose list must have the column's documents with the value.
fn read_entry(
    alloc: Global,
    value_type: ValueType,
    records: &BTreeMap<u32, Vec<u64>>,
    column: &[(u64, Items)],
    reference: u64,
    word: u64,
) -> Result<Value, CheckFault>
    ensures entry { OnOk result (IsDictionaryEntry value_type (seen records.now) (reference, word)) }
    ensures list { OnOk result (postings_at (seen records.now) (list_form word)
        ≡ documents_with (stored_value value_type (seen records.now) reference) column.now) }
    ensures value { IfOk result (λ value. value ≡ stored_value value_type (seen records.now) reference) }
    ensures exact { IfErr result (Refutes (IsDictionaryEntry value_type (seen records.now) (reference, word)
        × (postings_at (seen records.now) (list_form word)
        ≡ documents_with (stored_value value_type (seen records.now) reference) column.now))) }
{
    let value = match read_value(alloc, value_type, words_at(records, reference))? {
        Some(value) => value,
        None => return Err(CheckFault::Broken),
    };
    let list = read_postings(alloc, records, word)?;
    let wanted = documents_with(alloc, &value, column)?;
    if list.as_slice() != wanted.as_slice() {
        return Err(CheckFault::Broken);
    }
    Ok(value)
}

/// Returns the values of a dictionary's pairs, each of which must have the list of the column's documents with it.
pub fn read_dictionary(
    alloc: Global,
    value_type: ValueType,
    records: &BTreeMap<u32, Vec<u64>>,
    column: &[(u64, Items)],
    pairs: &[(u64, u64)],
) -> Result<Vec<Value>, CheckFault>
    ensures entries { OnOk result (AllByRecursion (IsDictionaryEntry value_type (seen records.now)) pairs.now) }
    ensures lists { OnOk result (AllByRecursion (λ (p : ℕ × ℕ).
        postings_at (seen records.now) (list_form p.1) ≡ documents_with (stored_value value_type (seen records.now) p.0) column.now)
        pairs.now) }
    ensures values { IfOk result (λ values. values.items ≡ map (λ (p : ℕ × ℕ). stored_value value_type (seen records.now) p.0) pairs.now) }
    ensures exact { IfErr result (Refutes (AllByRecursion (IsDictionaryEntry value_type (seen records.now)) pairs.now
        × AllByRecursion (λ (p : ℕ × ℕ).
        postings_at (seen records.now) (list_form p.1) ≡ documents_with (stored_value value_type (seen records.now) p.0) column.now)
        pairs.now)) }
{
    let mut values = Vec::new(alloc);
    for pair in pairs {
        let value = read_entry(alloc, value_type, records, column, pair.0, pair.1)?;
        if values.push(value).is_err() {
            return Err(CheckFault::Memory);
        }
    }
    Ok(values)
}
