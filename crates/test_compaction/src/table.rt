//! Whether the records of an image represent a plain table: quickly by its trees of documents, or by the slow
//! checker.
ghost use Rattle.std.specs.Prelude.{◌≤◌, length};
ghost use Rattle.attr_types.specs.declared.field.TheConstants.{MOST_FIELDS};

use attr_types::{Field, FieldItems, Fields, Item, Items, Kind, MOST_FIELDS, Value};
use check_images::{CheckFault, Keys, check_image, check_tree, stored_long, stored_text};
use entry_ref::{word_in, words_at};
use plain_model::PlainTable;
use std::alloc::{AllocError, Global};
use std::collections::BTreeMap;
use test_kit::is_same_table;

fn is_value(
    alloc: Global,
    records: &BTreeMap<u32, Vec<u64>>,
    reference: u64,
    value: &Value,
) -> Result<bool, AllocError> {
    let words = words_at(records, reference);
    match value {
        Value::Long(number) => Ok(word_in(words, 0) == 8 && stored_long(words) == *number),
        Value::Text(text) => {
            let bytes = stored_text(alloc, words)?;
            Ok(bytes.as_slice() == text.as_str().as_bytes())
        }
    }
}

/// Returns whether a word of a document's record is this item.
fn is_item(
    alloc: Global,
    kind: Kind,
    records: &BTreeMap<u32, Vec<u64>>,
    word: u64,
    item: &Item,
) -> Result<bool, AllocError> {
    match kind {
        Kind::Single => is_value(alloc, records, word, &item.value),
        Kind::Array => is_value(alloc, records, word, &item.value),
        Kind::WeightedSet => {
            let weight = (word % 4_294_967_296) as u32;
            if weight.cast_signed() != item.weight {
                return Ok(false);
            }
            is_value(alloc, records, word / 4_294_967_296, &item.value)
        }
    }
}

/// Returns whether the words of a record are these items.
fn are_listed(
    alloc: Global,
    kind: Kind,
    records: &BTreeMap<u32, Vec<u64>>,
    words: &[u64],
    items: &[Item],
) -> Result<bool, AllocError> {
    if word_in(words, 0) != items.len() as u64 {
        return Ok(false);
    }
    let mut place = 1usize;
    for item in items {
        if !is_item(alloc, kind, records, word_in(words, place), item)? {
            return Ok(false);
        }
        place = place.saturating_add(1);
    }
    Ok(true)
}

fn are_items(
    alloc: Global,
    kind: Kind,
    records: &BTreeMap<u32, Vec<u64>>,
    reference: u64,
    items: &[Item],
) -> Result<bool, AllocError> {
    if reference == 0 {
        return Ok(items.is_empty());
    }
    match kind {
        Kind::Single => match items {
            [item] => is_item(alloc, kind, records, reference, item),
            _ => Ok(false),
        },
        Kind::Array => are_listed(alloc, kind, records, words_at(records, reference), items),
        Kind::WeightedSet => are_listed(alloc, kind, records, words_at(records, reference), items),
    }
}

/// Returns whether a document's items in the attribute at this index are those of a record.
fn is_row(
    alloc: Global,
    kind: Kind,
    records: &BTreeMap<u32, Vec<u64>>,
    reference: u64,
    items: &FieldItems,
    place: usize,
) -> Result<bool, AllocError> {
    match items.as_slice().get(place) {
        Some(own) => are_items(alloc, kind, records, reference, own.as_slice()),
        None => Ok(false),
    }
}

/// Returns whether a tree of documents has the items of a plain table's attribute at this index.
fn is_column(
    alloc: Global,
    kind: Kind,
    records: &BTreeMap<u32, Vec<u64>>,
    pairs: &[(u64, u64)],
    plain: &PlainTable,
    place: usize,
) -> Result<bool, AllocError> {
    let mut rest = pairs;
    for (doc, items) in plain.documents() {
        let [pair, others @ ..] = rest else {
            return Ok(false);
        };
        if pair.0 != u64::from(doc.number()) {
            return Ok(false);
        }
        if !is_row(alloc, kind, records, pair.1, items, place)? {
            return Ok(false);
        }
        rest = others;
    }
    Ok(rest.is_empty())
}

/// Returns whether an image represents a plain table, by its trees of documents only.
pub fn reads_as(
    alloc: Global,
    fields: &[Field],
    records: &BTreeMap<u32, Vec<u64>>,
    root: u64,
    plain: &PlainTable,
) -> Result<bool, CheckFault> {
    let words = words_at(records, root);
    let mut place = 0usize;
    for field in fields {
        let documents = word_in(words, place.saturating_mul(2).saturating_add(1));
        let pairs = check_tree(alloc, Keys::Numbers, records, documents)?;
        if !is_column(alloc, field.kind, records, pairs.as_slice(), plain, place)? {
            return Ok(false);
        }
        place = place.saturating_add(1);
    }
    Ok(true)
}

/// Returns whether the slow checker reads these records as a lawful image of the plain table.
pub fn is_lawful(
    alloc: Global,
    fields: &Fields,
    records: &BTreeMap<u32, Vec<u64>>,
    root: u64,
    plain: &PlainTable,
) -> Result<bool, CheckFault> {
    if fields.len() > MOST_FIELDS {
        return Ok(false);
    }
    match check_image(alloc, fields, records, root) {
        Ok(table) => Ok(is_same_table(&table, plain.documents())),
        Err(fault) => Err(fault),
    }
}
