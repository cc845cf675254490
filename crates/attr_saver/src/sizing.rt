//! The size of a save.
ghost use Rattle.std.specs.Prelude.{◌≡◌, ◌<◌, ◌≤◌, ◌^◌, ℕ, ℤ, length};
ghost use Rattle.std.specs.List.{flat_map, AllByRecursion};
ghost use Rattle.attr_saver.specs.Bytes.{value_bytes, weight_bytes, item_bytes, document_bytes, saved_bytes};
ghost use Rattle.attr_saver.specs.Lawful.{AreLawfulDocuments, first_column, save_of};

use crate::writing::first_items;
use attr_types::{Doc, FieldItems, Item, Kind, Value, ValueType};
use std::collections::BTreeMap;

/// The number of bytes before the documents.
pub(crate) const HEAD: usize = 14;

/// The number of bytes of a document before its items.
const DOCUMENT_HEAD: usize = 6;

fn value_size(value: &Value) -> usize
    ensures size { result ≡ length (value_bytes value.now) }
    ensures small { result ≤ 1026 }
{
    match value {
        Value::Long(_) => 8,
        Value::Text(text) => 2 + text.len(),
    }
}

fn weight_size(kind: Kind) -> usize
    ensures size { (weight : ℤ) → result ≡ length (weight_bytes kind weight) }
    ensures small { result ≤ 4 }
{
    match kind {
        Kind::Single | Kind::Array => 0,
        Kind::WeightedSet => 4,
    }
}

fn item_size(kind: Kind, item: &Item) -> usize
    ensures size { result ≡ length (item_bytes kind item.now) }
    ensures small { result ≤ 1030 }
{
    value_size(&item.value) + weight_size(kind)
}

fn items_size(kind: Kind, items: &[Item]) -> usize
    requires { length items.now ≤ 1023 }
    ensures size { result ≡ length (flat_map (item_bytes kind) items.now) }
    ensures small { result ≤ 1053690 }
{
    let mut size = 0;
    for item in items {
        size += item_size(kind, item);
    }
    size
}

fn documents_size(kind: Kind, documents: &BTreeMap<Doc, FieldItems>) -> usize
    requires few { length (first_column documents.now.entries) ≤ 1048575 }
    requires short { AllByRecursion (λ d. length d.items ≤ 1023) (first_column documents.now.entries) }
    ensures size { result ≡ length (flat_map (document_bytes kind) (first_column documents.now.entries)) }
    ensures small { result < 2 ^ 62 }
{
    let mut size = 0;
    for (_doc, document) in documents {
        let items = first_items(document);
        size += DOCUMENT_HEAD + items_size(kind, items);
    }
    size
}

/// Returns the number of bytes of a save of the first attribute, of this kind and value type.
pub(crate) fn table_size(
    kind: Kind,
    value: ValueType,
    documents: &BTreeMap<Doc, FieldItems>,
) -> usize
    requires { AreLawfulDocuments kind value (first_column documents.now.entries) }
    ensures { (operations : ℕ) → result
        ≡ length (saved_bytes (save_of kind value operations documents.now.entries)) }
{
    HEAD + documents_size(kind, documents)
}
