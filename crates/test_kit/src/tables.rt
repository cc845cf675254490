//! Compares an image with a plain table.

use attr_types::{Doc, FieldItems, Items};
use std::collections::BTreeMap;

fn are_same_items(found: &Items, wanted: &Items) -> bool {
    if found.len() != wanted.len() {
        return false;
    }
    for (item, other) in found.as_slice().iter().zip(wanted.as_slice()) {
        if item.value != other.value || item.weight != other.weight {
            return false;
        }
    }
    true
}

fn are_same_fields(found: &FieldItems, wanted: &FieldItems) -> bool {
    if found.len() != wanted.len() {
        return false;
    }
    for (items, other) in found.as_slice().iter().zip(wanted.as_slice()) {
        if !are_same_items(items, other) {
            return false;
        }
    }
    true
}

/// Returns whether rows of an image are the documents of a plain table, with the same numbers, and the same items in
/// the same order.
pub fn is_same_table(rows: &[(u64, FieldItems)], documents: &BTreeMap<Doc, FieldItems>) -> bool {
    let mut rest = rows;
    for (doc, items) in documents {
        let [row, others @ ..] = rest else {
            return false;
        };
        if row.0 != u64::from(doc.number()) || !are_same_fields(&row.1, items) {
            return false;
        }
        rest = others;
    }
    rest.is_empty()
}
