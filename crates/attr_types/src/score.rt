//! A document with its score.

ghost use Rattle.std.specs.Prelude.{◌≡◌, ◌≤◌, ◌^◌, ◌*ℤ◌, IfOk};
ghost use Rattle.std.specs.Int.RustNames.{unsigned_abs};
ghost use Rattle.std.specs.List.{list_any};
ghost use Rattle.attr_types.specs.Query.{items_in};
ghost use Rattle.attr_types.specs.Scores.{has_value, weight_of, is_scored, score_of, scores};

use crate::part::{Part, Parts};
use crate::{Doc, FieldItems, Item, Items, ListOf, Value, compare};
use std::alloc::{AllocError, Global};
use std::collections::BTreeMap;

/// A document and its score: the sum, over the parts of a dot product, of the part's weight times the weight of the
/// document's item with the part's value.
#[derive(Debug, Drop)]
pub struct Score {
    pub doc: Doc,
    pub score: i128,
}

/// Documents with their scores, ascending by document.
pub type ScoreList = ListOf<Score>;

fn some_has_value(items: &[Item], value: &Value) -> bool
    ensures { result ≡ list_any (has_value value.now) items.now }
{
    items.iter().any(|item| compare(value, &item.value).is_eq())
}

fn some_is_scored(parts: &[Part], items: &[Item]) -> bool
    ensures { result ≡ is_scored parts.now items.now }
{
    parts.iter().any(|part| some_has_value(items, &part.value))
}

fn weight_in(items: &[Item], value: &Value) -> i32
    ensures { result ≡ weight_of value.now items.now }
{
    for item in items {
        if compare(value, &item.value).is_eq() {
            return item.weight;
        }
    }
    0
}

fn product(weight: i32, other: i32) -> i128
    ensures value { result ≡ weight *ℤ other }
    ensures bound { unsigned_abs result ≤ 2 ^ 62 }
{
    i128::from(weight) * i128::from(other)
}

fn score_in(parts: &[Part], items: &[Item]) -> i128
    ensures { result ≡ score_of parts.now items.now }
{
    let mut score: i128 = 0;
    for part in parts {
        let weight = weight_in(items, &part.value);
        score += product(part.weight, weight);
    }
    score
}

fn items_at(document: &[Items], field: u32) -> &[Item]
    ensures { result.now ≡ items_in document.now field }
{
    match document.get(field as usize) {
        Some(items) => items.as_slice(),
        None => &[],
    }
}

/// Returns the documents that have the value of some part in an attribute, ascending, each with its score.
pub fn scores_of(
    alloc: Global,
    documents: &BTreeMap<Doc, FieldItems>,
    field: u32,
    parts: &Parts,
) -> Result<ScoreList, AllocError>
    ensures { IfOk result (λ list. list ≡ scores field parts.now documents.now.entries) }
{
    let parts = parts.as_slice();
    let mut list = ScoreList::new(alloc);
    for (doc, document) in documents {
        let items = items_at(document.as_slice(), field);
        if some_is_scored(parts, items) {
            list.push(Score {
                doc: *doc,
                score: score_in(parts, items),
            })?;
        }
    }
    Ok(list)
}
