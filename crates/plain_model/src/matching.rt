//! Whether a query matches a document, by its definition.

ghost use Rattle.std.specs.Prelude.{◌≡◌};
ghost use Rattle.std.specs.List.{list_any};
ghost use Rattle.attr_types.specs.Query.{begins_with, is_from, is_up_to, meets, meets_some, items_in, matches};
ghost use Rattle.attr_types.specs.Query.{all_match, some_match, tree_of, query_trees, has_items};

use attr_types::{FieldItems, Item, Items, Leaf, Query, Text, Value, compare};

fn begins(value: &Value, prefix: &Text) -> bool
    ensures { result ≡ begins_with value.now prefix.now }
{
    match value {
        Value::Text(text) => text
            .as_str()
            .as_bytes()
            .starts_with(prefix.as_str().as_bytes()),
        Value::Long(_) => false,
    }
}

fn is_from_low(low: &Option<Value>, value: &Value) -> bool
    ensures { result ≡ is_from low.now value.now }
{
    match low {
        Some(low) => compare(low, value).is_le(),
        None => true,
    }
}

fn is_up_to_high(high: &Option<Value>, value: &Value) -> bool
    ensures { result ≡ is_up_to high.now value.now }
{
    match high {
        Some(high) => compare(value, high).is_le(),
        None => true,
    }
}

fn meets_leaf(leaf: &Leaf, value: &Value) -> bool
    ensures { result ≡ meets leaf.now value.now }
{
    match leaf {
        Leaf::Is(wanted) => compare(wanted, value).is_eq(),
        Leaf::Prefix(prefix) => begins(value, prefix),
        Leaf::Range { low, high } => is_from_low(low, value) && is_up_to_high(high, value),
        Leaf::Below(high) => compare(value, high).is_lt(),
        Leaf::Above(low) => compare(low, value).is_lt(),
    }
}

fn some_item_meets(leaf: &Leaf, items: &[Item]) -> bool
    ensures { result ≡ meets_some leaf.now items.now }
{
    items.iter().any(|item| meets_leaf(leaf, &item.value))
}

fn some_item_in(field: u32, leaf: &Leaf, document: &[Items]) -> bool
    ensures { result ≡ meets_some leaf.now (items_in document.now field) }
{
    match document.get(field as usize) {
        Some(items) => some_item_meets(leaf, items.as_slice()),
        None => false,
    }
}

fn has_some_item(document: &[Items]) -> bool
    ensures { result ≡ list_any has_items document.now }
{
    document.iter().any(|items| !items.is_empty())
}

/// Returns whether a query matches a document.
pub fn matches_document(query: &Query, document: &FieldItems) -> bool
    ensures { result ≡ matches (tree_of query.now) document.now }
{
    does_match(query, document.as_slice())
}

#[cycle(matching)]
fn does_match(query: &Query, document: &[Items]) -> bool
    ensures { result ≡ matches (tree_of query.now) document.now }
{
    match query {
        Query::One { field, leaf } => some_item_in(*field, leaf, document),
        Query::And(queries) => has_some_item(document) && do_all_match(queries, document),
        Query::Or(queries) => does_some_match(queries, document),
    }
}

#[cycle(matching)]
fn do_all_match(queries: &Vec<Query>, document: &[Items]) -> bool
    ensures { result ≡ all_match (query_trees queries.now.items) document.now }
{
    for query in queries {
        if !does_match(query, document) {
            return false;
        }
    }
    true
}

#[cycle(matching)]
fn does_some_match(queries: &Vec<Query>, document: &[Items]) -> bool
    ensures { result ≡ some_match (query_trees queries.now.items) document.now }
{
    for query in queries {
        if does_match(query, document) {
            return true;
        }
    }
    false
}
