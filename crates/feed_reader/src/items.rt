//! The items in a JSON value.

ghost use Rattle.std.specs.Prelude.{◌≡◌, map, IfOk, []};
ghost use Rattle.serde_json.specs.View.{view, items_view, members_view};
ghost use Rattle.feed_reader.specs.declared.refusal.Refusal.TheVariants.{BadValue};
ghost use Rattle.feed_reader.specs.Answers.{ReadsAs};
ghost use Rattle.feed_reader.specs.Weights.{entry_item};
ghost use Rattle.feed_reader.specs.Items.{values_read, names_read, weighted_after, set_read};
ghost use Rattle.feed_reader.specs.Items.{plain_item, list_read, one_read, some_items_read, items_read, taken_read, member_count};

use crate::refusal::{LineError, Refusal};
use crate::value::{value_in, value_named_by, weight_in};
use attr_types::{Item, Items, Kind, Value, ValueType, Values};
use serde_json::{Map, Value as Json};
use std::alloc::{AllocError, Global};
use std::collections::BTreeMap;

/// Returns the values of a list, in order.
fn values_in(alloc: Global, value: ValueType, list: &[Json]) -> Result<Vec<Value>, LineError>
    ensures { ReadsAs (λ v. v.items) result (values_read value (items_view list.now)) }
{
    let mut values = Vec::with_capacity(alloc, list.len())?;
    for json in list {
        values.push(value_in(alloc, value, json)?)?;
    }
    Ok(values)
}

/// Returns the values that are the names of an object's members.
fn names_in(
    alloc: Global,
    value: ValueType,
    members: &Map<String, Json>,
) -> Result<Vec<Value>, LineError>
    ensures { ReadsAs (λ v. v.items) result (names_read value (members_view members.now.entries)) }
{
    let mut values = Vec::with_capacity(alloc, members.len())?;
    for (name, _) in members {
        values.push(value_named_by(alloc, value, name.as_str())?)?;
    }
    Ok(values)
}

/// Returns the weights of an object from value to weight, by value.
fn weights_in(
    alloc: Global,
    value: ValueType,
    members: &Map<String, Json>,
) -> Result<BTreeMap<Value, i32>, LineError>
    ensures { ReadsAs (λ m. map entry_item m.entries) result
        (weighted_after value [] (members_view members.now.entries)) }
{
    let mut weights = BTreeMap::new(alloc);
    for (name, json) in members {
        let named = value_named_by(alloc, value, name.as_str())?;
        let weight = weight_in(json)?;
        weights.insert(named, weight)?;
    }
    Ok(weights)
}

fn plain_items(alloc: Global, values: Vec<Value>) -> Result<Items, AllocError>
    ensures { IfOk result (λ items. items ≡ map plain_item values.items) }
{
    let list: Vec<Item> = values
        .into_iter()
        .map(|value| Item { value, weight: 1 })
        .collect(alloc)?;
    Ok(Items::from_vec(list))
}

fn weighted_items(alloc: Global, weights: BTreeMap<Value, i32>) -> Result<Items, AllocError>
    ensures { IfOk result (λ items. items ≡ map entry_item weights.entries) }
{
    let list: Vec<Item> = weights
        .into_iter()
        .map(|(value, weight)| Item { value, weight })
        .collect(alloc)?;
    Ok(Items::from_vec(list))
}

/// Returns the items of a list of values.
pub fn list_in(alloc: Global, value: ValueType, json: &Json) -> Result<Items, LineError>
    ensures { ReadsAs (λ items. items) result (list_read value (view json.now)) }
{
    let list = json.as_array().ok_or(Refusal::BadValue)?;
    let values = values_in(alloc, value, list.as_slice())?;
    Ok(plain_items(alloc, values)?)
}

/// Returns the items of an object from value to weight, ascending by value.
pub fn weighted_in(alloc: Global, value: ValueType, json: &Json) -> Result<Items, LineError>
    ensures { ReadsAs (λ items. items) result (set_read value (view json.now)) }
{
    let members = json.as_object().ok_or(Refusal::BadValue)?;
    let weights = weights_in(alloc, value, members)?;
    Ok(weighted_items(alloc, weights)?)
}

fn one_in(alloc: Global, value: ValueType, json: &Json) -> Result<Items, LineError>
    ensures { ReadsAs (λ items. items) result (one_read value (view json.now)) }
{
    let mut list = Vec::with_capacity(alloc, 1)?;
    list.push(Item {
        value: value_in(alloc, value, json)?,
        weight: 1,
    })?;
    Ok(Items::from_vec(list))
}

fn some_items_in(
    alloc: Global,
    kind: Kind,
    value: ValueType,
    json: &Json,
) -> Result<Items, LineError>
    ensures { ReadsAs (λ items. items) result (some_items_read kind value (view json.now)) }
{
    match kind {
        Kind::Single => one_in(alloc, value, json),
        Kind::Array => list_in(alloc, value, json),
        Kind::WeightedSet => weighted_in(alloc, value, json),
    }
}

/// Returns the items of a document of this kind. `null` means no items.
#[tactic(auto, unfolding(crate::specs::Items::items_read))]
pub fn items_in(
    alloc: Global,
    kind: Kind,
    value: ValueType,
    json: &Json,
) -> Result<Items, LineError>
    ensures { ReadsAs (λ items. items) result (items_read kind value (view json.now)) }
{
    if json.is_null() {
        return Ok(Items::new(alloc));
    }
    some_items_in(alloc, kind, value, json)
}

/// Returns the values that a removal from a weighted set names.
#[tactic(auto, unfolding(crate::specs::Items::taken_read))]
pub fn taken_in(alloc: Global, value: ValueType, json: &Json) -> Result<Values, LineError>
    ensures { ReadsAs (λ values. values) result (taken_read value (view json.now)) }
{
    match json {
        Json::Array(list) => Ok(Values::from_vec(values_in(alloc, value, list.as_slice())?)),
        Json::Object(members) => Ok(Values::from_vec(names_in(alloc, value, members)?)),
        _ => Err(LineError::Refused(Refusal::BadValue)),
    }
}

/// Returns the number of members of a list or an object.
pub fn member_count(json: &Json) -> usize
    ensures { result ≡ member_count (view json.now) }
{
    match json {
        Json::Array(list) => list.len(),
        Json::Object(members) => members.len(),
        _ => 0,
    }
}
