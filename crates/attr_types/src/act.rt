//! Changes of one item.
ghost use Rattle.std.specs.Prelude.{◌≡◌, ◌+ℤ◌, IfOk, ◌<◌, length, slice_set, option_and_then};
ghost use Rattle.attr_types.specs.Change.{if_signed, shifted, new_value, new_weight, with_new_value, with_new_weight};
ghost use Rattle.attr_types.specs.Change.{changed_at, place_of};

use crate::{Act, Item, Items, Value, WeightAct, compare};
use std::alloc::AllocError;

fn moved(number: i64, amount: i64) -> Option<i64>
    ensures { result ≡ if_signed 63 (number +ℤ amount) }
{
    number.checked_add(amount)
}

fn moved_weight(weight: i32, amount: i64) -> Option<i32>
    ensures { result ≡ if_signed 31 (weight +ℤ amount) }
{
    let sum = i64::from(weight).checked_add(amount)?;
    i32::try_from(sum).ok()
}

fn shifted_value(amount: i64, value: &Value) -> Option<Value>
    ensures { result ≡ shifted amount value.now }
{
    match value {
        Value::Long(number) => moved(*number, amount).map(|sum| Value::Long(sum)),
        Value::Text(_) => None,
    }
}

fn value_after(act: &Act, old: &Value) -> Result<Option<Value>, AllocError>
    ensures { IfOk result (λ new. new ≡ new_value act.now old.now) }
{
    match act {
        Act::Set(value) => Ok(Some(value.clone()?)),
        Act::Shift(amount) => Ok(shifted_value(*amount, old)),
    }
}

fn weight_after(act: &WeightAct, old: i32) -> Option<i32>
    ensures { result ≡ new_weight act.now old }
{
    match act {
        WeightAct::Set(weight) => Some(*weight),
        WeightAct::Shift(amount) => moved_weight(old, *amount),
    }
}

fn with_item_at(items: &Items, place: usize, item: Item) -> Result<Items, AllocError>
    requires { place < length items.now }
    ensures { IfOk result (λ new. new ≡ slice_set items.now place item) }
{
    let mut list = items.clone()?.into_vec();
    list[place] = item;
    Ok(Items::from_vec(list))
}

/// Returns the items after the value at a place is set or shifted, or `None` if that is not possible.
pub fn act_at(items: &Items, place: usize, act: &Act) -> Result<Option<Items>, AllocError>
    ensures { IfOk result (λ new. new ≡ changed_at (with_new_value act.now) items.now place) }
{
    let Some(item) = items.as_slice().get(place) else {
        return Ok(None);
    };
    let Some(value) = value_after(act, &item.value)? else {
        return Ok(None);
    };
    let weight = item.weight;
    Ok(Some(with_item_at(items, place, Item { value, weight })?))
}

fn place_of_value(value: &Value, items: &Items) -> Option<usize>
    ensures { result ≡ place_of value.now items.now }
{
    items
        .as_slice()
        .iter()
        .position(|item| compare(value, &item.value).is_eq())
}

fn with_weight(item: &Item, weight: i32) -> Result<Item, AllocError>
    ensures { IfOk result (λ new. new ≡ record item.now { weight = weight }) }
{
    let value = item.value.clone()?;
    Ok(Item { value, weight })
}

fn weigh_at(items: &Items, place: usize, act: &WeightAct) -> Result<Option<Items>, AllocError>
    ensures { IfOk result (λ new. new ≡ changed_at (with_new_weight act.now) items.now place) }
{
    let Some(item) = items.as_slice().get(place) else {
        return Ok(None);
    };
    let Some(weight) = weight_after(act, item.weight) else {
        return Ok(None);
    };
    let new = with_weight(item, weight)?;
    Ok(Some(with_item_at(items, place, new)?))
}

/// Returns the items after the weight of a value is set or shifted, or `None` if that is not possible.
pub fn weigh(items: &Items, value: &Value, act: &WeightAct) -> Result<Option<Items>, AllocError>
    ensures { IfOk result (λ new. new ≡ option_and_then (changed_at (with_new_weight act.now) items.now) (place_of value.now items.now)) }
{
    match place_of_value(value, items) {
        Some(place) => weigh_at(items, place, act),
        None => Ok(None),
    }
}
