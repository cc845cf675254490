//! The content of `match`: one item of an array or of a weighted set, and how it changes.
ghost use Rattle.std.specs.Prelude.{◌≡◌, option_map};
ghost use Rattle.serde_json.specs.View.{view, members_view};
ghost use Rattle.feed_reader.specs.Answers.{ReadsAs};
ghost use Rattle.feed_reader.specs.Elements.{amount_read, place_read, element_read, match_parts};
ghost use Rattle.feed_reader.specs.Elements.{act_read, weight_act_read, at_read, of_read};

use crate::operator::{ItemForm, Way, operator_in, value_form, weight_form};
use crate::refusal::{LineError, Refusal};
use crate::value::{value_in, value_named_by, weight_in};
use attr_types::{Act, Change, Value, ValueType, WeightAct};
use serde_json::{Map, Value as Json};
use std::alloc::Global;

/// Returns the amount in JSON. It is negative for a decrement.
pub fn amount_in(way: Way, json: &Json) -> Result<i64, LineError>
    ensures { ReadsAs (λ amount. amount) result (amount_read way (view json.now)) }
{
    let amount = i64::from(weight_in(json)?);
    Ok(match way {
        Way::Up => amount,
        Way::Down => -amount,
    })
}

/// Returns the index of an array item in JSON, counted from 0.
fn place_in(json: &Json) -> Result<u32, LineError>
    ensures { ReadsAs (λ place. place) result (place_read (view json.now)) }
{
    let number = json.as_u64().ok_or(Refusal::BadValue)?;
    Ok(u32::try_from(number).ok().ok_or(Refusal::BadValue)?)
}

/// Returns the value of a weighted set in JSON: by its name, or a whole number as itself.
fn element_in(alloc: Global, value: ValueType, json: &Json) -> Result<Value, LineError>
    ensures { ReadsAs (λ v. v) result (element_read value (view json.now)) }
{
    match json.as_str() {
        Some(name) => value_named_by(alloc, value, name),
        None => value_in(alloc, value, json),
    }
}

/// Returns `element`, and the other member of an object of two members.
fn match_parts_in(members: &Map<String, Json>) -> Option<(&Json, &str, &Json)>
    ensures { option_map (λ p. (view p.0.now, p.1.now, view p.2.now)) result
        ≡ match_parts (members_view members.now.entries) }
{
    let mut each = members.iter();
    let (name, json) = each.next()?;
    let (other, more) = each.next()?;
    if each.next().is_some() {
        return None;
    }
    if name.as_str() == "element" {
        return Some((json, other.as_str(), more));
    }
    if other.as_str() == "element" {
        return Some((more, name.as_str(), json));
    }
    None
}

/// Returns the change of a value, or `None` if there is no such operator.
fn act_in(
    alloc: Global,
    value: ValueType,
    form: Option<ItemForm>,
    json: &Json,
) -> Result<Option<Act>, LineError>
    ensures { ReadsAs (λ act. act) result (act_read value form (view json.now)) }
{
    match form {
        None => Ok(None),
        Some(ItemForm::New) => Ok(Some(Act::Set(value_in(alloc, value, json)?))),
        Some(ItemForm::Amount(way)) => Ok(Some(Act::Shift(amount_in(way, json)?))),
    }
}

/// Returns the change of a weight, or `None` if there is no such operator.
fn weight_act_in(form: Option<ItemForm>, json: &Json) -> Result<Option<WeightAct>, LineError>
    ensures { ReadsAs (λ act. act) result (weight_act_read form (view json.now)) }
{
    match form {
        None => Ok(None),
        Some(ItemForm::New) => Ok(Some(WeightAct::Set(weight_in(json)?))),
        Some(ItemForm::Amount(way)) => Ok(Some(WeightAct::Shift(amount_in(way, json)?))),
    }
}

/// Returns the change of one item of an array, or `None` if there is no such operator.
pub fn at_in(alloc: Global, value: ValueType, json: &Json) -> Result<Option<Change>, LineError>
    ensures { ReadsAs (λ change. change) result (at_read value (view json.now)) }
{
    let members = json.as_object().ok_or(Refusal::BadValue)?;
    let (element, name, json) = match_parts_in(members).ok_or(Refusal::BadValue)?;
    let index = place_in(element)?;
    let act = act_in(alloc, value, value_form(operator_in(name), value), json)?;
    Ok(act.map(|act| Change::At { index, act }))
}

/// Returns the change of one weight of a weighted set, or `None` if there is no such operator.
pub fn of_in(alloc: Global, value: ValueType, json: &Json) -> Result<Option<Change>, LineError>
    ensures { ReadsAs (λ change. change) result (of_read value (view json.now)) }
{
    let members = json.as_object().ok_or(Refusal::BadValue)?;
    let (element, name, json) = match_parts_in(members).ok_or(Refusal::BadValue)?;
    let value = element_in(alloc, value, element)?;
    let act = weight_act_in(weight_form(operator_in(name)), json)?;
    Ok(act.map(|act| Change::Of { value, act }))
}
