//! The change that an update makes to an attribute.

ghost use Rattle.std.specs.Prelude.{◌≡◌, option_map};
ghost use Rattle.serde_json.specs.View.{view, members_view};
ghost use Rattle.feed_reader.specs.Answers.{ReadsAs};
ghost use Rattle.feed_reader.specs.Grammar.{only_member, change_read, put_read, update_read, value_given, members_given};

use crate::element::{amount_in, at_in, of_in};
use crate::items::{items_in, list_in, member_count, taken_in, weighted_in};
use crate::operation::OpName;
use crate::operator::{Form, operator_form, operator_in};
use crate::refusal::{LineError, Refusal};
use attr_types::{Change, Field, Items};
use serde_json::{Map, Value as Json};
use std::alloc::Global;

/// Returns the items that a put gives an attribute.
pub fn put_in(alloc: Global, field: &Field, json: Option<&Json>) -> Result<Items, LineError>
    ensures { ReadsAs (λ items. items) result (put_read field.now (option_map (λ v. view v.now) json.entry)) }
{
    match json {
        None => Ok(Items::new(alloc)),
        Some(json) => items_in(alloc, field.kind, field.value, json),
    }
}

/// Returns the only member of an object with one member.
fn only_member_in(members: &Map<String, Json>) -> Option<(&str, &Json)>
    ensures { option_map (λ p. (p.0.now, view p.1.now)) result
        ≡ only_member (members_view members.now.entries) }
{
    let mut each = members.iter();
    let (name, json) = each.next()?;
    match each.next() {
        None => Some((name.as_str(), json)),
        Some(_) => None,
    }
}

/// Returns the change for a value of a form, or `None` if there is no such operator on an item.
fn change_in(
    alloc: Global,
    field: &Field,
    form: Form,
    json: &Json,
) -> Result<Option<Change>, LineError>
    ensures { ReadsAs (λ change. change) result (change_read field.now form (view json.now)) }
{
    let change = match form {
        Form::Items => Change::Assign(items_in(alloc, field.kind, field.value, json)?),
        Form::List => Change::Add(list_in(alloc, field.value, json)?),
        Form::Weights => Change::Add(weighted_in(alloc, field.value, json)?),
        Form::Names => Change::Take(taken_in(alloc, field.value, json)?),
        Form::Amount(way) => Change::Shift(amount_in(way, json)?),
        Form::AtPlace => return at_in(alloc, field.value, json),
        Form::OfValue => return of_in(alloc, field.value, json),
    };
    Ok(Some(change))
}

/// Returns the change of an attribute by an update, or `None` if the attribute does not have the operator.
pub fn update_in(
    alloc: Global,
    field: &Field,
    json: Option<&Json>,
) -> Result<Option<Change>, LineError>
    ensures { ReadsAs (λ change. change) result (update_read field.now (option_map (λ v. view v.now) json.entry)) }
{
    let Some(json) = json else {
        return Ok(Some(Change::Keep));
    };
    let members = json.as_object().ok_or(Refusal::BadValue)?;
    let (name, json) = only_member_in(members).ok_or(Refusal::BadValue)?;
    match operator_form(operator_in(name), field.kind, field.value) {
        None => Ok(None),
        Some(form) => change_in(alloc, field, form, json),
    }
}

/// Returns what a line gives a field: the value of a put, or the value of an update's operator.
fn value_given<'a>(operation: OpName, json: Option<&'a Json>) -> Option<&'a Json>
    ensures { option_map (λ v. view v.now) result ≡ value_given operation (option_map (λ v. view v.now) json.entry) }
{
    match operation {
        OpName::Put => json,
        OpName::Update => {
            let (_operator, value) = only_member_in(json?.as_object()?)?;
            Some(value)
        }
        OpName::Remove => None,
    }
}

/// Returns the number of members of the list or object that a line gives a field.
pub fn members_given(operation: OpName, json: Option<&Json>) -> usize
    ensures { result ≡ members_given operation (option_map (λ v. view v.now) json.entry) }
{
    match value_given(operation, json) {
        Some(value) => member_count(value),
        None => 0,
    }
}
