//! One value or weight in JSON.

ghost use Rattle.std.specs.Prelude.{◌≡◌};
ghost use Rattle.serde_json.specs.View.{view};
ghost use Rattle.feed_reader.specs.declared.refusal.Refusal.TheVariants.{BadValue};
ghost use Rattle.feed_reader.specs.Answers.{ReadsAs, or_else};
ghost use Rattle.feed_reader.specs.Values.{text_read, value_read, name_read, weight_read};

use crate::numeral::long_in;
use crate::refusal::{LineError, Refusal};
use attr_types::{Text, Value, ValueType};
use serde_json::Value as Json;
use std::alloc::Global;

fn text_in(alloc: Global, text: &str) -> Result<Value, LineError>
    ensures { ReadsAs (λ v. v) result (or_else BadValue (text_read text.now)) }
{
    if text.len() > Text::MAX_LEN {
        return Err(LineError::Refused(Refusal::BadValue));
    }
    Ok(Value::Text(Text::from_str(alloc, text)?))
}

/// Returns the value in JSON.
pub fn value_in(alloc: Global, value: ValueType, json: &Json) -> Result<Value, LineError>
    ensures { ReadsAs (λ v. v) result (value_read value (view json.now)) }
{
    match value {
        ValueType::Long => Ok(Value::Long(json.as_i64().ok_or(Refusal::BadValue)?)),
        ValueType::Text => text_in(alloc, json.as_str().ok_or(Refusal::BadValue)?),
    }
}

/// Returns the value that is the name of a member.
pub fn value_named_by(alloc: Global, value: ValueType, name: &str) -> Result<Value, LineError>
    ensures { ReadsAs (λ v. v) result (name_read value name.now) }
{
    match value {
        ValueType::Long => Ok(Value::Long(long_in(name).ok_or(Refusal::BadValue)?)),
        ValueType::Text => text_in(alloc, name),
    }
}

/// Returns the weight in JSON.
pub fn weight_in(json: &Json) -> Result<i32, LineError>
    ensures { ReadsAs (λ w. w) result (weight_read (view json.now)) }
{
    let number = json.as_i64().ok_or(Refusal::BadValue)?;
    Ok(i32::try_from(number).ok().ok_or(Refusal::BadValue)?)
}
