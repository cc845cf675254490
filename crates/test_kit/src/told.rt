//! Numbers, values and items as texts.
use attr_types::{Item, Value};
use std::alloc::AllocError;

/// Appends a number after a text.
pub fn push_number(text: &mut String, front: &str, number: i64) -> Result<(), AllocError> {
    text.push_str(front)?;
    write!(text, "{number}")
}

/// Appends a value after a space, a text between apostrophes.
pub fn push_value(text: &mut String, value: &Value) -> Result<(), AllocError> {
    match value {
        Value::Long(number) => push_number(text, " ", *number),
        Value::Text(word) => {
            text.push_str(" '")?;
            text.push_str(word.as_str())?;
            text.push_str("'")
        }
    }
}

/// Appends an item: its value, a star and its weight.
pub fn push_item(text: &mut String, item: &Item) -> Result<(), AllocError> {
    push_value(text, &item.value)?;
    push_number(text, "*", i64::from(item.weight))
}
