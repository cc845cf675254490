//! Values and items by the number of a document.
use attr_types::{Field, FieldItems, Item, Items, Kind, Text, Value, ValueType};
use std::alloc::{AllocError, Global};
use test_kit::{push_number, text_of};

/// Returns the zeros before a number, so that four digits follow the letter.
fn front_of(number: u32) -> &'static str {
    match number {
        0..=9 => "v000",
        10..=99 => "v00",
        100..=999 => "v0",
        _ => "v",
    }
}

/// Writes the letter v, four digits, and a hundred letters x.
fn push_text(text: &mut String, number: u32) -> Result<(), AllocError> {
    push_number(text, front_of(number), i64::from(number))?;
    for _ in 0..100 {
        text.push_str("x")?;
    }
    Ok(())
}

/// Returns the letter v, four digits, and a hundred letters x.
fn text_at(alloc: Global, number: u32) -> Result<Text, AllocError> {
    let mut text = String::new(alloc);
    push_text(&mut text, number)?;
    text_of(alloc, &text)
}

/// Returns the value of a number: itself, or a text with it.
fn value_at(alloc: Global, value_type: ValueType, number: u32) -> Result<Value, AllocError> {
    match value_type {
        ValueType::Long => Ok(Value::Long(i64::from(number))),
        ValueType::Text => Ok(Value::Text(text_at(alloc, number)?)),
    }
}

/// Returns these values, each with its weight.
fn items_of(
    alloc: Global,
    value_type: ValueType,
    rows: &[(u32, i32)],
) -> Result<Items, AllocError> {
    let mut items = Items::new(alloc);
    for (number, weight) in rows {
        let value = value_at(alloc, value_type, *number)?;
        let weight = *weight;
        items.push(Item { value, weight })?;
    }
    Ok(items)
}

/// Returns the items of a document in one attribute: its number modulo `values` (or its number, if that is 0); in an
/// array its number and that; in a weighted set that, and its number and `values` together.
fn items_at(alloc: Global, field: &Field, number: u32, values: u32) -> Result<Items, AllocError> {
    let part = if values == 0 { number } else { number % values };
    match field.kind {
        Kind::Single => items_of(alloc, field.value, &[(part, 1)]),
        Kind::Array => items_of(alloc, field.value, &[(number, 1), (part, 1)]),
        Kind::WeightedSet => items_of(
            alloc,
            field.value,
            &[(part, 7), (number.saturating_add(values), -7)],
        ),
    }
}

/// Returns the items of a document in each attribute.
pub fn document_at(
    alloc: Global,
    fields: &[Field],
    number: u32,
    values: u32,
) -> Result<FieldItems, AllocError> {
    let mut document = FieldItems::new(alloc);
    for field in fields {
        document.push(items_at(alloc, field, number, values)?)?;
    }
    Ok(document)
}
