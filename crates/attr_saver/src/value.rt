//! Reading the fields of an item.
ghost use Rattle.std.specs.Prelude.{◌≡◌, ◌≤◌, IfOk, None};
ghost use Rattle.attr_saver.specs.Answers.{Gives};
ghost use Rattle.attr_saver.specs.Fields.{read_long, read_text_len, read_text, last_value, may_follow};
ghost use Rattle.attr_saver.specs.Fields.{following, read_value, read_weight, read_item, read_items};

use crate::error::Broken;
use crate::reader::Reader;
use attr_types::{Item, Items, Kind, Text, Value, ValueType, compare};
use std::alloc::Global;
use std::str;

#[tactic(auto, unfolding(crate::specs::Fields::read_long))]
fn read_long(reader: &mut Reader) -> Result<Value, Broken>
    ensures { Gives (λ x. (x, reader.new)) result (read_long reader.old) }
{
    let number = reader.u64()?;
    Ok(Value::Long(number.cast_signed()))
}

#[tactic(auto, unfolding(crate::specs::Fields::read_text_len))]
fn read_text_len(reader: &mut Reader) -> Result<usize, Broken>
    ensures form { Gives (λ x. (x, reader.new)) result (read_text_len reader.old) }
    ensures short { IfOk result (λ x. x ≤ 1024) }
{
    let left = reader.left();
    let len = usize::from(reader.u16()?);
    if Text::MAX_LEN < len {
        return Err(Broken::Field { left });
    }
    Ok(len)
}

#[tactic(auto, unfolding(crate::specs::Fields::read_text))]
fn read_text(alloc: Global, reader: &mut Reader, len: usize) -> Result<Value, Broken>
    requires { len ≤ 1024 }
    ensures { Gives (λ x. (x, reader.new)) result (read_text len reader.old) }
{
    let left = reader.left();
    let bytes = reader.bytes(len)?;
    match str::from_utf8(bytes) {
        Ok(text) => Ok(Value::Text(Text::from_str(alloc, text)?)),
        Err(_) => Err(Broken::Field { left }),
    }
}

/// Returns whether a value may follow items: in a weighted set it must be above the last.
fn may_follow(kind: Kind, items: &[Item], value: &Value) -> bool
    ensures { result ≡ may_follow kind (last_value items.now) value.now }
{
    match kind {
        Kind::Single | Kind::Array => true,
        Kind::WeightedSet => match items.last() {
            Some(last) => compare(&last.value, value).is_lt(),
            None => true,
        },
    }
}

/// Reads the value of an item that follows others.
#[tactic(auto, unfolding(crate::specs::Fields::read_value))]
fn read_value(
    alloc: Global,
    reader: &mut Reader,
    kind: Kind,
    value_type: ValueType,
    items: &[Item],
) -> Result<Value, Broken>
    ensures { Gives (λ x. (x, reader.new)) result
        (read_value kind value_type (last_value items.now) reader.old) }
{
    match value_type {
        ValueType::Long => {
            let left = reader.left();
            let value = read_long(reader)?;
            following(kind, items, value, left)
        }
        ValueType::Text => {
            let len = read_text_len(reader)?;
            let left = reader.left();
            let value = read_text(alloc, reader, len)?;
            following(kind, items, value, left)
        }
    }
}

/// Returns a value if it may follow items. `left` bytes are left where its field begins.
fn following(kind: Kind, items: &[Item], value: Value, left: usize) -> Result<Value, Broken>
    ensures { Gives (λ x. x) result (following kind (last_value items.now) left value) }
{
    if !may_follow(kind, items, &value) {
        return Err(Broken::Field { left });
    }
    Ok(value)
}

#[tactic(auto, unfolding(crate::specs::Fields::read_weight))]
fn read_weight(reader: &mut Reader, kind: Kind) -> Result<i32, Broken>
    ensures { Gives (λ x. (x, reader.new)) result (read_weight kind reader.old) }
{
    match kind {
        Kind::Single | Kind::Array => Ok(1),
        Kind::WeightedSet => {
            let weight = reader.u32()?;
            Ok(weight.cast_signed())
        }
    }
}

/// Reads an item that follows others.
#[tactic(auto, unfolding(crate::specs::Fields::read_item))]
fn read_item(
    alloc: Global,
    reader: &mut Reader,
    kind: Kind,
    value_type: ValueType,
    items: &[Item],
) -> Result<Item, Broken>
    ensures { Gives (λ x. (x, reader.new)) result
        (read_item kind value_type (last_value items.now) reader.old) }
{
    let value = read_value(alloc, reader, kind, value_type, items)?;
    let weight = read_weight(reader, kind)?;
    Ok(Item { value, weight })
}

/// Reads the items of a document.
pub(crate) fn read_items(
    alloc: Global,
    reader: &mut Reader,
    kind: Kind,
    value_type: ValueType,
    count: u16,
) -> Result<Items, Broken>
    ensures { Gives (λ x. (x, reader.new)) result (read_items kind value_type count None reader.old) }
{
    let mut items = Vec::new(alloc);
    for _ in 0..count {
        let item = read_item(alloc, reader, kind, value_type, items.as_slice())?;
        items.push(item)?;
    }
    Ok(Items::from_vec(items))
}
