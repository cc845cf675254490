//! Values and items by draws.
ghost use Rattle.std.specs.Prelude.{◌≡◌, ◌<◌, ◌++◌, ◌∷◌, [], IfOk, pos, codes};
ghost use Rattle.std.specs.Fmt.{decimal};
ghost use Rattle.attr_run.specs.Made.{value_by, items_by, change_of_kind};

use attr_types::{Change, Field, Item, Items, Kind, Text, Value, ValueType};
use std::alloc::{AllocError, Global};

fn text_by(alloc: Global, number: u32) -> Result<Text, AllocError>
    ensures { IfOk result (λ text. text ≡ codes "t" ++ decimal number) }
{
    let mut text = String::from_str(alloc, "t")?;
    write!(text, "{number}")?;
    Ok(Text::new(text))
}

fn value_by(alloc: Global, value_type: ValueType, number: u32) -> Result<Value, AllocError>
    ensures { IfOk result (λ value. value ≡ value_by value_type number) }
{
    match value_type {
        ValueType::Long => Ok(Value::Long(i64::from(number) - 512)),
        ValueType::Text => Ok(Value::Text(text_by(alloc, number)?)),
    }
}

fn pair(alloc: Global, first: Value, second: Value) -> Result<Items, AllocError>
    ensures { IfOk result (λ items. items ≡ record { value = first; weight = pos 1 }
        ∷ record { value = second; weight = pos 1 } ∷ []) }
{
    let mut items = Items::new(alloc);
    items.push(Item {
        value: first,
        weight: 1,
    })?;
    items.push(Item {
        value: second,
        weight: 1,
    })?;
    Ok(items)
}

fn one(alloc: Global, value: Value, weight: i32) -> Result<Items, AllocError>
    ensures { IfOk result (λ items. items ≡ record { value = value; weight = weight } ∷ []) }
{
    Items::of_one(alloc, Item { value, weight })
}

/// Returns the items of a put, or those of an update; in a weighted set the first draw is the weight.
pub fn items_by(alloc: Global, field: &Field, a: u32, b: u32) -> Result<Items, AllocError>
    requires { a < 65536 }
    ensures { IfOk result (λ items. items ≡ items_by field.now.kind field.now.value a b) }
{
    let number = b / 64;
    let value = value_by(alloc, field.value, number)?;
    match field.kind {
        Kind::Single => one(alloc, value, 1),
        Kind::Array => pair(alloc, value, value_by(alloc, field.value, number + 1)?),
        Kind::WeightedSet => one(alloc, value, (a / 64) as i32),
    }
}

/// Returns the change of an update with items: a single one is assigned, others are added.
pub fn change_by(kind: Kind, items: Items) -> Change
    ensures { result ≡ change_of_kind kind items }
{
    match kind {
        Kind::Single => Change::Assign(items),
        Kind::Array | Kind::WeightedSet => Change::Add(items),
    }
}
