//! Random operations.
use crate::values::value_at;
use attr_types::{
    Act, Change, Doc, Field, FieldChanges, FieldItems, Item, Items, Kind, Op, Value, ValueType,
    Values, WeightAct,
};
use std::alloc::{AllocError, Global};
use test_kit::Random;

/// The bounds of operations: the number of documents, of values, and of items. Operations come in periods: in one
/// most put and update, in the next most remove.
#[derive(Clone, Copy)]
pub struct Sizes {
    pub documents: u32,
    pub values: u32,
    pub items: u32,
    pub period: u32,
}

fn some_value(
    alloc: Global,
    value_type: ValueType,
    sizes: Sizes,
    random: &mut Random,
) -> Result<Value, AllocError> {
    value_at(alloc, value_type, random.below(sizes.values))
}

fn some_values(
    alloc: Global,
    value_type: ValueType,
    sizes: Sizes,
    most: u32,
    random: &mut Random,
) -> Result<Vec<Value>, AllocError> {
    let mut values = Vec::new(alloc);
    for _ in 0..random.below(most.saturating_add(1)) {
        values.push(some_value(alloc, value_type, sizes, random)?)?;
    }
    Ok(values)
}

fn of_weight_one(alloc: Global, values: Vec<Value>) -> Result<Items, AllocError> {
    let mut items = Items::new(alloc);
    for value in values {
        items.push(Item { value, weight: 1 })?;
    }
    Ok(items)
}

fn is_above_last(items: &[Item], value: &Value) -> bool {
    match items.last() {
        Some(last) => last.value < *value,
        None => true,
    }
}

fn push_above(items: &mut Items, value: Value, weight: i32) -> Result<(), AllocError> {
    if is_above_last(items.as_slice(), &value) {
        items.push(Item { value, weight })?;
    }
    Ok(())
}

/// Returns each value once, in order, with a weight.
fn weighed(alloc: Global, values: Vec<Value>, random: &mut Random) -> Result<Items, AllocError> {
    let mut sorted = values;
    sorted.sort()?;
    let mut items = Items::new(alloc);
    for value in sorted {
        push_above(&mut items, value, random.weight())?;
    }
    Ok(items)
}

/// Returns items that a document may have in an attribute.
fn items_of(
    alloc: Global,
    field: &Field,
    sizes: Sizes,
    random: &mut Random,
) -> Result<Items, AllocError> {
    match field.kind {
        Kind::Single => {
            let values = some_values(alloc, field.value, sizes, 1, random)?;
            of_weight_one(alloc, values)
        }
        Kind::Array => {
            let values = some_values(alloc, field.value, sizes, sizes.items, random)?;
            of_weight_one(alloc, values)
        }
        Kind::WeightedSet => {
            let values = some_values(alloc, field.value, sizes, sizes.items, random)?;
            weighed(alloc, values, random)
        }
    }
}

fn change_of_single(
    alloc: Global,
    field: &Field,
    sizes: Sizes,
    random: &mut Random,
) -> Result<Change, AllocError> {
    if field.value == ValueType::Long && random.once_in(2) {
        return Ok(Change::Shift(random.amount()));
    }
    Ok(Change::Assign(items_of(alloc, field, sizes, random)?))
}

fn act_of(
    alloc: Global,
    field: &Field,
    sizes: Sizes,
    random: &mut Random,
) -> Result<Act, AllocError> {
    if field.value == ValueType::Long && random.once_in(2) {
        return Ok(Act::Shift(random.amount()));
    }
    Ok(Act::Set(some_value(alloc, field.value, sizes, random)?))
}

fn change_of_array(
    alloc: Global,
    field: &Field,
    sizes: Sizes,
    random: &mut Random,
) -> Result<Change, AllocError> {
    match random.below(4) {
        0 => Ok(Change::Assign(items_of(alloc, field, sizes, random)?)),
        1 => Ok(Change::Add(items_of(alloc, field, sizes, random)?)),
        _ => {
            let index = random.below(sizes.items);
            let act = act_of(alloc, field, sizes, random)?;
            Ok(Change::At { index, act })
        }
    }
}

fn weight_act_of(random: &mut Random) -> WeightAct {
    if random.once_in(2) {
        WeightAct::Set(random.weight())
    } else {
        WeightAct::Shift(random.amount())
    }
}

fn change_of_set(
    alloc: Global,
    field: &Field,
    sizes: Sizes,
    random: &mut Random,
) -> Result<Change, AllocError> {
    match random.below(5) {
        0 => Ok(Change::Assign(items_of(alloc, field, sizes, random)?)),
        1 => Ok(Change::Add(items_of(alloc, field, sizes, random)?)),
        2 => {
            let names = some_values(alloc, field.value, sizes, sizes.items, random)?;
            Ok(Change::Take(Values::from_vec(names)))
        }
        _ => {
            let value = some_value(alloc, field.value, sizes, random)?;
            let act = weight_act_of(random);
            Ok(Change::Of { value, act })
        }
    }
}

fn change_of(
    alloc: Global,
    field: &Field,
    sizes: Sizes,
    random: &mut Random,
) -> Result<Change, AllocError> {
    if random.once_in(4) {
        return Ok(Change::Keep);
    }
    match field.kind {
        Kind::Single => change_of_single(alloc, field, sizes, random),
        Kind::Array => change_of_array(alloc, field, sizes, random),
        Kind::WeightedSet => change_of_set(alloc, field, sizes, random),
    }
}

fn changes_of(
    alloc: Global,
    fields: &[Field],
    sizes: Sizes,
    random: &mut Random,
) -> Result<FieldChanges, AllocError> {
    let mut changes = FieldChanges::new(alloc);
    for field in fields {
        changes.push(change_of(alloc, field, sizes, random)?)?;
    }
    Ok(changes)
}

fn document_of(
    alloc: Global,
    fields: &[Field],
    sizes: Sizes,
    random: &mut Random,
) -> Result<FieldItems, AllocError> {
    let mut document = FieldItems::new(alloc);
    for field in fields {
        document.push(items_of(alloc, field, sizes, random)?)?;
    }
    Ok(document)
}

/// Returns the operation of a turn.
pub fn op_of(
    alloc: Global,
    fields: &[Field],
    sizes: Sizes,
    turn: u32,
    random: &mut Random,
) -> Result<Op, AllocError> {
    let number = random.below(sizes.documents).min(1_000_000) + 1;
    let doc = Doc::new(number.max(1).min(Doc::LAST));
    let grows = turn / sizes.period.max(1) % 2 == 0;
    let chance = random.below(8);
    let removes: u32 = if grows { 1 } else { 5 };
    if chance < removes {
        return Ok(Op::Remove { doc });
    }
    if chance < removes + 2 {
        let create = random.once_in(4);
        let change = changes_of(alloc, fields, sizes, random)?;
        return Ok(Op::Update {
            doc,
            create,
            change,
        });
    }
    let items = document_of(alloc, fields, sizes, random)?;
    Ok(Op::Put { doc, items })
}
