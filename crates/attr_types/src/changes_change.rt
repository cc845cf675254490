//! Changes of the items of one attribute.
ghost use Rattle.std.specs.Prelude.{◌≡◌, ◌++◌, IfOk};
ghost use Rattle.attr_types.specs.Change.{changed, if_within_limit};
ghost use Rattle.attr_types.specs.Lawful.{AscendByValue, IsLawfulItems};
ghost use Rattle.attr_types.specs.declared.change.Change.TheVariants.{Shift};
ghost use Rattle.attr_types.specs.declared.kind.Kind.TheVariants.{Single, Array, WeightedSet};

use crate::act::{act_at, weigh};
use crate::set::{with_more, without_named};
use crate::{Act, Change, Item, Items, Kind, MOST_ITEMS, ValueType};
use std::alloc::{AllocError, Global};

fn copied(items: &Items) -> Result<Items, AllocError>
    ensures { IfOk result (λ copy. copy ≡ items.now) }
{
    Ok(items.clone()?)
}

fn appended(items: &Items, more: &[Item]) -> Result<Items, AllocError>
    ensures { IfOk result (λ joined. joined ≡ items.now ++ more.now) }
{
    let mut joined = copied(items)?;
    for item in more {
        joined.push(item.clone()?)?;
    }
    Ok(joined)
}

fn within_limit(items: Items) -> Option<Items>
    ensures { result ≡ if_within_limit items }
{
    if items.len() <= MOST_ITEMS {
        Some(items)
    } else {
        None
    }
}

fn shifted_single(
    value_type: ValueType,
    amount: i64,
    items: &Items,
) -> Result<Option<Items>, AllocError>
    ensures { IfOk result (λ new. new ≡ changed Single value_type (Shift amount) items.now) }
{
    match value_type {
        ValueType::Long => act_at(items, 0, &Act::Shift(amount)),
        ValueType::Text => Ok(None),
    }
}

fn changed_single(
    value_type: ValueType,
    change: &Change,
    items: &Items,
) -> Result<Option<Items>, AllocError>
    ensures { IfOk result (λ new. new ≡ changed Single value_type change.now items.now) }
{
    match change {
        Change::Keep => Ok(Some(copied(items)?)),
        Change::Assign(others) => Ok(Some(copied(others)?)),
        Change::Shift(amount) => shifted_single(value_type, *amount, items),
        Change::Add(_) | Change::Take(_) | Change::At { .. } | Change::Of { .. } => Ok(None),
    }
}

fn changed_array(
    value_type: ValueType,
    change: &Change,
    items: &Items,
) -> Result<Option<Items>, AllocError>
    ensures { IfOk result (λ new. new ≡ changed Array value_type change.now items.now) }
{
    match change {
        Change::Keep => Ok(Some(copied(items)?)),
        Change::Assign(others) => Ok(Some(copied(others)?)),
        Change::Add(more) => Ok(within_limit(appended(items, more.as_slice())?)),
        Change::At { index, act } => act_at(items, *index as usize, act),
        Change::Take(_) | Change::Shift(_) | Change::Of { .. } => Ok(None),
    }
}

fn changed_set(
    alloc: Global,
    value_type: ValueType,
    change: &Change,
    items: &Items,
) -> Result<Option<Items>, AllocError>
    requires { AscendByValue items.now }
    ensures { IfOk result (λ new. new ≡ changed WeightedSet value_type change.now items.now) }
{
    let old = items.as_slice();
    match change {
        Change::Keep => Ok(Some(copied(items)?)),
        Change::Assign(others) => Ok(Some(copied(others)?)),
        Change::Add(more) => Ok(within_limit(with_more(alloc, old, more.as_slice())?)),
        Change::Take(names) => Ok(Some(without_named(alloc, old, names.as_slice())?)),
        Change::Of { value, act } => weigh(items, value, act),
        Change::Shift(_) | Change::At { .. } => Ok(None),
    }
}

/// Returns the items of a document in an attribute after a change, or `None` if the change is skipped.
pub fn changed_items(
    alloc: Global,
    kind: Kind,
    value_type: ValueType,
    change: &Change,
    items: &Items,
) -> Result<Option<Items>, AllocError>
    requires { IsLawfulItems kind items.now }
    ensures { IfOk result (λ new. new ≡ changed kind value_type change.now items.now) }
{
    match kind {
        Kind::Single => changed_single(value_type, change, items),
        Kind::Array => changed_array(value_type, change, items),
        Kind::WeightedSet => changed_set(alloc, value_type, change, items),
    }
}
