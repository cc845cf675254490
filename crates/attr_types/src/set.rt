//! Changes of a weighted set, by a map from value to weight.
ghost use Rattle.std.specs.Prelude.{◌≡◌, OnOk, IfOk};
ghost use Rattle.std.specs.BTreeSet.{contains};
ghost use Rattle.attr_types.specs.Lawful.{AscendByValue};
ghost use Rattle.attr_types.specs.Change.{with_items, without_values, is_named};
ghost use Rattle.attr_types.specs.Value.{value_cmp};
ghost use Rattle.attr_types.specs.declared.items.Item.{Item};
ghost use Rattle.attr_types.specs.Weights.{weights_of, put_weights};

use crate::{Item, Items, Value};
use std::alloc::{AllocError, Global};
use std::collections::{BTreeMap, BTreeSet};

fn put_all(weights: &mut BTreeMap<Value, i32>, items: &[Item]) -> Result<(), AllocError>
    ensures { OnOk result (weights.new.entries ≡ put_weights weights.old.entries items.now) }
{
    for item in items {
        weights.insert(item.value.clone()?, item.weight)?;
    }
    Ok(())
}

fn items_of(alloc: Global, weights: BTreeMap<Value, i32>) -> Result<Items, AllocError>
    ensures { IfOk result (λ items. weights_of items ≡ weights.entries) }
{
    let mut items = Items::new(alloc);
    for (value, weight) in weights {
        items.push(Item { value, weight })?;
    }
    Ok(items)
}

/// Returns a weighted set with more items. A value that is already in the set takes the new weight.
pub fn with_more(alloc: Global, items: &[Item], more: &[Item]) -> Result<Items, AllocError>
    requires { AscendByValue items.now }
    ensures { IfOk result (λ joined. joined ≡ with_items items.now more.now) }
{
    let mut weights = BTreeMap::new(alloc);
    put_all(&mut weights, items)?;
    put_all(&mut weights, more)?;
    items_of(alloc, weights)
}

fn set_of(alloc: Global, names: &[Value]) -> Result<BTreeSet<Value>, AllocError>
    ensures { IfOk result (λ set. (item : Item) → contains value_cmp set item.value ≡ is_named names.now item) }
{
    let mut set = BTreeSet::new(alloc);
    for name in names {
        set.insert(name.clone()?)?;
    }
    Ok(set)
}

/// Returns a weighted set without the named values.
pub fn without_named(alloc: Global, items: &[Item], names: &[Value]) -> Result<Items, AllocError>
    ensures { IfOk result (λ kept. kept ≡ without_values items.now names.now) }
{
    let names = set_of(alloc, names)?;
    let mut kept = Items::new(alloc);
    for item in items {
        if !names.contains(&item.value) {
            kept.push(item.clone()?)?;
        }
    }
    Ok(kept)
}
