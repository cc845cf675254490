//! Values with how often each is there, by the runs of equal neighbours in a sorted list.
ghost use Rattle.std.specs.Prelude.{◌≡◌, ◌<◌, ◌^◌, ◌≤◌, ◌+◌, ◌-◌, ◌++◌, ◌∷◌, List, IfOk, OnOk};
ghost use Rattle.attr_types.specs.Value.{value_cmp, values_of};
ghost use Rattle.attr_types.specs.declared.value.Value.{Value};
ghost use Rattle.result_model.specs.Orders.{in_order};
ghost use Rattle.query_results.specs.Runs.{groups_of, runs, with_run};

use crate::orders::put_in_order;
use attr_types::{Items, Value};
use result_model::{Group, Groups};
use std::alloc::{AllocError, Global};
use std::mem::replace;

/// Returns the distinct values of items, ascending.
pub fn distinct_in(alloc: Global, items: Items) -> Result<Vec<Value>, AllocError>
    ensures { IfOk result (λ values. values.items ≡ in_order value_cmp (values_of items)) }
{
    let mut values = Vec::new(alloc);
    for item in items.into_vec() {
        values.push(item.value)?;
    }
    put_in_order(&mut values);
    Ok(values)
}

/// Adds a value to groups whose last one is at hand.
fn add_value(groups: &mut Groups, last: &mut Group, value: Value) -> Result<(), AllocError>
    requires room { last.old.count < 2 ^ 64 - 1 }
    ensures run { OnOk result ((rest : List Value) → groups.new ++ with_run last.new.value last.new.count rest
        ≡ groups.old ++ with_run last.old.value last.old.count (value ∷ rest)) }
    ensures count { OnOk result (last.new.count ≤ last.old.count + 1) }
{
    if value == last.value {
        last.count += 1;
        return Ok(());
    }
    let done = replace(last, Group { value, count: 1 });
    groups.push(done)
}

/// Returns the groups of a value and of the values after it.
fn runs_after(alloc: Global, first: Value, rest: Vec<Value>) -> Result<Groups, AllocError>
    ensures { IfOk result (λ groups. groups ≡ with_run first 1 rest.items) }
{
    let mut groups = Groups::new(alloc);
    let mut last = Group {
        value: first,
        count: 1,
    };
    for value in rest {
        add_value(&mut groups, &mut last, value)?;
    }
    groups.push(last)?;
    Ok(groups)
}

/// Returns the groups of equal neighbours.
fn runs_of(alloc: Global, values: Vec<Value>) -> Result<Groups, AllocError>
    ensures { IfOk result (λ groups. groups ≡ runs values.items) }
{
    let mut values = values;
    if values.is_empty() {
        return Ok(Groups::new(alloc));
    }
    let first = values.remove(0);
    runs_after(alloc, first, values)
}

/// Returns the distinct ones of some values, ascending, each with how often it is there.
pub fn groups_in(alloc: Global, values: Vec<Value>) -> Result<Groups, AllocError>
    ensures { IfOk result (λ groups. groups ≡ groups_of values.items) }
{
    let mut values = values;
    values.sort_unstable();
    runs_of(alloc, values)
}
