//! The groups with the most documents.
ghost use Rattle.std.specs.Prelude.{◌≡◌, map, take, IfOk};
ghost use Rattle.result_model.specs.Groups.{by_count};
ghost use Rattle.result_model.specs.Orders.{in_order};
ghost use Rattle.query_results.specs.Runs.{as_group, as_group_key};

use crate::orders::put_in_order;
use attr_types::Value;
use result_model::{Group, Groups};
use std::alloc::{AllocError, Global};
use std::cmp::Reverse;

/// A group as a key: the greatest count first, and equal counts by value.
#[derive(Drop, PartialEq, Eq, PartialOrd, Ord)]
pub struct GroupKey {
    pub count: Reverse<u64>,
    pub value: Value,
}

/// Returns groups as keys.
fn keys_of(alloc: Global, groups: Groups) -> Result<Vec<GroupKey>, AllocError>
    ensures { IfOk result (λ keys. keys.items ≡ map as_group_key groups) }
{
    let mut keys = Vec::new(alloc);
    for group in groups.into_vec() {
        keys.push(GroupKey {
            count: Reverse(group.count),
            value: group.value,
        })?;
    }
    Ok(keys)
}

/// Returns the groups of keys.
fn groups_of(alloc: Global, keys: Vec<GroupKey>) -> Result<Groups, AllocError>
    ensures { IfOk result (λ groups. groups ≡ map as_group keys.items) }
{
    let mut groups = Groups::new(alloc);
    for key in keys {
        groups.push(Group {
            value: key.value,
            count: key.count.0,
        })?;
    }
    Ok(groups)
}

/// Returns the `count` groups with the most documents.
pub fn largest_of(alloc: Global, groups: Groups, count: usize) -> Result<Groups, AllocError>
    ensures { IfOk result (λ list. list ≡ take count (in_order by_count groups)) }
{
    let mut keys = keys_of(alloc, groups)?;
    put_in_order(&mut keys);
    keys.truncate(count);
    groups_of(alloc, keys)
}
