//! Trees that are built at once, by the number of their pairs.
ghost use Rattle.std.specs.Prelude.{◌≡◌, ◌<◌, false, IfOk};
ghost use Rattle.std.specs.List.Sorted.{IsStrictlySortedBy};
ghost use Rattle.std.specs.Ordering.{nat_cmp};
ghost use Rattle.store_api.specs.Ledgers.{Ledger};
ghost use Rattle.tree_read.specs.Trees.{IsRootNode};

use crate::steps::push_seen;
use crate::texts::push_number;
use crate::trees::{Seen, look_at};
use entry_ref::EntryRef;
use frozen_btree::{NumberKey, build};
use std::alloc::{AllocError, Global};
use store_api::{Store, StoreError};

/// Returns the numbers from 0 on.
fn numbers(alloc: Global, count: u64) -> Result<Vec<u64>, AllocError>
    ensures sorted { IfOk result (λ numbers. IsStrictlySortedBy nat_cmp numbers.items) }
{
    let mut numbers = Vec::new(alloc);
    for number in 0..count {
        numbers.push(number)?;
    }
    Ok(numbers)
}

/// Builds a tree of numbers, each its own value, within a unit.
fn build_numbers<const OFFSET_BITS: u32, S: Store<OFFSET_BITS>>(
    alloc: Global,
    store: &mut S,
    numbers: &[u64],
) -> Result<EntryRef<OFFSET_BITS>, StoreError>
    requires unit { (S.ledger store.old).unit ≡ false }
    requires sorted { IsStrictlySortedBy nat_cmp numbers.now }
    ensures { IfOk result (λ r. 0 < r → IsRootNode (S.records store.new) r) }
{
    store.begin();
    build::<OFFSET_BITS, S, NumberKey>(alloc, store, numbers, numbers)
}

/// Returns whether each key is its index, and its own value.
fn are_numbers(pairs: &[(u64, u64)]) -> bool {
    let mut place: u64 = 0;
    for pair in pairs {
        if pair.0 != place || pair.1 != place {
            return false;
        }
        place = place.saturating_add(1);
    }
    true
}

/// Writes how many nodes the tree has, the first words of the upper ones, the count in the root, and the number of
/// pairs.
fn push_built(line: &mut String, seen: &Seen) -> Result<(), AllocError> {
    push_number(line, seen.nodes)?;
    push_seen(line, seen)?;
    line.push_str(if are_numbers(&seen.pairs) {
        ""
    } else {
        " others"
    })
}

/// Builds a tree of numbers in a store, and looks at it.
fn built_in<const OFFSET_BITS: u32, S: Store<OFFSET_BITS>>(
    alloc: Global,
    store: &mut S,
    numbers: &[u64],
) -> Result<Option<Seen>, AllocError>
    requires unit { (S.ledger store.old).unit ≡ false }
    requires sorted { IsStrictlySortedBy nat_cmp numbers.now }
{
    match build_numbers(alloc, store, numbers) {
        Ok(root) => look_at(alloc, store, root),
        Err(_) => Ok(None),
    }
}

/// Returns the result of a row, a tree of this many numbers.
pub fn answer<const OFFSET_BITS: u32, S: Store<OFFSET_BITS>>(
    alloc: Global,
    store: &mut S,
    count: u64,
    line: &mut String,
) -> Result<(), AllocError>
    requires { (S.ledger store.old).unit ≡ false }
{
    let numbers = numbers(alloc, count)?;
    match built_in(alloc, store, &numbers)? {
        Some(seen) => push_built(line, &seen),
        None => line.push_str(" no tree"),
    }
}
