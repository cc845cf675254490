//! Joins, shifts and merges two neighbouring nodes.

ghost use Rattle.std.specs.Prelude.{◌≡◌, ◌^◌, ◌≤◌, ◌<◌, ◌+◌, ◌++◌, true, length, slice_set, suc, OnOk, OnErr, IfErr};
ghost use Rattle.store_api.specs.Calls.{Refuses};
ghost use Rattle.frozen_nodes.specs.Makes.{MakesNodes};
ghost use Rattle.tree_read.specs.Slots.{slot_pairs, slot_nodes, IsInHand};
ghost use Rattle.frozen_btree.specs.Settles.{SettlesSlots};

use frozen_nodes::{MadeNode, make_part};
use store_api::{Store, StoreError};
use tree_read::{LEAST_SLOTS, MOST_SLOTS, NODE_WORDS, Slots, append};

/// Appends the slots of the right neighbour.
fn join(left: &mut Slots, right: &Slots)
    requires even { length left.old.keys.items ≡ length left.old.values.items }
    requires even_right { length right.now.keys.items ≡ length right.now.values.items }
    requires room { length left.old.keys.items + length right.now.keys.items ≤ MOST_SLOTS }
    ensures keys { left.new.keys.items ≡ left.old.keys.items ++ right.now.keys.items }
    ensures values { left.new.values.items ≡ left.old.values.items ++ right.now.values.items }
    ensures level { left.new.level ≡ left.old.level }
{
    append(&mut left.keys, &right.keys);
    append(&mut left.values, &right.values);
}

/// Moves one slot from the longer of two neighbours to the other.
fn shift(left: &mut Slots, right: &mut Slots)
    requires even { length left.old.keys.items ≡ length left.old.values.items }
    requires even_right { length right.old.keys.items ≡ length right.old.values.items }
    requires room { length left.old.keys.items ≤ MOST_SLOTS }
    requires room_right { length right.old.keys.items ≤ MOST_SLOTS }
    requires some { 0 < length left.old.keys.items }
    ensures keys { left.new.keys.items ++ right.new.keys.items ≡ left.old.keys.items ++ right.old.keys.items }
    ensures values { left.new.values.items ++ right.new.values.items ≡ left.old.values.items ++ right.old.values.items }
    ensures even { length left.new.keys.items ≡ length left.new.values.items }
    ensures longer { length right.old.keys.items ≤ length left.old.keys.items
        → length left.new.keys.items + 1 ≡ length left.old.keys.items }
    ensures shorter { length left.old.keys.items < length right.old.keys.items
        → length left.new.keys.items ≡ length left.old.keys.items + 1 }
    ensures level { left.new.level ≡ left.old.level }
    ensures level_right { right.new.level ≡ right.old.level }
{
    if left.keys.len() < right.keys.len() {
        left.keys.push(right.keys.remove(0));
        left.values.push(right.values.remove(0));
    } else {
        let last = left.keys.len() - 1;
        right.keys.insert(0, left.keys.remove(last));
        right.values.insert(0, left.values.remove(last));
    }
}

/// Sets a slot of a parent.
pub fn set_part(slots: &mut Slots, place: usize, part: MadeNode)
    requires even { length slots.old.keys.items ≡ length slots.old.values.items }
    requires place { place < length slots.old.keys.items }
    ensures keys { slots.new.keys.items ≡ slice_set slots.old.keys.items place part.key }
    ensures values { slots.new.values.items ≡ slice_set slots.old.values.items place part.node }
    ensures level { slots.new.level ≡ slots.old.level }
{
    slots.keys[place] = part.key;
    slots.values[place] = u64::from(part.node);
}

/// Merges two neighbours into one node, and sets its slot in their parent.
fn merge<const OFFSET_BITS: u32, S: Store<OFFSET_BITS>>(
    store: &mut S,
    slots: &mut Slots,
    first: usize,
    left: &mut Slots,
    right: &Slots,
) -> Result<(), StoreError>
    requires unit { (S.ledger store.old).unit ≡ true }
    requires low { left.old.level ≤ 7 }
    requires even { length left.old.keys.items ≡ length left.old.values.items }
    requires even_right { length right.now.keys.items ≡ length right.now.values.items }
    requires hand { IsInHand (S.records store.old) left.old.level
        (left.old.keys.items ++ right.now.keys.items) (left.old.values.items ++ right.now.values.items) }
    requires some { LEAST_SLOTS ≤ length left.old.keys.items + length right.now.keys.items }
    requires room { length left.old.keys.items + length right.now.keys.items ≤ MOST_SLOTS }
    requires few { length (slot_pairs (S.records store.old) left.old.level
        (left.old.keys.items ++ right.now.keys.items) (left.old.values.items ++ right.now.values.items)) < 2 ^ 32 }
    requires parent { length slots.old.keys.items ≡ length slots.old.values.items }
    requires room_parent { length slots.old.keys.items ≤ MOST_SLOTS }
    requires first { suc first < length slots.old.keys.items }
    ensures settles { OnOk result (SettlesSlots (S.ledger store.old) (S.ledger store.new) (S.records store.old)
        (S.records store.new) left.old.level
        (slot_pairs (S.records store.old) left.old.level
        (left.old.keys.items ++ right.now.keys.items) (left.old.values.items ++ right.now.values.items))
        (slot_nodes (S.records store.old) left.old.level (left.old.values.items ++ right.now.values.items))
        first 2 slots.old.keys.items slots.old.values.items slots.new.keys.items slots.new.values.items) }
    ensures refuses { IfErr result (Refuses (S.ledger store.old) (S.ledger store.new) NODE_WORDS) }
    ensures refused { OnErr result (MakesNodes (S.ledger store.old) (S.ledger store.new) (S.records store.old) (S.records store.new) 1) }
    ensures level { slots.new.level ≡ slots.old.level }
{
    join(left, right);
    let part = make_part(store, left)?;
    slots.keys.remove(first + 1);
    slots.values.remove(first + 1);
    set_part(slots, first, part);
    Ok(())
}

/// Makes two nodes of two neighbours after moving one slot from the longer to the other, and sets their slots in
/// their parent.
fn share<const OFFSET_BITS: u32, S: Store<OFFSET_BITS>>(
    store: &mut S,
    slots: &mut Slots,
    first: usize,
    left: &mut Slots,
    right: &mut Slots,
) -> Result<(), StoreError>
    requires unit { (S.ledger store.old).unit ≡ true }
    requires low { left.old.level ≤ 7 }
    requires same_level { right.old.level ≡ left.old.level }
    requires even { length left.old.keys.items ≡ length left.old.values.items }
    requires even_right { length right.old.keys.items ≡ length right.old.values.items }
    requires hand { IsInHand (S.records store.old) left.old.level
        (left.old.keys.items ++ right.old.keys.items) (left.old.values.items ++ right.old.values.items) }
    requires room { length left.old.keys.items ≤ MOST_SLOTS }
    requires room_right { length right.old.keys.items ≤ MOST_SLOTS }
    requires many { 16 ≤ length left.old.keys.items + length right.old.keys.items }
    requires short { length left.old.keys.items + length right.old.keys.items ≤ 23 }
    requires least { 7 ≤ length left.old.keys.items }
    requires least_right { 7 ≤ length right.old.keys.items }
    requires one_short { LEAST_SLOTS ≤ length left.old.keys.items → length right.old.keys.items ≡ 7 }
    requires few { length (slot_pairs (S.records store.old) left.old.level
        (left.old.keys.items ++ right.old.keys.items) (left.old.values.items ++ right.old.values.items)) < 2 ^ 32 }
    requires parent { length slots.old.keys.items ≡ length slots.old.values.items }
    requires room_parent { length slots.old.keys.items ≤ MOST_SLOTS }
    requires first { suc first < length slots.old.keys.items }
    ensures settles { OnOk result (SettlesSlots (S.ledger store.old) (S.ledger store.new) (S.records store.old)
        (S.records store.new) left.old.level
        (slot_pairs (S.records store.old) left.old.level
        (left.old.keys.items ++ right.old.keys.items) (left.old.values.items ++ right.old.values.items))
        (slot_nodes (S.records store.old) left.old.level (left.old.values.items ++ right.old.values.items))
        first 2 slots.old.keys.items slots.old.values.items slots.new.keys.items slots.new.values.items) }
    ensures refuses { IfErr result (Refuses (S.ledger store.old) (S.ledger store.new) NODE_WORDS) }
    ensures refused { OnErr result (MakesNodes (S.ledger store.old) (S.ledger store.new) (S.records store.old) (S.records store.new) 1) }
    ensures level { slots.new.level ≡ slots.old.level }
{
    shift(left, right);
    let part = make_part(store, left)?;
    set_part(slots, first, part);
    let part = make_part(store, right)?;
    set_part(slots, first + 1, part);
    Ok(())
}

/// Makes one node or two of two neighbours, one of which has 7 slots, and sets their slots in their parent.
pub fn make_neighbours<const OFFSET_BITS: u32, S: Store<OFFSET_BITS>>(
    store: &mut S,
    slots: &mut Slots,
    first: usize,
    left: &mut Slots,
    right: &mut Slots,
) -> Result<(), StoreError>
    requires unit { (S.ledger store.old).unit ≡ true }
    requires low { left.old.level ≤ 7 }
    requires same_level { right.old.level ≡ left.old.level }
    requires even { length left.old.keys.items ≡ length left.old.values.items }
    requires even_right { length right.old.keys.items ≡ length right.old.values.items }
    requires hand { IsInHand (S.records store.old) left.old.level
        (left.old.keys.items ++ right.old.keys.items) (left.old.values.items ++ right.old.values.items) }
    requires room { length left.old.keys.items ≤ MOST_SLOTS }
    requires room_right { length right.old.keys.items ≤ MOST_SLOTS }
    requires short { length left.old.keys.items + length right.old.keys.items ≤ 23 }
    requires least { 7 ≤ length left.old.keys.items }
    requires least_right { 7 ≤ length right.old.keys.items }
    requires one_short { LEAST_SLOTS ≤ length left.old.keys.items → length right.old.keys.items ≡ 7 }
    requires few { length (slot_pairs (S.records store.old) left.old.level
        (left.old.keys.items ++ right.old.keys.items) (left.old.values.items ++ right.old.values.items)) < 2 ^ 32 }
    requires parent { length slots.old.keys.items ≡ length slots.old.values.items }
    requires room_parent { length slots.old.keys.items ≤ MOST_SLOTS }
    requires first { suc first < length slots.old.keys.items }
    ensures settles { OnOk result (SettlesSlots (S.ledger store.old) (S.ledger store.new) (S.records store.old)
        (S.records store.new) left.old.level
        (slot_pairs (S.records store.old) left.old.level
        (left.old.keys.items ++ right.old.keys.items) (left.old.values.items ++ right.old.values.items))
        (slot_nodes (S.records store.old) left.old.level (left.old.values.items ++ right.old.values.items))
        first 2 slots.old.keys.items slots.old.values.items slots.new.keys.items slots.new.values.items) }
    ensures refuses { IfErr result (Refuses (S.ledger store.old) (S.ledger store.new) NODE_WORDS) }
    ensures refused { OnErr result (MakesNodes (S.ledger store.old) (S.ledger store.new) (S.records store.old) (S.records store.new) 1) }
    ensures level { slots.new.level ≡ slots.old.level }
{
    if left.keys.len() + right.keys.len() < MOST_SLOTS {
        merge(store, slots, first, left, right)
    } else {
        share(store, slots, first, left, right)
    }
}
