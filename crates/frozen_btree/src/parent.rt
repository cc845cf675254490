//! Puts a changed child back into its parent, and fills up a short one.

ghost use Rattle.std.specs.Prelude.{◌≡◌, ◌^◌, ◌≤◌, ◌<◌, ◌++◌, ◌∷◌, [], true, length, slice_index, suc, OnOk, OnErr, IfErr};
ghost use Rattle.tree_read.specs.Nodes.{level_of, count_of, node_keys, node_values, IsNodeForm};
ghost use Rattle.store_api.specs.Calls.{Refuses};
ghost use Rattle.frozen_nodes.specs.Makes.{MakesNodes};
ghost use Rattle.frozen_nodes.specs.Words.{AreWords};
ghost use Rattle.tree_read.specs.Slots.{slot_pairs, IsInHand};
ghost use Rattle.frozen_btree.specs.Removes.{IsChild, PutsBack, spliced};

use crate::neighbours::make_neighbours;
use arena_api::Frozen;
use arrayvec::ArrayVec;
use entry_ref::EntryRef;
use frozen_nodes::{make_words, set_slot, write_slots};
use store_api::{Store, StoreError};
use tree_read::{LEAST_SLOTS, MOST_SLOTS, NODE_WORDS, Slots, read_node, slots_of, used_in};

/// Reads a child of a node in memory, and adds it to the replaced nodes.
fn read_child<const OFFSET_BITS: u32, F: Frozen<OFFSET_BITS>>(
    frozen: &mut F,
    slots: &Slots,
    place: usize,
    replaced: &mut ArrayVec<u32, 16>,
) -> Slots
    requires inner { 0 < slots.now.level }
    requires parent { IsInHand (F.records frozen.old) slots.now.level slots.now.keys.items slots.now.values.items }
    requires place { place < length slots.now.keys.items }
    requires room { length replaced.old.items < 16 }
    ensures level { slots.now.level ≡ suc result.level }
    ensures child { IsChild (F.records frozen.old) result.level (slice_index slots.now.values.items place)
        result.keys.items result.values.items }
    ensures replaced { replaced.new.items ≡ replaced.old.items ++ slice_index slots.now.values.items place ∷ [] }
    ensures same { frozen.new ≡ frozen.old }
{
    let child = EntryRef::from_raw(slots.values[place] as u32);
    replaced.push(child.raw());
    read_node(frozen, child)
}

/// Makes a child in memory that has only 7 slots, together with a sibling, and sets their slots in the parent. Adds
/// the sibling to the replaced nodes.
fn put_back<const OFFSET_BITS: u32, S: Store<OFFSET_BITS>>(
    store: &mut S,
    slots: &mut Slots,
    place: usize,
    child: &mut Slots,
    replaced: &mut ArrayVec<u32, 16>,
) -> Result<(), StoreError>
    requires unit { (S.ledger store.old).unit ≡ true }
    requires low { child.old.level < 7 }
    requires upper { slots.old.level ≡ suc child.old.level }
    requires parent { IsInHand (S.records store.old) (suc child.old.level) slots.old.keys.items slots.old.values.items }
    requires place { place < length slots.old.keys.items }
    requires many { 2 ≤ length slots.old.keys.items }
    requires room_parent { length slots.old.keys.items ≤ MOST_SLOTS }
    requires hand { IsInHand (S.records store.old) child.old.level child.old.keys.items child.old.values.items }
    requires short { length child.old.keys.items ≡ 7 }
    requires few { length (spliced (S.records store.old) child.old.level place slots.old.keys.items slots.old.values.items
        (slot_pairs (S.records store.old) child.old.level child.old.keys.items child.old.values.items)) < 2 ^ 32 }
    requires room_replaced { length replaced.old.items < 16 }
    ensures puts { OnOk result (PutsBack (S.ledger store.old) (S.ledger store.new) (S.records store.old) (S.records store.new)
        child.old.level place slots.old.keys.items slots.old.values.items child.old.keys.items child.old.values.items
        replaced.old.items replaced.new.items slots.new.keys.items slots.new.values.items) }
    ensures refuses { IfErr result (Refuses (S.ledger store.old) (S.ledger store.new) NODE_WORDS) }
    ensures refused { OnErr result (MakesNodes (S.ledger store.old) (S.ledger store.new) (S.records store.old) (S.records store.new) 1) }
    ensures level { slots.new.level ≡ slots.old.level }
{
    if place > 0 {
        let mut left = read_child(store, slots, place - 1, replaced);
        make_neighbours(store, slots, place - 1, &mut left, child)
    } else {
        let mut right = read_child(store, slots, 1, replaced);
        make_neighbours(store, slots, 0, child, &mut right)
    }
}

/// Makes a child in memory that has only 7 slots, together with a sibling, and sets their slots and the count of
/// pairs in the words of the parent.
fn put_short<const OFFSET_BITS: u32, S: Store<OFFSET_BITS>>(
    store: &mut S,
    words: &mut [u64; NODE_WORDS],
    pairs: u64,
    place: usize,
    child: &[u64; NODE_WORDS],
    replaced: &mut ArrayVec<u32, 16>,
) -> Result<(), StoreError>
    requires unit { (S.ledger store.old).unit ≡ true }
    requires low { level_of child.now < 7 }
    requires upper { level_of words.old ≡ suc (level_of child.now) }
    requires form { IsNodeForm (level_of words.old) 2 words.old }
    requires parent { IsInHand (S.records store.old) (suc (level_of child.now)) (node_keys words.old) (node_values words.old) }
    requires place { place < length (node_keys words.old) }
    requires hand { IsInHand (S.records store.old) (level_of child.now) (node_keys child.now) (node_values child.now) }
    requires short { length (node_keys child.now) ≡ 7 }
    requires few { length (spliced (S.records store.old) (level_of child.now) place (node_keys words.old) (node_values words.old)
        (slot_pairs (S.records store.old) (level_of child.now) (node_keys child.now) (node_values child.now))) < 2 ^ 32 }
    requires counted { pairs ≡ (length (spliced (S.records store.old) (level_of child.now) place (node_keys words.old)
        (node_values words.old)
        (slot_pairs (S.records store.old) (level_of child.now) (node_keys child.now) (node_values child.now)))) }
    requires room_replaced { length replaced.old.items < 16 }
    ensures puts { OnOk result (PutsBack (S.ledger store.old) (S.ledger store.new) (S.records store.old) (S.records store.new)
        (level_of child.now) place (node_keys words.old) (node_values words.old) (node_keys child.now) (node_values child.now)
        replaced.old.items replaced.new.items (node_keys words.new) (node_values words.new)) }
    ensures words { OnOk result (AreWords (level_of words.old)
        (length (slot_pairs (S.records store.new) (level_of words.old) (node_keys words.new) (node_values words.new)))
        (node_keys words.new) (node_values words.new) words.new) }
    ensures refuses { IfErr result (Refuses (S.ledger store.old) (S.ledger store.new) NODE_WORDS) }
    ensures refused { OnErr result (MakesNodes (S.ledger store.old) (S.ledger store.new) (S.records store.old) (S.records store.new) 1) }
{
    let mut slots = slots_of(words);
    let mut below = slots_of(child);
    put_back(store, &mut slots, place, &mut below, replaced)?;
    write_slots(words, pairs, &slots);
    Ok(())
}

/// Makes a child in memory that has lost a pair, together with a sibling if it has only 7 slots, and sets their slots
/// in the words of the parent. Adds the sibling to the replaced nodes.
pub fn put_child<const OFFSET_BITS: u32, S: Store<OFFSET_BITS>>(
    store: &mut S,
    words: &mut [u64; NODE_WORDS],
    place: usize,
    child: &[u64; NODE_WORDS],
    replaced: &mut ArrayVec<u32, 16>,
    near: u32,
) -> Result<(), StoreError>
    requires unit { (S.ledger store.old).unit ≡ true }
    requires low { level_of child.now < 7 }
    requires upper { level_of words.old ≡ suc (level_of child.now) }
    requires form { IsNodeForm (level_of words.old) 2 words.old }
    requires parent { IsInHand (S.records store.old) (suc (level_of child.now)) (node_keys words.old) (node_values words.old) }
    requires place { place < length (node_keys words.old) }
    requires hand { IsInHand (S.records store.old) (level_of child.now) (node_keys child.now) (node_values child.now) }
    requires least { 7 ≤ length (node_keys child.now) }
    requires child_words { AreWords (level_of child.now)
        (length (slot_pairs (S.records store.old) (level_of child.now) (node_keys child.now) (node_values child.now)))
        (node_keys child.now) (node_values child.now) child.now }
    requires few { length (spliced (S.records store.old) (level_of child.now) place (node_keys words.old) (node_values words.old)
        (slot_pairs (S.records store.old) (level_of child.now) (node_keys child.now) (node_values child.now))) < 2 ^ 32 }
    requires counted { count_of words.old ≡ suc
        (length (spliced (S.records store.old) (level_of child.now) place (node_keys words.old) (node_values words.old)
        (slot_pairs (S.records store.old) (level_of child.now) (node_keys child.now) (node_values child.now)))) }
    requires room_replaced { length replaced.old.items < 16 }
    ensures puts { OnOk result (PutsBack (S.ledger store.old) (S.ledger store.new) (S.records store.old) (S.records store.new)
        (level_of child.now) place (node_keys words.old) (node_values words.old) (node_keys child.now) (node_values child.now)
        replaced.old.items replaced.new.items (node_keys words.new) (node_values words.new)) }
    ensures words { OnOk result (AreWords (level_of words.old)
        (length (slot_pairs (S.records store.new) (level_of words.old) (node_keys words.new) (node_values words.new)))
        (node_keys words.new) (node_values words.new) words.new) }
    ensures refuses { IfErr result (Refuses (S.ledger store.old) (S.ledger store.new) NODE_WORDS) }
    ensures refused { OnErr result (MakesNodes (S.ledger store.old) (S.ledger store.new) (S.records store.old) (S.records store.new) 1) }
{
    let pairs = words[1] - 1;
    if used_in(child) < LEAST_SLOTS {
        return put_short(store, words, pairs, place, child, replaced);
    }
    let part = make_words(store, child, near)?;
    set_slot(words, pairs, place, part.key, u64::from(part.node));
    Ok(())
}
