//! The one or two nodes that replace a node.

ghost use Rattle.std.specs.Prelude.{◌≡◌, ◌≤◌, ◌<◌, ◌^◌, ◌++◌, ℕ, List, true, length, take, drop, insert, suc, IfOk, IfErr};
ghost use Rattle.std.specs.List.{AllByRecursion};
ghost use Rattle.tree_read.specs.Nodes.{level_of, used_of, node_keys, node_values, IsNodeForm};
ghost use Rattle.store_api.specs.Calls.{Refuses};
ghost use Rattle.tree_read.specs.Slots.{slot_pairs, IsInHand};
ghost use Rattle.frozen_nodes.specs.Makes.{MakesNodes};
ghost use Rattle.frozen_nodes.specs.Words.{AreWords};
ghost use Rattle.frozen_nodes.specs.Parts.{MakesParts, part_keys, part_nodes, parts_count};

use crate::{MadeNode, add_slot, make_part, make_words, set_slot};
use arena_api::Frozen;
use arrayvec::ArrayVec;
use entry_ref::EntryRef;
use store_api::{Store, StoreError};
use tree_read::{MOST_SLOTS, NODE_WORDS, Slots, append, slots_of, used_in};

/// The nodes that replace a node: one or two.
#[derive(Clone, Copy, Debug, Drop)]
pub enum Parts {
    One(MadeNode),
    Two(MadeNode, MadeNode),
}

/// Splits off the slots from the ninth on.
fn split(slots: &mut Slots) -> Slots
    requires even { length slots.old.keys.items ≡ length slots.old.values.items }
    requires many { 9 ≤ length slots.old.keys.items }
    ensures level { result.level ≡ slots.old.level }
    ensures keys { result.keys.items ≡ drop 9 slots.old.keys.items }
    ensures values { result.values.items ≡ drop 9 slots.old.values.items }
    ensures level_left { slots.new.level ≡ slots.old.level }
    ensures keys_left { slots.new.keys.items ≡ take 9 slots.old.keys.items }
    ensures values_left { slots.new.values.items ≡ take 9 slots.old.values.items }
{
    let mut rest = Slots {
        level: slots.level,
        keys: ArrayVec::new(),
        values: ArrayVec::new(),
    };
    append(&mut rest.keys, &slots.keys[9..]);
    append(&mut rest.values, &slots.values[9..]);
    slots.keys.truncate(9);
    slots.values.truncate(9);
    rest
}

/// Makes one node of up to 16 slots, or two nodes of 17 slots, the first with nine.
pub fn make_parts<const OFFSET_BITS: u32, S: Store<OFFSET_BITS>>(
    store: &mut S,
    slots: &mut Slots,
) -> Result<Parts, StoreError>
    requires unit { (S.ledger store.old).unit ≡ true }
    requires low { slots.old.level ≤ 7 }
    requires hand { IsInHand (S.records store.old) slots.old.level slots.old.keys.items slots.old.values.items }
    requires some { 0 < length slots.old.keys.items }
    requires fits { length slots.old.keys.items ≤ 17 }
    requires few { length (slot_pairs (S.records store.old) slots.old.level slots.old.keys.items slots.old.values.items) < 2 ^ 32 }
    ensures parts { IfOk result (MakesParts (S.ledger store.old) (S.ledger store.new) (S.records store.old) (S.records store.new)
        slots.old.level slots.old.keys.items slots.old.values.items) }
    ensures makes { MakesNodes (S.ledger store.old) (S.ledger store.new) (S.records store.old) (S.records store.new) 2 }
    ensures refuses { IfErr result (Refuses (S.ledger store.old) (S.ledger store.new) NODE_WORDS) }
{
    if slots.keys.len() <= MOST_SLOTS {
        return Ok(Parts::One(make_part(store, slots)?));
    }
    let rest = split(slots);
    let first = make_part(store, slots)?;
    let second = make_part(store, &rest)?;
    Ok(Parts::Two(first, second))
}

/// Makes a node of words in hand, in place of another.
pub fn make_one<const OFFSET_BITS: u32, S: Store<OFFSET_BITS>>(
    store: &mut S,
    words: &[u64; NODE_WORDS],
    near: u32,
) -> Result<Parts, StoreError>
    requires unit { (S.ledger store.old).unit ≡ true }
    requires some { 0 < used_of words.now }
    requires fits { used_of words.now ≤ MOST_SLOTS }
    ensures parts { (level : ℕ) (keys values : List ℕ)
        → AreWords level (length (slot_pairs (S.records store.old) level keys values)) keys values words.now
        → IsInHand (S.records store.old) level keys values → 0 < length keys
        → length (slot_pairs (S.records store.old) level keys values) < 2 ^ 32
        → IfOk result (MakesParts (S.ledger store.old) (S.ledger store.new) (S.records store.old) (S.records store.new) level keys values) }
    ensures makes { MakesNodes (S.ledger store.old) (S.ledger store.new) (S.records store.old) (S.records store.new) 2 }
    ensures refuses { IfErr result (Refuses (S.ledger store.old) (S.ledger store.new) NODE_WORDS) }
{
    Ok(Parts::One(make_words(store, words, near)?))
}

/// Inserts a slot before another or at the end, and makes the node, or two nodes if it was full. `pairs` is the count
/// of both.
pub fn put_slot<const OFFSET_BITS: u32, S: Store<OFFSET_BITS>>(
    store: &mut S,
    words: &mut [u64; NODE_WORDS],
    pairs: u64,
    slot: usize,
    key: u64,
    value: u64,
    near: u32,
) -> Result<Parts, StoreError>
    requires unit { (S.ledger store.old).unit ≡ true }
    requires form { IsNodeForm (level_of words.old) 1 words.old }
    requires low { level_of words.old ≤ 7 }
    requires slot { slot ≤ used_of words.old }
    requires hand { IsInHand (S.records store.old) (level_of words.old)
        (insert (node_keys words.old) slot key) (insert (node_values words.old) slot value) }
    requires few { length (slot_pairs (S.records store.old) (level_of words.old)
        (insert (node_keys words.old) slot key) (insert (node_values words.old) slot value)) < 2 ^ 32 }
    requires counted { pairs ≡ length (slot_pairs (S.records store.old) (level_of words.old)
        (insert (node_keys words.old) slot key) (insert (node_values words.old) slot value)) }
    ensures parts { IfOk result (MakesParts (S.ledger store.old) (S.ledger store.new) (S.records store.old) (S.records store.new)
        (level_of words.old) (insert (node_keys words.old) slot key) (insert (node_values words.old) slot value)) }
    ensures makes { MakesNodes (S.ledger store.old) (S.ledger store.new) (S.records store.old) (S.records store.new) 2 }
    ensures refuses { IfErr result (Refuses (S.ledger store.old) (S.ledger store.new) NODE_WORDS) }
{
    if used_in(words) < MOST_SLOTS {
        add_slot(words, pairs, slot, key, value);
        return make_one(store, words, near);
    }
    let mut slots = slots_of(words);
    slots.keys.insert(slot, key);
    slots.values.insert(slot, value);
    make_parts(store, &mut slots)
}

/// Replaces a slot by parts, and makes the node, or two nodes if it was full. `pairs` is the count of both.
pub fn put_parts<const OFFSET_BITS: u32, S: Store<OFFSET_BITS>>(
    store: &mut S,
    words: &mut [u64; NODE_WORDS],
    pairs: u64,
    place: usize,
    parts: &Parts,
    near: u32,
) -> Result<Parts, StoreError>
    requires unit { (S.ledger store.old).unit ≡ true }
    requires form { IsNodeForm (level_of words.old) 1 words.old }
    requires low { level_of words.old ≤ 7 }
    requires place { place < used_of words.old }
    requires hand { IsInHand (S.records store.old) (level_of words.old)
        (take place (node_keys words.old) ++ (part_keys parts.now ++ drop (suc place) (node_keys words.old)))
        (take place (node_values words.old) ++ (part_nodes parts.now ++ drop (suc place) (node_values words.old))) }
    requires few { length (slot_pairs (S.records store.old) (level_of words.old)
        (take place (node_keys words.old) ++ (part_keys parts.now ++ drop (suc place) (node_keys words.old)))
        (take place (node_values words.old) ++ (part_nodes parts.now ++ drop (suc place) (node_values words.old)))) < 2 ^ 32 }
    requires counted { pairs ≡ length (slot_pairs (S.records store.old) (level_of words.old)
        (take place (node_keys words.old) ++ (part_keys parts.now ++ drop (suc place) (node_keys words.old)))
        (take place (node_values words.old) ++ (part_nodes parts.now ++ drop (suc place) (node_values words.old)))) }
    ensures parts { IfOk result (MakesParts (S.ledger store.old) (S.ledger store.new) (S.records store.old) (S.records store.new)
        (level_of words.old)
        (take place (node_keys words.old) ++ (part_keys parts.now ++ drop (suc place) (node_keys words.old)))
        (take place (node_values words.old) ++ (part_nodes parts.now ++ drop (suc place) (node_values words.old)))) }
    ensures makes { MakesNodes (S.ledger store.old) (S.ledger store.new) (S.records store.old) (S.records store.new) 2 }
    ensures refuses { IfErr result (Refuses (S.ledger store.old) (S.ledger store.new) NODE_WORDS) }
{
    match *parts {
        Parts::One(part) => {
            set_slot(words, pairs, place, part.key, u64::from(part.node));
            make_one(store, words, near)
        }
        Parts::Two(first, second) => {
            set_slot(words, pairs, place, first.key, u64::from(first.node));
            let (key, node) = (second.key, second.node);
            put_slot(store, words, pairs, place + 1, key, u64::from(node), near)
        }
    }
}

/// Returns the number of pairs below parts, according to the counts of their nodes.
pub fn count_parts<const OFFSET_BITS: u32, F: Frozen<OFFSET_BITS>>(
    frozen: &mut F,
    parts: &Parts,
) -> u64
    requires there { AllByRecursion (λ node. 1 < length (F.records frozen.old node)) (part_nodes parts.now) }
    requires few { parts_count (F.records frozen.old) parts.now < 2 ^ 32 }
    ensures count { result ≡ parts_count (F.records frozen.old) parts.now }
    ensures same { frozen.new ≡ frozen.old }
{
    match *parts {
        Parts::One(part) => frozen.word(EntryRef::from_raw(part.node), 1),
        Parts::Two(first, second) => {
            let count = frozen.word(EntryRef::from_raw(first.node), 1);
            let other = second.node;
            count + frozen.word(EntryRef::from_raw(other), 1)
        }
    }
}
