//! The nodes of one level, as the slots of the next level hold them.

ghost use Rattle.std.specs.Prelude.{◌≡◌, ◌^◌, ◌<◌, ◌≤◌, ◌+◌, ◌∷◌, ◌++◌, [], true, length, IfOk, IfErr, OnOk};
ghost use Rattle.store_api.specs.Calls.{Refuses};
ghost use Rattle.store_api.specs.declared.store.StoreError.TheVariants.{Memory};
ghost use Rattle.frozen_nodes.specs.Makes.{MakesNodes};
ghost use Rattle.tree_read.specs.Slots.{slot_pairs, IsInHand};
ghost use Rattle.frozen_btree.specs.Builds.{groups, group_start, AddsPart, MakesRow};

use arrayvec::ArrayVec;
use frozen_nodes::make_part;
use std::alloc::Global;
use store_api::{Store, StoreError};
use tree_read::{MOST_SLOTS, NODE_WORDS, Slots, append};

/// Nodes of one level, as the slots of the next level hold them.
#[derive(Drop)]
pub struct Row {
    pub keys: Vec<u64>,
    pub nodes: Vec<u64>,
}

/// Returns slots in memory with these keys and values.
pub fn slots_of(level: u64, keys: &[u64], values: &[u64]) -> Slots
    requires keys { length keys.now ≤ MOST_SLOTS }
    requires values { length values.now ≤ MOST_SLOTS }
    ensures level { result.level ≡ level }
    ensures keys { result.keys.items ≡ keys.now }
    ensures values { result.values.items ≡ values.now }
{
    let mut slots = Slots {
        level,
        keys: ArrayVec::new(),
        values: ArrayVec::new(),
    };
    append(&mut slots.keys, keys);
    append(&mut slots.values, values);
    slots
}

/// Appends a word. Without memory it answers `Memory`.
pub fn push_word(words: &mut Vec<u64>, word: u64) -> Result<(), StoreError>
    ensures items { OnOk result (words.new.items ≡ words.old.items ++ word ∷ []) }
    ensures memory { IfErr result (λ error. error ≡ Memory) }
{
    match words.push(word) {
        Ok(()) => Ok(()),
        Err(_) => Err(StoreError::Memory),
    }
}

/// Makes a node of slots, and adds it to a row.
pub fn add_group<const OFFSET_BITS: u32, S: Store<OFFSET_BITS>>(
    store: &mut S,
    level: u64,
    keys: &[u64],
    values: &[u64],
    row: &mut Row,
) -> Result<(), StoreError>
    requires unit { (S.ledger store.old).unit ≡ true }
    requires low { level ≤ 7 }
    requires hand { IsInHand (S.records store.old) level keys.now values.now }
    requires some { 0 < length keys.now }
    requires fits { length keys.now ≤ MOST_SLOTS }
    requires few { length (slot_pairs (S.records store.old) level keys.now values.now) < 2 ^ 32 }
    ensures adds { OnOk result (AddsPart (S.ledger store.old) (S.ledger store.new) (S.records store.old) (S.records store.new)
        level keys.now values.now row.old.keys.items row.old.nodes.items row.new.keys.items row.new.nodes.items) }
    ensures makes { MakesNodes (S.ledger store.old) (S.ledger store.new) (S.records store.old) (S.records store.new) 1 }
    ensures refuses { IfErr result (Refuses (S.ledger store.old) (S.ledger store.new) NODE_WORDS) }
{
    let slots = slots_of(level, keys, values);
    let part = make_part(store, &slots)?;
    push_word(&mut row.keys, part.key)?;
    push_word(&mut row.nodes, u64::from(part.node))
}

/// Returns where a group begins, if `items` items are divided into `all` groups whose sizes differ by at most one.
fn start_of(items: usize, all: usize, group: usize) -> usize
    requires some { 0 < all }
    requires within { group ≤ all }
    ensures start { result ≡ group_start items all group }
{
    group * (items / all) + group.min(items % all)
}

/// Makes the nodes of a level over more slots than fit in one node.
pub fn make_row<const OFFSET_BITS: u32, S: Store<OFFSET_BITS>>(
    alloc: Global,
    store: &mut S,
    level: u64,
    keys: &[u64],
    values: &[u64],
) -> Result<Row, StoreError>
    requires unit { (S.ledger store.old).unit ≡ true }
    requires low { level ≤ 7 }
    requires hand { IsInHand (S.records store.old) level keys.now values.now }
    requires many { MOST_SLOTS < length keys.now }
    requires few { 0 < level → length (slot_pairs (S.records store.old) level keys.now values.now) < 2 ^ 32 }
    ensures row { IfOk result (λ row. MakesRow (S.ledger store.old) (S.ledger store.new) (S.records store.old) (S.records store.new)
        level keys.now values.now row.keys.items row.nodes.items) }
    ensures size { IfOk result (λ row. length row.keys.items ≡ groups (length keys.now)) }
    ensures makes { MakesNodes (S.ledger store.old) (S.ledger store.new) (S.records store.old) (S.records store.new)
        (groups (length keys.now)) }
    ensures refuses { IfErr result (Refuses (S.ledger store.old) (S.ledger store.new) NODE_WORDS) }
{
    let items = keys.len();
    let all = items.div_ceil(MOST_SLOTS);
    let mut row = Row {
        keys: Vec::new(alloc),
        nodes: Vec::new(alloc),
    };
    for group in 0..all {
        let from = start_of(items, all, group);
        let to = start_of(items, all, group + 1);
        add_group(store, level, &keys[from..to], &values[from..to], &mut row)?;
    }
    Ok(row)
}
