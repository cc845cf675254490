//! Makes nodes from slots.

ghost use Rattle.std.specs.Prelude.{◌≡◌, ◌^◌, ◌<◌, ◌≤◌, ◌+◌, ◌∷◌, ◌++◌, ℕ, List, true, length, IfOk, IfErr, OnErr};
ghost use Rattle.tree_read.specs.Nodes.{slot_words, node_words, used_of};
ghost use Rattle.store_api.specs.Calls.{Refuses};
ghost use Rattle.tree_read.specs.Slots.{slot_pairs, IsInHand};
ghost use Rattle.frozen_nodes.specs.Makes.{MakesNodes, MakesPart};
ghost use Rattle.frozen_nodes.specs.Words.{AreWords};

use arena_api::Frozen;
use arrayvec::ArrayVec;
use entry_ref::EntryRef;
use store_api::{Store, StoreError};
use tree_read::{LEVEL_BASE, MOST_SLOTS, NODE_WORDS, Slots, append, used_in};

/// A node that was made, as its parent's slot holds it: its last key and its reference.
#[derive(Clone, Copy, Debug, Drop)]
pub struct MadeNode {
    pub key: u64,
    pub node: u32,
}

/// Returns the number of pairs below slots.
pub fn pairs_in<const OFFSET_BITS: u32, F: Frozen<OFFSET_BITS>>(
    frozen: &mut F,
    slots: &Slots,
) -> u64
    requires hand { IsInHand (F.records frozen.old) slots.now.level slots.now.keys.items slots.now.values.items }
    requires few { length (slot_pairs (F.records frozen.old) slots.now.level slots.now.keys.items slots.now.values.items) < 2 ^ 32 }
    ensures count { result ≡ length (slot_pairs (F.records frozen.old) slots.now.level slots.now.keys.items slots.now.values.items) }
    ensures same { frozen.new ≡ frozen.old }
{
    if slots.level == 0 {
        return slots.keys.len() as u64;
    }
    let mut count = 0;
    for child in slots.values.as_slice() {
        count += frozen.word(EntryRef::from_raw(*child as u32), 1);
    }
    count
}

/// Appends the words of slots, followed by zeros for the unused slots.
fn push_slots(words: &mut ArrayVec<u64, NODE_WORDS>, slots: &[u64])
    requires few { length slots.now ≤ MOST_SLOTS }
    requires room { length words.old.items ≤ 18 }
    ensures words { words.new.items ≡ words.old.items ++ slot_words slots.now }
{
    let zeros = [0; MOST_SLOTS];
    append(words, slots);
    append(words, &zeros[slots.len()..]);
}

/// Returns the words of a node.
fn words_of(slots: &Slots, count: u64) -> ArrayVec<u64, NODE_WORDS>
    requires even { length slots.now.keys.items ≡ length slots.now.values.items }
    requires few { length slots.now.keys.items ≤ MOST_SLOTS }
    requires low { slots.now.level ≤ 7 }
    ensures words { result.items ≡ node_words slots.now.level count slots.now.keys.items slots.now.values.items }
{
    let mut words = ArrayVec::new();
    words.push(slots.level * LEVEL_BASE + slots.keys.len() as u64);
    words.push(count);
    push_slots(&mut words, &slots.keys);
    push_slots(&mut words, &slots.values);
    words
}

/// Makes a node of slots in memory.
pub fn make_part<const OFFSET_BITS: u32, S: Store<OFFSET_BITS>>(
    store: &mut S,
    slots: &Slots,
) -> Result<MadeNode, StoreError>
    requires unit { (S.ledger store.old).unit ≡ true }
    requires low { slots.now.level ≤ 7 }
    requires hand { IsInHand (S.records store.old) slots.now.level slots.now.keys.items slots.now.values.items }
    requires some { 0 < length slots.now.keys.items }
    requires fits { length slots.now.keys.items ≤ MOST_SLOTS }
    requires few { length (slot_pairs (S.records store.old) slots.now.level slots.now.keys.items slots.now.values.items) < 2 ^ 32 }
    ensures makes { IfOk result (MakesPart (S.ledger store.old) (S.ledger store.new) (S.records store.old) (S.records store.new)
        slots.now.level slots.now.keys.items slots.now.values.items) }
    ensures nodes { MakesNodes (S.ledger store.old) (S.ledger store.new) (S.records store.old) (S.records store.new) 1 }
    ensures refused { OnErr result (MakesNodes (S.ledger store.old) (S.ledger store.new) (S.records store.old) (S.records store.new) 0) }
    ensures refuses { IfErr result (Refuses (S.ledger store.old) (S.ledger store.new) NODE_WORDS) }
{
    let count = pairs_in(store, slots);
    let words = words_of(slots, count);
    let node = store.make(NODE_WORDS as u32, &words)?;
    let key = slots.keys[slots.keys.len() - 1];
    Ok(MadeNode {
        key,
        node: node.raw(),
    })
}

/// Makes the node of words in hand, in place of another.
pub fn make_words<const OFFSET_BITS: u32, S: Store<OFFSET_BITS>>(
    store: &mut S,
    words: &[u64; NODE_WORDS],
    near: u32,
) -> Result<MadeNode, StoreError>
    requires unit { (S.ledger store.old).unit ≡ true }
    requires some { 0 < used_of words.now }
    requires fits { used_of words.now ≤ MOST_SLOTS }
    ensures makes { (level : ℕ) (keys values : List ℕ)
        → AreWords level (length (slot_pairs (S.records store.old) level keys values)) keys values words.now
        → IsInHand (S.records store.old) level keys values → 0 < length keys
        → length (slot_pairs (S.records store.old) level keys values) < 2 ^ 32
        → IfOk result (MakesPart (S.ledger store.old) (S.ledger store.new) (S.records store.old) (S.records store.new) level keys values) }
    ensures nodes { MakesNodes (S.ledger store.old) (S.ledger store.new) (S.records store.old) (S.records store.new) 1 }
    ensures refused { OnErr result (MakesNodes (S.ledger store.old) (S.ledger store.new) (S.records store.old) (S.records store.new) 0) }
    ensures refuses { IfErr result (Refuses (S.ledger store.old) (S.ledger store.new) NODE_WORDS) }
{
    let node = store.make_near(NODE_WORDS as u32, words, EntryRef::from_raw(near))?;
    let key = words[1 + used_in(words)];
    Ok(MadeNode {
        key,
        node: node.raw(),
    })
}
