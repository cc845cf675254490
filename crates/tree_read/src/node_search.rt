//! Searches the keys of one node in memory.

ghost use Rattle.std.specs.Prelude.{◌≡◌, ◌<◌, ◌+◌, length, true, false};
ghost use Rattle.std.specs.List.{AllByRecursion};
ghost use Rattle.entry_ref.specs.Records.{HasWord, word_at};
ghost use Rattle.tree_read.specs.Nodes.{level_of, used_of, node_keys};
ghost use Rattle.tree_read.specs.Trees.{pairs_below, IsNode};
ghost use Rattle.tree_read.specs.Keys.{AllReadable};
ghost use Rattle.tree_read.specs.Keys.{seen_by};
ghost use Rattle.tree_read.specs.NodePlaces.{IsSlot, IsFound, IsLacking, IsPlace};

use crate::read::{keys_in, read_words};
use crate::{FIRST_VALUE, KeyOrder, MOST_SLOTS, NODE_WORDS};
use arena_api::Frozen;
use entry_ref::EntryRef;
use std::cmp::Ordering;

/// The position of a key among keys: the first key that is not below it, or past the last.
#[derive(Clone, Copy, Debug)]
pub struct Spot {
    pub slot: usize,
    /// Whether the key at this position is equal to the sought key.
    pub found: bool,
}

/// Searches for a key among ascending keys.
pub fn first_slot<const OFFSET_BITS: u32, F: Frozen<OFFSET_BITS>, K: KeyOrder<OFFSET_BITS>>(
    frozen: &mut F,
    keys: &[u64],
    key: &K,
) -> Spot
    requires { AllByRecursion (K.can_read (F.records frozen.old)) keys.now }
    ensures slot { IsSlot (seen_by K.read K.order (K.sought key.now) (F.records frozen.old)) keys.now result.slot }
    ensures found { result.found ≡ true → IsFound (seen_by K.read K.order (K.sought key.now) (F.records frozen.old)) keys.now result.slot }
    ensures lacking { result.found ≡ false
        → IsLacking (seen_by K.read K.order (K.sought key.now) (F.records frozen.old)) keys.now result.slot }
    ensures same { frozen.new ≡ frozen.old }
{
    for slot in 0..keys.len() {
        match key.compare(frozen, keys[slot]) {
            Ordering::Less => {}
            Ordering::Equal => return Spot { slot, found: true },
            Ordering::Greater => return Spot { slot, found: false },
        }
    }
    Spot {
        slot: keys.len(),
        found: false,
    }
}

/// Returns the slot, of a node above the leaves, under which a key is put: the last slot if all keys are below it.
pub fn place_of<const OFFSET_BITS: u32, F: Frozen<OFFSET_BITS>, K: KeyOrder<OFFSET_BITS>>(
    frozen: &mut F,
    keys: &[u64],
    key: &K,
) -> usize
    requires some { 0 < length keys.now }
    requires readable { AllByRecursion (K.can_read (F.records frozen.old)) keys.now }
    ensures place { IsPlace (seen_by K.read K.order (K.sought key.now) (F.records frozen.old)) keys.now result }
    ensures same { frozen.new ≡ frozen.old }
{
    let spot = first_slot(frozen, keys, key);
    if spot.slot < keys.len() {
        spot.slot
    } else {
        keys.len() - 1
    }
}

/// Reads a node, and searches its keys.
pub fn visit<const OFFSET_BITS: u32, F: Frozen<OFFSET_BITS>, K: KeyOrder<OFFSET_BITS>>(
    frozen: &mut F,
    node: EntryRef<OFFSET_BITS>,
    key: &K,
    words: &mut [u64; NODE_WORDS],
) -> Spot
    requires node { IsNode (F.records frozen.old) 1 (level_of (F.records frozen.old node)) node }
    requires readable { AllReadable K.can_read (F.records frozen.old)
        (pairs_below (F.records frozen.old) (level_of (F.records frozen.old node)) node) }
    ensures words { words.new ≡ F.records frozen.old node.entry }
    ensures slot { IsSlot (seen_by K.read K.order (K.sought key.now) (F.records frozen.old))
        (node_keys (F.records frozen.old node.entry)) result.slot }
    ensures found { result.found ≡ true
        → IsFound (seen_by K.read K.order (K.sought key.now) (F.records frozen.old))
        (node_keys (F.records frozen.old node.entry)) result.slot }
    ensures lacking { result.found ≡ false
        → IsLacking (seen_by K.read K.order (K.sought key.now) (F.records frozen.old))
        (node_keys (F.records frozen.old node.entry)) result.slot }
    ensures same { frozen.new ≡ frozen.old }
{
    read_words(frozen, node, words);
    first_slot(frozen, keys_in(words), key)
}

/// Returns the child of a slot.
pub fn child_at<const OFFSET_BITS: u32, F: Frozen<OFFSET_BITS>>(
    frozen: &mut F,
    node: EntryRef<OFFSET_BITS>,
    slot: u32,
) -> EntryRef<OFFSET_BITS>
    requires slot { slot < MOST_SLOTS }
    requires word { length (F.records frozen.old node) ≡ NODE_WORDS }
    requires child { 0 < length (F.records frozen.old (word_at (F.records frozen.old) node (FIRST_VALUE + slot))) }
    ensures child { result ≡ word_at (F.records frozen.old) node.entry (FIRST_VALUE + slot) }
    ensures same { frozen.new ≡ frozen.old }
{
    EntryRef::from_raw(frozen.word(node, FIRST_VALUE as u32 + slot) as u32)
}
