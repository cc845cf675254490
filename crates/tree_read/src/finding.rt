//! Finds the pair of a key. A node's words are those of `docs/FORMATS.md`.

ghost use Rattle.std.specs.Prelude.{◌≡◌, ◌<◌, length, slice_index, true, false};
ghost use Rattle.std.specs.Option.{option_map};
ghost use Rattle.tree_read.specs.Nodes.{level_of, node_keys};
ghost use Rattle.tree_read.specs.Trees.{pairs_below, tree_pairs, IsNode, IsRootNode, IsTree};
ghost use Rattle.tree_read.specs.Keys.{AllReadable, Ascends, seen_by};
ghost use Rattle.tree_read.specs.Pairs.{lookup, lookup_pair};
ghost use Rattle.tree_read.specs.NodePlaces.{IsSlot, IsFound, IsLacking};

use crate::read::read_used;
use crate::{FIRST_KEY, FIRST_VALUE, KeyOrder, NODE_WORDS, read_head};
use arena_api::Frozen;
use entry_ref::EntryRef;
use std::cmp::Ordering;

/// Compares the key of a slot with the sought key.
fn compare_slot<const OFFSET_BITS: u32, F: Frozen<OFFSET_BITS>, K: KeyOrder<OFFSET_BITS>>(
    frozen: &mut F,
    node: EntryRef<OFFSET_BITS>,
    start: u64,
    slot: u32,
    key: &K,
) -> Ordering
    requires start { start ≡ F.begins frozen.old node }
    requires node { IsNode (F.records frozen.old) 1 (level_of (F.records frozen.old node)) node }
    requires readable { AllReadable K.can_read (F.records frozen.old)
        (pairs_below (F.records frozen.old) (level_of (F.records frozen.old node)) node) }
    requires slot { slot < length (node_keys (F.records frozen.old node)) }
    ensures answer { result ≡ seen_by K.read K.order (K.sought key.now) (F.records frozen.old)
        (slice_index (node_keys (F.records frozen.old node.entry)) slot) }
    ensures same { frozen.new ≡ frozen.old }
{
    let stored = frozen.word_from(node, start, FIRST_KEY as u32 + slot);
    key.compare(frozen, stored)
}

/// Searches the keys of a node, and reads no more of its words than needed.
fn seek_slot<const OFFSET_BITS: u32, F: Frozen<OFFSET_BITS>, K: KeyOrder<OFFSET_BITS>>(
    frozen: &mut F,
    node: EntryRef<OFFSET_BITS>,
    start: u64,
    used: u32,
    key: &K,
) -> u32
    requires start { start ≡ F.begins frozen.old node }
    requires node { IsNode (F.records frozen.old) 1 (level_of (F.records frozen.old node)) node }
    requires readable { AllReadable K.can_read (F.records frozen.old)
        (pairs_below (F.records frozen.old) (level_of (F.records frozen.old node)) node) }
    requires used { used ≡ length (node_keys (F.records frozen.old node)) }
    ensures slot { IsSlot (seen_by K.read K.order (K.sought key.now) (F.records frozen.old))
        (node_keys (F.records frozen.old node.entry)) result }
    ensures same { frozen.new ≡ frozen.old }
{
    for slot in 0..used {
        match compare_slot(frozen, node, start, slot, key) {
            Ordering::Less => {}
            Ordering::Equal => return slot,
            Ordering::Greater => return slot,
        }
    }
    used
}

/// Returns whether the key of the slot that a search found is equal to the sought key.
fn is_at<const OFFSET_BITS: u32, F: Frozen<OFFSET_BITS>, K: KeyOrder<OFFSET_BITS>>(
    frozen: &mut F,
    node: EntryRef<OFFSET_BITS>,
    start: u64,
    slot: u32,
    key: &K,
) -> bool
    requires start { start ≡ F.begins frozen.old node }
    requires node { IsNode (F.records frozen.old) 1 (level_of (F.records frozen.old node)) node }
    requires readable { AllReadable K.can_read (F.records frozen.old)
        (pairs_below (F.records frozen.old) (level_of (F.records frozen.old node)) node) }
    requires slot { slot < length (node_keys (F.records frozen.old node)) }
    requires sought { IsSlot (seen_by K.read K.order (K.sought key.now) (F.records frozen.old))
        (node_keys (F.records frozen.old node)) slot }
    ensures found { result ≡ true → IsFound (seen_by K.read K.order (K.sought key.now) (F.records frozen.old))
        (node_keys (F.records frozen.old node.entry)) slot }
    ensures lacking { result ≡ false → IsLacking (seen_by K.read K.order (K.sought key.now) (F.records frozen.old))
        (node_keys (F.records frozen.old node.entry)) slot }
    ensures same { frozen.new ≡ frozen.old }
{
    match compare_slot(frozen, node, start, slot, key) {
        Ordering::Less => false,
        Ordering::Equal => true,
        Ordering::Greater => false,
    }
}

/// Finds the pair of a key below a node of this level, by tail calls from node to node.
fn find_below<const OFFSET_BITS: u32, F: Frozen<OFFSET_BITS>, K: KeyOrder<OFFSET_BITS>>(
    frozen: &mut F,
    node: EntryRef<OFFSET_BITS>,
    level: u64,
    key: &K,
    pair: &mut Option<(u64, u64)>,
)
    requires node { IsNode (F.records frozen.old) 1 level node }
    requires ascends { Ascends K.order K.read (F.records frozen.old) (pairs_below (F.records frozen.old) level node) }
    requires readable { AllReadable K.can_read (F.records frozen.old) (pairs_below (F.records frozen.old) level node) }
    ensures pair { pair.new ≡ lookup_pair (seen_by K.read K.order (K.sought key.now) (F.records frozen.old))
        (pairs_below (F.records frozen.old) level node.entry) }
    ensures same { frozen.new ≡ frozen.old }
{
    let start = frozen.start_of(node, Some(NODE_WORDS as u32));
    let used = read_used(frozen, node, start);
    let slot = seek_slot(frozen, node, start, used, key);
    if slot == used {
        *pair = None;
        return;
    }
    let value = frozen.word_from(node, start, FIRST_VALUE as u32 + slot);
    if level > 0 {
        find_below(
            frozen,
            EntryRef::from_raw(value as u32),
            level - 1,
            key,
            pair,
        );
        return;
    }
    if is_at(frozen, node, start, slot, key) {
        *pair = Some((
            frozen.word_from(node, start, FIRST_KEY as u32 + slot),
            value,
        ));
        return;
    }
    *pair = None;
}

/// Returns the stored key and the value for a key in the tree with this root.
pub fn find<const OFFSET_BITS: u32, F: Frozen<OFFSET_BITS>, K: KeyOrder<OFFSET_BITS>>(
    frozen: &mut F,
    root: EntryRef<OFFSET_BITS>,
    key: &K,
) -> Option<(u64, u64)>
    requires tree { IsTree K.order K.read (F.records frozen.old) root }
    requires readable { AllReadable K.can_read (F.records frozen.old) (tree_pairs (F.records frozen.old) root) }
    ensures pair { result ≡ lookup_pair (seen_by K.read K.order (K.sought key.now) (F.records frozen.old))
        (tree_pairs (F.records frozen.old) root.entry) }
    ensures value { option_map (λ p. p.1) result
        ≡ lookup (seen_by K.read K.order (K.sought key.now) (F.records frozen.old)) (tree_pairs (F.records frozen.old) root.entry) }
    ensures same { frozen.new ≡ frozen.old }
{
    if !root.valid() {
        return None;
    }
    let level = read_head(frozen, root).level;
    let mut pair = None;
    find_below(frozen, root, level, key, &mut pair);
    pair
}

/// Returns the number of pairs in the tree with this root.
pub fn total<const OFFSET_BITS: u32, F: Frozen<OFFSET_BITS>>(
    frozen: &mut F,
    root: EntryRef<OFFSET_BITS>,
) -> u32
    requires tree { 0 < root → IsRootNode (F.records frozen.old) root }
    ensures count { result ≡ length (tree_pairs (F.records frozen.old) root.entry) }
    ensures same { frozen.new ≡ frozen.old }
{
    if root.valid() {
        frozen.word(root, 1) as u32
    } else {
        0
    }
}
