//! Copies the nodes of a buffer below a node, on the way to a key.

ghost use Rattle.std.specs.Prelude.{◌≡◌, ◌≢◌, ◌≤◌, ◌<◌, ◌+◌, ℕ, true, length, slice_index, suc, Ok, IfOk, IfErr};
ghost use Rattle.std.specs.declared.cmp.Ordering.{Ordering};
ghost use Rattle.entry_ref.specs.References.{buffer_of};
ghost use Rattle.tree_read.specs.Nodes.{level_of, node_keys, node_values};
ghost use Rattle.tree_read.specs.Trees.{pairs_below, IsNode};
ghost use Rattle.tree_read.specs.Keys.{seen_by, AllReadable};
ghost use Rattle.store_api.specs.Calls.{Refuses};
ghost use Rattle.frozen_nodes.specs.Makes.{MakesNodes};
ghost use Rattle.frozen_btree.specs.Paths.{NoneIn, path_below};
ghost use Rattle.tree_read.specs.NodePlaces.{IsPlace};
ghost use Rattle.frozen_btree.specs.Touches.{Touches};

use crate::copies::{copy_of, copy_with};
use arrayvec::ArrayVec;
use entry_ref::EntryRef;
use store_api::{Store, StoreError};
use tree_read::{KeyOrder, NODE_WORDS, place_of, read_node};

/// Copies a leaf if it lies in the buffer.
fn touch_leaf<const OFFSET_BITS: u32, S: Store<OFFSET_BITS>>(
    store: &mut S,
    node: EntryRef<OFFSET_BITS>,
    buffer: u32,
    replaced: &mut ArrayVec<u32, 8>,
) -> Result<EntryRef<OFFSET_BITS>, StoreError>
    requires unit { (S.ledger store.old).unit ≡ true }
    requires sealed { (S.ledger store.old).sealed buffer ≡ true }
    requires some { 0 < node }
    requires node { IsNode (S.records store.old) 1 0 node }
    requires room { length replaced.old.items < 8 }
    ensures touches { (c : ℕ → Ordering) → IfOk result (λ r. Touches OFFSET_BITS buffer c (S.ledger store.old) (S.ledger store.new)
        (S.records store.old) (S.records store.new) 0 node.entry r replaced.old.items replaced.new.items) }
    ensures still { buffer_of OFFSET_BITS node.entry ≢ buffer
        → (result ≡ Ok node.entry) × ((store.new ≡ store.old) × (replaced.new.items ≡ replaced.old.items)) }
    ensures makes { MakesNodes (S.ledger store.old) (S.ledger store.new) (S.records store.old) (S.records store.new) 1 }
    ensures refuses { IfErr result (Refuses (S.ledger store.old) (S.ledger store.new) NODE_WORDS) }
{
    if node.buffer() != buffer {
        return Ok(node);
    }
    replaced.push(node.raw());
    copy_of(store, node)
}

/// A slot of a node above the leaves, and its child.
#[derive(Clone, Copy, Drop)]
struct ChildSlot {
    slot: usize,
    child: u32,
}

/// Returns the slot, of a node above the leaves, through which the way to a key goes.
fn step_at<const OFFSET_BITS: u32, S: Store<OFFSET_BITS>, K: KeyOrder<OFFSET_BITS>>(
    store: &mut S,
    node: EntryRef<OFFSET_BITS>,
    key: &K,
) -> ChildSlot
    requires above { 0 < level_of (S.records store.old node) }
    requires node { IsNode (S.records store.old) 1 (level_of (S.records store.old node)) node }
    requires readable { AllReadable K.can_read (S.records store.old)
        (pairs_below (S.records store.old) (level_of (S.records store.old node)) node) }
    ensures place { IsPlace (seen_by K.read K.order (K.sought key.now) (S.records store.old))
        (node_keys (S.records store.old node.entry)) result.slot }
    ensures child { result.child ≡ slice_index (node_values (S.records store.old node.entry)) result.slot }
    ensures same { store.new ≡ store.old }
{
    let slots = read_node(store, node);
    let slot = place_of(store, &slots.keys, key);
    ChildSlot {
        slot,
        child: slots.values[slot] as u32,
    }
}

/// Copies the nodes on the way to a key that lie in the buffer, and those above them. Adds the old nodes to the
/// replaced ones.
pub fn touch_below<const OFFSET_BITS: u32, S: Store<OFFSET_BITS>, K: KeyOrder<OFFSET_BITS>>(
    store: &mut S,
    node: EntryRef<OFFSET_BITS>,
    level: u64,
    key: &K,
    buffer: u32,
    replaced: &mut ArrayVec<u32, 8>,
) -> Result<EntryRef<OFFSET_BITS>, StoreError>
    requires unit { (S.ledger store.old).unit ≡ true }
    requires sealed { (S.ledger store.old).sealed buffer ≡ true }
    requires some { 0 < node }
    requires node { IsNode (S.records store.old) 1 level node }
    requires readable { AllReadable K.can_read (S.records store.old) (pairs_below (S.records store.old) level node) }
    requires room { length replaced.old.items + level < 8 }
    ensures touches { IfOk result (λ r. Touches OFFSET_BITS buffer (seen_by K.read K.order (K.sought key.now) (S.records store.old))
        (S.ledger store.old) (S.ledger store.new) (S.records store.old) (S.records store.new) level node.entry r
        replaced.old.items replaced.new.items) }
    ensures still { NoneIn OFFSET_BITS buffer (path_below (S.records store.old)
        (seen_by K.read K.order (K.sought key.now) (S.records store.old)) level node.entry)
        → (result ≡ Ok node.entry) × ((store.new ≡ store.old) × (replaced.new.items ≡ replaced.old.items)) }
    ensures makes { MakesNodes (S.ledger store.old) (S.ledger store.new) (S.records store.old) (S.records store.new) (suc level) }
    ensures refuses { IfErr result (Refuses (S.ledger store.old) (S.ledger store.new) NODE_WORDS) }
{
    if level == 0 {
        return touch_leaf(store, node, buffer, replaced);
    }
    let step = step_at(store, node, key);
    let child = EntryRef::from_raw(step.child);
    let next = touch_below(store, child, level - 1, key, buffer, replaced)?;
    if next.raw() == step.child && node.buffer() != buffer {
        return Ok(node);
    }
    replaced.push(node.raw());
    copy_with(store, node, step.slot, u64::from(next.raw()))
}
