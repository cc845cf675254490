//! Removes a pair below a node: copies the path, and fills up short nodes.

ghost use Rattle.std.specs.Prelude.{◌≡◌, ◌≤◌, ◌<◌, ◌+◌, ◌-◌, ◌*◌, true, length, suc, IsSome, OnOk, OnErr, IfErr};
ghost use Rattle.std.specs.List.{zip};
ghost use Rattle.tree_read.specs.Nodes.{level_of, used_of, node_keys, node_values};
ghost use Rattle.tree_read.specs.Trees.{pairs_below, IsNode, root_least};
ghost use Rattle.tree_read.specs.Keys.{seen_by, Ascends, AllReadable};
ghost use Rattle.tree_read.specs.Pairs.{lookup, take_out};
ghost use Rattle.store_api.specs.Calls.{Refuses};
ghost use Rattle.frozen_nodes.specs.Makes.{MakesNodes};
ghost use Rattle.frozen_nodes.specs.Words.{AreWords};
ghost use Rattle.tree_read.specs.Slots.{slot_pairs};
ghost use Rattle.frozen_btree.specs.Removes.{IsStep, Removes};

use crate::parent::put_child;
use arena_api::Frozen;
use arrayvec::ArrayVec;
use entry_ref::EntryRef;
use frozen_nodes::take_slot;
use store_api::{Store, StoreError};
use tree_read::{FIRST_VALUE, KeyOrder, NODE_WORDS, visit};

/// The child of a node above the leaves under which a key lies.
#[derive(Clone, Copy, Drop)]
struct Descent<const OFFSET_BITS: u32> {
    place: usize,
    child: EntryRef<OFFSET_BITS>,
}

/// Reads a node above the leaves, and finds the child under which the key lies.
fn step_down<const OFFSET_BITS: u32, F: Frozen<OFFSET_BITS>, K: KeyOrder<OFFSET_BITS>>(
    frozen: &mut F,
    node: EntryRef<OFFSET_BITS>,
    key: &K,
    words: &mut [u64; NODE_WORDS],
) -> Descent<OFFSET_BITS>
    requires inner { 0 < level_of (F.records frozen.old node) }
    requires node { IsNode (F.records frozen.old) 2 (level_of (F.records frozen.old node)) node }
    requires ascends { Ascends K.order K.read (F.records frozen.old)
        (pairs_below (F.records frozen.old) (level_of (F.records frozen.old node)) node) }
    requires readable { AllReadable K.can_read (F.records frozen.old)
        (pairs_below (F.records frozen.old) (level_of (F.records frozen.old node)) node) }
    requires there { IsSome (lookup (seen_by K.read K.order (K.sought key.now) (F.records frozen.old))
        (pairs_below (F.records frozen.old) (level_of (F.records frozen.old node)) node)) }
    ensures words { words.new ≡ F.records frozen.old node.entry }
    ensures step { IsStep (seen_by K.read K.order (K.sought key.now) (F.records frozen.old)) (F.records frozen.old)
        (level_of (F.records frozen.old node.entry) - 1) node.entry
        (node_keys (F.records frozen.old node.entry)) (node_values (F.records frozen.old node.entry)) result.place result.child }
    ensures ascends { Ascends K.order K.read (F.records frozen.old)
        (pairs_below (F.records frozen.old) (level_of (F.records frozen.old node.entry) - 1) result.child) }
    ensures readable { AllReadable K.can_read (F.records frozen.old)
        (pairs_below (F.records frozen.old) (level_of (F.records frozen.old node.entry) - 1) result.child) }
    ensures same { frozen.new ≡ frozen.old }
{
    let place = visit(frozen, node, key, words).slot;
    let child = EntryRef::from_raw(words[FIRST_VALUE + place] as u32);
    Descent { place, child }
}

/// Removes a pair from a leaf, whose words are then in memory.
fn remove_in_leaf<const OFFSET_BITS: u32, F: Frozen<OFFSET_BITS>, K: KeyOrder<OFFSET_BITS>>(
    frozen: &mut F,
    node: EntryRef<OFFSET_BITS>,
    key: &K,
    words: &mut [u64; NODE_WORDS],
)
    requires node { IsNode (F.records frozen.old) 1 0 node }
    requires readable { AllReadable K.can_read (F.records frozen.old) (pairs_below (F.records frozen.old) 0 node) }
    requires there { IsSome (lookup (seen_by K.read K.order (K.sought key.now) (F.records frozen.old))
        (pairs_below (F.records frozen.old) 0 node)) }
    ensures words { AreWords 0 (length (node_keys words.new)) (node_keys words.new) (node_values words.new) words.new }
    ensures pairs { zip (node_keys words.new) (node_values words.new)
        ≡ take_out (seen_by K.read K.order (K.sought key.now) (F.records frozen.old)) (pairs_below (F.records frozen.old) 0 node.entry) }
    ensures size { used_of (F.records frozen.old node.entry) ≡ suc (length (node_keys words.new)) }
    ensures same { frozen.new ≡ frozen.old }
{
    let slot = visit(frozen, node, key, words).slot;
    let pairs = words[1] - 1;
    take_slot(words, pairs, slot);
}

/// Removes a pair below a node, by copying the nodes below it. The words of the node itself are then in memory. Adds
/// the old nodes to the replaced ones.
pub fn remove_below<const OFFSET_BITS: u32, S: Store<OFFSET_BITS>, K: KeyOrder<OFFSET_BITS>>(
    store: &mut S,
    node: EntryRef<OFFSET_BITS>,
    level: u64,
    key: &K,
    replaced: &mut ArrayVec<u32, 16>,
    words: &mut [u64; NODE_WORDS],
) -> Result<(), StoreError>
    requires unit { (S.ledger store.old).unit ≡ true }
    requires low { level ≤ 7 }
    requires node { IsNode (S.records store.old) (root_least level) level node }
    requires ascends { Ascends K.order K.read (S.records store.old) (pairs_below (S.records store.old) level node) }
    requires readable { AllReadable K.can_read (S.records store.old) (pairs_below (S.records store.old) level node) }
    requires there { IsSome (lookup (seen_by K.read K.order (K.sought key.now) (S.records store.old))
        (pairs_below (S.records store.old) level node)) }
    requires room { length replaced.old.items + (2 * level + 1) ≤ 16 }
    ensures removes { OnOk result (Removes (seen_by K.read K.order (K.sought key.now) (S.records store.old))
        (S.ledger store.old) (S.ledger store.new) (S.records store.old) (S.records store.new)
        level node.entry replaced.old.items replaced.new.items (node_keys words.new) (node_values words.new)) }
    ensures words { OnOk result (AreWords level
        (length (slot_pairs (S.records store.new) level (node_keys words.new) (node_values words.new)))
        (node_keys words.new) (node_values words.new) words.new) }
    ensures refuses { IfErr result (Refuses (S.ledger store.old) (S.ledger store.new) NODE_WORDS) }
    ensures refused { OnErr result (MakesNodes (S.ledger store.old) (S.ledger store.new) (S.records store.old) (S.records store.new)
        (suc level)) }
{
    replaced.push(node.raw());
    if level == 0 {
        remove_in_leaf(store, node, key, words);
        return Ok(());
    }
    let step = step_down(store, node, key, words);
    let mut child = [0; NODE_WORDS];
    remove_below(store, step.child, level - 1, key, replaced, &mut child)?;
    put_child(store, words, step.place, &child, replaced, step.child.raw())?;
    Ok(())
}
