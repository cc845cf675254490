//! Removes a pair from a tree.

ghost use Rattle.std.specs.Prelude.{◌≡◌, ◌<◌, ◌≤◌, ◌+◌, ◌^◌, ◌∷◌, [], true, length, IsSome, IfOk, IfErr, OnErr};
ghost use Rattle.tree_read.specs.Nodes.{level_of, node_keys, node_values};
ghost use Rattle.tree_read.specs.Trees.{tree_pairs, IsTree, Keeps};
ghost use Rattle.tree_read.specs.Keys.{seen_by, AllReadable, KeepsOthers, IsKeyedTree};
ghost use Rattle.tree_read.specs.Pairs.{lookup, take_out};
ghost use Rattle.store_api.specs.Calls.{Refuses};
ghost use Rattle.store_api.specs.Parts.{Owns, Turns};
ghost use Rattle.store_api.specs.Units.{MayDo};
ghost use Rattle.frozen_btree.specs.Changes.{Rebuilds, levels, tree, MakesRoot};
ghost use Rattle.frozen_nodes.specs.Makes.{CountsNodes, MakesNodes};
ghost use Rattle.frozen_nodes.specs.Words.{AreWords};
ghost use Rattle.tree_read.specs.Slots.{slot_pairs, IsInHand};

use crate::remove_below::remove_below;
use crate::{drop_nodes, make_root};
use arrayvec::ArrayVec;
use entry_ref::EntryRef;
use frozen_nodes::make_words;
use store_api::{Store, StoreError};
use tree_read::{KeyOrder, LEVEL_BASE, NODE_WORDS, slots_of, used_in};

/// Makes the root from words in memory: 0 if no slot is left, and, above the leaves, the child of a single slot.
fn make_top<const OFFSET_BITS: u32, S: Store<OFFSET_BITS>>(
    store: &mut S,
    words: &[u64; NODE_WORDS],
    near: u32,
) -> Result<EntryRef<OFFSET_BITS>, StoreError>
    requires unit { (S.ledger store.old).unit ≡ true }
    requires low { level_of words.now ≤ 7 }
    requires are { AreWords (level_of words.now)
        (length (slot_pairs (S.records store.old) (level_of words.now) (node_keys words.now) (node_values words.now)))
        (node_keys words.now) (node_values words.now) words.now }
    requires hand { IsInHand (S.records store.old) (level_of words.now) (node_keys words.now) (node_values words.now) }
    requires some { 0 < level_of words.now → 0 < length (node_keys words.now) }
    requires few { length (slot_pairs (S.records store.old) (level_of words.now) (node_keys words.now) (node_values words.now)) < 2 ^ 32 }
    ensures root { IfOk result (MakesRoot (S.ledger store.old) (S.ledger store.new) (S.records store.old) (S.records store.new)
        (level_of words.now) (node_keys words.now) (node_values words.now)) }
    ensures refuses { IfErr result (Refuses (S.ledger store.old) (S.ledger store.new) NODE_WORDS) }
    ensures makes { MakesNodes (S.ledger store.old) (S.ledger store.new) (S.records store.old) (S.records store.new) 1 }
{
    if used_in(words) < 2 {
        return make_root(store, &slots_of(words));
    }
    let part = make_words(store, words, near)?;
    Ok(EntryRef::from_raw(part.node))
}

/// Makes the tree without the pair, and adds the nodes of the old tree that the new one lacks to the replaced ones.
fn rebuild<const OFFSET_BITS: u32, S: Store<OFFSET_BITS>, K: KeyOrder<OFFSET_BITS>>(
    store: &mut S,
    root: EntryRef<OFFSET_BITS>,
    key: &K,
    replaced: &mut ArrayVec<u32, 16>,
) -> Result<EntryRef<OFFSET_BITS>, StoreError>
    requires unit { (S.ledger store.old).unit ≡ true }
    requires tree { IsTree K.order K.read (S.records store.old) root }
    requires some { 0 < root }
    requires readable { AllReadable K.can_read (S.records store.old) (tree_pairs (S.records store.old) root) }
    requires there { IsSome (lookup (seen_by K.read K.order (K.sought key.now) (S.records store.old))
        (tree_pairs (S.records store.old) root)) }
    requires replaced { replaced.old.items ≡ [] }
    ensures rebuilds { IfOk result (λ r. Rebuilds (S.ledger store.old) (S.ledger store.new) (S.records store.old) (S.records store.new)
        root.entry r replaced.new.items (take_out (seen_by K.read K.order (K.sought key.now) (S.records store.old))
        (tree_pairs (S.records store.old) root.entry))) }
    ensures refuses { IfErr result (Refuses (S.ledger store.old) (S.ledger store.new) NODE_WORDS) }
    ensures makes { MakesNodes (S.ledger store.old) (S.ledger store.new) (S.records store.old) (S.records store.new)
        (levels (S.records store.old) root.entry + 1) }
{
    let level = store.word(root, 0) / LEVEL_BASE;
    let mut words = [0; NODE_WORDS];
    remove_below(store, root, level, key, replaced, &mut words)?;
    make_top(store, &words, root.raw())
}

/// Removes the pair of a key that exists. Returns the new root, or 0 if no pair is left, and drops the nodes of the
/// old tree that are not in the new one.
pub fn remove<const OFFSET_BITS: u32, S: Store<OFFSET_BITS>, K: KeyOrder<OFFSET_BITS>>(
    store: &mut S,
    root: EntryRef<OFFSET_BITS>,
    key: &K,
) -> Result<EntryRef<OFFSET_BITS>, StoreError>
    requires unit { (S.ledger store.old).unit ≡ true }
    requires keyed { IsKeyedTree K.order K.read K.can_read K.reads_from (S.records store.old) root }
    requires there { IsSome (lookup (seen_by K.read K.order (K.sought key.now) (S.records store.old))
        (tree_pairs (S.records store.old) root)) }
    requires owns { Owns (S.ledger store.old) (S.records store.old) (tree root ∷ []) }
    ensures keyed { IfOk result (IsKeyedTree K.order K.read K.can_read K.reads_from (S.records store.new)) }
    ensures owns { IfOk result (λ r. Owns (S.ledger store.new) (S.records store.new) (tree r ∷ [])) }
    ensures pairs { IfOk result (λ r. tree_pairs (S.records store.new) r
        ≡ take_out (seen_by K.read K.order (K.sought key.now) (S.records store.old)) (tree_pairs (S.records store.old) root.entry)) }
    ensures turns { IfOk result (λ r. Turns (S.ledger store.old) (S.ledger store.new) (S.records store.old) (S.records store.new)
        (tree root.entry ∷ []) (tree r ∷ [])) }
    ensures others { KeepsOthers (S.records store.old) (S.records store.new) }
    ensures counts { CountsNodes (S.ledger store.old) (S.ledger store.new) (levels (S.records store.old) root.entry + 1) }
    ensures left { OnErr result (Keeps (S.records store.old) (S.records store.new)) }
    ensures refuses { IfErr result (Refuses (S.ledger store.old) (S.ledger store.new) NODE_WORDS) }
    ensures may { MayDo (S.ledger store.old) (S.ledger store.new) }
{
    let mut replaced = ArrayVec::new();
    let next = rebuild(store, root, key, &mut replaced)?;
    drop_nodes(store, &replaced);
    Ok(next)
}
