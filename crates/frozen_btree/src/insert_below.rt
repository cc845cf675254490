//! Inserts a pair below a node: copies the path, and splits full nodes.

ghost use Rattle.std.specs.Prelude.{◌≡◌, ◌≤◌, ◌<◌, ◌+◌, ◌*◌, ◌^◌, ◌++◌, ◌∷◌, [], ℕ, List, true, length, suc, IfOk, IfErr};
ghost use Rattle.tree_read.specs.Nodes.{level_of, node_keys};
ghost use Rattle.tree_read.specs.Trees.{pairs_below, IsNode};
ghost use Rattle.tree_read.specs.Keys.{seen_by, Ascends, AllReadable};
ghost use Rattle.store_api.specs.Calls.{Refuses};
ghost use Rattle.frozen_nodes.specs.Makes.{MakesNodes};
ghost use Rattle.tree_read.specs.NodePlaces.{IsPlace};
ghost use Rattle.frozen_btree.specs.Inserts.{Inserts};

use crate::insert_leaf::put_pair;
use arena_api::Frozen;
use arrayvec::ArrayVec;
use entry_ref::EntryRef;
use frozen_nodes::{Parts, count_parts, put_parts};
use store_api::{Store, StoreError};
use tree_read::{FIRST_VALUE, KeyOrder, NODE_WORDS, used_in, visit};

/// Makes a new leaf with a pair inserted.
fn insert_in_leaf<const OFFSET_BITS: u32, S: Store<OFFSET_BITS>, K: KeyOrder<OFFSET_BITS>>(
    store: &mut S,
    node: EntryRef<OFFSET_BITS>,
    key: &K,
    word: u64,
    value: u64,
) -> Result<Parts, StoreError>
    requires unit { (S.ledger store.old).unit ≡ true }
    requires node { IsNode (S.records store.old) 1 0 node }
    requires readable { AllReadable K.can_read (S.records store.old) (pairs_below (S.records store.old) 0 node) }
    requires few { length (pairs_below (S.records store.old) 0 node) + 1 < 2 ^ 32 }
    ensures inserts { (before after : List ℕ) → after ≡ before ++ node.entry ∷ [] → IfOk result
        (Inserts (seen_by K.read K.order (K.sought key.now) (S.records store.old)) (word, value)
        (S.ledger store.old) (S.ledger store.new) (S.records store.old) (S.records store.new) 0 node.entry before after) }
    ensures makes { MakesNodes (S.ledger store.old) (S.ledger store.new) (S.records store.old) (S.records store.new) 2 }
    ensures refuses { IfErr result (Refuses (S.ledger store.old) (S.ledger store.new) NODE_WORDS) }
{
    let mut words = [0; NODE_WORDS];
    let spot = visit(store, node, key, &mut words);
    put_pair(store, &mut words, spot, word, value, node.raw())
}

/// Reads a node above the leaves, and finds the slot under which a key is put.
fn visit_inner<const OFFSET_BITS: u32, F: Frozen<OFFSET_BITS>, K: KeyOrder<OFFSET_BITS>>(
    frozen: &mut F,
    node: EntryRef<OFFSET_BITS>,
    key: &K,
    words: &mut [u64; NODE_WORDS],
) -> usize
    requires node { IsNode (F.records frozen.old) 1 (level_of (F.records frozen.old node)) node }
    requires readable { AllReadable K.can_read (F.records frozen.old)
        (pairs_below (F.records frozen.old) (level_of (F.records frozen.old node)) node) }
    ensures words { words.new ≡ F.records frozen.old node.entry }
    ensures place { IsPlace (seen_by K.read K.order (K.sought key.now) (F.records frozen.old))
        (node_keys (F.records frozen.old node.entry)) result }
    ensures same { frozen.new ≡ frozen.old }
{
    let spot = visit(frozen, node, key, words);
    let used = used_in(words);
    if spot.slot < used {
        spot.slot
    } else {
        used - 1
    }
}

/// Inserts a pair below a node of this level, by copying the nodes on the path of its key. Adds the nodes of the path
/// to the replaced ones.
pub fn insert_below<const OFFSET_BITS: u32, S: Store<OFFSET_BITS>, K: KeyOrder<OFFSET_BITS>>(
    store: &mut S,
    node: EntryRef<OFFSET_BITS>,
    level: u64,
    key: &K,
    word: u64,
    value: u64,
    replaced: &mut ArrayVec<u32, 8>,
) -> Result<Parts, StoreError>
    requires unit { (S.ledger store.old).unit ≡ true }
    requires low { level ≤ 7 }
    requires node { IsNode (S.records store.old) 1 level node }
    requires ascends { Ascends K.order K.read (S.records store.old) (pairs_below (S.records store.old) level node) }
    requires readable { AllReadable K.can_read (S.records store.old) (pairs_below (S.records store.old) level node) }
    requires few { length (pairs_below (S.records store.old) level node) + 1 < 2 ^ 32 }
    requires room { length replaced.old.items + level < 8 }
    ensures inserts { IfOk result (Inserts (seen_by K.read K.order (K.sought key.now) (S.records store.old)) (word, value)
        (S.ledger store.old) (S.ledger store.new) (S.records store.old) (S.records store.new)
        level node.entry replaced.old.items replaced.new.items) }
    ensures makes { MakesNodes (S.ledger store.old) (S.ledger store.new) (S.records store.old) (S.records store.new) (2 * suc level) }
    ensures refuses { IfErr result (Refuses (S.ledger store.old) (S.ledger store.new) NODE_WORDS) }
{
    replaced.push(node.raw());
    if level == 0 {
        return insert_in_leaf(store, node, key, word, value);
    }
    let mut words = [0; NODE_WORDS];
    let place = visit_inner(store, node, key, &mut words);
    let child = EntryRef::from_raw(words[FIRST_VALUE + place] as u32);
    let before = store.word(child, 1);
    let parts = insert_below(store, child, level - 1, key, word, value, replaced)?;
    let pairs = words[1] - before + count_parts(store, &parts);
    put_parts(store, &mut words, pairs, place, &parts, node.raw())
}
