//! Inserts a pair into a tree.

ghost use Rattle.std.specs.Prelude.{◌≡◌, ◌≤◌, ◌<◌, ◌+◌, ◌*◌, ◌^◌, ◌∷◌, [], true, length, IfOk, IfErr, OnErr};
ghost use Rattle.std.specs.List.{flat_map};
ghost use Rattle.tree_read.specs.Trees.{pairs_below, tree_pairs, IsTree, Keeps, root_least};
ghost use Rattle.tree_read.specs.Keys.{seen_by, AllReadable, KeepsOthers, IsKeyedTree, IsKeyWord};
ghost use Rattle.tree_read.specs.Pairs.{put};
ghost use Rattle.store_api.specs.Calls.{Refuses};
ghost use Rattle.store_api.specs.Parts.{Owns, Turns};
ghost use Rattle.store_api.specs.Units.{MayDo};
ghost use Rattle.frozen_btree.specs.Changes.{Rebuilds, levels, tree};
ghost use Rattle.frozen_nodes.specs.Makes.{CountsNodes, MakesNodes};
ghost use Rattle.frozen_nodes.specs.Parts.{AreParts, part_nodes};
ghost use Rattle.frozen_btree.specs.Inserts.{IsRootOver};

use crate::insert_below::insert_below;
use crate::{drop_nodes, make_leaf};
use arrayvec::ArrayVec;
use entry_ref::EntryRef;
use frozen_nodes::{Parts, make_part};
use store_api::{Store, StoreError};
use tree_read::{KeyOrder, LEVEL_BASE, NODE_WORDS, Slots};

/// Returns the root over the parts of a level: a single part itself, or a node of the next level over both.
fn root_over<const OFFSET_BITS: u32, S: Store<OFFSET_BITS>>(
    store: &mut S,
    level: u64,
    parts: &Parts,
) -> Result<EntryRef<OFFSET_BITS>, StoreError>
    requires unit { (S.ledger store.old).unit ≡ true }
    requires parts { AreParts (S.records store.old) (root_least level) level parts.now
        (flat_map (pairs_below (S.records store.old) level) (part_nodes parts.now)) }
    requires few { length (flat_map (pairs_below (S.records store.old) level) (part_nodes parts.now)) < 2 ^ 32 }
    requires low { level ≤ 7 }
    requires two { level ≡ 7 → length (part_nodes parts.now) ≡ 1 }
    ensures root { IfOk result (IsRootOver (S.ledger store.old) (S.ledger store.new) (S.records store.old)
        (S.records store.new) level parts.now) }
    ensures makes { MakesNodes (S.ledger store.old) (S.ledger store.new) (S.records store.old) (S.records store.new) 1 }
    ensures refuses { IfErr result (Refuses (S.ledger store.old) (S.ledger store.new) NODE_WORDS) }
{
    match *parts {
        Parts::One(part) => Ok(EntryRef::from_raw(part.node)),
        Parts::Two(first, second) => {
            let mut slots = Slots {
                level: level + 1,
                keys: ArrayVec::new(),
                values: ArrayVec::new(),
            };
            slots.keys.push(first.key);
            slots.values.push(u64::from(first.node));
            slots.keys.push(second.key);
            slots.values.push(u64::from(second.node));
            let root = make_part(store, &slots)?;
            Ok(EntryRef::from_raw(root.node))
        }
    }
}

/// Makes the tree with the pair, and adds the nodes of the old tree that the new one lacks to the replaced ones.
fn rebuild<const OFFSET_BITS: u32, S: Store<OFFSET_BITS>, K: KeyOrder<OFFSET_BITS>>(
    store: &mut S,
    root: EntryRef<OFFSET_BITS>,
    key: &K,
    word: u64,
    value: u64,
    replaced: &mut ArrayVec<u32, 8>,
) -> Result<EntryRef<OFFSET_BITS>, StoreError>
    requires unit { (S.ledger store.old).unit ≡ true }
    requires tree { IsTree K.order K.read (S.records store.old) root }
    requires readable { AllReadable K.can_read (S.records store.old) (tree_pairs (S.records store.old) root) }
    requires replaced { replaced.old.items ≡ [] }
    ensures rebuilds { IfOk result (λ r. Rebuilds (S.ledger store.old) (S.ledger store.new) (S.records store.old) (S.records store.new)
        root.entry r replaced.new.items (put (seen_by K.read K.order (K.sought key.now) (S.records store.old)) (word, value)
        (tree_pairs (S.records store.old) root.entry))) }
    ensures makes { MakesNodes (S.ledger store.old) (S.ledger store.new) (S.records store.old) (S.records store.new)
        (2 * levels (S.records store.old) root.entry + 1) }
    ensures refuses { IfErr result (Refuses (S.ledger store.old) (S.ledger store.new) NODE_WORDS) }
{
    if !root.valid() {
        return make_leaf(store, word, value);
    }
    let level = store.word(root, 0) / LEVEL_BASE;
    let parts = insert_below(store, root, level, key, word, value, replaced)?;
    root_over(store, level, &parts)
}

/// Inserts a pair; `word` replaces an equal key. Returns the new root, and drops the nodes of the old tree that are
/// not in the new one.
pub fn insert<const OFFSET_BITS: u32, S: Store<OFFSET_BITS>, K: KeyOrder<OFFSET_BITS>>(
    store: &mut S,
    root: EntryRef<OFFSET_BITS>,
    key: &K,
    word: u64,
    value: u64,
) -> Result<EntryRef<OFFSET_BITS>, StoreError>
    requires unit { (S.ledger store.old).unit ≡ true }
    requires keyed { IsKeyedTree K.order K.read K.can_read K.reads_from (S.records store.old) root }
    requires word { IsKeyWord K.order K.read K.can_read K.reads_from (K.sought key.now) (S.records store.old) word }
    requires owns { Owns (S.ledger store.old) (S.records store.old) (tree root ∷ []) }
    ensures keyed { IfOk result (IsKeyedTree K.order K.read K.can_read K.reads_from (S.records store.new)) }
    ensures owns { IfOk result (λ r. Owns (S.ledger store.new) (S.records store.new) (tree r ∷ [])) }
    ensures pairs { IfOk result (λ r. tree_pairs (S.records store.new) r
        ≡ put (seen_by K.read K.order (K.sought key.now) (S.records store.old)) (word, value)
        (tree_pairs (S.records store.old) root.entry)) }
    ensures turns { IfOk result (λ r. Turns (S.ledger store.old) (S.ledger store.new) (S.records store.old) (S.records store.new)
        (tree root.entry ∷ []) (tree r ∷ [])) }
    ensures others { KeepsOthers (S.records store.old) (S.records store.new) }
    ensures counts { CountsNodes (S.ledger store.old) (S.ledger store.new) (2 * levels (S.records store.old) root.entry + 1) }
    ensures left { OnErr result (Keeps (S.records store.old) (S.records store.new)) }
    ensures refuses { IfErr result (Refuses (S.ledger store.old) (S.ledger store.new) NODE_WORDS) }
    ensures may { MayDo (S.ledger store.old) (S.ledger store.new) }
{
    let mut replaced = ArrayVec::new();
    let next = rebuild(store, root, key, word, value, &mut replaced)?;
    drop_nodes(store, &replaced);
    Ok(next)
}
