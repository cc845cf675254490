//! Builds a tree of pairs, level by level.

ghost use Rattle.std.specs.Prelude.{◌≡◌, ◌^◌, ◌<◌, ◌≤◌, ◌-◌, ◌∷◌, [], true, length, IfOk, IfErr};
ghost use Rattle.std.specs.List.{zip};
ghost use Rattle.tree_read.specs.Trees.{tree_pairs, Keeps};
ghost use Rattle.tree_read.specs.Keys.{Ascends, AllReadable, NoneReadsNodes, IsKeyedTree};
ghost use Rattle.store_api.specs.Calls.{Refuses};
ghost use Rattle.store_api.specs.Parts.{Owns, Turns};
ghost use Rattle.store_api.specs.Units.{MayDo};
ghost use Rattle.frozen_btree.specs.Changes.{tree};
ghost use Rattle.frozen_nodes.specs.Makes.{CountsNodes, MakesNodes};
ghost use Rattle.tree_read.specs.Slots.{slot_pairs, IsInHand};
ghost use Rattle.frozen_btree.specs.Builds.{nodes_above, nodes_of, BuildsTree};

use crate::make_root;
use crate::rows::{make_row, slots_of};
use entry_ref::EntryRef;
use std::alloc::Global;
use store_api::{Store, StoreError};
use tree_read::{KeyOrder, MOST_SLOTS, NODE_WORDS};

/// Makes the tree over slots of a level, level by level. An error leaves the nodes that were made.
pub fn build_over<const OFFSET_BITS: u32, S: Store<OFFSET_BITS>>(
    alloc: Global,
    store: &mut S,
    level: u64,
    keys: &[u64],
    values: &[u64],
) -> Result<EntryRef<OFFSET_BITS>, StoreError>
    requires unit { (S.ledger store.old).unit ≡ true }
    requires low { level ≤ 7 }
    requires hand { IsInHand (S.records store.old) level keys.now values.now }
    requires some { 0 < level → 0 < length keys.now }
    requires few { 0 < level → length (slot_pairs (S.records store.old) level keys.now values.now) ≤ 31580640 }
    ensures builds { IfOk result (BuildsTree (S.ledger store.old) (S.ledger store.new) (S.records store.old) (S.records store.new)
        level keys.now values.now) }
    ensures makes { MakesNodes (S.ledger store.old) (S.ledger store.new) (S.records store.old) (S.records store.new)
        (nodes_above (7 - level) (length keys.now)) }
    ensures refuses { IfErr result (Refuses (S.ledger store.old) (S.ledger store.new) NODE_WORDS) }
{
    if keys.len() <= MOST_SLOTS {
        let slots = slots_of(level, keys, values);
        return make_root(store, &slots);
    }
    let row = make_row(alloc, store, level, keys, values)?;
    build_over(alloc, store, level + 1, &row.keys, &row.nodes)
}

/// Makes a tree of pairs with ascending keys. The pairs are divided into the fewest nodes, with sizes that differ by
/// at most one, and so are the nodes of each level, up to the root. Without pairs the root is 0.
pub fn build<const OFFSET_BITS: u32, S: Store<OFFSET_BITS>, K: KeyOrder<OFFSET_BITS>>(
    alloc: Global,
    store: &mut S,
    keys: &[u64],
    values: &[u64],
) -> Result<EntryRef<OFFSET_BITS>, StoreError>
    requires unit { (S.ledger store.old).unit ≡ true }
    requires even { length keys.now ≡ length values.now }
    requires ascends { Ascends K.order K.read (S.records store.old) (zip keys.now values.now) }
    requires readable { AllReadable K.can_read (S.records store.old) (zip keys.now values.now) }
    requires apart { NoneReadsNodes K.reads_from (S.records store.old) (zip keys.now values.now) }
    ensures keyed { IfOk result (IsKeyedTree K.order K.read K.can_read K.reads_from (S.records store.new)) }
    ensures pairs { IfOk result (λ r. tree_pairs (S.records store.new) r ≡ zip keys.now values.now) }
    ensures owns { IfOk result (λ r. Owns (S.ledger store.new) (S.records store.new) (tree r ∷ [])) }
    ensures turns { IfOk result (λ r. Turns (S.ledger store.old) (S.ledger store.new) (S.records store.old) (S.records store.new)
        [] (tree r ∷ [])) }
    ensures stay { Keeps (S.records store.old) (S.records store.new) }
    ensures counts { CountsNodes (S.ledger store.old) (S.ledger store.new) (nodes_of (length keys.now)) }
    ensures refuses { IfErr result (Refuses (S.ledger store.old) (S.ledger store.new) NODE_WORDS) }
    ensures may { MayDo (S.ledger store.old) (S.ledger store.new) }
{
    build_over(alloc, store, 0, keys, values)
}
