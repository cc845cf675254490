//! Drops a whole tree.

ghost use Rattle.std.specs.Prelude.{◌≡◌, ◌<◌, ◌∷◌, [], ℕ, true};
ghost use Rattle.tree_read.specs.Trees.{nodes_below, IsNode, IsRootNode};
ghost use Rattle.tree_read.specs.Keys.{KeepsOthers};
ghost use Rattle.store_api.specs.Parts.{Owns, Turns, entries};
ghost use Rattle.store_api.specs.Units.{MayDo, MakesAtMost};
ghost use Rattle.frozen_btree.specs.Changes.{DropsEntries, tree};

use entry_ref::EntryRef;
use store_api::Store;
use tree_read::{read_head, read_node};

/// Drops all nodes below a node of this level, and then the node.
fn drop_below<const OFFSET_BITS: u32, S: Store<OFFSET_BITS>>(
    store: &mut S,
    node: EntryRef<OFFSET_BITS>,
    level: u64,
)
    requires unit { (S.ledger store.old).unit ≡ true }
    requires node { IsNode (S.records store.old) 1 level node }
    requires owns { Owns (S.ledger store.old) (S.records store.old) (entries (nodes_below (S.records store.old) level node) ∷ []) }
    ensures { DropsEntries (S.ledger store.old) (S.ledger store.new) (S.records store.old) (S.records store.new)
        (nodes_below (S.records store.old) level node.entry) }
{
    if level == 0 {
        store.drop_entry(node);
        return;
    }
    let slots = read_node(store, node);
    for child in slots.values.as_slice() {
        drop_below(store, EntryRef::from_raw(*child as u32), level - 1);
    }
    store.drop_entry(node);
}

/// Drops all nodes of a tree, once each.
pub fn drop_tree<const OFFSET_BITS: u32, S: Store<OFFSET_BITS>>(
    store: &mut S,
    root: EntryRef<OFFSET_BITS>,
)
    requires unit { (S.ledger store.old).unit ≡ true }
    requires tree { 0 < root → IsRootNode (S.records store.old) root }
    requires owns { Owns (S.ledger store.old) (S.records store.old) (tree root ∷ []) }
    ensures turns { Turns (S.ledger store.old) (S.ledger store.new) (S.records store.old) (S.records store.new) (tree root.entry ∷ []) [] }
    ensures others { KeepsOthers (S.records store.old) (S.records store.new) }
    ensures none_made { (c width : ℕ) → MakesAtMost c 0 ((S.ledger store.old).of_width width) ((S.ledger store.new).of_width width) }
    ensures may { MayDo (S.ledger store.old) (S.ledger store.new) }
{
    if root.valid() {
        let level = read_head(store, root).level;
        drop_below(store, root, level);
    }
}
