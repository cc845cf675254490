//! All keys of a tree, in order, one leaf at a time.
ghost use Rattle.std.specs.Prelude.{◌≡◌, ◌<◌, ◌≤◌, ◌++◌, ◌∷◌, ℕ, suc, List, [], OnOk};
ghost use Rattle.std.specs.List.{AllByRecursion};
ghost use Rattle.std.specs.Map.{keys_of};
ghost use Rattle.tree_read.specs.Trees.{pairs_below, tree_pairs, IsNode, IsRootNode};

use crate::read::read_used;
use crate::{FIRST_KEY, FIRST_VALUE, NODE_WORDS, read_head};
use arena_api::Frozen;
use entry_ref::EntryRef;
use std::alloc::AllocError;

/// A receiver of the keys of a tree.
pub trait TakesKeys {
    /// The keys that it can take.
    ghost can_take: { ℕ → Type 0 };

    /// How these keys change it.
    ghost takes: { Self → List ℕ → Self → Type 0 };

    fn take(&mut self, key: u64) -> Result<(), AllocError>
        requires { can_take key }
        ensures { OnOk result (takes self.old (key ∷ []) self.new) };

    ghost none: { (taker : Self) → takes taker [] taker };

    ghost joins: { (a b c : Self) (xs ys : List ℕ) → takes a xs b → takes b ys c → takes a (xs ++ ys) c };
}

/// Passes on the keys of a leaf.
fn take_leaf<const OFFSET_BITS: u32, F: Frozen<OFFSET_BITS>, T: TakesKeys>(
    frozen: &mut F,
    leaf: EntryRef<OFFSET_BITS>,
    taker: &mut T,
) -> Result<(), AllocError>
    requires node { IsNode (F.records frozen.old) 1 0 leaf }
    requires keys { AllByRecursion (λ p. T.can_take p.0) (pairs_below (F.records frozen.old) 0 leaf) }
    ensures takes { OnOk result (T.takes taker.old (keys_of (pairs_below (F.records frozen.old) 0 leaf.entry)) taker.new) }
    ensures same { frozen.new ≡ frozen.old }
{
    let start = frozen.start_of(leaf, Some(NODE_WORDS as u32));
    for slot in 0..read_used(frozen, leaf, start) {
        let key = frozen.word_from(leaf, start, FIRST_KEY as u32 + slot);
        taker.take(key)?;
    }
    Ok(())
}

/// Passes on the keys below a node above the leaves. `below` is its level less one.
fn take_below<const OFFSET_BITS: u32, F: Frozen<OFFSET_BITS>, T: TakesKeys>(
    frozen: &mut F,
    node: EntryRef<OFFSET_BITS>,
    below: u64,
    taker: &mut T,
) -> Result<(), AllocError>
    requires node { IsNode (F.records frozen.old) 1 (suc below) node }
    requires keys { AllByRecursion (λ p. T.can_take p.0) (pairs_below (F.records frozen.old) (suc below) node) }
    ensures takes { OnOk result (T.takes taker.old (keys_of (pairs_below (F.records frozen.old) (suc below) node.entry)) taker.new) }
    ensures same { frozen.new ≡ frozen.old }
{
    let start = frozen.start_of(node, Some(NODE_WORDS as u32));
    for slot in 0..read_used(frozen, node, start) {
        let stored = frozen.word_from(node, start, FIRST_VALUE as u32 + slot);
        let child = EntryRef::from_raw(stored as u32);
        if below == 0 {
            take_leaf(frozen, child, taker)?;
        } else {
            take_below(frozen, child, below - 1, taker)?;
        }
    }
    Ok(())
}

/// Passes on all keys of the tree with this root.
pub fn take_keys<const OFFSET_BITS: u32, F: Frozen<OFFSET_BITS>, T: TakesKeys>(
    frozen: &mut F,
    root: EntryRef<OFFSET_BITS>,
    taker: &mut T,
) -> Result<(), AllocError>
    requires tree { 0 < root → IsRootNode (F.records frozen.old) root }
    requires keys { AllByRecursion (λ p. T.can_take p.0) (tree_pairs (F.records frozen.old) root) }
    ensures takes { OnOk result (T.takes taker.old (keys_of (tree_pairs (F.records frozen.old) root.entry)) taker.new) }
    ensures same { frozen.new ≡ frozen.old }
{
    if !root.valid() {
        return Ok(());
    }
    let level = read_head(frozen, root).level;
    if level == 0 {
        take_leaf(frozen, root, taker)
    } else {
        take_below(frozen, root, level - 1, taker)
    }
}
