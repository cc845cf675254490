//! Each change of the map, in a unit of its own.

ghost use Rattle.std.specs.Prelude.{◌≡◌, ◌<◌, ◌+◌, ◌*◌, IfOk, IfErr, OnErr, IsSome};
ghost use Rattle.tree_read.specs.Trees.{tree_pairs};
ghost use Rattle.tree_read.specs.Pairs.{lookup, put, take_out};
ghost use Rattle.frozen_btree.specs.Changes.{levels};
ghost use Rattle.number_tree.specs.Maps.{HoldsTree, IsRefusal, beside_number};

use crate::layout::TreeLayout;
use entry_ref::EntryRef;
use frozen_btree::{NumberKey, insert, remove};
use store_api::{Store, StoreError};

/// Inserts a pair, in a unit of its own.
pub fn insert_unit<const OFFSET_BITS: u32, S: Store<OFFSET_BITS>>(
    store: &mut S,
    root: EntryRef<OFFSET_BITS>,
    key: u64,
    value: u64,
) -> Result<EntryRef<OFFSET_BITS>, StoreError>
    requires { HoldsTree (S.ledger store.old) (S.records store.old) root }
    ensures holds { IfOk result (HoldsTree (S.ledger store.new) (S.records store.new)) }
    ensures pairs { IfOk result (λ r. tree_pairs (S.records store.new) r
        ≡ put (beside_number key) (key, value) (tree_pairs (S.records store.old) root.entry)) }
    ensures still { OnErr result (HoldsTree (S.ledger store.new) (S.records store.new) root.entry) }
    ensures left { OnErr result (S.records store.new ≡ S.records store.old) }
    ensures refused { IfErr result (IsRefusal (S.ledger store.old) (S.ledger store.new) (S.records store.new)
        (2 * levels (S.records store.old) root.entry + 1)) }
    ensures commits { (S.ledger store.new).work.commits.last ≡ (S.ledger store.old).work.commits.last }
    ensures sizes { (S.ledger store.new).work.sizes ≡ (S.ledger store.old).work.sizes }
{
    store.begin();
    match insert(store, root, &NumberKey(key), key, value) {
        Ok(next) => {
            store.accept();
            Ok(next)
        }
        Err(error) => {
            store.undo();
            Err(error)
        }
    }
}

/// Removes the pair of a key that exists, in a unit of its own.
pub fn remove_unit<const OFFSET_BITS: u32, S: Store<OFFSET_BITS>>(
    store: &mut S,
    root: EntryRef<OFFSET_BITS>,
    key: u64,
) -> Result<EntryRef<OFFSET_BITS>, StoreError>
    requires holds { HoldsTree (S.ledger store.old) (S.records store.old) root }
    requires there { IsSome (lookup (beside_number key) (tree_pairs (S.records store.old) root)) }
    ensures holds { IfOk result (HoldsTree (S.ledger store.new) (S.records store.new)) }
    ensures pairs { IfOk result (λ r. tree_pairs (S.records store.new) r
        ≡ take_out (beside_number key) (tree_pairs (S.records store.old) root.entry)) }
    ensures still { OnErr result (HoldsTree (S.ledger store.new) (S.records store.new) root.entry) }
    ensures left { OnErr result (S.records store.new ≡ S.records store.old) }
    ensures refused { IfErr result (IsRefusal (S.ledger store.old) (S.ledger store.new) (S.records store.new)
        (levels (S.records store.old) root.entry + 1)) }
    ensures commits { (S.ledger store.new).work.commits.last ≡ (S.ledger store.old).work.commits.last }
    ensures sizes { (S.ledger store.new).work.sizes ≡ (S.ledger store.old).work.sizes }
{
    store.begin();
    match remove(store, root, &NumberKey(key)) {
        Ok(rest) => {
            store.accept();
            Ok(rest)
        }
        Err(fault) => {
            store.undo();
            Err(fault)
        }
    }
}

/// Commits a tree that is all that is in use.
pub fn commit_tree<const OFFSET_BITS: u32, S: Store<OFFSET_BITS, Layout = TreeLayout>>(
    store: &mut S,
    root: EntryRef<OFFSET_BITS>,
) -> u32
    requires holds { HoldsTree (S.ledger store.old) (S.records store.old) root }
    requires room { (S.ledger store.old).work.commits.last < (S.ledger store.old).work.sizes.commits }
    ensures number { result ≡ (S.ledger store.old).work.commits.last + 1 }
    ensures holds { HoldsTree (S.ledger store.new) (S.records store.new) root.entry }
    ensures pairs { tree_pairs (S.records store.new) root.entry ≡ tree_pairs (S.records store.old) root.entry }
    ensures last { (S.ledger store.new).work.commits.last ≡ (S.ledger store.old).work.commits.last + 1 }
    ensures sizes { (S.ledger store.new).work.sizes ≡ (S.ledger store.old).work.sizes }
{
    store.commit(root).commit
}
