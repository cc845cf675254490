//! A map of numbers: one tree in a store of its own.

ghost use Rattle.std.specs.Prelude.{◌≡◌, ◌↔◌, ◌-◌, ◌+◌, ◌*◌, [], length, is_some, IsNone, IfSome, IfNone, IfOk, IfErr, OnOk, OnErr};
ghost use Rattle.tree_read.specs.Trees.{tree_pairs};
ghost use Rattle.tree_read.specs.Pairs.{lookup, put, take_out, seek};
ghost use Rattle.store_api.specs.Ledgers.{IsNew};
ghost use Rattle.frozen_btree.specs.Changes.{levels};
ghost use Rattle.number_tree.specs.Maps.{HoldsTree, IsRefusal, IsSameMap, beside_number, first_of};

use crate::layout::TreeLayout;
use crate::unit::{commit_tree, insert_unit, remove_unit};
use crate::walk::{all_pairs, first_from};
use entry_ref::EntryRef;
use frozen_btree::{NumberKey, find, total};
use std::alloc::{AllocError, Global};
use std::marker::Model;
use store_api::{Store, StoreError};

/// A map of numbers: a tree alone in a store, changed by units of one change each.
#[derive(Drop)]
pub struct NumberTree<const OFFSET_BITS: u32, S: Store<OFFSET_BITS, Layout = TreeLayout>> {
    store: S,
    root: EntryRef<OFFSET_BITS>,
}

impl<const OFFSET_BITS: u32, S: Store<OFFSET_BITS, Layout = TreeLayout>> Model
    for NumberTree<OFFSET_BITS, S> {
    ghost use Rattle.tree_read.specs.Trees.{tree_pairs};
    ghost use Rattle.number_tree.specs.Maps.{MapView, HoldsTree};

    ghost Value = { MapView S };

    ghost view = { λ t. record {
      store = t.store;
      pairs = tree_pairs (S.records t.store) t.root;
      root = t.root;
      commits = (S.ledger t.store).work.commits.last;
      most = (S.ledger t.store).work.sizes.commits;
      buffers = (S.ledger t.store).work.sizes.buffers;
    } };

    ghost invariant = { λ t. HoldsTree (S.ledger t.store) (S.records t.store) t.root };
}

impl<const OFFSET_BITS: u32, S: Store<OFFSET_BITS, Layout = TreeLayout>> NumberTree<
    OFFSET_BITS,
    S,
> {
    /// Creates the empty map, in a store in which nothing was made.
    pub fn new(store: S) -> Self
        requires { IsNew (S.ledger store) }
        ensures store { result.store ≡ store }
        ensures pairs { result.pairs ≡ [] }
        ensures root { result.root ≡ 0 }
        ensures commits { result.commits ≡ (S.ledger store).work.commits.last }
        ensures most { result.most ≡ (S.ledger store).work.sizes.commits }
        ensures buffers { result.buffers ≡ (S.ledger store).work.sizes.buffers }
    {
        NumberTree {
            store,
            root: EntryRef::from_raw(0),
        }
    }

    /// Returns the map of a tree that is all that a store has in use.
    pub fn with_root(store: S, root: EntryRef<OFFSET_BITS>) -> Self
        requires { HoldsTree (S.ledger store) (S.records store) root }
        ensures store { result.store ≡ store }
        ensures pairs { result.pairs ≡ tree_pairs (S.records store) root.entry }
        ensures root { result.root ≡ root.entry }
        ensures commits { result.commits ≡ (S.ledger store).work.commits.last }
        ensures most { result.most ≡ (S.ledger store).work.sizes.commits }
        ensures buffers { result.buffers ≡ (S.ledger store).work.sizes.buffers }
    {
        NumberTree { store, root }
    }

    /// Returns the store, in which the tree is all that is in use.
    pub fn store(&self) -> &S
        ensures store { result.now ≡ self.now.store }
        ensures holds { HoldsTree (S.ledger result.now) (S.records result.now) self.now.root }
        ensures pairs { tree_pairs (S.records result.now) self.now.root ≡ self.now.pairs }
    {
        &self.store
    }

    /// Returns the store and ends the map.
    pub fn into_store(self) -> S
        ensures store { result ≡ self.store }
        ensures holds { HoldsTree (S.ledger result) (S.records result) self.root }
        ensures pairs { tree_pairs (S.records result) self.root ≡ self.pairs }
        ensures commits { (S.ledger result).work.commits.last ≡ self.commits }
        ensures most { (S.ledger result).work.sizes.commits ≡ self.most }
        ensures buffers { (S.ledger result).work.sizes.buffers ≡ self.buffers }
    {
        self.store
    }

    /// Returns the root of the tree, or 0 if it is empty.
    pub fn root(&self) -> EntryRef<OFFSET_BITS>
        ensures { result ≡ self.now.root }
    {
        self.root
    }

    /// Puts a value at a key, in place of any value there. After an error the map is as before. The store is `Full`
    /// if no buffer has space for a node of 34 words.
    pub fn put(&mut self, key: u64, value: u64) -> Result<(), StoreError>
        ensures pairs { OnOk result (self.new.pairs ≡ put (beside_number key) (key, value) self.old.pairs) }
        ensures commits { self.new.commits ≡ self.old.commits }
        ensures most { self.new.most ≡ self.old.most }
        ensures buffers { self.new.buffers ≡ self.old.buffers }
        ensures left { OnErr result (IsSameMap self.old self.new) }
        ensures refused { IfErr result (IsRefusal (S.ledger self.old.store) (S.ledger self.new.store) (S.records self.new.store)
            (2 * levels (S.records self.old.store) self.old.root + 1)) }
    {
        self.root = insert_unit(&mut self.store, self.root, key, value)?;
        Ok(())
    }

    /// Removes a key, and returns whether it existed. After an error the map is as before.
    pub fn remove(&mut self, key: u64) -> Result<bool, StoreError>
        ensures taken { IfOk result (λ taken. taken ≡ is_some (lookup (beside_number key) self.old.pairs)) }
        ensures pairs { OnOk result (self.new.pairs ≡ take_out (beside_number key) self.old.pairs) }
        ensures commits { self.new.commits ≡ self.old.commits }
        ensures most { self.new.most ≡ self.old.most }
        ensures buffers { self.new.buffers ≡ self.old.buffers }
        ensures left { OnErr result (IsSameMap self.old self.new) }
        ensures refused { IfErr result (IsRefusal (S.ledger self.old.store) (S.ledger self.new.store) (S.records self.new.store)
            (levels (S.records self.old.store) self.old.root + 1)) }
    {
        if self.get(key).is_none() {
            return Ok(false);
        }
        self.root = remove_unit(&mut self.store, self.root, key)?;
        Ok(true)
    }

    /// Returns the value at a key.
    pub fn get(&mut self, key: u64) -> Option<u64>
        ensures value { result ≡ lookup (beside_number key) self.old.pairs }
        ensures same { self.new ≡ self.old }
    {
        match find(&mut self.store, self.root, &NumberKey(key)) {
            Some((_, value)) => Some(value),
            None => None,
        }
    }

    /// Returns the number of keys.
    pub fn len(&mut self) -> u32
        ensures count { result ≡ length self.old.pairs }
        ensures same { self.new ≡ self.old }
    {
        total(&mut self.store, self.root)
    }

    /// Returns the first pair whose key is at least `key`.
    pub fn at_or_above(&mut self, key: u64) -> Option<(u64, u64)>
        ensures pair { result ≡ first_of (seek (beside_number key) self.old.pairs) }
        ensures same { self.new ≡ self.old }
    {
        first_from(&mut self.store, self.root, key)
    }

    /// Returns all pairs in the order of their keys, by one walk.
    pub fn pairs(&mut self, alloc: Global) -> Result<Vec<(u64, u64)>, AllocError>
        ensures pairs { IfOk result (λ pairs. pairs.items ≡ self.old.pairs) }
        ensures same { self.new ≡ self.old }
    {
        all_pairs(alloc, &mut self.store, self.root)
    }

    /// Commits the tree, if another commit is possible.
    pub fn commit(&mut self) -> Option<u32>
        ensures none { IsNone result ↔ (self.old.most - self.old.commits ≡ 0) }
        ensures number { IfSome result (λ n. n ≡ self.old.commits + 1) }
        ensures last { IfSome result (λ n. self.new.commits ≡ n) }
        ensures left { IfNone result (self.new ≡ self.old) }
        ensures pairs { self.new.pairs ≡ self.old.pairs }
        ensures most { self.new.most ≡ self.old.most }
        ensures buffers { self.new.buffers ≡ self.old.buffers }
        ensures root { self.new.root ≡ self.old.root }
    {
        if self.store.commits_left() == 0 {
            return None;
        }
        Some(commit_tree(&mut self.store, self.root))
    }
}
