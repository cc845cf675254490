//! A cursor over the pairs of a tree.

ghost use Rattle.std.specs.Prelude.{◌≡◌, ◌↔◌, ◌<◌, ◌++◌, ℕ, [], drop, replicate, IsTrue};
ghost use Rattle.entry_ref.specs.Records.{Records};
ghost use Rattle.tree_read.specs.Nodes.{level_of};
ghost use Rattle.tree_read.specs.Trees.{pairs_below, tree_pairs, IsRootNode, IsTree};
ghost use Rattle.tree_read.specs.Keys.{AllReadable, seen_by};
ghost use Rattle.tree_read.specs.Pairs.{seek};
ghost use Rattle.tree_read.specs.SearchPlaces.{Leads, pairs_behind, pairs_from, IsAt, HasPair, first_key, first_value};

use crate::path::Path;
use crate::{
    FIRST_KEY, FIRST_VALUE, KeyOrder, LEVEL_BASE, MOST_SLOTS, NODE_WORDS, child_at, read_head,
    read_words, visit,
};
use arena_api::Frozen;
use entry_ref::EntryRef;
use std::marker::Model;

/// A position before a pair of a tree, or at its end.
#[derive(Drop)]
pub struct Cursor<const OFFSET_BITS: u32> {
    root: EntryRef<OFFSET_BITS>,
    path: Path<OFFSET_BITS>,
    leaf: EntryRef<OFFSET_BITS>,
    slot: u32,
    // of the leaf; 0 at the end
    used: u32,
    // of the leaf; arbitrary at the end
    words: [u64; NODE_WORDS],
}

impl<const OFFSET_BITS: u32> Model for Cursor<OFFSET_BITS> {
    ghost use Rattle.std.specs.Prelude.{◌≤◌};
    ghost use Rattle.tree_read.specs.declared.node_format.TheConstants.{MOST_SLOTS};
    ghost use Rattle.tree_read.specs.SearchPlaces.{CursorPlace};

    ghost Value = { CursorPlace };

    ghost view = { λ c. record { root = c.root; path = c.path; leaf = c.leaf; slot = c.slot; used = c.used; words = c.words } };

    ghost invariant = { λ c. c.used ≤ MOST_SLOTS };
}

impl<const OFFSET_BITS: u32> Cursor<OFFSET_BITS> {
    /// Returns a cursor at the end.
    fn at_end_of(root: EntryRef<OFFSET_BITS>) -> Cursor<OFFSET_BITS>
        ensures { result ≡ record { root = root.entry; path = []; leaf = 0; slot = 0; used = 0; words = replicate NODE_WORDS 0 } }
    {
        Cursor {
            root,
            path: Path::new(),
            leaf: EntryRef::from_raw(0),
            slot: 0,
            used: 0,
            words: [0; NODE_WORDS],
        }
    }

    /// Returns a cursor before the first pair.
    pub fn first<F: Frozen<OFFSET_BITS>>(
        frozen: &mut F,
        root: EntryRef<OFFSET_BITS>,
    ) -> Cursor<OFFSET_BITS>
        requires tree { 0 < root → IsRootNode (F.records frozen.old) root }
        ensures at { IsAt (F.records frozen.old) result }
        ensures pairs { pairs_from (F.records frozen.old) result ≡ tree_pairs (F.records frozen.old) root.entry }
        ensures root { result.root ≡ root.entry }
        ensures same { frozen.new ≡ frozen.old }
    {
        let mut cursor = Cursor::at_end_of(root);
        if root.valid() {
            cursor.enter(frozen, root);
        }
        cursor
    }

    /// Moves to the first pair below the node to which the path leads.
    fn enter<F: Frozen<OFFSET_BITS>>(&mut self, frozen: &mut F, below: EntryRef<OFFSET_BITS>)
        requires leads { Leads (F.records frozen.old) self.old.root self.old.path below }
        ensures at { IsAt (F.records frozen.old) self.new }
        ensures pairs { pairs_from (F.records frozen.old) self.new
            ≡ pairs_below (F.records frozen.old) (level_of (F.records frozen.old below.entry)) below.entry
            ++ pairs_behind (F.records frozen.old) (level_of (F.records frozen.old below.entry)) self.old.path }
        ensures root { self.new.root ≡ self.old.root }
        ensures same { frozen.new ≡ frozen.old }
    {
        let mut node = below;
        let mut head = read_head(frozen, node);
        while head.level > 0 {
            self.path.push(node, 0);
            node = child_at(frozen, node, 0);
            head = read_head(frozen, node);
        }
        read_words(frozen, node, &mut self.words);
        self.leaf = node;
        self.slot = 0;
        self.used = head.used;
    }

    /// Returns a cursor before the first pair whose key is not below the sought key.
    pub fn seek<F: Frozen<OFFSET_BITS>, K: KeyOrder<OFFSET_BITS>>(
        frozen: &mut F,
        root: EntryRef<OFFSET_BITS>,
        key: &K,
    ) -> Cursor<OFFSET_BITS>
        requires tree { IsTree K.order K.read (F.records frozen.old) root }
        requires readable { AllReadable K.can_read (F.records frozen.old) (tree_pairs (F.records frozen.old) root) }
        ensures at { IsAt (F.records frozen.old) result }
        ensures pairs { pairs_from (F.records frozen.old) result
            ≡ seek (seen_by K.read K.order (K.sought key.now) (F.records frozen.old)) (tree_pairs (F.records frozen.old) root.entry) }
        ensures root { result.root ≡ root.entry }
        ensures same { frozen.new ≡ frozen.old }
    {
        let mut cursor = Cursor::at_end_of(root);
        if !root.valid() {
            return cursor;
        }
        let mut node = root;
        let mut spot = visit(frozen, node, key, &mut cursor.words);
        if spot.slot as u64 == cursor.words[0] % LEVEL_BASE {
            return cursor;
        }
        while cursor.words[0] / LEVEL_BASE > 0 {
            cursor.path.push(node, spot.slot as u32);
            node = EntryRef::from_raw(cursor.words[FIRST_VALUE + spot.slot] as u32);
            spot = visit(frozen, node, key, &mut cursor.words);
        }
        cursor.leaf = node;
        cursor.slot = spot.slot as u32;
        cursor.used = (cursor.words[0] % LEVEL_BASE) as u32;
        cursor
    }

    /// Returns whether no pair follows.
    pub fn at_end(&self) -> bool
        ensures pair { IsTrue result ↔ ¬ HasPair self.now }
        ensures pairs { (m : Records) → IsAt m self.now → IsTrue result ↔ (pairs_from m self.now ≡ []) }
    {
        self.slot >= self.used
    }

    /// Returns the key of the next pair.
    pub fn key(&self) -> u64
        requires { HasPair self.now }
        ensures { (m : Records) → IsAt m self.now → result ≡ first_key (pairs_from m self.now) }
    {
        self.words[FIRST_KEY + self.slot as usize]
    }

    /// Returns the value of the next pair.
    pub fn value(&self) -> u64
        requires { HasPair self.now }
        ensures { (m : Records) → IsAt m self.now → result ≡ first_value (pairs_from m self.now) }
    {
        self.words[FIRST_VALUE + self.slot as usize]
    }

    /// Moves past one pair.
    pub fn next<F: Frozen<OFFSET_BITS>>(&mut self, frozen: &mut F)
        requires at { IsAt (F.records frozen.old) self.old }
        requires pair { HasPair self.old }
        ensures at { IsAt (F.records frozen.old) self.new }
        ensures pairs { pairs_from (F.records frozen.old) self.new ≡ drop 1 (pairs_from (F.records frozen.old) self.old) }
        ensures root { self.new.root ≡ self.old.root }
        ensures same { frozen.new ≡ frozen.old }
    {
        if self.slot + 1 < self.used {
            self.slot += 1;
        } else {
            self.next_leaf(frozen);
        }
    }

    /// Moves past the leaf.
    fn next_leaf<F: Frozen<OFFSET_BITS>>(&mut self, frozen: &mut F)
        requires leads { Leads (F.records frozen.old) self.old.root self.old.path self.old.leaf }
        requires leaf { level_of (F.records frozen.old self.old.leaf) ≡ 0 }
        ensures at { IsAt (F.records frozen.old) self.new }
        ensures pairs { pairs_from (F.records frozen.old) self.new ≡ pairs_behind (F.records frozen.old) 0 self.old.path }
        ensures root { self.new.root ≡ self.old.root }
        ensures same { frozen.new ≡ frozen.old }
    {
        while let Some(step) = self.path.pop() {
            let next = step.slot + 1;
            if next < read_head(frozen, step.node).used {
                self.path.push(step.node, next);
                let child = child_at(frozen, step.node, next);
                self.enter(frozen, child);
                return;
            }
        }
        self.slot = self.used;
    }
}
