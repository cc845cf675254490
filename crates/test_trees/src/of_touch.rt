//! Trees that are touched, by which nodes on a key's way lie in the sealed buffer.
ghost use Rattle.std.specs.Prelude.{◌≡◌, ◌<◌, IfOk};
ghost use Rattle.tree_read.specs.Trees.{IsRootNode};
ghost use Rattle.number_tree.specs.Maps.{HoldsTree};

use crate::changes::scrambled;
use crate::texts::{number_at, push_mark};
use crate::trees::records_of;
use arena_api::Frozen;
use check_images::{Keys, check_tree};
use entry_ref::{EntryRef, word_in, words_at};
use frozen_btree::{NumberKey, touch};
use number_tree::{NumberTree, TreeLayout};
use std::alloc::{AllocError, Global};
use std::collections::BTreeMap;
use store_api::{Store, StoreError};

/// Returns the child of a node above the leaves under which a key is sought.
fn child_of(words: &[u64], key: u64) -> u64 {
    let used = (word_in(words, 0) % 256) as usize;
    for slot in 0..used {
        if slot + 1 == used || word_in(words, 2 + slot) >= key {
            return word_in(words, 18 + slot);
        }
    }
    0
}

/// Adds the nodes from a root down to the leaf in which a key is sought.
fn push_way(
    way: &mut Vec<u64>,
    records: &BTreeMap<u32, Vec<u64>>,
    root: u64,
    key: u64,
) -> Result<(), AllocError> {
    let mut node = root;
    for _ in 0..8 {
        way.push(node)?;
        let words = words_at(records, node);
        if word_in(words, 0) < 256 {
            break;
        }
        node = child_of(words, key);
    }
    Ok(())
}

/// Puts a number of keys, and then makes a number of changes of 6,000 keys, most of which remove a key.
fn wear<const OFFSET_BITS: u32, S: Store<OFFSET_BITS, Layout = TreeLayout>>(
    tree: &mut NumberTree<OFFSET_BITS, S>,
    keys: u64,
    changes: u64,
) -> Result<(), StoreError> {
    for key in 0..keys {
        tree.put(key, key)?;
    }
    let mut number = 20261127;
    for _ in 0..changes {
        number = scrambled(number);
        let key = number / 8 % 6000;
        if number % 8 < 5 {
            tree.remove(key)?;
        } else {
            tree.put(key, number)?;
        }
    }
    Ok(())
}

/// Seals the buffer that a compaction would empty, and touches a key.
fn touch_sealed<const OFFSET_BITS: u32, S: Store<OFFSET_BITS>>(
    store: &mut S,
    root: EntryRef<OFFSET_BITS>,
    key: u64,
) -> Result<EntryRef<OFFSET_BITS>, StoreError>
    requires { HoldsTree (S.ledger store.old) (S.records store.old) root }
    ensures { IfOk result (λ r. 0 < r → IsRootNode (S.records store.new) r) }
{
    store.begin();
    match store.choose_victim() {
        Some(buffer) => {
            store.seal(buffer);
            touch(store, root, &NumberKey(key), buffer)
        }
        None => Ok(root),
    }
}

/// Writes for each node of a way whether it lies in a buffer.
fn push_lies<const OFFSET_BITS: u32>(
    line: &mut String,
    way: &[u64],
    buffer: u32,
) -> Result<(), AllocError> {
    line.push_str(" ")?;
    for node in way {
        push_mark(
            line,
            EntryRef::<OFFSET_BITS>::from_raw(u32::try_from(*node).unwrap_or(0)).buffer() == buffer,
        )?;
    }
    Ok(())
}

/// Writes for each node of a way whether it differs in another way.
fn push_others(line: &mut String, old: &[u64], new: &[u64]) -> Result<(), AllocError> {
    line.push_str(" ")?;
    for i in 0..old.len() {
        push_mark(line, old[i] != word_in(new, i))?;
    }
    Ok(())
}

/// The records of a tree, its root, and the way to a key.
#[derive(Drop)]
struct Walked {
    records: BTreeMap<u32, Vec<u64>>,
    root: u64,
    way: Vec<u64>,
}

/// Returns the records of a tree, and the way to a key in it.
fn walked_in<const OFFSET_BITS: u32, F: Frozen<OFFSET_BITS>>(
    alloc: Global,
    frozen: &mut F,
    root: EntryRef<OFFSET_BITS>,
    key: u64,
) -> Result<Walked, AllocError>
    requires { 0 < root → IsRootNode (F.records frozen.old) root }
    ensures { frozen.new ≡ frozen.old }
{
    let mut walked = Walked {
        records: records_of(alloc, frozen, root)?,
        root: u64::from(root.raw()),
        way: Vec::new(alloc),
    };
    push_way(&mut walked.way, &walked.records, walked.root, key)?;
    Ok(walked)
}

/// Returns whether the slow checker finds the same pairs in two trees.
fn same_pairs(alloc: Global, old: &Walked, new: &Walked) -> Result<bool, AllocError> {
    let Ok(pairs) = check_tree(alloc, Keys::Numbers, &old.records, old.root) else {
        return Ok(false);
    };
    match check_tree(alloc, Keys::Numbers, &new.records, new.root) {
        Ok(left) => Ok(pairs == left),
        Err(_) => Ok(false),
    }
}

/// Writes what a touch found and did: which nodes of the way lay in the sealed buffer, which of them were replaced,
/// which still lie there, and whether the pairs are the same.
fn push_touched<const OFFSET_BITS: u32>(
    alloc: Global,
    line: &mut String,
    old: &Walked,
    new: &Walked,
    buffer: u32,
) -> Result<(), AllocError> {
    push_lies::<OFFSET_BITS>(line, &old.way, buffer)?;
    push_others(line, &old.way, &new.way)?;
    push_lies::<OFFSET_BITS>(line, &new.way, buffer)?;
    line.push_str(if same_pairs(alloc, old, new)? {
        " same"
    } else {
        " others"
    })
}

/// Touches a tree at a key, and writes what the touch found and did.
fn touch_in<const OFFSET_BITS: u32, S: Store<OFFSET_BITS>>(
    alloc: Global,
    store: &mut S,
    root: EntryRef<OFFSET_BITS>,
    key: u64,
    line: &mut String,
) -> Result<(), AllocError>
    requires { HoldsTree (S.ledger store.old) (S.records store.old) root }
{
    let buffer = store.choose_victim().unwrap_or(0);
    let old = walked_in(alloc, store, root, key)?;
    let Ok(next) = touch_sealed(store, root, key) else {
        return line.push_str(" full");
    };
    let new = walked_in(alloc, store, next, key)?;
    push_touched::<OFFSET_BITS>(alloc, line, &old, &new, buffer)
}

/// Returns the result of a row: after so many keys and changes, for a key, which nodes of its way lay in the sealed
/// buffer, which were copied, which still lie there, and whether the pairs are the same.
pub fn answer<const OFFSET_BITS: u32, S: Store<OFFSET_BITS, Layout = TreeLayout> + Drop>(
    alloc: Global,
    tree: NumberTree<OFFSET_BITS, S>,
    words: &str,
    line: &mut String,
) -> Result<(), AllocError> {
    let mut tree = tree;
    if wear(&mut tree, number_at(words, 0), number_at(words, 1)).is_err() {
        return line.push_str(" full");
    }
    let root = tree.root();
    let mut store = tree.into_store();
    touch_in(alloc, &mut store, root, number_at(words, 2), line)
}
