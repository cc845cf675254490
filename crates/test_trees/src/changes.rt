//! Many changes of a tree beside a sorted list.

use crate::texts::number_in;
use crate::trees::{Seen, look};
use number_tree::{NumberTree, TreeLayout};
use std::alloc::{AllocError, Global};
use store_api::Store;

/// Returns the next number of a fixed sequence that looks random.
pub fn scrambled(number: u64) -> u64 {
    let mut next = number ^ (number << 13);
    next ^= next >> 7;
    next ^ (next << 17)
}

/// Returns where a key is among sorted pairs, or would be.
fn place_of(pairs: &Vec<(u64, u64)>, key: u64) -> usize {
    for i in 0..pairs.len() {
        if pairs[i].0 >= key {
            return i;
        }
    }
    pairs.len()
}

/// Inserts a pair into sorted pairs.
fn put(pairs: &mut Vec<(u64, u64)>, key: u64, value: u64) -> Result<(), AllocError> {
    let place = place_of(pairs, key);
    if place < pairs.len() && pairs[place].0 == key {
        pairs[place] = (key, value);
    } else if place <= pairs.len() && pairs.insert(place, (key, value)).is_err() {
        return Err(AllocError);
    }
    Ok(())
}

/// Removes a key from sorted pairs, and returns whether it was there.
fn take(pairs: &mut Vec<(u64, u64)>, key: u64) -> bool {
    let place = place_of(pairs, key);
    let there = place < pairs.len() && pairs[place].0 == key;
    if there {
        pairs.remove(place);
    }
    there
}

/// Makes 500 changes of a tree and of sorted pairs; `puts` of eight changes are puts. Returns the next number, or
/// `None` if the two differ.
fn change<const OFFSET_BITS: u32, S: Store<OFFSET_BITS, Layout = TreeLayout>>(
    tree: &mut NumberTree<OFFSET_BITS, S>,
    pairs: &mut Vec<(u64, u64)>,
    seed: u64,
    puts: u64,
) -> Result<Option<u64>, AllocError> {
    let mut number = seed;
    for _ in 0..500 {
        number = scrambled(number);
        let key = number / 8 % 600;
        if number % 8 < puts {
            put(pairs, key, number)?;
            if tree.put(key, number).is_err() {
                return Err(AllocError);
            }
        } else if tree.remove(key) != Ok(take(pairs, key)) {
            return Ok(None);
        }
    }
    Ok(Some(number))
}

/// Returns whether a tree can be committed and has these pairs.
fn is_same<const OFFSET_BITS: u32, S: Store<OFFSET_BITS, Layout = TreeLayout>>(
    alloc: Global,
    tree: &mut NumberTree<OFFSET_BITS, S>,
    pairs: &[(u64, u64)],
) -> Result<bool, AllocError> {
    if tree.commit().is_none() {
        return Ok(false);
    }
    Ok(tree.pairs(alloc)?.as_slice() == pairs)
}

/// Makes rounds of 500 changes, each with a commit, and returns whether the tree has the pairs of the list after
/// each.
fn are_same<const OFFSET_BITS: u32, S: Store<OFFSET_BITS, Layout = TreeLayout>>(
    alloc: Global,
    tree: &mut NumberTree<OFFSET_BITS, S>,
    pairs: &mut Vec<(u64, u64)>,
    words: &str,
) -> Result<bool, AllocError> {
    let (seed, rounds) = words.split_once(' ').unwrap_or((words, ""));
    let mut number = number_in(seed);
    for puts in rounds.split(' ') {
        match change(tree, pairs, number, number_in(puts))? {
            Some(next) => number = next,
            None => return Ok(false),
        }
        if !is_same(alloc, tree, pairs)? {
            return Ok(false);
        }
    }
    Ok(true)
}

fn are_seen(seen: Option<Seen>, pairs: &[(u64, u64)]) -> bool {
    match seen {
        Some(seen) => seen.pairs.as_slice() == pairs && seen.heads.len() > 2,
        None => false,
    }
}

/// Makes the rounds of a row on a new tree. Returns whether it has the pairs of the list after each round, and more
/// than two nodes at the end.
fn are_right<const OFFSET_BITS: u32, S: Store<OFFSET_BITS, Layout = TreeLayout> + Drop>(
    alloc: Global,
    tree: NumberTree<OFFSET_BITS, S>,
    words: &str,
    pairs: &mut Vec<(u64, u64)>,
) -> Result<bool, AllocError> {
    let mut tree = tree;
    if !are_same(alloc, &mut tree, pairs, words)? {
        return Ok(false);
    }
    Ok(are_seen(look(alloc, tree)?, pairs))
}

/// Returns the result of a row: for each round of 500 changes, the row says how many of eight are puts.
pub fn answer<const OFFSET_BITS: u32, S: Store<OFFSET_BITS, Layout = TreeLayout> + Drop>(
    alloc: Global,
    tree: NumberTree<OFFSET_BITS, S>,
    words: &str,
    line: &mut String,
) -> Result<(), AllocError> {
    let mut pairs = Vec::new(alloc);
    let right = are_right(alloc, tree, words, &mut pairs)?;
    line.push_str(if right {
        " the same, in more than two nodes"
    } else {
        " others"
    })
}
