//! Steps on a tree, each a word followed by numbers, and the result of each.

use crate::texts::{number_at, push_numbers, push_pair, push_said, push_value};
use crate::trees::{Seen, look};
use number_tree::{NumberTree, TreeLayout};
use std::alloc::{AllocError, Global};
use store_api::Store;

/// Puts keys from one to below another, each with itself as its value, up to the first that is refused, which must
/// then be missing.
fn fill<const OFFSET_BITS: u32, S: Store<OFFSET_BITS, Layout = TreeLayout>>(
    tree: &mut NumberTree<OFFSET_BITS, S>,
    from: u64,
    to: u64,
    line: &mut String,
) -> Result<(), AllocError> {
    let before = u64::from(tree.len());
    for key in from..to {
        let said = tree.put(key, key);
        if said.is_err() {
            push_said(line, said)?;
            let same = u64::from(tree.len()) == before.wrapping_add(key - from);
            return line.push_str(if same && tree.get(key).is_none() {
                ""
            } else {
                " changed"
            });
        }
    }
    line.push_str(" done")
}

/// Removes a key, which must then be missing.
fn take<const OFFSET_BITS: u32, S: Store<OFFSET_BITS, Layout = TreeLayout>>(
    tree: &mut NumberTree<OFFSET_BITS, S>,
    key: u64,
    line: &mut String,
) -> Result<(), AllocError> {
    let taken = tree.remove(key) == Ok(true);
    line.push_str(if taken && tree.get(key).is_none() {
        " taken"
    } else {
        " not taken"
    })
}

fn take_step<const OFFSET_BITS: u32, S: Store<OFFSET_BITS, Layout = TreeLayout>>(
    tree: &mut NumberTree<OFFSET_BITS, S>,
    step: &str,
    line: &mut String,
) -> Result<(), AllocError> {
    let (word, rest) = step.split_once(' ').unwrap_or((step, ""));
    let (first, second) = (number_at(rest, 0), number_at(rest, 1));
    match word {
        "fill" => fill(tree, first, second, line),
        "put" => push_said(line, tree.put(first, second)),
        "take" => take(tree, first, line),
        "get" => push_value(line, tree.get(first)),
        "from" => push_pair(line, tree.at_or_above(first)),
        "look" => Ok(()),
        _ => line.push_str(" no step"),
    }
}

fn take_steps<const OFFSET_BITS: u32, S: Store<OFFSET_BITS, Layout = TreeLayout>>(
    tree: &mut NumberTree<OFFSET_BITS, S>,
    steps: &str,
    line: &mut String,
) -> Result<(), AllocError> {
    for step in steps.split(',') {
        take_step(tree, step.trim(), line)?;
    }
    Ok(())
}

/// Writes the first words of the upper nodes, the count in the root, and the number of pairs.
pub fn push_seen(line: &mut String, seen: &Seen) -> Result<(), AllocError> {
    line.push_str(if seen.root == 0 { "; empty" } else { ";" })?;
    push_numbers(line, &seen.heads)?;
    line.push_str(";")?;
    push_numbers(line, &[seen.count, seen.pairs.len() as u64])
}

/// Writes how the nodes of a tree are filled, or whether its count is right.
fn push_look(line: &mut String, seen: &Seen, looks: bool) -> Result<(), AllocError> {
    if looks {
        return push_seen(line, seen);
    }
    let counted = seen.count == seen.pairs.len() as u64;
    line.push_str(if counted { "" } else { "; not counted" })
}

/// Writes the result of a look at the records of a tree.
fn tell<const OFFSET_BITS: u32, S: Store<OFFSET_BITS, Layout = TreeLayout> + Drop>(
    alloc: Global,
    tree: NumberTree<OFFSET_BITS, S>,
    line: &mut String,
    looks: bool,
) -> Result<(), AllocError> {
    match look(alloc, tree)? {
        Some(seen) => push_look(line, &seen, looks),
        None => line.push_str("; no tree"),
    }
}

/// Returns the result of a row: `BUFFERS STEPS`, on a new tree, and a look at its records.
pub fn answer<const OFFSET_BITS: u32, S: Store<OFFSET_BITS, Layout = TreeLayout> + Drop>(
    alloc: Global,
    tree: NumberTree<OFFSET_BITS, S>,
    words: &str,
    line: &mut String,
) -> Result<(), AllocError> {
    let (_, steps) = words.split_once(' ').unwrap_or((words, ""));
    let mut tree = tree;
    take_steps(&mut tree, steps, line)?;
    tell(alloc, tree, line, steps.ends_with("look"))
}
