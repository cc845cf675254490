//! Checks a tree: levels, counts, fill and order.

ghost use Rattle.std.specs.Prelude.{◌≡◌, ◌++◌, OnOk, IfOk, IfErr};
ghost use Rattle.tree_read.specs.Nodes.{IsNodeForm};
ghost use Rattle.tree_read.specs.Trees.{pairs_below, tree_pairs, IsNode, root_least};
ghost use Rattle.check_images.specs.Keys.{PairsAscend, IsTreeOf};
ghost use Rattle.check_images.specs.Refutations.{Refutes};
ghost use Rattle.entry_ref.specs.Maps.{seen};

use crate::fault::CheckFault;
use crate::keys::Keys;
use crate::node::is_node_form;
use crate::pairs::{add_leaf, last_of};
use entry_ref::{word_in, words_at};
use std::alloc::Global;
use std::collections::BTreeMap;
use tree_read::{FIRST_KEY, FIRST_VALUE, LEAST_SLOTS};

/// Returns the words of a node of this level with at least `least` used slots.
fn read_node(
    records: &BTreeMap<u32, Vec<u64>>,
    reference: u64,
    level: u32,
    least: u32,
) -> Result<&[u64], CheckFault>
    ensures words { IfOk result (λ words. words.now ≡ seen records.now reference) }
    ensures form { OnOk result (IsNodeForm level least (seen records.now reference)) }
    ensures exact { IfErr result (Refutes (IsNodeForm level least (seen records.now reference))) }
{
    let words = words_at(records, reference);
    if is_node_form(words, level, least) {
        Ok(words)
    } else {
        Err(CheckFault::Broken)
    }
}

/// Adds the pairs below a node, after pairs with ascending keys.
fn walk(
    alloc: Global,
    keys: Keys,
    records: &BTreeMap<u32, Vec<u64>>,
    reference: u64,
    level: u32,
    least: u32,
    pairs: &mut Vec<(u64, u64)>,
) -> Result<(), CheckFault>
    requires { PairsAscend keys (seen records.now) pairs.old.items }
    ensures node { OnOk result (IsNode (seen records.now) least level reference) }
    ensures pairs { OnOk result (pairs.new.items ≡ pairs.old.items ++ pairs_below (seen records.now) level reference) }
    ensures ascends { OnOk result (PairsAscend keys (seen records.now) pairs.new.items) }
    ensures exact { IfErr result (Refutes (IsNode (seen records.now) least level reference
        × PairsAscend keys (seen records.now) (pairs.old.items ++ pairs_below (seen records.now) level reference))) }
{
    let words = read_node(records, reference, level, least)?;
    let begin = pairs.len();
    if level == 0 {
        add_leaf(alloc, keys, records, pairs, words)?;
        if words[1] != (pairs.len() - begin) as u64 {
            return Err(CheckFault::Broken);
        }
        return Ok(());
    }
    let used = (words[0] % 256) as usize;
    for i in 0..used {
        walk(
            alloc,
            keys,
            records,
            words[FIRST_VALUE + i],
            level - 1,
            LEAST_SLOTS as u32,
            pairs,
        )?;
        if words[FIRST_KEY + i] != last_of(pairs) {
            return Err(CheckFault::Broken);
        }
    }
    if words[1] != (pairs.len() - begin) as u64 {
        return Err(CheckFault::Broken);
    }
    Ok(())
}

/// Returns the least number of slots that a root of this level must use.
fn least_of(level: u64) -> u32
    ensures { result ≡ root_least level }
{
    if level == 0 { 1 } else { 2 }
}

/// Returns the pairs of the tree at a root, which has none at root 0, or `Broken` if the records are not a tree. A
/// level above 7 is refused, so the check ends for all records, also those with cycles.
pub fn check_tree(
    alloc: Global,
    keys: Keys,
    records: &BTreeMap<u32, Vec<u64>>,
    root: u64,
) -> Result<Vec<(u64, u64)>, CheckFault>
    ensures tree { OnOk result (IsTreeOf keys (seen records.now) root) }
    ensures pairs { IfOk result (λ pairs. pairs.items ≡ tree_pairs (seen records.now) root) }
    ensures exact { IfErr result (Refutes (IsTreeOf keys (seen records.now) root)) }
{
    let mut pairs = Vec::new(alloc);
    if root == 0 {
        return Ok(pairs);
    }
    let level = word_in(words_at(records, root), 0) / 256;
    if level > 7 {
        return Err(CheckFault::Broken);
    }
    walk(
        alloc,
        keys,
        records,
        root,
        level as u32,
        least_of(level),
        &mut pairs,
    )?;
    Ok(pairs)
}
