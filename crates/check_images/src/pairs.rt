//! Collects the pairs of a tree, and checks that their keys ascend.

ghost use Rattle.std.specs.Prelude.{◌≡◌, ◌≤◌, ◌∷◌, [], ◌++◌, length, OnOk, IfErr};
ghost use Rattle.std.specs.List.{zip};
ghost use Rattle.tree_read.specs.Nodes.{used_of, node_keys, node_values};
ghost use Rattle.tree_read.specs.Trees.{last_key};
ghost use Rattle.check_images.specs.Keys.{PairsAscend};
ghost use Rattle.check_images.specs.Refutations.{Refutes};
ghost use Rattle.entry_ref.specs.Maps.{seen};

use crate::fault::CheckFault;
use crate::keys::{Keys, compare_keys};
use std::alloc::Global;
use std::collections::BTreeMap;
use tree_read::{FIRST_KEY, FIRST_VALUE, MOST_SLOTS, NODE_WORDS};

/// Returns the last key, or 0 if there is none.
pub fn last_of(pairs: &[(u64, u64)]) -> u64
    ensures last { result ≡ last_key pairs.now }
{
    match pairs.last() {
        Some(pair) => pair.0,
        None => 0,
    }
}

/// Checks the order of a key that follows ascending keys.
fn check_order(
    alloc: Global,
    keys: Keys,
    records: &BTreeMap<u32, Vec<u64>>,
    pairs: &[(u64, u64)],
    key: u64,
) -> Result<(), CheckFault>
    requires { PairsAscend keys (seen records.now) pairs.now }
    ensures ascends { OnOk result ((value : _) → PairsAscend keys (seen records.now) (pairs.now ++ ((key, value) ∷ []))) }
    ensures exact { IfErr result (λ fault. (value : _)
        → Refutes (PairsAscend keys (seen records.now) (pairs.now ++ ((key, value) ∷ []))) fault) }
{
    if pairs.is_empty() {
        return Ok(());
    }
    let order = compare_keys(alloc, keys, records, last_of(pairs), key)?;
    if order.is_lt() {
        Ok(())
    } else {
        Err(CheckFault::Broken)
    }
}

/// Adds a pair after pairs with ascending keys.
fn add_pair(
    alloc: Global,
    keys: Keys,
    records: &BTreeMap<u32, Vec<u64>>,
    pairs: &mut Vec<(u64, u64)>,
    key: u64,
    value: u64,
) -> Result<(), CheckFault>
    requires { PairsAscend keys (seen records.now) pairs.old.items }
    ensures pairs { OnOk result (pairs.new.items ≡ pairs.old.items ++ ((key, value) ∷ [])) }
    ensures ascends { OnOk result (PairsAscend keys (seen records.now) pairs.new.items) }
    ensures exact { IfErr result (Refutes (PairsAscend keys (seen records.now) (pairs.old.items ++ ((key, value) ∷ [])))) }
{
    check_order(alloc, keys, records, pairs, key)?;
    match pairs.push((key, value)) {
        Ok(()) => Ok(()),
        Err(_) => Err(CheckFault::Memory),
    }
}

/// Adds the pairs of a leaf's words.
pub fn add_leaf(
    alloc: Global,
    keys: Keys,
    records: &BTreeMap<u32, Vec<u64>>,
    pairs: &mut Vec<(u64, u64)>,
    words: &[u64],
) -> Result<(), CheckFault>
    requires size { length words.now ≡ NODE_WORDS }
    requires room { used_of words.now ≤ MOST_SLOTS }
    requires ascends { PairsAscend keys (seen records.now) pairs.old.items }
    ensures pairs { OnOk result (pairs.new.items ≡ pairs.old.items ++ zip (node_keys words.now) (node_values words.now)) }
    ensures ascends { OnOk result (PairsAscend keys (seen records.now) pairs.new.items) }
    ensures exact { IfErr result (Refutes (PairsAscend keys (seen records.now)
        (pairs.old.items ++ zip (node_keys words.now) (node_values words.now)))) }
{
    let used = (words[0] % 256) as usize;
    for i in 0..used {
        add_pair(
            alloc,
            keys,
            records,
            pairs,
            words[FIRST_KEY + i],
            words[FIRST_VALUE + i],
        )?;
    }
    Ok(())
}
