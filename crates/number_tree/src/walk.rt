//! Walks over the pairs of the map.

ghost use Rattle.std.specs.Prelude.{◌≡◌, ◌<◌, IfOk};
ghost use Rattle.std.specs.Ordering.{nat_cmp};
ghost use Rattle.tree_read.specs.Trees.{tree_pairs, by_number, IsRootNode, IsTree};
ghost use Rattle.tree_read.specs.Pairs.{seek};
ghost use Rattle.number_tree.specs.Maps.{beside_number, first_of};

use arena_api::Frozen;
use entry_ref::EntryRef;
use frozen_btree::{Cursor, NumberKey};
use std::alloc::{AllocError, Global};

/// Returns the first pair of a tree by number whose key is at least `key`.
pub fn first_from<const OFFSET_BITS: u32, F: Frozen<OFFSET_BITS>>(
    frozen: &mut F,
    root: EntryRef<OFFSET_BITS>,
    key: u64,
) -> Option<(u64, u64)>
    requires tree { IsTree nat_cmp by_number (F.records frozen.old) root }
    ensures pair { result ≡ first_of (seek (beside_number key) (tree_pairs (F.records frozen.old) root.entry)) }
    ensures same { frozen.new ≡ frozen.old }
{
    let cursor = Cursor::seek(frozen, root, &NumberKey(key));
    if cursor.at_end() {
        return None;
    }
    let stored = cursor.key();
    let value = cursor.value();
    Some((stored, value))
}

/// Returns the pairs of a tree in the order of its keys, by one walk.
pub fn all_pairs<const OFFSET_BITS: u32, F: Frozen<OFFSET_BITS>>(
    alloc: Global,
    frozen: &mut F,
    root: EntryRef<OFFSET_BITS>,
) -> Result<Vec<(u64, u64)>, AllocError>
    requires tree { 0 < root → IsRootNode (F.records frozen.old) root }
    ensures pairs { IfOk result (λ pairs. pairs.items ≡ tree_pairs (F.records frozen.old) root.entry) }
    ensures same { frozen.new ≡ frozen.old }
{
    let mut pairs = Vec::new(alloc);
    let mut cursor = Cursor::first(frozen, root);
    while !cursor.at_end() {
        let key = cursor.key();
        let value = cursor.value();
        pairs.push((key, value))?;
        cursor.next(frozen);
    }
    Ok(pairs)
}
