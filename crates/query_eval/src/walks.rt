//! The documents of the values from a position in a dictionary on.
ghost use Rattle.std.specs.Prelude.{◌≡◌, ◌||◌, ℕ, IfOk, OnOk};
ghost use Rattle.tree_read.specs.SearchPlaces.{IsAt, pairs_from};
ghost use Rattle.image_format.specs.Postings.{index_of};
ghost use Rattle.index_model.specs.Gathers.{is_gathered};
ghost use Rattle.index_model.specs.Sets.{has};
ghost use Rattle.index_model.specs.Leaves.{from, listed, meeting, run};
ghost use Rattle.query_eval.specs.Parts.{IsIndexed, AreIndexPairs, index_of_pairs};

use crate::lists::gather_list;
use crate::starts::start_of;
use crate::values::{is_before_at, is_beyond_at};
use arena_api::Frozen;
use attr_types::{Leaf, ValueType};
use entry_ref::EntryRef;
use frozen_btree::Cursor;
use index_model::Gathered;
use std::alloc::{AllocError, Global};

/// Moves past the values before those of the leaf.
fn skip_before<const OFFSET_BITS: u32, F: Frozen<OFFSET_BITS>>(
    alloc: Global,
    frozen: &mut F,
    cursor: &mut Cursor<OFFSET_BITS>,
    value_type: ValueType,
    leaf: &Leaf,
) -> Result<(), AllocError>
    requires at { IsAt (F.records frozen.old) cursor.old }
    requires pairs { AreIndexPairs value_type (F.records frozen.old) (pairs_from (F.records frozen.old) cursor.old) }
    ensures at { OnOk result (IsAt (F.records frozen.old) cursor.new) }
    ensures pairs { OnOk result (AreIndexPairs value_type (F.records frozen.old) (pairs_from (F.records frozen.old) cursor.new)) }
    ensures part { OnOk result (index_of_pairs value_type (F.records frozen.old) (pairs_from (F.records frozen.old) cursor.new)
        ≡ from leaf.now (index_of_pairs value_type (F.records frozen.old) (pairs_from (F.records frozen.old) cursor.old))) }
    ensures same { frozen.new ≡ frozen.old }
{
    while !cursor.at_end() {
        if !is_before_at(alloc, frozen, cursor.key(), value_type, leaf)? {
            return Ok(());
        }
        cursor.next(frozen);
    }
    Ok(())
}

/// Adds the documents of the values from the cursor on, up to the first value after those of the leaf, to those
/// gathered.
fn gather_from<const OFFSET_BITS: u32, F: Frozen<OFFSET_BITS>>(
    alloc: Global,
    frozen: &mut F,
    cursor: &mut Cursor<OFFSET_BITS>,
    value_type: ValueType,
    leaf: &Leaf,
    gathered: Gathered,
) -> Result<Gathered, AllocError>
    requires at { IsAt (F.records frozen.old) cursor.old }
    requires pairs { AreIndexPairs value_type (F.records frozen.old) (pairs_from (F.records frozen.old) cursor.old) }
    ensures docs { IfOk result (λ all. (doc : ℕ) → is_gathered all doc ≡ (is_gathered gathered doc
        || has (listed (run leaf.now (index_of_pairs value_type (F.records frozen.old) (pairs_from (F.records frozen.old) cursor.old))))
        doc)) }
    ensures same { frozen.new ≡ frozen.old }
{
    let mut all = gathered;
    while !cursor.at_end() {
        if is_beyond_at(alloc, frozen, cursor.key(), value_type, leaf)? {
            return Ok(all);
        }
        all = gather_list(alloc, frozen, cursor.value(), all)?;
        cursor.next(frozen);
    }
    Ok(all)
}

/// Returns a cursor before the first value that meets a leaf, or before a value after those that meet it.
pub fn first_of_leaf<const OFFSET_BITS: u32, F: Frozen<OFFSET_BITS>>(
    alloc: Global,
    frozen: &mut F,
    root: EntryRef<OFFSET_BITS>,
    value_type: ValueType,
    leaf: &Leaf,
) -> Result<Cursor<OFFSET_BITS>, AllocError>
    requires { IsIndexed value_type (F.records frozen.old) root }
    ensures at { IfOk result (λ cursor. IsAt (F.records frozen.old) cursor) }
    ensures pairs { IfOk result (λ cursor. AreIndexPairs value_type (F.records frozen.old) (pairs_from (F.records frozen.old) cursor)) }
    ensures part { IfOk result (λ cursor. run leaf.now (index_of_pairs value_type (F.records frozen.old) (pairs_from (F.records frozen.old) cursor))
        ≡ meeting leaf.now (index_of value_type (F.records frozen.old) root.entry)) }
    ensures same { frozen.new ≡ frozen.old }
{
    let mut cursor = start_of(frozen, root, value_type, leaf)?;
    skip_before(alloc, frozen, &mut cursor, value_type, leaf)?;
    Ok(cursor)
}

/// Adds the documents of the values that meet a leaf to those gathered.
pub fn gather_leaf<const OFFSET_BITS: u32, F: Frozen<OFFSET_BITS>>(
    alloc: Global,
    frozen: &mut F,
    root: EntryRef<OFFSET_BITS>,
    value_type: ValueType,
    leaf: &Leaf,
    gathered: Gathered,
) -> Result<Gathered, AllocError>
    requires { IsIndexed value_type (F.records frozen.old) root }
    ensures docs { IfOk result (λ all. (doc : ℕ) → is_gathered all doc ≡ (is_gathered gathered doc
        || has (listed (meeting leaf.now (index_of value_type (F.records frozen.old) root.entry))) doc)) }
    ensures same { frozen.new ≡ frozen.old }
{
    let mut cursor = first_of_leaf(alloc, frozen, root, value_type, leaf)?;
    gather_from(alloc, frozen, &mut cursor, value_type, leaf, gathered)
}

/// Adds the documents of all values to those gathered.
pub fn gather_every<const OFFSET_BITS: u32, F: Frozen<OFFSET_BITS>>(
    alloc: Global,
    frozen: &mut F,
    root: EntryRef<OFFSET_BITS>,
    value_type: ValueType,
    gathered: Gathered,
) -> Result<Gathered, AllocError>
    requires { IsIndexed value_type (F.records frozen.old) root }
    ensures docs { IfOk result (λ all. (doc : ℕ) → is_gathered all doc ≡ (is_gathered gathered doc
        || has (listed (index_of value_type (F.records frozen.old) root.entry)) doc)) }
    ensures same { frozen.new ≡ frozen.old }
{
    let mut all = gathered;
    let mut cursor = Cursor::first(frozen, root);
    while !cursor.at_end() {
        all = gather_list(alloc, frozen, cursor.value(), all)?;
        cursor.next(frozen);
    }
    Ok(all)
}
