//! Where the walk of a leaf begins.
ghost use Rattle.std.specs.Prelude.{◌≡◌, Some, IfOk};
ghost use Rattle.tree_read.specs.Trees.{tree_pairs};
ghost use Rattle.tree_read.specs.SearchPlaces.{IsAt, pairs_from};
ghost use Rattle.image_format.specs.Postings.{index_of};
ghost use Rattle.attr_types.specs.declared.query.Leaf.{Leaf as AnyLeaf};
ghost use Rattle.attr_types.specs.declared.value.Value.TheVariants as values;
ghost use Rattle.index_model.specs.Leaves.{from, meeting, run, sought};
ghost use Rattle.query_eval.specs.Parts.{IsIndexed, AreIndexPairs, index_of_pairs};

use crate::values::is_of_type;
use arena_api::Frozen;
use attr_types::{Leaf, Text, Value, ValueType};
use entry_ref::EntryRef;
use enum_dictionary::lower;
use frozen_btree::Cursor;
use std::alloc::{AllocError, Global};

/// Returns a cursor before the first value that is not below a value. If the value has another type, the cursor is
/// before the first value.
fn start_at<const OFFSET_BITS: u32, F: Frozen<OFFSET_BITS>>(
    frozen: &mut F,
    root: EntryRef<OFFSET_BITS>,
    value_type: ValueType,
    low: &Value,
) -> Cursor<OFFSET_BITS>
    requires { IsIndexed value_type (F.records frozen.old) root }
    ensures at { IsAt (F.records frozen.old) result }
    ensures pairs { AreIndexPairs value_type (F.records frozen.old) (pairs_from (F.records frozen.old) result) }
    ensures part { (leaf : AnyLeaf) → sought leaf ≡ Some low.now
        → run leaf (from leaf (index_of_pairs value_type (F.records frozen.old) (pairs_from (F.records frozen.old) result)))
        ≡ meeting leaf (index_of value_type (F.records frozen.old) root.entry) }
    ensures same { frozen.new ≡ frozen.old }
{
    if is_of_type(low, value_type) {
        lower(frozen, root, low)
    } else {
        Cursor::first(frozen, root)
    }
}

/// Returns a cursor before the first text that is not below a prefix.
fn start_at_text<const OFFSET_BITS: u32, F: Frozen<OFFSET_BITS>>(
    frozen: &mut F,
    root: EntryRef<OFFSET_BITS>,
    value_type: ValueType,
    prefix: &Text,
) -> Result<Cursor<OFFSET_BITS>, AllocError>
    requires { IsIndexed value_type (F.records frozen.old) root }
    ensures at { IfOk result (λ cursor. IsAt (F.records frozen.old) cursor) }
    ensures pairs { IfOk result (λ cursor. AreIndexPairs value_type (F.records frozen.old) (pairs_from (F.records frozen.old) cursor)) }
    ensures part { IfOk result (λ cursor. (leaf : AnyLeaf) → sought leaf ≡ Some (values.Text prefix.now)
        → run leaf (from leaf (index_of_pairs value_type (F.records frozen.old) (pairs_from (F.records frozen.old) cursor)))
        ≡ meeting leaf (index_of value_type (F.records frozen.old) root.entry)) }
    ensures same { frozen.new ≡ frozen.old }
{
    let low = Value::Text(prefix.clone()?);
    Ok(start_at(frozen, root, value_type, &low))
}

/// Returns a cursor before the value that a leaf seeks, or before the first value.
pub fn start_of<const OFFSET_BITS: u32, F: Frozen<OFFSET_BITS>>(
    frozen: &mut F,
    root: EntryRef<OFFSET_BITS>,
    value_type: ValueType,
    leaf: &Leaf,
) -> Result<Cursor<OFFSET_BITS>, AllocError>
    requires { IsIndexed value_type (F.records frozen.old) root }
    ensures at { IfOk result (λ cursor. IsAt (F.records frozen.old) cursor) }
    ensures pairs { IfOk result (λ cursor. AreIndexPairs value_type (F.records frozen.old) (pairs_from (F.records frozen.old) cursor)) }
    ensures part { IfOk result (λ cursor.
        run leaf.now (from leaf.now (index_of_pairs value_type (F.records frozen.old) (pairs_from (F.records frozen.old) cursor)))
        ≡ meeting leaf.now (index_of value_type (F.records frozen.old) root.entry)) }
    ensures same { frozen.new ≡ frozen.old }
{
    match leaf {
        Leaf::Is(wanted) => Ok(start_at(frozen, root, value_type, wanted)),
        Leaf::Prefix(prefix) => start_at_text(frozen, root, value_type, prefix),
        Leaf::Range { low, high: _ } => match low {
            Some(low) => Ok(start_at(frozen, root, value_type, low)),
            None => Ok(Cursor::first(frozen, root)),
        },
        Leaf::Below(_) => Ok(Cursor::first(frozen, root)),
        Leaf::Above(low) => Ok(start_at(frozen, root, value_type, low)),
    }
}
