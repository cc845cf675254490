//! Cursors at a value of the dictionary.

ghost use Rattle.std.specs.Prelude.{◌≡◌};
ghost use Rattle.tree_read.specs.Trees.{tree_pairs};
ghost use Rattle.tree_read.specs.Pairs.{seek};
ghost use Rattle.tree_read.specs.SearchPlaces.{IsAt, pairs_from};
ghost use Rattle.attr_types.specs.Value.{type_of};
ghost use Rattle.enum_dictionary.specs.Dictionaries.{IsDictionary, behind, beside_value};

use crate::keys::{LongKey, TextKey};
use arena_api::Frozen;
use attr_types::Value;
use entry_ref::EntryRef;
use frozen_btree::Cursor;
use unique_store::compare;

/// Returns a cursor before the first value that is not below this one.
pub fn lower<const OFFSET_BITS: u32, F: Frozen<OFFSET_BITS>>(
    frozen: &mut F,
    root: EntryRef<OFFSET_BITS>,
    value: &Value,
) -> Cursor<OFFSET_BITS>
    requires { IsDictionary (type_of value.now) (F.records frozen.old) root }
    ensures at { IsAt (F.records frozen.old) result }
    ensures pairs { pairs_from (F.records frozen.old) result
        ≡ seek (beside_value value.now (F.records frozen.old)) (tree_pairs (F.records frozen.old) root.entry) }
    ensures root { result.root ≡ root.entry }
    ensures same { frozen.new ≡ frozen.old }
{
    match value {
        Value::Long(_) => Cursor::seek(frozen, root, &LongKey::new(value)),
        Value::Text(_) => Cursor::seek(frozen, root, &TextKey::new(value)),
    }
}

/// Returns a cursor before the first value above this one.
pub fn upper<const OFFSET_BITS: u32, F: Frozen<OFFSET_BITS>>(
    frozen: &mut F,
    root: EntryRef<OFFSET_BITS>,
    value: &Value,
) -> Cursor<OFFSET_BITS>
    requires { IsDictionary (type_of value.now) (F.records frozen.old) root }
    ensures at { IsAt (F.records frozen.old) result }
    ensures pairs { pairs_from (F.records frozen.old) result
        ≡ behind (beside_value value.now (F.records frozen.old)) (tree_pairs (F.records frozen.old) root.entry) }
    ensures root { result.root ≡ root.entry }
    ensures same { frozen.new ≡ frozen.old }
{
    let mut cursor = lower(frozen, root, value);
    if cursor.at_end() {
        return cursor;
    }
    let key = EntryRef::from_raw(cursor.key() as u32);
    if compare(frozen, key, value).is_eq() {
        cursor.next(frozen);
    }
    cursor
}
