//! Finds the entry of a value.

ghost use Rattle.std.specs.Prelude.{◌≡◌};
ghost use Rattle.std.specs.Option.{option_map};
ghost use Rattle.tree_read.specs.Trees.{tree_pairs};
ghost use Rattle.tree_read.specs.Pairs.{lookup_pair};
ghost use Rattle.attr_types.specs.Value.{type_of};
ghost use Rattle.enum_dictionary.specs.Dictionaries.{IsDictionary, beside_value, entry_of};

use crate::keys::{LongKey, TextKey};
use arena_api::Frozen;
use attr_types::Value;
use entry_ref::EntryRef;
use frozen_btree::find as find_pair;

/// The entry of a value: the record that is its key, and the word of its posting list.
#[derive(Clone, Copy, Debug, PartialEq, Eq, Drop)]
pub struct DictEntry<const OFFSET_BITS: u32> {
    pub key: EntryRef<OFFSET_BITS>,
    pub posting: u64,
}

/// Returns the pair of a value.
fn pair_of<const OFFSET_BITS: u32, F: Frozen<OFFSET_BITS>>(
    frozen: &mut F,
    root: EntryRef<OFFSET_BITS>,
    value: &Value,
) -> Option<(u64, u64)>
    requires { IsDictionary (type_of value.now) (F.records frozen.old) root }
    ensures pair { result ≡ lookup_pair (beside_value value.now (F.records frozen.old)) (tree_pairs (F.records frozen.old) root.entry) }
    ensures same { frozen.new ≡ frozen.old }
{
    match value {
        Value::Long(_) => find_pair(frozen, root, &LongKey::new(value)),
        Value::Text(_) => find_pair(frozen, root, &TextKey::new(value)),
    }
}

/// Returns the entry of a value, if the value exists.
pub fn find<const OFFSET_BITS: u32, F: Frozen<OFFSET_BITS>>(
    frozen: &mut F,
    root: EntryRef<OFFSET_BITS>,
    value: &Value,
) -> Option<DictEntry<OFFSET_BITS>>
    requires { IsDictionary (type_of value.now) (F.records frozen.old) root }
    ensures entry { result ≡ option_map (entry_of OFFSET_BITS)
        (lookup_pair (beside_value value.now (F.records frozen.old)) (tree_pairs (F.records frozen.old) root.entry)) }
    ensures same { frozen.new ≡ frozen.old }
{
    match pair_of(frozen, root, value) {
        Some((key, posting)) => Some(DictEntry {
            key: EntryRef::from_raw(key as u32),
            posting,
        }),
        None => None,
    }
}
