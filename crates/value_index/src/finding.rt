//! Finds the key of a value.

ghost use Rattle.std.specs.Prelude.{◌≡◌};
ghost use Rattle.attr_types.specs.Value.{type_of};
ghost use Rattle.value_index.specs.Indexes.{key_at, IsIndex};

use arena_api::Frozen;
use attr_types::Value;
use entry_ref::EntryRef;
use enum_dictionary::find;

/// Returns the key of a value, which is its record, if some document has the value.
pub fn key<const OFFSET_BITS: u32, F: Frozen<OFFSET_BITS>>(
    frozen: &mut F,
    root: EntryRef<OFFSET_BITS>,
    value: &Value,
) -> Option<EntryRef<OFFSET_BITS>>
    requires { IsIndex (type_of value.now) (F.records frozen.old) root }
    ensures key { result ≡ key_at value.now (F.records frozen.old) root.entry }
    ensures same { frozen.new ≡ frozen.old }
{
    match find(frozen, root, value) {
        Some(entry) => Some(entry.key),
        None => None,
    }
}
