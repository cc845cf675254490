//! The dictionary's keys of the values that a document has.

ghost use Rattle.std.specs.Prelude.{◌≡◌, ◌<◌, length, IfOk};
ghost use Rattle.std.specs.List.{AllByRecursion};
ghost use Rattle.attr_field.specs.DocumentsChanges.{AreKeysOf};
ghost use Rattle.attr_field.specs.Steps.{FindsKey};
ghost use Rattle.image_format.specs.Postings.{index_of};
ghost use Rattle.index_model.specs.Index.{list_of};
ghost use Rattle.attr_types.specs.Value.{type_of, values_of, AreOfType};
ghost use Rattle.value_index.specs.Indexes.{IsIndex, IsKey};

use arena_api::Frozen;
use attr_types::{Item, Value, ValueType};
use entry_ref::EntryRef;
use std::alloc::{AllocError, Global};
use value_index::{key, key_law};

/// Returns the key of a value that a document has.
#[tactic(none)]
fn key_of<const OFFSET_BITS: u32, F: Frozen<OFFSET_BITS>>(
    frozen: &mut F,
    value_type: ValueType,
    root: EntryRef<OFFSET_BITS>,
    value: &Value,
) -> EntryRef<OFFSET_BITS>
    requires index { IsIndex value_type (F.records frozen.old) root }
    requires typed { type_of value.now ≡ value_type }
    requires listed { 0 < length (list_of value.now (index_of value_type (F.records frozen.old) root)) }
    ensures key { FindsKey value_type (F.records frozen.old) root.entry value.now result }
    ensures same { frozen.new ≡ frozen.old }
{
    key_law();
    let _ = value_type;
    match key(frozen, root, value) {
        Some(found) => found,
        None => unreachable!(),
    }
}

/// Returns the keys of the values of items, all of which a document has.
#[tactic(none)]
pub fn keys_of<const OFFSET_BITS: u32, F: Frozen<OFFSET_BITS>>(
    alloc: Global,
    frozen: &mut F,
    value_type: ValueType,
    root: EntryRef<OFFSET_BITS>,
    items: &[Item],
) -> Result<Vec<EntryRef<OFFSET_BITS>>, AllocError>
    requires index { IsIndex value_type (F.records frozen.old) root }
    requires typed { AreOfType value_type (values_of items.now) }
    requires listed { AllByRecursion (λ item. 0 < length (list_of item.value (index_of value_type (F.records frozen.old) root))) items.now }
    ensures keys { IfOk result (λ keys. AreKeysOf value_type (F.records frozen.old) keys.items items.now) }
    ensures kept { IfOk result (λ keys. AllByRecursion (IsKey (F.records frozen.old) root.entry) keys.items) }
    ensures same { frozen.new ≡ frozen.old }
{
    let mut keys = Vec::with_capacity(alloc, items.len())?;
    for item in items {
        let found = key_of(frozen, value_type, root, &item.value);
        keys.push(found)?;
    }
    Ok(keys)
}
