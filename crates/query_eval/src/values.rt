//! Where a stored value is relative to the values that meet a leaf.
ghost use Rattle.std.specs.Prelude.{◌≡◌, IfOk};
ghost use Rattle.image_format.specs.Values.{stored_value, IsValueRecord};
ghost use Rattle.attr_types.specs.Fitting.{is_of_type as fits_type};
ghost use Rattle.index_model.specs.Leaves.{stands_before, stands_beyond};

use arena_api::Frozen;
use attr_types::{Leaf, Value, ValueType};
use entry_ref::EntryRef;
use index_model::{is_before, is_beyond};
use std::alloc::{AllocError, Global};
use unique_store::get;

/// Returns whether a value has a type.
pub fn is_of_type(value: &Value, value_type: ValueType) -> bool
    ensures { result ≡ fits_type value_type value.now }
{
    match (value_type, value) {
        (ValueType::Long, Value::Long(_)) | (ValueType::Text, Value::Text(_)) => true,
        (ValueType::Long, Value::Text(_)) | (ValueType::Text, Value::Long(_)) => false,
    }
}

/// Returns the value whose record is a key.
pub fn value_at<const OFFSET_BITS: u32, F: Frozen<OFFSET_BITS>>(
    alloc: Global,
    frozen: &mut F,
    key: u64,
    value_type: ValueType,
) -> Result<Value, AllocError>
    requires { IsValueRecord value_type (F.records frozen.old key) }
    ensures value { IfOk result (λ value. value ≡ stored_value value_type (F.records frozen.old) key) }
    ensures same { frozen.new ≡ frozen.old }
{
    get(alloc, frozen, EntryRef::from_raw(key as u32), value_type)
}

/// Returns whether the value of a key is before those that meet a leaf.
pub fn is_before_at<const OFFSET_BITS: u32, F: Frozen<OFFSET_BITS>>(
    alloc: Global,
    frozen: &mut F,
    key: u64,
    value_type: ValueType,
    leaf: &Leaf,
) -> Result<bool, AllocError>
    requires { IsValueRecord value_type (F.records frozen.old key) }
    ensures stands { IfOk result (λ before. before ≡ stands_before leaf.now (stored_value value_type (F.records frozen.old) key)) }
    ensures same { frozen.new ≡ frozen.old }
{
    let value = value_at(alloc, frozen, key, value_type)?;
    Ok(is_before(leaf, &value))
}

/// Returns whether the value of a key, which must not be before those that meet a leaf, is after them.
pub fn is_beyond_at<const OFFSET_BITS: u32, F: Frozen<OFFSET_BITS>>(
    alloc: Global,
    frozen: &mut F,
    key: u64,
    value_type: ValueType,
    leaf: &Leaf,
) -> Result<bool, AllocError>
    requires { IsValueRecord value_type (F.records frozen.old key) }
    ensures stands { IfOk result (λ beyond. beyond ≡ stands_beyond leaf.now (stored_value value_type (F.records frozen.old) key)) }
    ensures same { frozen.new ≡ frozen.old }
{
    let value = value_at(alloc, frozen, key, value_type)?;
    Ok(is_beyond(leaf, &value))
}
