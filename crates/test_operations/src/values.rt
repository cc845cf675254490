//! The values of tests.

use attr_types::{Value, ValueType};
use std::alloc::{AllocError, Global};
use test_kit::text_at;

fn long_at(number: u32) -> i64 {
    match number {
        0 => i64::MIN,
        1 => i64::MAX,
        _ => i64::from(number) - 8,
    }
}

/// Returns the value of a number. The extreme values come first.
pub fn value_at(alloc: Global, value_type: ValueType, number: u32) -> Result<Value, AllocError> {
    match value_type {
        ValueType::Long => Ok(Value::Long(long_at(number))),
        ValueType::Text => Ok(Value::Text(text_at(alloc, number)?)),
    }
}
