//! The words of a value, computed by the checker for itself.

ghost use Rattle.std.specs.Prelude.{◌≡◌, ◌≤◌, ◌+◌, ◌/◌, ◌++◌, length, take, drop, replicate, IfOk};
ghost use Rattle.image_format.specs.Values.{packed_bytes, value_words, value_of, IsLawfulValue, IsValueRecord};
ghost use Rattle.check_images.specs.Told.{Tells};

use crate::words::is_filled;
use crate::{stored_long, stored_text};
use attr_types::{Text, Value, ValueType};
use std::alloc::{AllocError, Global};

/// Returns the first eight bytes, with zeros for missing bytes.
fn eight_of(bytes: &[u8]) -> [u8; 8]
    ensures { result ≡ take 8 (bytes.now ++ replicate 8 0) }
{
    let mut eight = [0; 8];
    for i in 0..8 {
        eight[i] = match bytes.get(i) {
            Some(byte) => *byte,
            None => 0,
        };
    }
    eight
}

/// Returns the bytes after the first eight.
fn behind_eight(bytes: &[u8]) -> &[u8]
    ensures { result.now ≡ drop 8 bytes.now }
{
    match bytes.get(8..) {
        Some(rest) => rest,
        None => &[],
    }
}

/// Returns a text's bytes as words, eight in each, the first byte in the highest place.
fn pack(alloc: Global, bytes: &[u8]) -> Result<Vec<u64>, AllocError>
    requires { length bytes.now ≤ 1024 }
    ensures { IfOk result (λ words. words.items ≡ packed_bytes ((length bytes.now + 7) / 8) bytes.now) }
{
    let mut words = Vec::new(alloc);
    let mut rest = bytes;
    for i in 0..(bytes.len() + 7) / 8 {
        words.push(u64::from_be_bytes(eight_of(rest)))?;
        rest = behind_eight(rest);
    }
    Ok(words)
}

/// Returns the words of a value, without the zeros after them.
fn value_words(alloc: Global, value: &Value) -> Result<Vec<u64>, AllocError>
    ensures { IfOk result (λ words. words.items ≡ value_words value.now) }
{
    let mut words = Vec::new(alloc);
    match value {
        Value::Long(number) => {
            words.push(8)?;
            words.push(number.cast_unsigned())?;
        }
        Value::Text(text) => {
            words.push(text.len() as u64)?;
            words.extend_from_slice(&pack(alloc, text.as_str().as_bytes())?)?;
        }
    }
    Ok(words)
}

/// Returns the value that words represent, if a document may have it.
fn value_of(
    alloc: Global,
    value_type: ValueType,
    words: &[u64],
) -> Result<Option<Value>, AllocError>
    ensures { IfOk result (Tells (IsLawfulValue (value_of value_type words.now)) (λ value. value ≡ value_of value_type words.now)) }
{
    if value_type == ValueType::Long {
        return Ok(Some(Value::Long(stored_long(words))));
    }
    let bytes = stored_text(alloc, words)?;
    if bytes.len() > Text::MAX_LEN {
        return Ok(None);
    }
    match str::from_utf8(bytes.as_slice()) {
        Ok(text) => Ok(Some(Value::Text(Text::from_str(alloc, text)?))),
        Err(_) => Ok(None),
    }
}

/// Returns the value of a record, if it is the record of a value.
pub fn read_value(
    alloc: Global,
    value_type: ValueType,
    words: &[u64],
) -> Result<Option<Value>, AllocError>
    ensures { IfOk result (Tells (IsValueRecord value_type words.now) (λ value. value ≡ value_of value_type words.now)) }
{
    let value = match value_of(alloc, value_type, words)? {
        Some(value) => value,
        None => return Ok(None),
    };
    if is_filled(value_words(alloc, &value)?, words)? {
        Ok(Some(value))
    } else {
        Ok(None)
    }
}
