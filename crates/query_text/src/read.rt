//! Reads numbers, texts and leaves at the front of a text.

ghost use Rattle.std.specs.Prelude.{◌≡◌, ◌≤◌, length, option_map, true, false, Some, None, if◌then◌else◌};
ghost use Rattle.query_text.specs.Modes.{is_digit};
ghost use Rattle.query_text.specs.Survey.{is_long_size};
ghost use Rattle.query_text.specs.Reading.{Finds, after_byte, digits_front, signed, number_front, bytes_front, is_short_text};
ghost use Rattle.query_text.specs.Reading.{text_front, value_front, end_front, range_front, whole_front, leaf_front};
ghost use Rattle.query_text.specs.declared.read.ReadError.TheVariants as errors;

use crate::mode::is_digit;
use attr_types::{Leaf, Text, Value};
use std::alloc::{AllocError, AllocFailed, Global};

/// Why nothing was read at the front of a text.
#[derive(Debug, Drop)]
pub enum ReadError {
    /// The expected element is missing, or out of range.
    NotRead,
    Memory,
}

impl From<AllocError> for ReadError {
    ghost from_gives = { λ _ e. e ≡ errors.Memory };

    fn from(_e: AllocError) -> ReadError {
        ReadError::Memory
    }
}

impl<T: Drop> From<AllocFailed<T>> for ReadError {
    ghost from_gives = { λ _ e. e ≡ errors.Memory };

    fn from(_e: AllocFailed<T>) -> ReadError {
        ReadError::Memory
    }
}

/// Returns what follows this byte at the front.
pub fn after(wanted: u8, bytes: &[u8]) -> Option<&[u8]>
    ensures { option_map (λ rest. rest.now) result ≡ after_byte wanted bytes.now }
{
    match bytes {
        [byte, rest @ ..] if *byte == wanted => Some(rest),
        _ => None,
    }
}

/// Reads the digits at the front, and returns the size of the number, at most the greatest 64-bit number.
fn digits_in(bytes: &[u8]) -> (u64, &[u8])
    ensures { (result.0, result.1.now) ≡ digits_front 0 bytes.now }
{
    let mut size = 0u64;
    for (i, byte) in bytes.iter().enumerate() {
        if !is_digit(*byte) {
            return (size, &bytes[i..]);
        }
        size = size
            .saturating_mul(10)
            .saturating_add(u64::from(*byte - b'0'));
    }
    (size, &[])
}

/// Reads the number at the front, if it fits in 64 signed bits.
#[tactic(auto, unfolding(crate::specs::Reading::number_front))]
pub fn number_in(bytes: &[u8]) -> Option<(i64, &[u8])>
    ensures { option_map (λ found. (found.0, found.1.now)) result ≡ number_front bytes.now }
{
    match after(b'-', bytes) {
        Some(rest) => {
            let (size, rest) = digits_in(rest);
            Some((negative_of(size)?, rest))
        }
        None => {
            let (size, rest) = digits_in(bytes);
            Some((i64::try_from(size).ok()?, rest))
        }
    }
}

/// Returns the negative number of a size, if it fits in 64 signed bits.
fn negative_of(size: u64) -> Option<i64>
    ensures { result ≡ (if is_long_size true size then Some (signed true size) else None) }
{
    if size <= 1 << 63 {
        i64::try_from(-i128::from(size)).ok()
    } else {
        None
    }
}

/// Reads the bytes of a text after its opening quote, up to its closing quote.
fn bytes_in(alloc: Global, bytes: &[u8]) -> Result<(Vec<u8>, &[u8]), ReadError>
    ensures { Finds (λ found. (found.0.items, found.1.now)) result (bytes_front false bytes.now) }
{
    let mut found = Vec::new(alloc);
    let mut escaped = false;
    for (i, byte) in bytes.iter().enumerate() {
        if escaped {
            found.push(*byte)?;
            escaped = false;
        } else if *byte == b'"' {
            return Ok((found, &bytes[i + 1..]));
        } else if *byte == b'\\' {
            escaped = true;
        } else {
            found.push(*byte)?;
        }
    }
    Err(ReadError::NotRead)
}

/// Reads a text after its opening quote, if it has at most 1,024 bytes.
#[tactic(auto, unfolding(crate::specs::Reading::text_front))]
fn text_in(alloc: Global, bytes: &[u8]) -> Result<(Text, &[u8]), ReadError>
    ensures { Finds (λ found. (found.0, found.1.now)) result (text_front bytes.now) }
{
    let (found, rest) = bytes_in(alloc, bytes)?;
    let text = text_of(alloc, found.as_slice())?;
    Ok((text, rest))
}

/// Returns these bytes as a text, if they are one.
fn text_of(alloc: Global, bytes: &[u8]) -> Result<Text, ReadError>
    ensures { Finds (λ text. text) result (if is_short_text bytes.now then Some bytes.now else None) }
{
    if bytes.len() > Text::MAX_LEN {
        return Err(ReadError::NotRead);
    }
    match str::from_utf8(bytes) {
        Ok(text) => Ok(Text::from_str(alloc, text)?),
        Err(_) => Err(ReadError::NotRead),
    }
}

/// Reads the value at the front.
#[tactic(auto, unfolding(crate::specs::Reading::value_front))]
pub fn value_in(alloc: Global, bytes: &[u8]) -> Result<(Value, &[u8]), ReadError>
    ensures { Finds (λ found. (found.0, found.1.now)) result (value_front bytes.now) }
{
    match after(b'"', bytes) {
        Some(rest) => {
            let (text, rest) = text_in(alloc, rest)?;
            Ok((Value::Text(text), rest))
        }
        None => {
            let (number, rest) = number_in(bytes).ok_or(ReadError::NotRead)?;
            Ok((Value::Long(number), rest))
        }
    }
}

/// Reads the end of a range at the front, and the byte that closes it.
#[tactic(auto, unfolding(crate::specs::Reading::end_front))]
fn end_in(alloc: Global, closing: u8, bytes: &[u8]) -> Result<(Option<Value>, &[u8]), ReadError>
    ensures { Finds (λ found. (found.0, found.1.now)) result (end_front closing bytes.now) }
{
    if let Some(rest) = after(closing, bytes) {
        return Ok((None, rest));
    }
    let (value, rest) = value_in(alloc, bytes)?;
    let rest = after(closing, rest).ok_or(ReadError::NotRead)?;
    Ok((Some(value), rest))
}

/// Reads a range after its `[`.
#[tactic(auto, unfolding(crate::specs::Reading::range_front))]
fn range_in(alloc: Global, bytes: &[u8]) -> Result<(Leaf, &[u8]), ReadError>
    ensures { Finds (λ found. (found.0, found.1.now)) result (range_front bytes.now) }
{
    let (low, rest) = end_in(alloc, b';', bytes)?;
    let (high, rest) = end_in(alloc, b']', rest)?;
    Ok((Leaf::Range { low, high }, rest))
}

/// Reads the value at the front as a leaf, or as a prefix.
#[tactic(auto, unfolding(crate::specs::Reading::whole_front))]
fn whole_in(alloc: Global, bytes: &[u8]) -> Result<(Leaf, &[u8]), ReadError>
    ensures { Finds (λ found. (found.0, found.1.now)) result (whole_front bytes.now) }
{
    match after(b'"', bytes) {
        Some(rest) => {
            let (text, rest) = text_in(alloc, rest)?;
            match after(b'*', rest) {
                Some(rest) => Ok((Leaf::Prefix(text), rest)),
                None => Ok((Leaf::Is(Value::Text(text)), rest)),
            }
        }
        None => {
            let (number, rest) = number_in(bytes).ok_or(ReadError::NotRead)?;
            Ok((Leaf::Is(Value::Long(number)), rest))
        }
    }
}

/// Reads the leaf at the front.
#[tactic(auto, unfolding(crate::specs::Reading::leaf_front))]
pub fn leaf_in(alloc: Global, bytes: &[u8]) -> Result<(Leaf, &[u8]), ReadError>
    ensures { Finds (λ found. (found.0, found.1.now)) result (leaf_front bytes.now) }
{
    if let Some(rest) = after(b'[', bytes) {
        return range_in(alloc, rest);
    }
    if let Some(rest) = after(b'<', bytes) {
        let (value, rest) = value_in(alloc, rest)?;
        return Ok((Leaf::Below(value), rest));
    }
    if let Some(rest) = after(b'>', bytes) {
        let (value, rest) = value_in(alloc, rest)?;
        return Ok((Leaf::Above(value), rest));
    }
    whole_in(alloc, bytes)
}
