//! How the checker reads and compares the keys of a tree.

ghost use Rattle.std.specs.Prelude.{◌≡◌, IfOk, slice_index};
ghost use Rattle.std.specs.Int.{cast_signed, w64};
ghost use Rattle.image_format.specs.Values.{stored_text};
ghost use Rattle.check_images.specs.Keys.{stored_cmp};
ghost use Rattle.entry_ref.specs.Maps.{seen};

use crate::read::rest_of;
use attr_types::ValueType;
use entry_ref::{word_in, words_at};
use std::alloc::{AllocError, Global};
use std::cmp::Ordering;
use std::collections::BTreeMap;

/// How the keys of a tree are read.
#[derive(Clone, Copy, Debug, PartialEq, Eq)]
pub enum Keys {
    /// Each key is a number, and represents itself.
    Numbers,
    /// Each key is the reference of a value of this type.
    Values(ValueType),
}

/// Returns the number that words represent.
pub fn stored_long(words: &[u64]) -> i64
    ensures { result ≡ cast_signed w64 (slice_index words.now 1) }
{
    word_in(words, 1).cast_signed()
}

/// Returns the bytes of the text that words represent, as many as the first word says.
pub fn stored_text(alloc: Global, words: &[u64]) -> Result<Vec<u8>, AllocError>
    ensures { IfOk result (λ bytes. bytes.items ≡ stored_text words.now) }
{
    let mut bytes = Vec::new(alloc);
    let rest = rest_of(words);
    for word in rest {
        bytes.extend_from_slice(&word.to_be_bytes())?;
    }
    bytes.truncate(word_in(words, 0) as usize);
    Ok(bytes)
}

/// Compares two stored keys by what they represent.
pub fn compare_keys(
    alloc: Global,
    keys: Keys,
    records: &BTreeMap<u32, Vec<u64>>,
    a: u64,
    b: u64,
) -> Result<Ordering, AllocError>
    ensures { IfOk result (λ order. order ≡ stored_cmp keys (seen records.now) a b) }
{
    match keys {
        Keys::Numbers => Ok(a.cmp(&b)),
        Keys::Values(ValueType::Long) => {
            let first = stored_long(words_at(records, a));
            Ok(first.cmp(&stored_long(words_at(records, b))))
        }
        Keys::Values(ValueType::Text) => {
            let first = stored_text(alloc, words_at(records, a))?;
            let second = stored_text(alloc, words_at(records, b))?;
            Ok(first.as_slice().cmp(second.as_slice()))
        }
    }
}
