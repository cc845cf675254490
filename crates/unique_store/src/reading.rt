//! Reads a stored value.

ghost use Rattle.std.specs.Prelude.{◌≡◌, ◌++◌, IfOk, OnOk};
ghost use Rattle.std.specs.Int.{cast_signed, to_be_bytes, w64};
ghost use Rattle.entry_ref.specs.Records.{word_at};
ghost use Rattle.image_format.specs.Values.{stored_text, stored_value, IsValueRecord};
ghost use Rattle.attr_types.specs.declared.kind.ValueType.TheVariants as types;

use arena_api::{Frozen, word_of};
use attr_types::{Text, Value, ValueType};
use entry_ref::EntryRef;
use std::alloc::{AllocError, Global};

/// The width of a long's record.
const LONG_WORDS: u32 = 2;

/// Returns a stored long.
pub fn read_long<const OFFSET_BITS: u32, F: Frozen<OFFSET_BITS>>(
    frozen: &mut F,
    stored: EntryRef<OFFSET_BITS>,
) -> i64
    requires { IsValueRecord types.Long (F.records frozen.old stored) }
    ensures value { result ≡ cast_signed w64 (word_at (F.records frozen.old) stored.entry 1) }
    ensures same { frozen.new ≡ frozen.old }
{
    word_of(frozen, stored, LONG_WORDS, 1).cast_signed()
}

/// Appends the bytes of a word, the highest first.
fn push_word(bytes: &mut Vec<u8>, word: u64) -> Result<(), AllocError>
    ensures { OnOk result (bytes.new.items ≡ bytes.old.items ++ to_be_bytes w64 word) }
{
    bytes.extend_from_slice(&word.to_be_bytes())
}

/// Returns the bytes of a stored text.
fn read_bytes<const OFFSET_BITS: u32, F: Frozen<OFFSET_BITS>>(
    alloc: Global,
    frozen: &mut F,
    stored: EntryRef<OFFSET_BITS>,
) -> Result<Vec<u8>, AllocError>
    requires { IsValueRecord types.Text (F.records frozen.old stored) }
    ensures bytes { IfOk result (λ bytes. bytes.items ≡ stored_text (F.records frozen.old stored.entry)) }
    ensures same { frozen.new ≡ frozen.old }
{
    let count = frozen.word(stored, 0) as usize;
    let words = (count + 7) / 8;
    let mut bytes = Vec::with_capacity(alloc, 8 * words)?;
    for i in 0..words {
        let word = frozen.word(stored, 1 + i as u32);
        push_word(&mut bytes, word)?;
    }
    bytes.truncate(count);
    Ok(bytes)
}

/// Returns a stored text.
fn read_text<const OFFSET_BITS: u32, F: Frozen<OFFSET_BITS>>(
    alloc: Global,
    frozen: &mut F,
    stored: EntryRef<OFFSET_BITS>,
) -> Result<Text, AllocError>
    requires { IsValueRecord types.Text (F.records frozen.old stored) }
    ensures text { IfOk result (λ text. text ≡ stored_text (F.records frozen.old stored.entry)) }
    ensures same { frozen.new ≡ frozen.old }
{
    let bytes = read_bytes(alloc, frozen, stored)?;
    match String::from_utf8(bytes) {
        Ok(text) => Ok(Text::new(text)),
        Err(_) => unreachable!(),
    }
}

/// Returns a stored value of the given type.
pub fn get<const OFFSET_BITS: u32, F: Frozen<OFFSET_BITS>>(
    alloc: Global,
    frozen: &mut F,
    stored: EntryRef<OFFSET_BITS>,
    value_type: ValueType,
) -> Result<Value, AllocError>
    requires { IsValueRecord value_type (F.records frozen.old stored) }
    ensures value { IfOk result (λ value. value ≡ stored_value value_type (F.records frozen.old) stored.entry) }
    ensures same { frozen.new ≡ frozen.old }
{
    match value_type {
        ValueType::Long => Ok(Value::Long(read_long(frozen, stored))),
        ValueType::Text => Ok(Value::Text(read_text(alloc, frozen, stored)?)),
    }
}
