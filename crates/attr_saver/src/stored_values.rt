//! The values of an image, written from their records and measured.
ghost use Rattle.std.specs.Prelude.{◌≡◌, ◌≤◌, length};
ghost use Rattle.image_format.specs.Values.{stored_text, stored_value, IsValueRecord};
ghost use Rattle.attr_types.specs.declared.kind.ValueType.TheVariants as types;
ghost use Rattle.attr_saver.specs.Bytes.{text_bytes, value_bytes};
ghost use Rattle.attr_saver.specs.Stored.{Writes};

use arena_api::Frozen;
use attr_io::{Failed, Sink, write_all};
use attr_types::ValueType;
use entry_ref::EntryRef;
use unique_store::value_law;

/// Writes bytes.
pub(crate) fn put<K: Sink>(sink: &mut K, bytes: &[u8]) -> Result<(), Failed>
    ensures { Writes (K.taken sink.old) (K.taken sink.new) (K.faults sink.old) (K.faults sink.new) result bytes.now }
{
    write_all(sink, bytes)
}

/// Writes the bytes of a stored text, word by word.
fn write_words<const OFFSET_BITS: u32, F: Frozen<OFFSET_BITS>, K: Sink>(
    frozen: &mut F,
    stored: EntryRef<OFFSET_BITS>,
    count: usize,
    sink: &mut K,
) -> Result<(), Failed>
    requires record { IsValueRecord types.Text (F.records frozen.old stored) }
    requires count { count ≡ length (stored_text (F.records frozen.old stored)) }
    ensures writes { Writes (K.taken sink.old) (K.taken sink.new) (K.faults sink.old) (K.faults sink.new) result
        (stored_text (F.records frozen.old stored.entry)) }
    ensures same { frozen.new ≡ frozen.old }
{
    for i in 0..(count + 7) / 8 {
        let word = frozen.word(stored, 1 + i as u32);
        let left = (count - 8 * i).min(8);
        put(sink, &word.to_be_bytes()[..left])?;
    }
    Ok(())
}

/// Returns the number of bytes of a stored text.
fn text_len<const OFFSET_BITS: u32, F: Frozen<OFFSET_BITS>>(
    frozen: &mut F,
    stored: EntryRef<OFFSET_BITS>,
) -> usize
    requires { IsValueRecord types.Text (F.records frozen.old stored) }
    ensures len { result ≡ length (stored_text (F.records frozen.old stored.entry)) }
    ensures few { result ≤ 1024 }
    ensures same { frozen.new ≡ frozen.old }
{
    frozen.word(stored, 0) as usize
}

/// Writes a stored text: its length, and its bytes.
fn write_text<const OFFSET_BITS: u32, F: Frozen<OFFSET_BITS>, K: Sink>(
    frozen: &mut F,
    stored: EntryRef<OFFSET_BITS>,
    sink: &mut K,
) -> Result<(), Failed>
    requires { IsValueRecord types.Text (F.records frozen.old stored) }
    ensures writes { Writes (K.taken sink.old) (K.taken sink.new) (K.faults sink.old) (K.faults sink.new) result
        (text_bytes (stored_text (F.records frozen.old stored.entry))) }
    ensures same { frozen.new ≡ frozen.old }
{
    let count = text_len(frozen, stored);
    put(sink, &(count as u16).to_be_bytes())?;
    write_words(frozen, stored, count, sink)
}

/// Writes a stored long.
fn write_long<const OFFSET_BITS: u32, F: Frozen<OFFSET_BITS>, K: Sink>(
    frozen: &mut F,
    stored: EntryRef<OFFSET_BITS>,
    sink: &mut K,
) -> Result<(), Failed>
    requires { IsValueRecord types.Long (F.records frozen.old stored) }
    ensures writes { Writes (K.taken sink.old) (K.taken sink.new) (K.faults sink.old) (K.faults sink.new) result
        (value_bytes (stored_value types.Long (F.records frozen.old) stored.entry)) }
    ensures same { frozen.new ≡ frozen.old }
{
    value_law();
    let word = frozen.word(stored, 1);
    put(sink, &word.to_be_bytes())
}

/// Writes a stored value.
pub(crate) fn write_value<const OFFSET_BITS: u32, F: Frozen<OFFSET_BITS>, K: Sink>(
    frozen: &mut F,
    value_type: ValueType,
    stored: EntryRef<OFFSET_BITS>,
    sink: &mut K,
) -> Result<(), Failed>
    requires { IsValueRecord value_type (F.records frozen.old stored) }
    ensures writes { Writes (K.taken sink.old) (K.taken sink.new) (K.faults sink.old) (K.faults sink.new) result
        (value_bytes (stored_value value_type (F.records frozen.old) stored.entry)) }
    ensures same { frozen.new ≡ frozen.old }
{
    match value_type {
        ValueType::Long => write_long(frozen, stored, sink),
        ValueType::Text => write_text(frozen, stored, sink),
    }
}

/// Returns the number of bytes of a stored value in a save.
pub(crate) fn value_size<const OFFSET_BITS: u32, F: Frozen<OFFSET_BITS>>(
    frozen: &mut F,
    value_type: ValueType,
    stored: EntryRef<OFFSET_BITS>,
) -> u64
    requires { IsValueRecord value_type (F.records frozen.old stored) }
    ensures size { result ≡ length (value_bytes (stored_value value_type (F.records frozen.old) stored.entry)) }
    ensures small { result ≤ 1026 }
    ensures same { frozen.new ≡ frozen.old }
{
    match value_type {
        ValueType::Long => 8,
        ValueType::Text => 2 + text_len(frozen, stored) as u64,
    }
}
