//! Compares a stored value with a sought one.

ghost use Rattle.std.specs.Prelude.{◌≡◌, ◌≤◌, length};
ghost use Rattle.std.specs.Cmp.Lexicographic.{slice_cmp};
ghost use Rattle.std.specs.Ordering.{nat_cmp};
ghost use Rattle.image_format.specs.Values.{stored_text, stored_value, IsValueRecord};
ghost use Rattle.attr_types.specs.Value.{type_of, value_cmp};
ghost use Rattle.attr_types.specs.declared.kind.ValueType.TheVariants as types;

use crate::bytes::{behind_eight, first_word};
use crate::reading::read_long;
use arena_api::Frozen;
use attr_types::Value;
use entry_ref::EntryRef;
use std::cmp::Ordering;

/// Compares a stored text with bytes, from their first words on.
#[inline(never)]
fn compare_words<const OFFSET_BITS: u32, F: Frozen<OFFSET_BITS>>(
    frozen: &mut F,
    stored: EntryRef<OFFSET_BITS>,
    bytes: &[u8],
) -> Ordering
    requires record { IsValueRecord types.Text (F.records frozen.old stored) }
    requires few { length bytes.now ≤ 1024 }
    ensures answer { result ≡ slice_cmp nat_cmp (stored_text (F.records frozen.old stored.entry)) bytes.now }
    ensures same { frozen.new ≡ frozen.old }
{
    let count = frozen.word(stored, 0) as usize;
    let mut rest = bytes;
    for i in 0..(count.min(bytes.len()) + 7) / 8 {
        let order = frozen.word(stored, 1 + i as u32).cmp(&first_word(rest));
        if order.is_ne() {
            return order;
        }
        rest = behind_eight(rest);
    }
    count.cmp(&bytes.len())
}

/// Compares a stored text with bytes. It reads words only until they differ: nearly always the first ones do, so these
/// come before the length. The rest is a function of its own, so that the comparison of longs needs fewer registers.
fn compare_text<const OFFSET_BITS: u32, F: Frozen<OFFSET_BITS>>(
    frozen: &mut F,
    stored: EntryRef<OFFSET_BITS>,
    bytes: &[u8],
) -> Ordering
    requires record { IsValueRecord types.Text (F.records frozen.old stored) }
    requires few { length bytes.now ≤ 1024 }
    ensures answer { result ≡ slice_cmp nat_cmp (stored_text (F.records frozen.old stored.entry)) bytes.now }
    ensures same { frozen.new ≡ frozen.old }
{
    let order = frozen.word(stored, 1).cmp(&first_word(bytes));
    if order.is_ne() {
        return order;
    }
    compare_words(frozen, stored, bytes)
}

/// Compares a stored value with a value of its type.
pub fn compare<const OFFSET_BITS: u32, F: Frozen<OFFSET_BITS>>(
    frozen: &mut F,
    stored: EntryRef<OFFSET_BITS>,
    value: &Value,
) -> Ordering
    requires { IsValueRecord (type_of value.now) (F.records frozen.old stored) }
    ensures answer { result ≡ value_cmp (stored_value (type_of value.now) (F.records frozen.old) stored.entry) value.now }
    ensures same { frozen.new ≡ frozen.old }
{
    match value {
        Value::Long(number) => read_long(frozen, stored).cmp(number),
        Value::Text(text) => compare_text(frozen, stored, text.as_str().as_bytes()),
    }
}
