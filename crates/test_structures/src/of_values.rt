//! Rows of stored values.

ghost use Rattle.std.specs.Prelude.{◌≡◌};
ghost use Rattle.attr_types.specs.Value.{type_of};
ghost use Rattle.store_api.specs.Ledgers.{IsNew};

use crate::cases::{Case, Row, right_rows};
use attr_types::{Text, Value, ValueType};
use std::alloc::{AllocError, Global};
use std::test::Fail;
use store_api::Store;
use unique_store::{add, get};

/// A value of a row.
#[derive(Clone, Copy)]
pub enum Given<'a> {
    Long(i64),
    Text(&'a str),
    /// A text of this many bytes, at most 1,024, which are all `a` except the last.
    Bytes(usize, char),
}

/// Returns a text of this many bytes, which are all `a` except the last.
fn letters(alloc: Global, bytes: usize, last: char) -> Result<String, AllocError> {
    let mut text = String::new(alloc);
    for i in 1..bytes {
        text.push('a')?;
    }
    if bytes > 0 {
        text.push(last)?;
    }
    Ok(text)
}

fn text_of(text: String) -> Result<Value, AllocError> {
    if text.len() > Text::MAX_LEN {
        return Err(AllocError);
    }
    Ok(Value::Text(Text::new(text)))
}

/// Returns a value; it is refused if it is too long.
fn value_of(alloc: Global, given: Given) -> Result<Value, AllocError> {
    match given {
        Given::Long(number) => Ok(Value::Long(number)),
        Given::Text(text) => text_of(String::from_str(alloc, text)?),
        Given::Bytes(bytes, last) => text_of(letters(alloc, bytes, last)?),
    }
}

fn type_in(value: &Value) -> ValueType
    ensures { type_of value.now ≡ result }
{
    match value {
        Value::Long(_) => ValueType::Long,
        Value::Text(_) => ValueType::Text,
    }
}

/// Returns whether the record of a value that is added to a new store begins with these words, and reads back.
fn is_record<const OFFSET_BITS: u32, S: Store<OFFSET_BITS>>(
    alloc: Global,
    store: &mut S,
    value: &Value,
    value_type: ValueType,
    words: (u64, Option<u64>),
) -> Result<bool, AllocError>
    requires new { IsNew (S.ledger store.old) }
    requires typed { type_of value.now ≡ value_type }
{
    store.begin();
    let stored = match add(store, value) {
        Ok(stored) => stored,
        Err(_) => return Err(AllocError),
    };
    let first = store.word(stored, 0);
    let second = store.word(stored, 1);
    let back = get(alloc, store, stored, value_type)?;
    Ok((first, second) == (words.0, words.1.unwrap_or(second)) && back == *value)
}

/// Returns whether the record of a value begins with these words in a new store, and reads back.
pub fn is_stored<const OFFSET_BITS: u32, S: Store<OFFSET_BITS>>(
    alloc: Global,
    store: &mut S,
    given: Given,
    first: u64,
    second: Option<u64>,
) -> Result<bool, AllocError>
    requires new { IsNew (S.ledger store.old) }
{
    let value = value_of(alloc, given)?;
    let value_type = type_in(&value);
    is_record(alloc, store, &value, value_type, (first, second))
}

/// Of what is added one record is made, of this class.
const VALUES: [Row<'static>; 37] = [
    // a long is eight and its bits, in one record
    (Case::Value(Given::Long(0), 8, Some(0)), 2, 1),
    (Case::Value(Given::Long(1), 8, Some(1)), 2, 1),
    (
        Case::Value(Given::Long(-1), 8, Some(0xFFFF_FFFF_FFFF_FFFF)),
        2,
        1,
    ),
    (
        Case::Value(Given::Long(-5), 8, Some(0xFFFF_FFFF_FFFF_FFFB)),
        2,
        1,
    ),
    (
        Case::Value(Given::Long(i64::MAX), 8, Some(0x7FFF_FFFF_FFFF_FFFF)),
        2,
        1,
    ),
    (
        Case::Value(Given::Long(i64::MIN), 8, Some(0x8000_0000_0000_0000)),
        2,
        1,
    ),
    // a text is its length and its bytes, in one record of the least class that holds them
    (Case::Value(Given::Text(""), 0, Some(0)), 2, 1),
    (
        Case::Value(Given::Text("te"), 2, Some(0x7465_0000_0000_0000)),
        2,
        1,
    ),
    (
        Case::Value(Given::Text("é"), 2, Some(0xC3A9_0000_0000_0000)),
        2,
        1,
    ),
    (
        Case::Value(Given::Text("abcdefg"), 7, Some(0x6162_6364_6566_6700)),
        2,
        1,
    ),
    (
        Case::Value(Given::Text("abcdefgh"), 8, Some(0x6162_6364_6566_6768)),
        2,
        1,
    ),
    (
        Case::Value(Given::Text("abcdefghi"), 9, Some(0x6162_6364_6566_6768)),
        4,
        1,
    ),
    // a text reads back at each edge of a class
    (Case::Value(Given::Bytes(0, 'b'), 0, None), 2, 1),
    (Case::Value(Given::Bytes(1, 'b'), 1, None), 2, 1),
    (Case::Value(Given::Bytes(7, 'b'), 7, None), 2, 1),
    (Case::Value(Given::Bytes(8, 'b'), 8, None), 2, 1),
    (Case::Value(Given::Bytes(9, 'b'), 9, None), 4, 1),
    (Case::Value(Given::Bytes(23, 'b'), 23, None), 4, 1),
    (Case::Value(Given::Bytes(24, 'b'), 24, None), 4, 1),
    (Case::Value(Given::Bytes(25, 'b'), 25, None), 8, 1),
    (Case::Value(Given::Bytes(55, 'b'), 55, None), 8, 1),
    (Case::Value(Given::Bytes(56, 'b'), 56, None), 8, 1),
    (Case::Value(Given::Bytes(57, 'b'), 57, None), 16, 1),
    (Case::Value(Given::Bytes(119, 'b'), 119, None), 16, 1),
    (Case::Value(Given::Bytes(120, 'b'), 120, None), 16, 1),
    (Case::Value(Given::Bytes(121, 'b'), 121, None), 32, 1),
    (Case::Value(Given::Bytes(247, 'b'), 247, None), 32, 1),
    (Case::Value(Given::Bytes(248, 'b'), 248, None), 32, 1),
    (Case::Value(Given::Bytes(249, 'b'), 249, None), 64, 1),
    (Case::Value(Given::Bytes(503, 'b'), 503, None), 64, 1),
    (Case::Value(Given::Bytes(504, 'b'), 504, None), 64, 1),
    (Case::Value(Given::Bytes(505, 'b'), 505, None), 128, 1),
    (Case::Value(Given::Bytes(1015, 'b'), 1015, None), 128, 1),
    (Case::Value(Given::Bytes(1016, 'b'), 1016, None), 128, 1),
    (Case::Value(Given::Bytes(1017, 'b'), 1017, None), 256, 1),
    (Case::Value(Given::Bytes(1023, 'b'), 1023, None), 256, 1),
    (Case::Value(Given::Bytes(1024, 'b'), 1024, None), 256, 1),
];

#[test]
fn values_read_back(rt: HostRuntime) -> Result<(), Fail> {
    let right = right_rows(rt.alloc(), &VALUES)?;
    assert!(rt; right == VALUES.len(), "row {right}");
    Ok(())
}
