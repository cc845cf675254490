//! Adds the record of a value.

ghost use Rattle.std.specs.Prelude.{◌≡◌, ◌+◌, ◌/◌, ◌≤◌, true, length, IfOk, IfErr, OnErr, IsUtf8};
ghost use Rattle.image_format.specs.Values.{value_words, stored_value, IsValueRecord};
ghost use Rattle.image_format.specs.Words.{class_of};
ghost use Rattle.attr_types.specs.Value.{type_of};
ghost use Rattle.attr_types.specs.declared.kind.ValueType.TheVariants as types;
ghost use Rattle.attr_types.specs.declared.value.Value.TheVariants as values;
ghost use Rattle.store_api.specs.Calls.{Refuses};
ghost use Rattle.store_api.specs.Units.{MayDo};
ghost use Rattle.array_store.specs.Adding.{AddsRecord, AddsNothing, MakesOneOf};

use crate::bytes::pack;
use array_store::make_record;
use attr_types::{Text, Value};
use entry_ref::EntryRef;
use store_api::{Store, StoreError};

/// Writes the record of a text.
fn write_text(words: &mut [u64], bytes: &[u8])
    requires { length words.old ≡ 1 + (length bytes.now + 7) / 8 }
    ensures { words.new ≡ value_words (values.Text bytes.now) }
{
    let (first, rest) = words.split_at_mut(1);
    first[0] = bytes.len() as u64;
    pack(rest, bytes);
}

/// Adds a text, with a buffer in which its record fits.
fn add_by<const OFFSET_BITS: u32, S: Store<OFFSET_BITS>>(
    store: &mut S,
    bytes: &[u8],
    buffer: &mut [u64],
) -> Result<EntryRef<OFFSET_BITS>, StoreError>
    requires unit { (S.ledger store.old).unit ≡ true }
    requires utf8 { IsUtf8 bytes.now }
    requires few { length bytes.now ≤ 1024 }
    requires room { 1 + (length bytes.now + 7) / 8 ≤ length buffer.old }
    ensures adds { IfOk result (AddsRecord OFFSET_BITS (S.ledger store.old) (S.ledger store.new) (S.records store.old) (S.records store.new)
        (value_words (values.Text bytes.now))) }
    ensures record { IfOk result (λ r. IsValueRecord types.Text (S.records store.new r)) }
    ensures value { IfOk result (λ r. stored_value types.Text (S.records store.new) r ≡ values.Text bytes.now) }
    ensures refuses { IfErr result (Refuses (S.ledger store.old) (S.ledger store.new)
        (class_of (length (value_words (values.Text bytes.now))))) }
    ensures refused { OnErr result (AddsNothing (S.ledger store.old) (S.ledger store.new) (S.records store.old) (S.records store.new)) }
    ensures counts { MakesOneOf (class_of (length (value_words (values.Text bytes.now)))) (S.ledger store.old) (S.ledger store.new) }
    ensures may { MayDo (S.ledger store.old) (S.ledger store.new) }
{
    let words = &mut buffer[..1 + (bytes.len() + 7) / 8];
    write_text(words, bytes);
    make_record(store, words)
}

/// Adds a text.
fn add_text<const OFFSET_BITS: u32, S: Store<OFFSET_BITS>>(
    store: &mut S,
    bytes: &[u8],
) -> Result<EntryRef<OFFSET_BITS>, StoreError>
    requires unit { (S.ledger store.old).unit ≡ true }
    requires utf8 { IsUtf8 bytes.now }
    requires few { length bytes.now ≤ 1024 }
    ensures adds { IfOk result (AddsRecord OFFSET_BITS (S.ledger store.old) (S.ledger store.new) (S.records store.old) (S.records store.new)
        (value_words (values.Text bytes.now))) }
    ensures record { IfOk result (λ r. IsValueRecord types.Text (S.records store.new r)) }
    ensures value { IfOk result (λ r. stored_value types.Text (S.records store.new) r ≡ values.Text bytes.now) }
    ensures refuses { IfErr result (Refuses (S.ledger store.old) (S.ledger store.new)
        (class_of (length (value_words (values.Text bytes.now))))) }
    ensures refused { OnErr result (AddsNothing (S.ledger store.old) (S.ledger store.new) (S.records store.old) (S.records store.new)) }
    ensures counts { MakesOneOf (class_of (length (value_words (values.Text bytes.now)))) (S.ledger store.old) (S.ledger store.new) }
    ensures may { MayDo (S.ledger store.old) (S.ledger store.new) }
    ensures short { length (value_words (values.Text bytes.now)) ≤ 129 }
{
    if bytes.len() <= 120 {
        add_by(store, bytes, &mut [0; 16])
    } else {
        add_by(store, bytes, &mut [0; 129])
    }
}

/// Adds a value. Its record has at most 129 words, since a text has at most 1,024 bytes.
pub fn add<const OFFSET_BITS: u32, S: Store<OFFSET_BITS>>(
    store: &mut S,
    value: &Value,
) -> Result<EntryRef<OFFSET_BITS>, StoreError>
    requires unit { (S.ledger store.old).unit ≡ true }
    ensures adds { IfOk result (AddsRecord OFFSET_BITS (S.ledger store.old) (S.ledger store.new) (S.records store.old) (S.records store.new)
        (value_words value.now)) }
    ensures record { IfOk result (λ r. IsValueRecord (type_of value.now) (S.records store.new r)) }
    ensures value { IfOk result (λ r. stored_value (type_of value.now) (S.records store.new) r ≡ value.now) }
    ensures refuses { IfErr result (Refuses (S.ledger store.old) (S.ledger store.new) (class_of (length (value_words value.now)))) }
    ensures refused { OnErr result (AddsNothing (S.ledger store.old) (S.ledger store.new) (S.records store.old) (S.records store.new)) }
    ensures counts { MakesOneOf (class_of (length (value_words value.now))) (S.ledger store.old) (S.ledger store.new) }
    ensures may { MayDo (S.ledger store.old) (S.ledger store.new) }
    ensures short { length (value_words value.now) ≤ 129 }
{
    match value {
        Value::Long(number) => make_record(store, &[8, number.cast_unsigned()]),
        Value::Text(text) => add_text(store, text.as_str().as_bytes()),
    }
}
