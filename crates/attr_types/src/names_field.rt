//! Names of attributes, as texts spell them.

ghost use Rattle.std.specs.Prelude.{◌≡◌, ◌<◌, IfSome, length};
ghost use Rattle.std.specs.List.{list_all};
ghost use Rattle.attr_types.specs.Names.{begins_name, continues_name, is_begun, is_name, field_named};

use crate::Field;

/// Returns whether a name may begin with this byte: a letter or `_`.
pub fn begins_name(byte: u8) -> bool
    ensures { result ≡ begins_name byte }
{
    byte.is_ascii_alphabetic() || byte == b'_'
}

/// Returns whether a name may continue with this byte: a letter, a digit or `_`.
pub fn continues_name(byte: u8) -> bool
    ensures { result ≡ continues_name byte }
{
    begins_name(byte) || byte.is_ascii_digit()
}

fn is_begun(first: Option<u8>) -> bool
    ensures { result ≡ is_begun first }
{
    match first {
        Some(byte) => begins_name(byte),
        None => false,
    }
}

fn all_continue(text: &[u8]) -> bool
    ensures { result ≡ list_all continues_name text.now }
{
    text.iter().all(|byte| continues_name(*byte))
}

/// Returns whether a text is a name: one or more letters, digits and `_`, and the first is not a digit.
pub fn is_name(text: &[u8]) -> bool
    ensures { result ≡ is_name text.now }
{
    is_begun(text.first().copied()) && all_continue(text)
}

/// Returns the number of the attribute with this name.
pub fn field_named(fields: &[Field], name: &[u8]) -> Option<usize>
    ensures value { result ≡ field_named fields.now name.now }
    ensures inside { IfSome result (λ number. number < length fields.now) }
{
    fields
        .iter()
        .position(|field| field.name.as_str().as_bytes() == name)
}
