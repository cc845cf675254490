//! The kinds and value types of all attributes in one number.

ghost use Rattle.std.specs.Prelude.{◌≡◌, ◌<◌, ◌≤◌, ◌^◌, length};
ghost use Rattle.image_format.specs.Shapes.{kind_number, type_number, digit_of, shape_of, types_of};

use attr_types::{Field, Fields, Kind, MOST_FIELDS, ValueType};

fn kind_number(kind: Kind) -> u32
    ensures value { result ≡ kind_number kind }
    ensures small { result ≤ 2 }
{
    match kind {
        Kind::Single => 0,
        Kind::Array => 1,
        Kind::WeightedSet => 2,
    }
}

fn type_number(value_type: ValueType) -> u32
    ensures value { result ≡ type_number value_type }
    ensures small { result ≤ 1 }
{
    match value_type {
        ValueType::Long => 0,
        ValueType::Text => 1,
    }
}

/// Returns the digit of an attribute, from 1 for a single long to 6 for a weighted set of texts.
fn digit_of(kind: Kind, value_type: ValueType) -> u32
    ensures value { result ≡ digit_of (kind, value_type) }
    ensures small { result ≤ 6 }
{
    1 + 2 * kind_number(kind) + type_number(value_type)
}

fn digits_of(fields: &[Field]) -> u32
    requires { length fields.now ≤ MOST_FIELDS }
    ensures value { result ≡ shape_of (types_of fields.now) }
    ensures small { result < 8 ^ length fields.now }
{
    match fields {
        [] => 0,
        [first, rest @ ..] => digit_of(first.kind, first.value) + 8 * digits_of(rest),
    }
}

/// Returns the shape of images with these attributes: their digits to base 8, the first attribute's digit lowest.
pub fn shape_of(fields: &Fields) -> u32
    requires { length fields.now ≤ MOST_FIELDS }
    ensures { result ≡ shape_of (types_of fields.now) }
{
    digits_of(fields.as_slice())
}
