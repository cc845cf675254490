//! The names of kinds and of value types.

ghost use Rattle.std.specs.Prelude.{◌≡◌};
ghost use Rattle.attr_types.specs.Names.{kind_named, value_named};

use crate::{Kind, ValueType};

/// Returns the kind with this name.
pub fn kind_named(name: &str) -> Option<Kind>
    ensures { result ≡ kind_named name.now }
{
    if name == "single" {
        Some(Kind::Single)
    } else if name == "array" {
        Some(Kind::Array)
    } else if name == "weightedset" {
        Some(Kind::WeightedSet)
    } else {
        None
    }
}

/// Returns the value type with this name.
pub fn value_named(name: &str) -> Option<ValueType>
    ensures { result ≡ value_named name.now }
{
    if name == "long" {
        Some(ValueType::Long)
    } else if name == "string" {
        Some(ValueType::Text)
    } else {
        None
    }
}
