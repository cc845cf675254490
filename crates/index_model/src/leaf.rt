//! Where a value is relative to the values that meet a leaf.
ghost use Rattle.std.specs.Prelude.{◌≡◌};
ghost use Rattle.attr_types.specs.Query.{begins_with};
ghost use Rattle.attr_types.specs.declared.query.Leaf.TheVariants.{Prefix};
ghost use Rattle.index_model.specs.Leaves.{stands_before, stands_beyond};

use attr_types::{Leaf, Text, Value, compare};

fn is_below_prefix(value: &Value, prefix: &Text) -> bool
    ensures { result ≡ stands_before (Prefix prefix.now) value.now }
{
    match value {
        Value::Text(text) => text.as_str().cmp(prefix.as_str()).is_lt(),
        Value::Long(_) => true,
    }
}

fn begins(value: &Value, prefix: &Text) -> bool
    ensures { result ≡ begins_with value.now prefix.now }
{
    match value {
        Value::Text(text) => text
            .as_str()
            .as_bytes()
            .starts_with(prefix.as_str().as_bytes()),
        Value::Long(_) => false,
    }
}

/// Returns whether a value is before those that meet a leaf.
pub fn is_before(leaf: &Leaf, value: &Value) -> bool
    ensures { result ≡ stands_before leaf.now value.now }
{
    match leaf {
        Leaf::Is(wanted) => compare(value, wanted).is_lt(),
        Leaf::Prefix(prefix) => is_below_prefix(value, prefix),
        Leaf::Range { low, high: _ } => match low {
            Some(low) => compare(value, low).is_lt(),
            None => false,
        },
        Leaf::Below(_) => false,
        Leaf::Above(low) => compare(value, low).is_le(),
    }
}

/// Returns whether a value is after those that meet a leaf. The value must not be before them.
pub fn is_beyond(leaf: &Leaf, value: &Value) -> bool
    ensures { result ≡ stands_beyond leaf.now value.now }
{
    match leaf {
        Leaf::Is(wanted) => compare(wanted, value).is_lt(),
        Leaf::Prefix(prefix) => !begins(value, prefix),
        Leaf::Range { low: _, high } => match high {
            Some(high) => compare(high, value).is_lt(),
            None => false,
        },
        Leaf::Below(high) => compare(high, value).is_le(),
        Leaf::Above(_) => false,
    }
}
