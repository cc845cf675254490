//! Checks that each value of a column stands in the dictionary.

ghost use Rattle.std.specs.Prelude.{◌↔◌, ℕ, List, IsTrue, Contains};
ghost use Rattle.std.specs.List.{AllByRecursion};
ghost use Rattle.attr_types.specs.declared.items.Item.{Item};

use attr_types::{Item, Items, Value, compare};

fn has_value(values: &[Value], value: &Value) -> bool
    ensures { IsTrue result ↔ Contains values.now value.now }
{
    for other in values {
        if compare(other, value).is_eq() {
            return true;
        }
    }
    false
}

fn have_values(values: &[Value], items: &[Item]) -> bool
    ensures { IsTrue result ↔ AllByRecursion (λ (item : Item). Contains values.now item.value) items.now }
{
    for item in items {
        if !has_value(values, &item.value) {
            return false;
        }
    }
    true
}

/// Returns whether each value of a column is among these.
pub fn have_all_values(values: &[Value], column: &[(u64, Items)]) -> bool
    ensures { IsTrue result ↔ AllByRecursion (λ (e : ℕ × List Item). AllByRecursion (λ (item : Item). Contains values.now item.value) e.1)
        column.now }
{
    for entry in column {
        if !have_values(values, entry.1.as_slice()) {
            return false;
        }
    }
    true
}
