//! The total order of values: whole numbers by size, texts by their bytes.

ghost use Rattle.std.specs.Prelude.{◌≡◌, Some, refl};
ghost use Rattle.std.specs.Cmp.{IsTotalOrder, eq_by_cmp_equiv, partial_equiv_from_equiv, po};
ghost use Rattle.std.specs.Ordering.{eq_by_cmp};
ghost use Rattle.std.specs.declared.cmp.Ordering.TheVariants.{Equal};
ghost use Rattle.attr_types.specs.Value.{value_cmp};
ghost use Rattle.attr_types.specs.ProofsForOrder.{value_cmp_total};
ghost use Rattle.attr_types.specs.declared.value.Value.{Value};

use crate::value::Value;
use std::cmp::Ordering;

/// Compares values: whole numbers by size, texts by their bytes. Every number is below every text.
pub fn compare(a: &Value, b: &Value) -> Ordering
    ensures { result ≡ value_cmp a.now b.now }
{
    match (a, b) {
        (Value::Long(a), Value::Long(b)) => a.cmp(b),
        (Value::Text(a), Value::Text(b)) => a.as_str().cmp(b.as_str()),
        (Value::Long(_), Value::Text(_)) => Ordering::Less,
        (Value::Text(_), Value::Long(_)) => Ordering::Greater,
    }
}

impl PartialEq for Value {
    ghost eq = { eq_by_cmp value_cmp };

    ghost laws = { partial_equiv_from_equiv (eq_by_cmp_equiv value_cmp_total) };

    fn eq(&self, other: &Value) -> bool {
        compare(self, other).is_eq()
    }
}

impl Eq for Value {
    ghost laws = { eq_by_cmp_equiv value_cmp_total };
}

impl PartialOrd for Value {
    ghost partial_cmp = { λ a b. Some (value_cmp a b) };

    ghost laws = { po value_cmp_total (λ _ _. refl) };

    fn partial_cmp(&self, other: &Value) -> Option<Ordering> {
        Some(compare(self, other))
    }
}

impl Ord for Value {
    ghost cmp = { value_cmp };

    ghost total = { value_cmp_total };

    ghost matches_partial_cmp = { λ _ _. refl };

    ghost matches_eq = { λ _ _. refl };

    fn cmp(&self, other: &Value) -> Ordering {
        compare(self, other)
    }
}

/// The order of values is total, and a value is equal only to itself.
pub fn order_law()
    ensures total { IsTotalOrder value_cmp }
    ensures exact { (a b : Value) → value_cmp a b ≡ Equal → a ≡ b }
{}
