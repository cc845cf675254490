//! Checks the documents of an attribute.

ghost use Rattle.std.specs.Prelude.{◌≡◌, ◌↔◌, ◌≤◌, ℕ, List, IsTrue};
ghost use Rattle.std.specs.List.{AllByRecursion};
ghost use Rattle.attr_types.specs.Fitting.{ascends};
ghost use Rattle.attr_types.specs.Lawful.{IsDocNumber, HaveWeightOne, AscendByValue, IsLawfulItems};
ghost use Rattle.attr_types.specs.Value.{values_of};
ghost use Rattle.attr_types.specs.declared.items.Item.{Item};

use attr_types::{Doc, Item, Items, Kind, MOST_ITEMS};

/// Returns whether each value is below the next.
fn rise(items: &[Item]) -> bool
    ensures { result ≡ ascends (values_of items.now) }
{
    let mut rest = items;
    while let [first, others @ ..] = rest {
        if let [second, ..] = others {
            if first.value >= second.value {
                return false;
            }
        }
        rest = others;
    }
    true
}

/// Returns whether each value is below all later ones.
fn ascend(items: &[Item]) -> bool
    ensures { IsTrue result ↔ AscendByValue items.now }
{
    rise(items)
}

fn weigh_one(items: &[Item]) -> bool
    ensures { IsTrue result ↔ HaveWeightOne items.now }
{
    for item in items {
        if item.weight != 1 {
            return false;
        }
    }
    true
}

/// Returns whether a document may have these items.
fn are_lawful(kind: Kind, items: &[Item]) -> bool
    ensures { IsTrue result ↔ IsLawfulItems kind items.now }
{
    match kind {
        Kind::Single => items.len() <= 1 && weigh_one(items),
        Kind::Array => items.len() <= MOST_ITEMS && weigh_one(items),
        Kind::WeightedSet => items.len() <= MOST_ITEMS && ascend(items),
    }
}

fn is_document(number: u64) -> bool
    ensures { IsTrue result ↔ IsDocNumber number }
{
    1 <= number && number <= u64::from(Doc::LAST)
}

/// Returns whether each document has a valid number and lawful items.
pub fn are_lawful_documents(kind: Kind, column: &[(u64, Items)]) -> bool
    ensures { IsTrue result ↔ AllByRecursion (λ (e : ℕ × List Item). IsDocNumber e.0 × IsLawfulItems kind e.1) column.now }
{
    for (number, items) in column {
        if !is_document(*number) || !are_lawful(kind, items.as_slice()) {
            return false;
        }
    }
    true
}
