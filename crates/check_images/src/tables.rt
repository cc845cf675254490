//! Columns side by side.
ghost use Rattle.std.specs.Prelude.{◌≡◌, ◌↔◌, ◌∷◌, map, IsTrue, IfOk};
ghost use Rattle.std.specs.List.{zip};
ghost use Rattle.std.specs.Map.{keys_of};
ghost use Rattle.index_model.specs.Columns.{table_of_column};

use attr_types::{FieldItems, Items};
use std::alloc::{AllocError, Global};

/// Returns each document with its one list of items.
pub fn table_of_column(
    alloc: Global,
    column: Vec<(u64, Items)>,
) -> Result<Vec<(u64, FieldItems)>, AllocError>
    ensures { IfOk result (λ table. table.items ≡ table_of_column column.items) }
{
    let mut table = Vec::new(alloc);
    for entry in column {
        let (number, items) = entry;
        table.push((number, FieldItems::of_one(alloc, items)?))?;
    }
    Ok(table)
}

/// Returns whether a column and a table have the same documents.
pub fn have_same_documents(column: &[(u64, Items)], table: &[(u64, FieldItems)]) -> bool
    ensures { IsTrue result ↔ keys_of table.now ≡ keys_of column.now }
{
    let mut rows = table;
    for entry in column {
        let [row, rest @ ..] = rows else {
            return false;
        };
        if row.0 != entry.0 {
            return false;
        }
        rows = rest;
    }
    rows.is_empty()
}

/// Puts items before a document's other lists of items.
fn put_in_front(items: Items, document: FieldItems) -> Result<FieldItems, AllocError>
    ensures { IfOk result (λ whole. whole ≡ items ∷ document) }
{
    let mut lists = document.into_vec();
    lists.insert(0, items)?;
    Ok(FieldItems::from_vec(lists))
}

/// Returns each document of a column with its items before its other lists.
pub fn put_beside(
    alloc: Global,
    column: Vec<(u64, Items)>,
    table: Vec<(u64, FieldItems)>,
) -> Result<Vec<(u64, FieldItems)>, AllocError>
    ensures { IfOk result (λ whole. whole.items ≡ map (λ p. (p.0.0, p.0.1 ∷ p.1.1)) (zip column.items table.items)) }
{
    let mut whole = Vec::new(alloc);
    for (entry, row) in column.into_iter().zip(table) {
        let (number, items) = entry;
        whole.push((number, put_in_front(items, row.1)?))?;
    }
    Ok(whole)
}
