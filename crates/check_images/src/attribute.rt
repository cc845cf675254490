//! One attribute, by the roots of its two trees.
ghost use Rattle.std.specs.Prelude.{◌≡◌, ℕ, map, OnOk, IfOk, IfErr};
ghost use Rattle.std.specs.List.{AllByRecursion};
ghost use Rattle.std.specs.Ordering.{nat_cmp};
ghost use Rattle.tree_read.specs.Trees.{tree_pairs, by_number, IsTree};
ghost use Rattle.image_format.specs.Attributes.{IsLawfulAttribute};
ghost use Rattle.index_model.specs.Columns.{documents_with, IsLawfulColumn};
ghost use Rattle.image_format.specs.Documents.{AreItemRecords, column_at};
ghost use Rattle.image_format.specs.Postings.{list_form, postings_at, IsDictionaryEntry};
ghost use Rattle.image_format.specs.Values.{stored_value};
ghost use Rattle.attr_types.specs.Value.{value_cmp};
ghost use Rattle.entry_ref.specs.Maps.{seen};
ghost use Rattle.check_images.specs.Refutations.{Refutes};

use crate::coverage::have_all_values;
use crate::dictionary::read_dictionary;
use crate::documents::are_lawful_documents;
use crate::items::read_documents;
use crate::{CheckFault, Keys, check_tree};
use attr_types::{Items, Kind, Value, ValueType};
use std::alloc::Global;
use std::collections::BTreeMap;

/// Returns the documents of a document tree with their items, if its nodes and the records of the items are well
/// formed and the documents are lawful.
fn read_column(
    alloc: Global,
    kind: Kind,
    value_type: ValueType,
    records: &BTreeMap<u32, Vec<u64>>,
    documents: u64,
) -> Result<Vec<(u64, Items)>, CheckFault>
    ensures tree { OnOk result (IsTree nat_cmp by_number (seen records.now) documents) }
    ensures items { OnOk result (AllByRecursion (λ (p : ℕ × ℕ). AreItemRecords kind value_type (seen records.now) p.1)
        (tree_pairs (seen records.now) documents)) }
    ensures lawful { OnOk result (IsLawfulColumn kind (column_at kind value_type (seen records.now) documents)) }
    ensures column { IfOk result (λ column. column.items ≡ column_at kind value_type (seen records.now) documents) }
    ensures exact { IfErr result (Refutes (IsTree nat_cmp by_number (seen records.now) documents
        × AllByRecursion (λ (p : ℕ × ℕ). AreItemRecords kind value_type (seen records.now) p.1)
        (tree_pairs (seen records.now) documents)
        × IsLawfulColumn kind (column_at kind value_type (seen records.now) documents))) }
{
    let pairs = check_tree(alloc, Keys::Numbers, records, documents)?;
    let column = read_documents(alloc, kind, value_type, records, pairs.as_slice())?;
    if !are_lawful_documents(kind, column.as_slice()) {
        return Err(CheckFault::Broken);
    }
    Ok(column)
}

/// Returns the values of a dictionary, if its nodes and records are well formed and its lists are those of a column.
fn read_values(
    alloc: Global,
    value_type: ValueType,
    records: &BTreeMap<u32, Vec<u64>>,
    column: &[(u64, Items)],
    dictionary: u64,
) -> Result<Vec<Value>, CheckFault>
    ensures tree { OnOk result (IsTree value_cmp (stored_value value_type) (seen records.now) dictionary) }
    ensures entries { OnOk result (AllByRecursion (IsDictionaryEntry value_type (seen records.now))
        (tree_pairs (seen records.now) dictionary)) }
    ensures lists { OnOk result (AllByRecursion (λ (p : ℕ × ℕ).
        postings_at (seen records.now) (list_form p.1) ≡ documents_with (stored_value value_type (seen records.now) p.0) column.now)
        (tree_pairs (seen records.now) dictionary)) }
    ensures values { IfOk result (λ values. values.items
        ≡ map (λ (p : ℕ × ℕ). stored_value value_type (seen records.now) p.0) (tree_pairs (seen records.now) dictionary)) }
    ensures exact { IfErr result (Refutes (IsTree value_cmp (stored_value value_type) (seen records.now) dictionary
        × AllByRecursion (IsDictionaryEntry value_type (seen records.now)) (tree_pairs (seen records.now) dictionary)
        × AllByRecursion (λ (p : ℕ × ℕ).
        postings_at (seen records.now) (list_form p.1) ≡ documents_with (stored_value value_type (seen records.now) p.0) column.now)
        (tree_pairs (seen records.now) dictionary))) }
{
    let pairs = check_tree(alloc, Keys::Values(value_type), records, dictionary)?;
    read_dictionary(alloc, value_type, records, column, pairs.as_slice())
}

/// Returns the documents of an attribute by the roots of its document tree and of its dictionary, if the attribute is
/// lawful.
pub fn check_attribute(
    alloc: Global,
    kind: Kind,
    value_type: ValueType,
    records: &BTreeMap<u32, Vec<u64>>,
    documents: u64,
    dictionary: u64,
) -> Result<Vec<(u64, Items)>, CheckFault>
    ensures lawful { OnOk result (IsLawfulAttribute kind value_type (seen records.now) documents dictionary) }
    ensures column { IfOk result (λ column. column.items ≡ column_at kind value_type (seen records.now) documents) }
    ensures exact { IfErr result (Refutes (IsLawfulAttribute kind value_type (seen records.now) documents dictionary)) }
{
    let column = read_column(alloc, kind, value_type, records, documents)?;
    let values = read_values(alloc, value_type, records, column.as_slice(), dictionary)?;
    if !have_all_values(values.as_slice(), column.as_slice()) {
        return Err(CheckFault::Broken);
    }
    Ok(column)
}
