//! Checks a whole image from its root record.

ghost use Rattle.std.specs.Prelude.{◌≡◌, ◌↔◌, ◌≤◌, ◌+◌, ℕ, length, drop, IsTrue, OnOk, IfOk, IfErr};
ghost use Rattle.std.specs.List.{AllByRecursion};
ghost use Rattle.image_format.specs.Images.{attributes_from, table_of, IsRootRecord, IsLawfulImage};
ghost use Rattle.image_format.specs.Shapes.{shape_of, types_of};
ghost use Rattle.image_format.specs.Tables.{table_of_columns, columns_at, AreLawfulAttributes};
ghost use Rattle.entry_ref.specs.Maps.{seen};
ghost use Rattle.check_images.specs.Refutations.{Refutes};

use crate::CheckFault;
use crate::attribute::check_attribute;
use crate::tables::{have_same_documents, put_beside, table_of_column};
use crate::words::class_of;
use attr_types::{Field, FieldItems, Fields, MOST_FIELDS};
use entry_ref::{word_in, words_at};
use std::alloc::Global;
use std::collections::BTreeMap;

/// Returns the words from one of them on.
fn words_from(words: &[u64], first: usize) -> &[u64]
    ensures { result.now ≡ drop first words.now }
{
    match words.get(first..) {
        Some(rest) => rest,
        None => &[],
    }
}

fn are_zeros(words: &[u64]) -> bool
    ensures { IsTrue result ↔ AllByRecursion (λ w. w ≡ 0) words.now }
{
    for word in words {
        if *word != 0 {
            return false;
        }
    }
    true
}

/// Returns whether the root record of this many attributes is well formed.
fn is_root_record(count: usize, words: &[u64]) -> bool
    requires { count ≤ MOST_FIELDS }
    ensures { IsTrue result ↔ IsRootRecord count words.now }
{
    if words.len() != class_of(1 + 2 * count) || word_in(words, 0) > u64::from(u32::MAX) {
        return false;
    }
    are_zeros(words_from(words, 1 + 2 * count))
}

/// Returns the table of the attributes in a root record's words from number `first` on, if they are lawful.
fn check_attributes(
    alloc: Global,
    fields: &[Field],
    first: usize,
    records: &BTreeMap<u32, Vec<u64>>,
    words: &[u64],
) -> Result<Vec<(u64, FieldItems)>, CheckFault>
    requires { first + length fields.now ≤ MOST_FIELDS }
    ensures lawful { OnOk result (AreLawfulAttributes (seen records.now) (attributes_from first (types_of fields.now) words.now)) }
    ensures table { IfOk result (λ table. table.items
        ≡ table_of_columns (columns_at (seen records.now) (attributes_from first (types_of fields.now) words.now))) }
    ensures exact { IfErr result (Refutes (AreLawfulAttributes (seen records.now)
        (attributes_from first (types_of fields.now) words.now))) }
{
    let [field, rest @ ..] = fields else {
        return Ok(Vec::new(alloc));
    };
    let documents = word_in(words, 1 + 2 * first);
    let dictionary = word_in(words, 2 + 2 * first);
    let column = check_attribute(
        alloc,
        field.kind,
        field.value,
        records,
        documents,
        dictionary,
    )?;
    if rest.is_empty() {
        return Ok(table_of_column(alloc, column)?);
    }
    let table = check_attributes(alloc, rest, first + 1, records, words)?;
    if !have_same_documents(column.as_slice(), table.as_slice()) {
        return Err(CheckFault::Broken);
    }
    Ok(put_beside(alloc, column, table)?)
}

/// Returns the table of the image at a root, if the image is lawful for these attributes, otherwise `Broken`. The
/// check ends for all records, also those with cycles.
pub fn check_image(
    alloc: Global,
    fields: &Fields,
    records: &BTreeMap<u32, Vec<u64>>,
    root: u64,
) -> Result<Vec<(u64, FieldItems)>, CheckFault>
    requires { length fields.now ≤ MOST_FIELDS }
    ensures lawful { OnOk result (IsLawfulImage (shape_of (types_of fields.now)) (seen records.now) root) }
    ensures table { IfOk result (λ table. table.items ≡ table_of (shape_of (types_of fields.now)) (seen records.now) root) }
    ensures exact { IfErr result (Refutes (IsLawfulImage (shape_of (types_of fields.now)) (seen records.now) root)) }
{
    if root == 0 {
        return Ok(Vec::new(alloc));
    }
    let words = words_at(records, root);
    if !is_root_record(fields.len(), words) {
        return Err(CheckFault::Broken);
    }
    check_attributes(alloc, fields.as_slice(), 0, records, words)
}
