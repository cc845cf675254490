//! The last commit of attributes, beside a plain table.
ghost use Rattle.std.specs.Prelude.{◌≤◌, length};
ghost use Rattle.attr_types.specs.declared.field.TheConstants.{MOST_FIELDS};

use crate::counts::Told;
use crate::turn::Noted;
use attr_types::Fields;
use check_images::{CheckFault, check_image};
use entry_ref::{word_in, words_at};
use plain_model::PlainTable;
use std::alloc::{AllocError, Global};
use std::collections::BTreeMap;
use test_kit::is_same_table;

/// Returns whether the slow checker reads these records as a lawful image of the plain table, after this many
/// operations.
fn is_lawful(
    alloc: Global,
    fields: &Fields,
    records: &BTreeMap<u32, Vec<u64>>,
    root: u64,
    operations: u32,
    plain: &PlainTable,
) -> Result<bool, AllocError>
    requires { length fields.now ≤ MOST_FIELDS }
{
    if word_in(words_at(records, root), 0) != u64::from(operations) {
        return Ok(false);
    }
    match check_image(alloc, fields, records, root) {
        Ok(table) => Ok(is_same_table(&table, plain.documents())),
        Err(CheckFault::Broken) => Ok(false),
        Err(CheckFault::Memory) => Err(AllocError),
    }
}

/// Lets the slow checker read the image, if its records were noted.
pub fn check_notes<W: Noted>(
    alloc: Global,
    fields: &Fields,
    work: &W,
    root: u64,
    plain: &PlainTable,
    told: &mut Told,
) -> Result<(), AllocError>
    requires { length fields.now ≤ MOST_FIELDS }
{
    let Some(records) = work.notes() else {
        return Ok(());
    };
    told.images = told.images.saturating_add(1);
    if !is_lawful(alloc, fields, records, root, told.committed, plain)? {
        told.differs = true;
    }
    Ok(())
}
