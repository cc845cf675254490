//! How an update changes a document.
ghost use Rattle.std.specs.Prelude.{◌≡◌, IfOk, IfSome, option_and_then, option_copied};
ghost use Rattle.attr_types.specs.Lawful.{IsLawfulDocument};
ghost use Rattle.attr_types.specs.Table.{to_update, updated, without_items};

use crate::changes_change::changed_items;
use crate::{Change, Field, FieldItems, Items};
use std::alloc::{AllocError, Global};

/// Returns a document without items.
fn empty_document(alloc: Global, fields: &[Field]) -> Result<FieldItems, AllocError>
    ensures { IfOk result (λ document. document ≡ without_items fields.now) }
{
    let mut document = Vec::with_capacity(alloc, fields.len())?;
    for _ in fields {
        document.push(Items::new(alloc))?;
    }
    Ok(FieldItems::from_vec(document))
}

/// Returns a document after the change of each attribute, or `None` if one of them is skipped.
fn changed_document(
    alloc: Global,
    fields: &[Field],
    changes: &[Change],
    document: &[Items],
) -> Result<Option<FieldItems>, AllocError>
    requires { IsLawfulDocument fields.now document.now }
    ensures { IfOk result (λ new. new ≡ updated fields.now changes.now document.now) }
{
    let mut new = Vec::with_capacity(alloc, fields.len())?;
    let mut fields_left = fields;
    let mut document_left = document;
    for change in changes {
        let [field, fields @ ..] = fields_left else {
            return Ok(Some(FieldItems::from_vec(new)));
        };
        let [items, document @ ..] = document_left else {
            return Ok(Some(FieldItems::from_vec(new)));
        };
        match changed_items(alloc, field.kind, field.value, change, items)? {
            Some(items) => new.push(items)?,
            None => return Ok(None),
        }
        fields_left = fields;
        document_left = document;
    }
    Ok(Some(FieldItems::from_vec(new)))
}

/// Returns a document after an update, or `None` if the update is skipped. The document may be missing; with `create`
/// a missing document is treated as one without items.
pub fn updated_document(
    alloc: Global,
    fields: &[Field],
    create: bool,
    changes: &[Change],
    document: Option<&FieldItems>,
) -> Result<Option<FieldItems>, AllocError>
    requires { IfSome (option_copied document) (IsLawfulDocument fields.now) }
    ensures { IfOk result (λ new. new ≡ option_and_then (updated fields.now changes.now)
        (to_update fields.now create (option_copied document.entry))) }
{
    match document {
        Some(document) => changed_document(alloc, fields, changes, document.as_slice()),
        None if create => {
            let empty = empty_document(alloc, fields)?;
            changed_document(alloc, fields, changes, empty.as_slice())
        }
        None => Ok(None),
    }
}
