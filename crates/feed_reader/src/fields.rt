//! The items or changes that a line gives each attribute.

ghost use Rattle.std.specs.Prelude.{◌≡◌, IfOk, option_map};
ghost use Rattle.serde_json.specs.View.{view};
ghost use Rattle.feed_reader.specs.Answers.{ReadsAs};
ghost use Rattle.feed_reader.specs.Grammar.{all_some, each_field, put_read, update_read};

use crate::refusal::LineError;
use crate::update::{put_in, update_in};
use attr_types::{Change, Field, FieldChanges, FieldItems};
use serde_json::Value as Json;
use std::alloc::{AllocError, Global};

/// Returns the items that a put gives each attribute.
pub fn document_in(alloc: Global, fields: &[Field], members: &Json) -> Result<FieldItems, LineError>
    ensures { ReadsAs (λ document. document) result (each_field put_read fields.now (view members.now)) }
{
    let mut document = Vec::with_capacity(alloc, fields.len())?;
    for field in fields {
        document.push(put_in(alloc, field, members.get(field.name.as_str()))?)?;
    }
    Ok(FieldItems::from_vec(document))
}

/// Returns the changes of each attribute by an update, or `None` if an attribute does not have an operator.
pub fn changes_in(
    alloc: Global,
    fields: &[Field],
    members: &Json,
) -> Result<Vec<Option<Change>>, LineError>
    ensures { ReadsAs (λ changes. changes.items) result (each_field update_read fields.now (view members.now)) }
{
    let mut changes = Vec::with_capacity(alloc, fields.len())?;
    for field in fields {
        changes.push(update_in(alloc, field, members.get(field.name.as_str()))?)?;
    }
    Ok(changes)
}

/// Returns all changes, if each attribute has its operator.
pub fn all_known(
    alloc: Global,
    changes: Vec<Option<Change>>,
) -> Result<Option<FieldChanges>, AllocError>
    ensures { IfOk result (λ known. known ≡ all_some changes.items) }
{
    let mut known = Vec::with_capacity(alloc, changes.len())?;
    for change in changes {
        match change {
            Some(change) => known.push(change)?,
            None => return Ok(None),
        }
    }
    Ok(Some(FieldChanges::from_vec(known)))
}
