//! The answers of an image.
ghost use Rattle.image_format.specs.Images.{table_of, IsLawfulImage};
ghost use Rattle.image_format.specs.Shapes.{shape_of, types_of};
ghost use Rattle.attr_types.specs.Scores.{scores};
ghost use Rattle.attr_types.specs.Query.{tree_of};
ghost use Rattle.attr_types.specs.Table.{hits};
ghost use Rattle.attr_types.specs.declared.field.TheConstants.{MOST_FIELDS};
ghost use Rattle.std.specs.Prelude.{◌≡◌, ◌≤◌, length, IfOk};

use crate::image::{dictionaries_of, root_at};
use crate::parts::scored;
use crate::queries::matching;
use arena_api::Frozen;
use attr_types::{DocList, Fields, Parts, Query, ScoreList};
use entry_ref::EntryRef;
use std::alloc::{AllocError, Global};

/// Returns the documents of an image that a query matches, ascending.
pub fn hits<const OFFSET_BITS: u32, F: Frozen<OFFSET_BITS>>(
    alloc: Global,
    frozen: &mut F,
    root: EntryRef<OFFSET_BITS>,
    fields: &Fields,
    query: &Query,
) -> Result<DocList, AllocError>
    requires few { length fields.now ≤ MOST_FIELDS }
    requires shape { F.shape frozen.old ≡ shape_of (types_of fields.now) }
    requires image { IsLawfulImage (F.shape frozen.old) (F.records frozen.old) root }
    ensures hits { IfOk result (λ docs. docs ≡ hits (tree_of query.now) (table_of (F.shape frozen.old) (F.records frozen.old) root.entry)) }
    ensures same { frozen.new ≡ frozen.old }
{
    let dictionaries = dictionaries_of(alloc, frozen, root, fields.as_slice())?;
    matching(alloc, frozen, dictionaries.as_slice(), query)
}

/// Returns the documents of an image that have the value of some part in an attribute, ascending, each with its
/// score.
pub fn scores<const OFFSET_BITS: u32, F: Frozen<OFFSET_BITS>>(
    alloc: Global,
    frozen: &mut F,
    root: EntryRef<OFFSET_BITS>,
    fields: &Fields,
    field: u32,
    parts: &Parts,
) -> Result<ScoreList, AllocError>
    requires few { length fields.now ≤ MOST_FIELDS }
    requires shape { F.shape frozen.old ≡ shape_of (types_of fields.now) }
    requires image { IsLawfulImage (F.shape frozen.old) (F.records frozen.old) root }
    ensures scores { IfOk result (λ list. list ≡ scores field parts.now (table_of (F.shape frozen.old) (F.records frozen.old) root.entry)) }
    ensures same { frozen.new ≡ frozen.old }
{
    match fields.as_slice().get(field as usize) {
        Some(own) => {
            let dictionary = root_at(frozen, root, 2 + 2 * field);
            scored(alloc, frozen, dictionary, own.value, parts.as_slice())
        }
        None => Ok(ScoreList::new(alloc)),
    }
}
