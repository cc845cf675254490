//! The documents of an answer, grouped by their values.
ghost use Rattle.std.specs.Prelude.{◌≡◌, ◌==◌, ◌≤◌, length, IfErr, IfOk};
ghost use Rattle.image_format.specs.Images.{table_of, IsLawfulImage};
ghost use Rattle.image_format.specs.Shapes.{shape_of, types_of};
ghost use Rattle.attr_types.specs.declared.field.TheConstants.{MOST_FIELDS};
ghost use Rattle.attr_c.specs.Copies.{documents_of};
ghost use Rattle.attr_c.specs.Grouping.{groups_by, GroupsDocuments, IsGrouping, RefusesGroups};
ghost use Rattle.attr_c.specs.Seats.{kept_view};
ghost use Rattle.attr_c.specs.Telling.{code_in, AnswersBy};

use crate::answer::Answer;
use crate::asking::tell_commit;
use crate::codes::{BOUNDS, MEMORY};
use crate::kept::Kept;
use crate::seat::AnyKept;
use crate::sorting::docs_of;
use crate::told::Answered;
use arena_api::Frozen;
use attr_types::{DocList, Fields};
use entry_ref::EntryRef;
use query_results::{groups, largest_groups};
use result_model::Groups;
use std::alloc::{AllocError, Global};

/// Returns the groups of documents by their values in the attribute with this number: the first `most`, by value or by count.
fn document_groups<const OFFSET_BITS: u32, F: Frozen<OFFSET_BITS>>(
    alloc: Global,
    frozen: &mut F,
    root: EntryRef<OFFSET_BITS>,
    fields: &Fields,
    docs: &DocList,
    field: u32,
    by_count: bool,
    most: usize,
) -> Result<Groups, AllocError>
    requires few { length fields.now ≤ MOST_FIELDS }
    requires shape { F.shape frozen.old ≡ shape_of (types_of fields.now) }
    requires image { IsLawfulImage (F.shape frozen.old) (F.records frozen.old) root }
    ensures groups { IfOk result (λ list. list
        ≡ groups_by by_count field docs.now most (table_of (F.shape frozen.old) (F.records frozen.old) root.entry)) }
    ensures same { frozen.new ≡ frozen.old }
{
    if by_count {
        largest_groups(alloc, frozen, root, fields, field, docs, most)
    } else {
        groups(alloc, frozen, root, fields, field, docs, most)
    }
}

/// Returns the groups of the documents of an answer by their values in the attribute with this number: the first `most`, by value
/// or by count.
pub fn answer_groups<const OFFSET_BITS: u32, F: Frozen<OFFSET_BITS>>(
    alloc: Global,
    frozen: &mut F,
    root: EntryRef<OFFSET_BITS>,
    fields: &Fields,
    answer: &Answer,
    field: u32,
    by_count: bool,
    most: usize,
) -> Result<Groups, AllocError>
    requires few { length fields.now ≤ MOST_FIELDS }
    requires shape { F.shape frozen.old ≡ shape_of (types_of fields.now) }
    requires image { IsLawfulImage (F.shape frozen.old) (F.records frozen.old) root }
    ensures groups { IfOk result (λ list. list
        ≡ groups_by by_count field (documents_of answer.now) most (table_of (F.shape frozen.old) (F.records frozen.old) root.entry)) }
    ensures same { frozen.new ≡ frozen.old }
{
    match answer {
        Answer::Hits(docs) => {
            document_groups(alloc, frozen, root, fields, docs, field, by_count, most)
        }
        Answer::Scores(scores) => {
            let docs = docs_of(alloc, scores.as_slice())?;
            document_groups(alloc, frozen, root, fields, &docs, field, by_count, most)
        }
    }
}

/// Returns the groups of the documents of an answer at a guard's commit, or the code of a refusal.
fn groups_of<const OFFSET_BITS: u32>(
    alloc: Global,
    kept: &mut Kept<OFFSET_BITS>,
    answer: &Answer,
    field: u32,
    by_count: u32,
    most: usize,
    told: &mut Answered,
) -> Result<Groups, i32>
    ensures groups { IfOk result (GroupsDocuments kept.old (documents_of answer.now) field by_count most told.new) }
    ensures within { IfOk result (λ groups. IsGrouping kept.old.fields field by_count) }
    ensures refused { IfErr result (RefusesGroups kept.old.fields field by_count) }
    ensures by { AnswersBy told.old told.new (code_in result) }
    ensures same { kept.new ≡ kept.old }
{
    if field as usize >= kept.fields().len() || by_count > 1 {
        return Err(BOUNDS);
    }
    tell_commit(kept, told);
    match kept.groups(alloc, answer, field, by_count == 1, most) {
        Ok(groups) => {
            told.count = groups.len() as u64;
            Ok(groups)
        }
        Err(_) => Err(MEMORY),
    }
}

pub fn groups_any(
    alloc: Global,
    kept: &mut AnyKept,
    answer: &Answer,
    field: u32,
    by_count: u32,
    most: usize,
    told: &mut Answered,
) -> Result<Groups, i32>
    ensures groups { IfOk result (GroupsDocuments (kept_view kept.old) (documents_of answer.now) field by_count most told.new) }
    ensures within { IfOk result (λ groups. IsGrouping (kept_view kept.old).fields field by_count) }
    ensures refused { IfErr result (RefusesGroups (kept_view kept.old).fields field by_count) }
    ensures by { AnswersBy told.old told.new (code_in result) }
    ensures same { kept_view kept.new ≡ kept_view kept.old }
{
    match kept {
        AnyKept::Narrow(kept) => groups_of(alloc, kept, answer, field, by_count, most, told),
        AnyKept::Wide(kept) => groups_of(alloc, kept, answer, field, by_count, most, told),
    }
}
