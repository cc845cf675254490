//! The documents of an answer in the order of their values.
ghost use Rattle.std.specs.Prelude.{◌≡◌, ◌≢◌, ◌≤◌, length, map, IfOk};
ghost use Rattle.image_format.specs.Images.{table_of, IsLawfulImage};
ghost use Rattle.image_format.specs.Shapes.{shape_of, types_of};
ghost use Rattle.attr_types.specs.declared.field.TheConstants.{MOST_FIELDS};
ghost use Rattle.result_model.specs.Orders as model;
ghost use Rattle.attr_c.specs.Copies.{documents_of};
ghost use Rattle.attr_c.specs.Seats.{kept_view};
ghost use Rattle.attr_c.specs.Sorting.{direction_by, RefusesSort, SortsAnswer};
ghost use Rattle.attr_c.specs.Telling.{AnswersBy};
ghost use Rattle.attr_c.specs.declared.codes.TheConstants.{OK};

use crate::answer::{Answer, copy_docs};
use crate::asking::tell_commit;
use crate::codes::{BOUNDS, MEMORY, OK};
use crate::kept::Kept;
use crate::seat::AnyKept;
use crate::told::Answered;
use arena_api::Frozen;
use attr_types::{DocList, Fields, Score};
use entry_ref::EntryRef;
use query_results::sorted;
use result_model::Direction;
use std::alloc::{AllocError, Global};

/// Returns the documents of scores.
pub fn docs_of(alloc: Global, scores: &[Score]) -> Result<DocList, AllocError>
    ensures { IfOk result (λ docs. docs ≡ map (λ s. s.doc) scores.now) }
{
    let mut docs = DocList::new(alloc);
    for score in scores {
        docs.push(score.doc)?;
    }
    Ok(docs)
}

/// Returns the documents of an answer by their values in the attribute with this number: `count` of them after the first
/// `first`.
pub fn answer_sorted<const OFFSET_BITS: u32, F: Frozen<OFFSET_BITS>>(
    alloc: Global,
    frozen: &mut F,
    root: EntryRef<OFFSET_BITS>,
    fields: &Fields,
    answer: &Answer,
    field: u32,
    direction: Direction,
    first: usize,
    count: usize,
) -> Result<DocList, AllocError>
    requires few { length fields.now ≤ MOST_FIELDS }
    requires shape { F.shape frozen.old ≡ shape_of (types_of fields.now) }
    requires image { IsLawfulImage (F.shape frozen.old) (F.records frozen.old) root }
    ensures sorted { IfOk result (λ list. list ≡ model.sorted field direction (documents_of answer.now) first count
        (table_of (F.shape frozen.old) (F.records frozen.old) root.entry)) }
    ensures same { frozen.new ≡ frozen.old }
{
    match answer {
        Answer::Hits(docs) => sorted(
            alloc, frozen, root, fields, field, direction, docs, first, count,
        ),
        Answer::Scores(scores) => {
            let docs = docs_of(alloc, scores.as_slice())?;
            sorted(
                alloc, frozen, root, fields, field, direction, &docs, first, count,
            )
        }
    }
}

/// Returns the direction of an order that descends or not.
fn direction_by(descending: bool) -> Direction
    ensures { result ≡ direction_by descending }
{
    if descending {
        Direction::Descending
    } else {
        Direction::Ascending
    }
}

/// Copies the documents of an answer by their values at a guard's commit, from the one at this place on, or returns the
/// code of a refusal.
fn sort_of<const OFFSET_BITS: u32>(
    alloc: Global,
    kept: &mut Kept<OFFSET_BITS>,
    answer: &Answer,
    field: u32,
    descending: u32,
    first: usize,
    into: &mut [u32],
    told: &mut Answered,
) -> i32
    ensures sorts { result ≡ OK → SortsAnswer kept.old (documents_of answer.now) field descending first into.old into.new told.new }
    ensures refused { result ≢ OK → RefusesSort kept.old.fields field descending result }
    ensures left { result ≢ OK → into.new ≡ into.old }
    ensures by { AnswersBy told.old told.new result }
    ensures same { kept.new ≡ kept.old }
{
    if field as usize >= kept.fields().len() || descending > 1 {
        return BOUNDS;
    }
    tell_commit(kept, told);
    let direction = direction_by(descending == 1);
    match kept.sorted(alloc, answer, field, direction, first, into.len()) {
        Ok(docs) => {
            told.count = copy_docs(docs.as_slice(), into) as u64;
            OK
        }
        Err(_) => MEMORY,
    }
}

pub fn sort_any(
    alloc: Global,
    kept: &mut AnyKept,
    answer: &Answer,
    field: u32,
    descending: u32,
    first: usize,
    into: &mut [u32],
    told: &mut Answered,
) -> i32
    ensures sorts { result ≡ OK → SortsAnswer (kept_view kept.old) (documents_of answer.now) field descending first into.old into.new told.new }
    ensures refused { result ≢ OK → RefusesSort (kept_view kept.old).fields field descending result }
    ensures left { result ≢ OK → into.new ≡ into.old }
    ensures by { AnswersBy told.old told.new result }
    ensures same { kept_view kept.new ≡ kept_view kept.old }
{
    match kept {
        AnyKept::Narrow(kept) => sort_of(alloc, kept, answer, field, descending, first, into, told),
        AnyKept::Wide(kept) => sort_of(alloc, kept, answer, field, descending, first, into, told),
    }
}
