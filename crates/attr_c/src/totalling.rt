//! The totals of the numbers of the documents of an answer.
ghost use Rattle.std.specs.Prelude.{◌≡◌, ◌≢◌, ◌≤◌, length, IfOk};
ghost use Rattle.image_format.specs.Images.{table_of, IsLawfulImage};
ghost use Rattle.image_format.specs.Shapes.{shape_of, types_of};
ghost use Rattle.attr_types.specs.declared.field.TheConstants.{MOST_FIELDS};
ghost use Rattle.result_model.specs.Totals as model;
ghost use Rattle.attr_c.specs.Copies.{documents_of};
ghost use Rattle.attr_c.specs.Seats.{kept_view};
ghost use Rattle.attr_c.specs.Sorting.{no_totals_told, RefusesField, TellsTotals, TotalsAnswer};
ghost use Rattle.attr_c.specs.Telling.{AnswersBy};
ghost use Rattle.attr_c.specs.declared.codes.TheConstants.{OK};

use crate::answer::Answer;
use crate::asking::tell_commit;
use crate::codes::{BOUNDS, MEMORY, OK};
use crate::kept::Kept;
use crate::seat::AnyKept;
use crate::sorting::docs_of;
use crate::told::{Answered, TotalsTold};
use arena_api::Frozen;
use attr_types::Fields;
use entry_ref::EntryRef;
use query_results::totals;
use result_model::Totals;
use std::alloc::{AllocError, Global};

/// The number of values of a word of 64 bits.
const WORD_VALUES: i128 = 1 << 64;

/// Returns the totals of the numbers that the documents of an answer have in the attribute with this number.
pub fn answer_totals<const OFFSET_BITS: u32, F: Frozen<OFFSET_BITS>>(
    alloc: Global,
    frozen: &mut F,
    root: EntryRef<OFFSET_BITS>,
    fields: &Fields,
    answer: &Answer,
    field: u32,
) -> Result<Totals, AllocError>
    requires few { length fields.now ≤ MOST_FIELDS }
    requires shape { F.shape frozen.old ≡ shape_of (types_of fields.now) }
    requires image { IsLawfulImage (F.shape frozen.old) (F.records frozen.old) root }
    ensures totals { IfOk result (λ found. found ≡ model.totals field (documents_of answer.now)
        (table_of (F.shape frozen.old) (F.records frozen.old) root.entry)) }
    ensures same { frozen.new ≡ frozen.old }
{
    match answer {
        Answer::Hits(docs) => totals(alloc, frozen, root, fields, field, docs),
        Answer::Scores(scores) => {
            let docs = docs_of(alloc, scores.as_slice())?;
            totals(alloc, frozen, root, fields, field, &docs)
        }
    }
}

/// Returns the totals of no numbers, as C is told them.
pub fn no_totals() -> TotalsTold
    ensures { result ≡ no_totals_told }
{
    TotalsTold {
        count: 0,
        low: 0,
        high: 0,
        least: 0,
        greatest: 0,
    }
}

/// Returns totals as C is told them.
fn told_totals(totals: &Totals) -> TotalsTold
    ensures { TellsTotals totals.now result }
{
    TotalsTold {
        count: totals.count,
        low: totals.sum.rem_euclid(WORD_VALUES) as u64,
        high: totals.sum.div_euclid(WORD_VALUES) as i64,
        least: totals.least.unwrap_or(0),
        greatest: totals.greatest.unwrap_or(0),
    }
}

/// Tells the totals of the documents of an answer at a guard's commit, or returns the code of a refusal.
fn total_of<const OFFSET_BITS: u32>(
    alloc: Global,
    kept: &mut Kept<OFFSET_BITS>,
    answer: &Answer,
    field: u32,
    totals: &mut TotalsTold,
    told: &mut Answered,
) -> i32
    ensures totals { result ≡ OK → TotalsAnswer kept.old (documents_of answer.now) field totals.new told.new }
    ensures refused { result ≢ OK → RefusesField kept.old.fields field result }
    ensures left { result ≢ OK → totals.new ≡ totals.old }
    ensures by { AnswersBy told.old told.new result }
    ensures same { kept.new ≡ kept.old }
{
    if field as usize >= kept.fields().len() {
        return BOUNDS;
    }
    tell_commit(kept, told);
    match kept.totals(alloc, answer, field) {
        Ok(found) => {
            *totals = told_totals(&found);
            told.count = found.count;
            OK
        }
        Err(_) => MEMORY,
    }
}

pub fn total_any(
    alloc: Global,
    kept: &mut AnyKept,
    answer: &Answer,
    field: u32,
    totals: &mut TotalsTold,
    told: &mut Answered,
) -> i32
    ensures totals { result ≡ OK → TotalsAnswer (kept_view kept.old) (documents_of answer.now) field totals.new told.new }
    ensures refused { result ≢ OK → RefusesField (kept_view kept.old).fields field result }
    ensures left { result ≢ OK → totals.new ≡ totals.old }
    ensures by { AnswersBy told.old told.new result }
    ensures same { kept_view kept.new ≡ kept_view kept.old }
{
    match kept {
        AnyKept::Narrow(kept) => total_of(alloc, kept, answer, field, totals, told),
        AnyKept::Wide(kept) => total_of(alloc, kept, answer, field, totals, told),
    }
}
