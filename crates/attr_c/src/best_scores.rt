//! The best scores of a dot product.
ghost use Rattle.std.specs.Prelude.{◌≡◌, ◌≢◌, ◌≤◌, length, IfOk};
ghost use Rattle.image_format.specs.Images.{table_of, IsLawfulImage};
ghost use Rattle.image_format.specs.Shapes.{shape_of, types_of};
ghost use Rattle.attr_types.specs.Scores.{ask_tree};
ghost use Rattle.attr_types.specs.declared.field.TheConstants.{MOST_FIELDS};
ghost use Rattle.attr_c.specs.Refusals.{RefusesText};
ghost use Rattle.attr_c.specs.Seats.{kept_view};
ghost use Rattle.attr_c.specs.Sorting.{best_on, BestOfAsk, BestOfText};
ghost use Rattle.attr_c.specs.Telling.{AnswersBy};
ghost use Rattle.attr_c.specs.declared.codes.TheConstants.{MEMORY, OK};

use crate::answer::copy_scored;
use crate::asking::{ask_in, tell_commit};
use crate::codes::{MEMORY, OK};
use crate::kept::Kept;
use crate::seat::AnyKept;
use crate::told::{Answered, Scored};
use arena_api::Frozen;
use attr_types::{Ask, Fields, ScoreList};
use entry_ref::EntryRef;
use query_results::best;
use std::alloc::{AllocError, Global};

/// Returns the `count` best scores that an image has for an ask. A query has none.
pub fn best_at<const OFFSET_BITS: u32, F: Frozen<OFFSET_BITS>>(
    alloc: Global,
    frozen: &mut F,
    root: EntryRef<OFFSET_BITS>,
    fields: &Fields,
    ask: &Ask,
    count: usize,
) -> Result<ScoreList, AllocError>
    requires few { length fields.now ≤ MOST_FIELDS }
    requires shape { F.shape frozen.old ≡ shape_of (types_of fields.now) }
    requires image { IsLawfulImage (F.shape frozen.old) (F.records frozen.old) root }
    ensures best { IfOk result (λ list. list
        ≡ best_on (ask_tree ask.now) count (table_of (F.shape frozen.old) (F.records frozen.old) root.entry)) }
    ensures same { frozen.new ≡ frozen.old }
{
    match ask {
        Ask::Hits(_) => Ok(ScoreList::new(alloc)),
        Ask::Dot { field, parts } => best(alloc, frozen, root, fields, *field, parts, count),
    }
}

/// Copies the best scores of an ask at a guard's commit, or returns the code of a refusal.
fn best_to<const OFFSET_BITS: u32>(
    alloc: Global,
    kept: &mut Kept<OFFSET_BITS>,
    ask: &Ask,
    into: &mut [Scored],
    told: &mut Answered,
) -> i32
    ensures best { result ≡ OK → BestOfAsk kept.old (ask_tree ask.now) into.old into.new told.new }
    ensures memory { result ≢ OK → result ≡ MEMORY }
    ensures left { result ≢ OK → into.new ≡ into.old }
    ensures by { AnswersBy told.old told.new result }
    ensures same { kept.new ≡ kept.old }
{
    tell_commit(kept, told);
    match kept.best(alloc, ask, into.len()) {
        Ok(scores) => {
            told.count = copy_scored(scores.as_slice(), into) as u64;
            OK
        }
        Err(_) => MEMORY,
    }
}

/// Copies the best scores that a text asks for at a guard's commit, or returns the code of its refusal.
fn best_of<const OFFSET_BITS: u32>(
    alloc: Global,
    kept: &mut Kept<OFFSET_BITS>,
    text: &str,
    into: &mut [Scored],
    told: &mut Answered,
) -> i32
    ensures best { result ≡ OK → BestOfText kept.old text.now into.old into.new told.new }
    ensures refused { result ≢ OK → RefusesText kept.old.fields text.now told.new result }
    ensures left { result ≢ OK → into.new ≡ into.old }
    ensures by { AnswersBy told.old told.new result }
    ensures same { kept.new ≡ kept.old }
{
    match ask_in(alloc, text, kept.fields(), told) {
        Ok(ask) => best_to(alloc, kept, &ask, into, told),
        Err(code) => code,
    }
}

pub fn best_any(
    alloc: Global,
    kept: &mut AnyKept,
    text: &str,
    into: &mut [Scored],
    told: &mut Answered,
) -> i32
    ensures best { result ≡ OK → BestOfText (kept_view kept.old) text.now into.old into.new told.new }
    ensures refused { result ≢ OK → RefusesText (kept_view kept.old).fields text.now told.new result }
    ensures left { result ≢ OK → into.new ≡ into.old }
    ensures by { AnswersBy told.old told.new result }
    ensures same { kept_view kept.new ≡ kept_view kept.old }
{
    match kept {
        AnyKept::Narrow(kept) => best_of(alloc, kept, text, into, told),
        AnyKept::Wide(kept) => best_of(alloc, kept, text, into, told),
    }
}
