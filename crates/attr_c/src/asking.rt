//! The asks of a reader, at the commit of its guard.
ghost use Rattle.std.specs.Prelude.{◌≡◌, ◌<◌, ◌^◌, length, IfErr, IfOk, OnOk, Ok};
ghost use Rattle.query_text.specs.Asks.{ask_of, AsksAs};
ghost use Rattle.attr_types.specs.Scores.{ask_tree, answer_on, documents_in};
ghost use Rattle.attr_c.specs.Kept.{table_in};
ghost use Rattle.attr_c.specs.Refusals.{query_code, IsInBounds, RefusesItems, RefusesText, TellsPlace};
ghost use Rattle.attr_c.specs.Said.{said};
ghost use Rattle.attr_c.specs.Seats.{kept_view, AnswersText, ReadsItems, SavesTable, TellsCommit};
ghost use Rattle.attr_c.specs.Telling.{code_in, with_commit, AnswersBy};
ghost use Rattle.attr_c.specs.declared.codes.TheConstants.{MEMORY};

use crate::answer::Answer;
use crate::codes::{
    BOUNDS, MEMORY, NO_DOCUMENT, NO_FIELD, OUT_OF_RANGE, SYNTAX, TOO_DEEP, WRONG_TYPE,
};
use crate::kept::Kept;
use crate::seat::AnyKept;
use crate::told::Answered;
use attr_types::{Ask, Doc, Fields, Items, QueryError};
use query_text::parse_ask;
use std::alloc::Global;

/// The code of an error. Its place is told if it has one.
fn code_of(error: QueryError, told: &mut Answered) -> i32
    ensures code { result ≡ query_code error }
    ensures place { TellsPlace error told.new }
    ensures by { AnswersBy told.old told.new result }
{
    match error {
        QueryError::Syntax { place } => {
            told.place = place;
            SYNTAX
        }
        QueryError::NoField { place } => {
            told.place = place;
            NO_FIELD
        }
        QueryError::WrongType => WRONG_TYPE,
        QueryError::OutOfRange => OUT_OF_RANGE,
        QueryError::TooDeep => TOO_DEEP,
        QueryError::Memory => MEMORY,
    }
}

/// Returns what a text asks for.
pub fn ask_in(alloc: Global, text: &str, fields: &Fields, told: &mut Answered) -> Result<Ask, i32>
    requires { length fields.now < 2 ^ 32 }
    ensures asks { IfOk result (λ ask. AsksAs (Ok ask) (ask_of fields.now text.now)) }
    ensures refused { IfErr result (RefusesText fields.now text.now told.new) }
    ensures none { OnOk result (told.new ≡ told.old) }
    ensures by { IfErr result (AnswersBy told.old told.new) }
{
    match parse_ask(alloc, text, fields.as_slice()) {
        Ok(ask) => Ok(ask),
        Err(error) => Err(code_of(error, told)),
    }
}

/// Writes which commit answers.
pub fn tell_commit<const OFFSET_BITS: u32>(kept: &mut Kept<OFFSET_BITS>, told: &mut Answered)
    ensures tells { TellsCommit kept.old told.new }
    ensures only { told.new ≡ with_commit told.new told.old }
    ensures same { kept.new ≡ kept.old }
{
    told.commit = kept.commit();
    told.operations = kept.operations();
}

/// Returns the answer to an ask, or the code of a refusal.
fn answer_to<const OFFSET_BITS: u32>(
    alloc: Global,
    kept: &mut Kept<OFFSET_BITS>,
    ask: &Ask,
    told: &mut Answered,
) -> Result<Answer, i32>
    ensures answers { IfOk result (λ answer. said answer ≡ answer_on (ask_tree ask.now) (table_in kept.old)) }
    ensures count { IfOk result (λ answer. told.new.count ≡ documents_in (said answer)) }
    ensures tells { TellsCommit kept.old told.new }
    ensures memory { IfErr result (λ code. code ≡ MEMORY) }
    ensures by { AnswersBy told.old told.new (code_in result) }
    ensures same { kept.new ≡ kept.old }
{
    tell_commit(kept, told);
    match kept.answer(alloc, ask) {
        Ok(answer) => {
            told.count = answer.len() as u64;
            Ok(answer)
        }
        Err(_) => Err(MEMORY),
    }
}

/// Returns the answer to a text, or the code of its refusal.
fn answer_of<const OFFSET_BITS: u32>(
    alloc: Global,
    kept: &mut Kept<OFFSET_BITS>,
    text: &str,
    told: &mut Answered,
) -> Result<Answer, i32>
    ensures answers { IfOk result (AnswersText kept.old text.now told.new) }
    ensures refused { IfErr result (RefusesText kept.old.fields text.now told.new) }
    ensures by { AnswersBy told.old told.new (code_in result) }
    ensures same { kept.new ≡ kept.old }
{
    match ask_in(alloc, text, kept.fields(), told) {
        Ok(ask) => answer_to(alloc, kept, &ask, told),
        Err(code) => Err(code),
    }
}

/// Returns the items of a document, or the code of a refusal.
fn items_of<const OFFSET_BITS: u32>(
    alloc: Global,
    kept: &mut Kept<OFFSET_BITS>,
    doc: u32,
    field: u32,
    told: &mut Answered,
) -> Result<Items, i32>
    ensures items { IfOk result (ReadsItems kept.old doc field told.new) }
    ensures within { IfOk result (λ items. IsInBounds kept.old.fields doc field) }
    ensures refused { IfErr result (RefusesItems kept.old doc field told.new) }
    ensures by { AnswersBy told.old told.new (code_in result) }
    ensures same { kept.new ≡ kept.old }
{
    if field as usize >= kept.fields().len() || doc < 1 || doc > Doc::LAST {
        return Err(BOUNDS);
    }
    tell_commit(kept, told);
    match kept.items(alloc, field, Doc::new(doc)) {
        Ok(Some(items)) => {
            told.count = items.len() as u64;
            Ok(items)
        }
        Ok(None) => Err(NO_DOCUMENT),
        Err(_) => Err(MEMORY),
    }
}

/// Returns the bytes of a save, or the code of a refusal.
fn save_of<const OFFSET_BITS: u32>(
    alloc: Global,
    kept: &mut Kept<OFFSET_BITS>,
    told: &mut Answered,
) -> Result<Vec<u8>, i32>
    ensures saves { IfOk result (λ bytes. SavesTable kept.old told.new bytes.items) }
    ensures memory { IfErr result (λ code. code ≡ MEMORY) }
    ensures by { AnswersBy told.old told.new (code_in result) }
    ensures same { kept.new ≡ kept.old }
{
    tell_commit(kept, told);
    match kept.saved(alloc) {
        Ok(bytes) => {
            told.count = bytes.len() as u64;
            Ok(bytes)
        }
        Err(_) => Err(MEMORY),
    }
}

pub fn tell_any(kept: &mut AnyKept, told: &mut Answered)
    ensures tells { TellsCommit (kept_view kept.old) told.new }
    ensures only { told.new ≡ with_commit told.new told.old }
    ensures same { kept_view kept.new ≡ kept_view kept.old }
{
    match kept {
        AnyKept::Narrow(kept) => tell_commit(kept, told),
        AnyKept::Wide(kept) => tell_commit(kept, told),
    }
}

pub fn answer_any(
    alloc: Global,
    kept: &mut AnyKept,
    text: &str,
    told: &mut Answered,
) -> Result<Answer, i32>
    ensures answers { IfOk result (AnswersText (kept_view kept.old) text.now told.new) }
    ensures refused { IfErr result (RefusesText (kept_view kept.old).fields text.now told.new) }
    ensures by { AnswersBy told.old told.new (code_in result) }
    ensures same { kept_view kept.new ≡ kept_view kept.old }
{
    match kept {
        AnyKept::Narrow(kept) => answer_of(alloc, kept, text, told),
        AnyKept::Wide(kept) => answer_of(alloc, kept, text, told),
    }
}

pub fn items_any(
    alloc: Global,
    kept: &mut AnyKept,
    doc: u32,
    field: u32,
    told: &mut Answered,
) -> Result<Items, i32>
    ensures items { IfOk result (ReadsItems (kept_view kept.old) doc field told.new) }
    ensures within { IfOk result (λ items. IsInBounds (kept_view kept.old).fields doc field) }
    ensures refused { IfErr result (RefusesItems (kept_view kept.old) doc field told.new) }
    ensures by { AnswersBy told.old told.new (code_in result) }
    ensures same { kept_view kept.new ≡ kept_view kept.old }
{
    match kept {
        AnyKept::Narrow(kept) => items_of(alloc, kept, doc, field, told),
        AnyKept::Wide(kept) => items_of(alloc, kept, doc, field, told),
    }
}

pub fn save_any(alloc: Global, kept: &mut AnyKept, told: &mut Answered) -> Result<Vec<u8>, i32>
    ensures saves { IfOk result (λ bytes. SavesTable (kept_view kept.old) told.new bytes.items) }
    ensures memory { IfErr result (λ code. code ≡ MEMORY) }
    ensures by { AnswersBy told.old told.new (code_in result) }
    ensures same { kept_view kept.new ≡ kept_view kept.old }
{
    match kept {
        AnyKept::Narrow(kept) => save_of(alloc, kept, told),
        AnyKept::Wide(kept) => save_of(alloc, kept, told),
    }
}
