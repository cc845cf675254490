//! Reads a query or a dot product from a text.

ghost use Rattle.std.specs.Prelude.{◌≡◌, ◌<◌, ◌^◌, length, slice_get, true};
ghost use Rattle.query_text.specs.Asks.{hits_checked, hits_judged, query_of, dot_checked, dot_judged, dot_if, ask_of, ParsesAs, AsksAs};
ghost use Rattle.query_text.specs.Dot.{dot_surveyed};
ghost use Rattle.query_text.specs.Grammar.{is_weighted, is_weighted_kind, AnswersAs, AnswersQuery};
ghost use Rattle.query_text.specs.Laws.{ReadsByGrammar, AnswersOnce, AsksOneThing, ReadsBack};

use crate::dot::read::parts_in;
use crate::dot::survey::{DotSurvey, dot_survey_of};
use crate::list::query_in;
use crate::read::ReadError;
use crate::survey::{Survey, survey_of};
use attr_types::{Ask, Field, Kind, Query, QueryError};
use std::alloc::Global;

/// The greatest number of levels of a query. A leaf has one level.
const MAX_LEVELS: u32 = 32;

/// Returns the query that a text describes, over these attributes. A leaf without a name refers to attribute 0.
///
/// If the text is not a query, or not such a query, the result is the first of `Syntax`, `NoField`, `WrongType`,
/// `OutOfRange` and `TooDeep` that applies to the whole text.
pub fn parse_query(alloc: Global, text: &str, fields: &[Field]) -> Result<Query, QueryError>
    requires { length fields.now < 2 ^ 32 }
    ensures says { ParsesAs result (query_of fields.now text.now) }
    ensures grammar { AnswersQuery fields.now text.now result }
{
    read_query(alloc, text, fields)
}

#[tactic(auto, unfolding(crate::specs::Asks::query_of))]
fn read_query(alloc: Global, text: &str, fields: &[Field]) -> Result<Query, QueryError>
    requires { length fields.now < 2 ^ 32 }
    ensures { ParsesAs result (query_of fields.now text.now) }
{
    match survey_of(text.as_bytes(), fields) {
        Ok(survey) => hits_judged(alloc, fields, text.as_bytes(), survey),
        Err(place) => Err(QueryError::Syntax { place }),
    }
}

/// Returns what a text asks of these attributes: the documents that a query matches, or a dot product.
///
/// If the text asks for nothing, the result is the first of `Syntax`, `NoField`, `WrongType`, `OutOfRange` and
/// `TooDeep` that applies to the whole text. A leaf or a dot product without a name refers to attribute 0.
pub fn parse_ask(alloc: Global, text: &str, fields: &[Field]) -> Result<Ask, QueryError>
    requires { length fields.now < 2 ^ 32 }
    ensures says { AsksAs result (ask_of fields.now text.now) }
    ensures grammar { AnswersAs fields.now text.now result }
{
    read_ask(alloc, text, fields)
}

#[tactic(auto, unfolding(crate::specs::Asks::ask_of))]
fn read_ask(alloc: Global, text: &str, fields: &[Field]) -> Result<Ask, QueryError>
    requires { length fields.now < 2 ^ 32 }
    ensures { AsksAs result (ask_of fields.now text.now) }
{
    match survey_of(text.as_bytes(), fields) {
        Ok(survey) => match hits_judged(alloc, fields, text.as_bytes(), survey) {
            Ok(query) => Ok(Ask::Hits(query)),
            Err(error) => Err(error),
        },
        Err(place) => dot_or_refused(alloc, fields, text.as_bytes(), place),
    }
}

/// Returns the query of a text.
fn hits_judged(
    alloc: Global,
    fields: &[Field],
    text: &[u8],
    survey: Survey,
) -> Result<Query, QueryError>
    requires { length fields.now < 2 ^ 32 }
    ensures { ParsesAs result (hits_judged fields.now text.now survey) }
{
    match survey.unknown {
        Some(place) => Err(QueryError::NoField {
            place: place as u64,
        }),
        None => hits_checked(alloc, fields, text, survey),
    }
}

/// Returns the query of a text in which each name is the name of an attribute.
fn hits_checked(
    alloc: Global,
    fields: &[Field],
    text: &[u8],
    survey: Survey,
) -> Result<Query, QueryError>
    requires { length fields.now < 2 ^ 32 }
    ensures { ParsesAs result (hits_checked fields.now text.now survey) }
{
    if !survey.right {
        return Err(QueryError::WrongType);
    }
    if !survey.small {
        return Err(QueryError::OutOfRange);
    }
    if survey.levels > u64::from(MAX_LEVELS) {
        return Err(QueryError::TooDeep);
    }
    match query_in(alloc, fields, text, MAX_LEVELS) {
        Ok((query, _)) => Ok(query),
        Err(ReadError::NotRead) => Err(QueryError::Syntax {
            place: text.len() as u64,
        }),
        Err(ReadError::Memory) => Err(QueryError::Memory),
    }
}

/// Returns the dot product of a text that is not a query from this place on.
fn dot_or_refused(
    alloc: Global,
    fields: &[Field],
    text: &[u8],
    place: u64,
) -> Result<Ask, QueryError>
    requires { length fields.now < 2 ^ 32 }
    ensures { AsksAs result (dot_if fields.now text.now place (dot_surveyed fields.now text.now)) }
{
    match dot_survey_of(text, fields) {
        Ok(survey) => dot_judged(alloc, fields, text, survey),
        Err(other) => Err(QueryError::Syntax {
            place: place.max(other),
        }),
    }
}

fn is_weighted_kind(kind: Kind) -> bool
    ensures { result ≡ is_weighted_kind kind }
{
    match kind {
        Kind::WeightedSet => true,
        Kind::Single | Kind::Array => false,
    }
}

/// Returns whether the attribute with a number exists and is a weighted set.
fn is_weighted(fields: &[Field], number: usize) -> bool
    ensures value { result ≡ is_weighted (slice_get fields.now number) }
    ensures inside { result ≡ true → number < length fields.now }
{
    match fields.get(number) {
        Some(field) => is_weighted_kind(field.kind),
        None => false,
    }
}

/// Returns the dot product of a text.
fn dot_judged(
    alloc: Global,
    fields: &[Field],
    text: &[u8],
    survey: DotSurvey,
) -> Result<Ask, QueryError>
    requires { length fields.now < 2 ^ 32 }
    ensures { AsksAs result (dot_judged fields.now text.now survey.found survey) }
{
    match survey.found {
        Some(number) => dot_checked(alloc, fields, text, number, survey),
        None => Err(QueryError::NoField { place: 0 }),
    }
}

/// Returns the dot product over the attribute with a number.
fn dot_checked(
    alloc: Global,
    fields: &[Field],
    text: &[u8],
    number: usize,
    survey: DotSurvey,
) -> Result<Ask, QueryError>
    requires { length fields.now < 2 ^ 32 }
    ensures { AsksAs result (dot_checked fields.now text.now number survey) }
{
    if !is_weighted(fields, number) {
        return Err(QueryError::WrongType);
    }
    if !survey.right {
        return Err(QueryError::WrongType);
    }
    if !survey.small {
        return Err(QueryError::OutOfRange);
    }
    match parts_in(alloc, text) {
        Ok(parts) => Ok(Ask::Dot {
            field: number as u32,
            parts,
        }),
        Err(ReadError::NotRead) => Err(QueryError::Syntax {
            place: text.len() as u64,
        }),
        Err(ReadError::Memory) => Err(QueryError::Memory),
    }
}

/// The grammar gives exactly one answer for each text, and the parsers return it. Each word that has a text is read
/// as what it asks, or as the first of its refusals.
pub fn grammar_law()
    ensures reads { ReadsByGrammar }
    ensures once { AnswersOnce }
    ensures one { AsksOneThing }
    ensures back { ReadsBack }
{}
