//! The values of an attribute that a text asks for.
ghost use Rattle.std.specs.Prelude.{◌≡◌, ◌≢◌, ◌<◌, ◌^◌, length, IfErr, IfOk, OnOk};
ghost use Rattle.attr_types.specs.Scores.{ask_tree};
ghost use Rattle.result_model.specs.Groups as model;
ghost use Rattle.attr_c.specs.Kept.{table_in};
ghost use Rattle.attr_c.specs.Seats.{kept_view, TellsCommit};
ghost use Rattle.attr_c.specs.Telling.{code_in, AnswersBy};
ghost use Rattle.attr_c.specs.Terms.{comparison_in, AsksComparison, RefusesTerms, TermsText};
ghost use Rattle.attr_c.specs.declared.codes.TheConstants.{MEMORY};

use crate::asking::{ask_in, tell_commit};
use crate::codes::{MEMORY, SYNTAX};
use crate::kept::Kept;
use crate::seat::AnyKept;
use crate::told::Answered;
use attr_types::{Ask, Fields, Leaf, Query};
use result_model::Groups;
use std::alloc::Global;

/// A condition on the values of the attribute with a number.
#[derive(Drop)]
pub struct Comparison {
    pub field: u32,
    pub leaf: Leaf,
}

/// The one comparison that an ask is.
fn comparison_in(ask: Ask) -> Option<Comparison>
    ensures { result ≡ comparison_in (ask_tree ask) }
{
    match ask {
        Ask::Hits(Query::One { field, leaf }) => Some(Comparison { field, leaf }),
        Ask::Hits(Query::And(_)) => None,
        Ask::Hits(Query::Or(_)) => None,
        Ask::Dot { field: _, parts: _ } => None,
    }
}

/// Returns the one comparison that a text asks for, or the code of a refusal.
fn comparison_for(
    alloc: Global,
    text: &str,
    fields: &Fields,
    told: &mut Answered,
) -> Result<Comparison, i32>
    requires { length fields.now < 2 ^ 32 }
    ensures asks { IfOk result (AsksComparison fields.now text.now) }
    ensures refused { IfErr result (RefusesTerms fields.now text.now told.new) }
    ensures none { OnOk result (told.new ≡ told.old) }
    ensures by { IfErr result (AnswersBy told.old told.new) }
{
    match ask_in(alloc, text, fields, told) {
        Ok(ask) => match comparison_in(ask) {
            Some(comparison) => Ok(comparison),
            None => {
                told.place = 0;
                Err(SYNTAX)
            }
        },
        Err(code) => Err(code),
    }
}

/// Returns the values that meet a comparison, or the code of a refusal.
fn terms_to<const OFFSET_BITS: u32>(
    alloc: Global,
    kept: &mut Kept<OFFSET_BITS>,
    comparison: &Comparison,
    most: usize,
    told: &mut Answered,
) -> Result<Groups, i32>
    ensures terms { IfOk result (λ list. list ≡ model.terms comparison.now.field comparison.now.leaf most (table_in kept.old)) }
    ensures count { IfOk result (λ list. told.new.count ≡ length list) }
    ensures tells { TellsCommit kept.old told.new }
    ensures memory { IfErr result (λ code. code ≡ MEMORY) }
    ensures by { AnswersBy told.old told.new (code_in result) }
    ensures same { kept.new ≡ kept.old }
{
    tell_commit(kept, told);
    match kept.terms(alloc, comparison.field, &comparison.leaf, most) {
        Ok(groups) => {
            told.count = groups.len() as u64;
            Ok(groups)
        }
        Err(_) => Err(MEMORY),
    }
}

/// Returns the values that meet the comparison of a text, or the code of a refusal.
fn terms_of<const OFFSET_BITS: u32>(
    alloc: Global,
    kept: &mut Kept<OFFSET_BITS>,
    text: &str,
    most: usize,
    told: &mut Answered,
) -> Result<Groups, i32>
    ensures terms { IfOk result (TermsText kept.old text.now most told.new) }
    ensures refused { IfErr result (RefusesTerms kept.old.fields text.now told.new) }
    ensures by { AnswersBy told.old told.new (code_in result) }
    ensures same { kept.new ≡ kept.old }
{
    match comparison_for(alloc, text, kept.fields(), told) {
        Ok(comparison) => terms_to(alloc, kept, &comparison, most, told),
        Err(code) => Err(code),
    }
}

pub fn terms_any(
    alloc: Global,
    kept: &mut AnyKept,
    text: &str,
    most: usize,
    told: &mut Answered,
) -> Result<Groups, i32>
    ensures terms { IfOk result (TermsText (kept_view kept.old) text.now most told.new) }
    ensures refused { IfErr result (RefusesTerms (kept_view kept.old).fields text.now told.new) }
    ensures by { AnswersBy told.old told.new (code_in result) }
    ensures same { kept_view kept.new ≡ kept_view kept.old }
{
    match kept {
        AnyKept::Narrow(kept) => terms_of(alloc, kept, text, most, told),
        AnyKept::Wide(kept) => terms_of(alloc, kept, text, most, told),
    }
}
