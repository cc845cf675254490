//! What C calls for groups, with a reader's handle.
ghost use Rattle.std.specs.Prelude.{◌≡◌, ◌≢◌, pos, Some, None, option_map, slice_get};
ghost use Rattle.std.specs.Str.{IsUtf8};
ghost use Rattle.attr_c.specs.Copies.{documents_of, Copies};
ghost use Rattle.attr_c.specs.Grouping.{group_text, group_told, no_group, GroupsDocuments, IsGrouping, RefusesGroups};
ghost use Rattle.attr_c.specs.Seats.{ByGuardOf};
ghost use Rattle.attr_c.specs.Telling.{no_answer, AnswersBy};
ghost use Rattle.attr_c.specs.Terms.{RefusesTerms, TermsText};
ghost use Rattle.attr_c.specs.declared.codes.TheConstants.{BOUNDS, LOST, NO_TEXT, OK};

use crate::codes::{LOST, NO_TEXT, OK};
use crate::copying::copy_bytes;
use crate::group_copying::{group_at, group_text_at};
use crate::grouping::groups_any;
use crate::handles::HeldSeat;
use crate::read_exports::no_answer;
use crate::seat::{kept_of, left};
use crate::terms::terms_any;
use crate::told::{Answered, GroupTold};
use std::alloc::Global;

/// Groups the documents of the last answer by their values in the attribute of a number: the first `most` groups, by value, or with
/// 1 by how many documents they have. The reader keeps them until it makes others.
#[unsafe(no_mangle)]
pub extern "C" fn attr_group(
    alloc: Global,
    at: &mut HeldSeat,
    field: u32,
    by_count: u32,
    most: usize,
    told: &mut Answered,
) -> i32
    ensures makes { result ≡ OK → ByGuardOf at.old.value.place at.new.value.place
        (λ guard. GroupsDocuments guard (documents_of at.old.value.answer) field by_count most told.new at.new.value.groups) }
    ensures within { result ≡ OK → ByGuardOf at.old.value.place at.new.value.place (λ guard. IsGrouping guard.fields field by_count) }
    ensures by { AnswersBy no_answer told.new result }
    ensures lost { result ≡ LOST → at.old.value.place ≡ None }
    ensures refused { result ≢ OK → result ≢ LOST → ByGuardOf at.old.value.place at.new.value.place
        (λ guard. RefusesGroups guard.fields field by_count result) }
    ensures left { result ≡ LOST → at.new.value ≡ at.old.value }
    ensures rest { at.new.value ≡ record at.old.value { place = at.new.value.place; groups = at.new.value.groups } }
    ensures groups { result ≢ OK → at.new.value.groups ≡ at.old.value.groups }
{
    *told = no_answer();
    let seat = at.get_mut();
    let Some(place) = seat.place.take() else {
        return LOST;
    };
    let (mut kept, stays) = kept_of(place);
    let groups = groups_any(alloc, &mut kept, &seat.answer, field, by_count, most, told);
    seat.place = Some(left(kept, stays));
    match groups {
        Ok(groups) => {
            seat.groups = groups;
            OK
        }
        Err(code) => code,
    }
}

/// Finds the values of an attribute that meet the one comparison of a text: the first `most`, ascending. The reader keeps them in the
/// place of groups.
#[unsafe(no_mangle)]
pub extern "C" fn attr_terms(
    alloc: Global,
    at: &mut HeldSeat,
    text: &[u8],
    most: usize,
    told: &mut Answered,
) -> i32
    ensures makes { result ≡ OK → ByGuardOf at.old.value.place at.new.value.place
        (λ guard. TermsText guard text.now most told.new at.new.value.groups) }
    ensures text { result ≢ NO_TEXT → IsUtf8 text.now }
    ensures no_text { result ≡ NO_TEXT → IsUtf8 text.now → ⊥ }
    ensures by { AnswersBy no_answer told.new result }
    ensures lost { result ≡ LOST → at.old.value.place ≡ None }
    ensures refused { result ≢ OK → result ≢ NO_TEXT → result ≢ LOST → ByGuardOf at.old.value.place at.new.value.place
        (λ guard. RefusesTerms guard.fields text.now told.new result) }
    ensures left_no_text { result ≡ NO_TEXT → at.new.value ≡ at.old.value }
    ensures left_lost { result ≡ LOST → at.new.value ≡ at.old.value }
    ensures rest { at.new.value ≡ record at.old.value { place = at.new.value.place; groups = at.new.value.groups } }
    ensures groups { result ≢ OK → at.new.value.groups ≡ at.old.value.groups }
{
    *told = no_answer();
    let Ok(text) = str::from_utf8(text) else {
        return NO_TEXT;
    };
    let seat = at.get_mut();
    let Some(place) = seat.place.take() else {
        return LOST;
    };
    let (mut kept, stays) = kept_of(place);
    let terms = terms_any(alloc, &mut kept, text, most, told);
    seat.place = Some(left(kept, stays));
    match terms {
        Ok(terms) => {
            seat.groups = terms;
            OK
        }
        Err(code) => code,
    }
}

/// Tells a group of those that were made last. If there is no group of that number, all that is told is 0.
#[unsafe(no_mangle)]
pub extern "C" fn attr_group_at(at: &mut HeldSeat, number: usize, told: &mut GroupTold) -> i32
    ensures there { result ≡ pos 0 → option_map group_told (slice_get at.old.value.groups number) ≡ Some told.new }
    ensures none { result ≢ pos 0 → slice_get at.old.value.groups number ≡ None }
    ensures bounds { result ≢ OK → result ≡ BOUNDS }
    ensures zeros { result ≢ OK → told.new ≡ no_group }
    ensures same { at.new.value ≡ at.old.value }
{
    group_at(at.get_mut().groups.as_slice(), number, told)
}

/// Copies the text of such a group's value, and says how many bytes were copied.
#[unsafe(no_mangle)]
pub extern "C" fn attr_group_text(at: &mut HeldSeat, number: usize, into: &mut [u8]) -> usize
    ensures copies { Copies (group_text (slice_get at.old.value.groups number)) 0 into.old into.new result }
    ensures same { at.new.value ≡ at.old.value }
{
    copy_bytes(group_text_at(at.get_mut().groups.as_slice(), number), into)
}
