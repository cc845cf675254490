//! What C calls with a reader's handle to sort an answer, to total it, and to read numbers in bulk.
ghost use Rattle.std.specs.Prelude.{◌≡◌, ◌≢◌, None};
ghost use Rattle.std.specs.Str.{IsUtf8};
ghost use Rattle.attr_c.specs.Copies.{documents_of};
ghost use Rattle.attr_c.specs.Refusals.{RefusesText};
ghost use Rattle.attr_c.specs.Seats.{ByGuardOf};
ghost use Rattle.attr_c.specs.Sorting.{no_totals_told, BestOfText, IsBulk, LongsOf, RefusesField, RefusesLongs, RefusesSort, SortsAnswer, TotalsAnswer};
ghost use Rattle.attr_c.specs.Telling.{no_answer, AnswersBy};
ghost use Rattle.attr_c.specs.declared.codes.TheConstants.{LOST, NO_TEXT, OK};

use crate::best_scores::best_any;
use crate::bulk_longs::longs_any;
use crate::codes::{LOST, NO_TEXT};
use crate::handles::HeldSeat;
use crate::read_exports::no_answer;
use crate::seat::{kept_of, left};
use crate::sorting::sort_any;
use crate::told::{Answered, Scored, TotalsTold};
use crate::totalling::{no_totals, total_any};
use std::alloc::Global;

/// Copies the documents of the last answer by their values in the attribute of a number, from the one at this place on.
#[unsafe(no_mangle)]
pub extern "C" fn attr_sort(
    alloc: Global,
    at: &mut HeldSeat,
    field: u32,
    descending: u32,
    first: usize,
    into: &mut [u32],
    told: &mut Answered,
) -> i32
    ensures sorts { result ≡ OK → ByGuardOf at.old.value.place at.new.value.place
        (λ guard. SortsAnswer guard (documents_of at.old.value.answer) field descending first into.old into.new told.new) }
    ensures by { AnswersBy no_answer told.new result }
    ensures lost { result ≡ LOST → at.old.value.place ≡ None }
    ensures refused { result ≢ OK → result ≢ LOST → ByGuardOf at.old.value.place at.new.value.place
        (λ guard. RefusesSort guard.fields field descending result) }
    ensures left { result ≡ LOST → at.new.value ≡ at.old.value }
    ensures into { result ≢ OK → into.new ≡ into.old }
    ensures rest { at.new.value ≡ record at.old.value { place = at.new.value.place } }
{
    *told = no_answer();
    let seat = at.get_mut();
    let Some(place) = seat.place.take() else {
        return LOST;
    };
    let (mut kept, stays) = kept_of(place);
    let answer = &seat.answer;
    let code = sort_any(
        alloc, &mut kept, answer, field, descending, first, into, told,
    );
    seat.place = Some(left(kept, stays));
    code
}

/// Tells the totals of the numbers that the documents of the last answer have in the attribute of a number.
#[unsafe(no_mangle)]
pub extern "C" fn attr_totals(
    alloc: Global,
    at: &mut HeldSeat,
    field: u32,
    totals: &mut TotalsTold,
    told: &mut Answered,
) -> i32
    ensures totals { result ≡ OK → ByGuardOf at.old.value.place at.new.value.place
        (λ guard. TotalsAnswer guard (documents_of at.old.value.answer) field totals.new told.new) }
    ensures by { AnswersBy no_answer told.new result }
    ensures lost { result ≡ LOST → at.old.value.place ≡ None }
    ensures refused { result ≢ OK → result ≢ LOST → ByGuardOf at.old.value.place at.new.value.place
        (λ guard. RefusesField guard.fields field result) }
    ensures left { result ≡ LOST → at.new.value ≡ at.old.value }
    ensures zeros { result ≢ OK → totals.new ≡ no_totals_told }
    ensures rest { at.new.value ≡ record at.old.value { place = at.new.value.place } }
{
    *told = no_answer();
    *totals = no_totals();
    let seat = at.get_mut();
    let Some(place) = seat.place.take() else {
        return LOST;
    };
    let (mut kept, stays) = kept_of(place);
    let code = total_any(alloc, &mut kept, &seat.answer, field, totals, told);
    seat.place = Some(left(kept, stays));
    code
}

/// Copies the best scores of the dot product that a text asks for. The reader keeps the answer that it had.
#[unsafe(no_mangle)]
pub extern "C" fn attr_best(
    alloc: Global,
    at: &mut HeldSeat,
    text: &[u8],
    into: &mut [Scored],
    told: &mut Answered,
) -> i32
    ensures best { result ≡ OK → ByGuardOf at.old.value.place at.new.value.place
        (λ guard. BestOfText guard text.now into.old into.new told.new) }
    ensures text { result ≢ NO_TEXT → IsUtf8 text.now }
    ensures no_text { result ≡ NO_TEXT → IsUtf8 text.now → ⊥ }
    ensures by { AnswersBy no_answer told.new result }
    ensures lost { result ≡ LOST → at.old.value.place ≡ None }
    ensures refused { result ≢ OK → result ≢ NO_TEXT → result ≢ LOST → ByGuardOf at.old.value.place at.new.value.place
        (λ guard. RefusesText guard.fields text.now told.new result) }
    ensures left_no_text { result ≡ NO_TEXT → at.new.value ≡ at.old.value }
    ensures left_lost { result ≡ LOST → at.new.value ≡ at.old.value }
    ensures into { result ≢ OK → into.new ≡ into.old }
    ensures rest { at.new.value ≡ record at.old.value { place = at.new.value.place } }
{
    *told = no_answer();
    let seat = at.get_mut();
    let Ok(text) = str::from_utf8(text) else {
        return NO_TEXT;
    };
    let Some(place) = seat.place.take() else {
        return LOST;
    };
    let (mut kept, stays) = kept_of(place);
    let code = best_any(alloc, &mut kept, text, into, told);
    seat.place = Some(left(kept, stays));
    code
}

/// Writes the numbers of documents in the attribute of a number, and which of them have one.
#[unsafe(no_mangle)]
pub extern "C" fn attr_longs(
    at: &mut HeldSeat,
    field: u32,
    documents: &[u32],
    numbers: &mut [i64],
    present: &mut [u8],
    told: &mut Answered,
) -> i32
    ensures longs { result ≡ OK → ByGuardOf at.old.value.place at.new.value.place
        (λ guard. LongsOf guard documents.now field numbers.new present.new told.new) }
    ensures within { result ≡ OK → ByGuardOf at.old.value.place at.new.value.place
        (λ guard. IsBulk guard.fields field documents.now numbers.old present.old) }
    ensures by { AnswersBy no_answer told.new result }
    ensures lost { result ≡ LOST → at.old.value.place ≡ None }
    ensures refused { result ≢ OK → result ≢ LOST → ByGuardOf at.old.value.place at.new.value.place
        (λ guard. RefusesLongs guard.fields field documents.now numbers.old present.old result) }
    ensures left { result ≡ LOST → at.new.value ≡ at.old.value }
    ensures numbers { result ≢ OK → numbers.new ≡ numbers.old }
    ensures present { result ≢ OK → present.new ≡ present.old }
    ensures rest { at.new.value ≡ record at.old.value { place = at.new.value.place } }
{
    *told = no_answer();
    let seat = at.get_mut();
    let Some(place) = seat.place.take() else {
        return LOST;
    };
    let (mut kept, stays) = kept_of(place);
    let code = longs_any(&mut kept, field, documents, numbers, present, told);
    seat.place = Some(left(kept, stays));
    code
}
