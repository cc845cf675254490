//! What C calls with a reader's handle.
ghost use Rattle.std.specs.Prelude.{◌≡◌, ◌≢◌, pos, Some, None, option_map, slice_get, IfErr, IfOk};
ghost use Rattle.std.specs.Str.{IsUtf8};
ghost use Rattle.attr_c.specs.Copies.{documents_of, item_told, no_item, scores_told, text_in, Copies};
ghost use Rattle.attr_c.specs.Refusals.{IsInBounds, RefusesItems, RefusesText};
ghost use Rattle.attr_c.specs.Seats.{AnswersText, ByGuardOf, CountsText, HoldsGuard, ReadsItems, ReleasesGuard, SavesTable};
ghost use Rattle.attr_c.specs.Telling.{code_in, no_answer, AnswersBy};
ghost use Rattle.attr_c.specs.declared.codes.TheConstants.{BOUNDS, LOST, MEMORY, NO_TEXT, OK};

use crate::answer::{Answer, copy_hits, copy_scores};
use crate::asking::{answer_any, items_any, save_any, tell_any};
use crate::codes::{LOST, NO_TEXT, OK};
use crate::copying::{copy_bytes, copy_from, item_at, text_at};
use crate::handles::HeldSeat;
use crate::seat::{Seat, SeatState, kept_of, left, reader_of};
use crate::told::{Answered, ItemTold, Scored};
use std::alloc::Global;

pub fn no_answer() -> Answered
    ensures { result ≡ no_answer }
{
    Answered {
        commit: 0,
        operations: 0,
        count: 0,
        place: 0,
    }
}

/// Takes a guard of the last commit, and keeps it until it is released. Where there is one it stays.
#[unsafe(no_mangle)]
pub extern "C" fn attr_hold(at: &mut HeldSeat, told: &mut Answered) -> i32
    ensures holds { result ≡ OK → HoldsGuard at.old.value.place at.new.value.place told.new }
    ensures by { AnswersBy no_answer told.new result }
    ensures no_count { told.new.count ≡ 0 }
    ensures lost { result ≢ OK → result ≡ LOST }
    ensures none { result ≢ OK → at.old.value.place ≡ None }
    ensures left { result ≢ OK → at.new.value ≡ at.old.value }
    ensures rest { at.new.value ≡ record at.old.value { place = at.new.value.place } }
{
    *told = no_answer();
    let seat = at.get_mut();
    let Some(place) = seat.place.take() else {
        return LOST;
    };
    let (mut kept, _) = kept_of(place);
    tell_any(&mut kept, told);
    seat.place = Some(SeatState::Kept(kept));
    OK
}

/// Gives the guard back.
#[unsafe(no_mangle)]
pub extern "C" fn attr_release(at: &mut HeldSeat) -> i32
    ensures releases { result ≡ OK → ReleasesGuard at.old.value.place at.new.value.place }
    ensures lost { result ≢ OK → result ≡ LOST }
    ensures none { result ≢ OK → at.old.value.place ≡ None }
    ensures left { result ≢ OK → at.new.value ≡ at.old.value }
    ensures rest { at.new.value ≡ record at.old.value { place = at.new.value.place } }
{
    let seat = at.get_mut();
    let Some(place) = seat.place.take() else {
        return LOST;
    };
    seat.place = Some(SeatState::Free(reader_of(place)));
    OK
}

/// The answer to a text at the guard's commit, or at that of a guard that this call takes and gives back.
fn answer_in(
    alloc: Global,
    seat: &mut Seat,
    text: &[u8],
    told: &mut Answered,
) -> Result<Answer, i32>
    ensures answers { IfOk result (λ answer. ByGuardOf seat.old.place seat.new.place
        (λ guard. AnswersText guard text.now told.new answer)) }
    ensures by { AnswersBy told.old told.new (code_in result) }
    ensures rest { seat.new ≡ record seat.old { place = seat.new.place } }
    ensures not_ok { IfErr result (λ code. code ≢ OK) }
    ensures text { IfErr result (λ code. code ≢ NO_TEXT → IsUtf8 text.now) }
    ensures text_ok { IfOk result (λ answer. IsUtf8 text.now) }
    ensures no_text { IfErr result (λ code. code ≡ NO_TEXT → IsUtf8 text.now → ⊥) }
    ensures left_no_text { IfErr result (λ code. code ≡ NO_TEXT → seat.new ≡ seat.old) }
    ensures lost { IfErr result (λ code. code ≡ LOST → seat.old.place ≡ None) }
    ensures left_lost { IfErr result (λ code. code ≡ LOST → seat.new ≡ seat.old) }
    ensures refused { IfErr result (λ code. code ≢ NO_TEXT → code ≢ LOST → ByGuardOf seat.old.place seat.new.place
        (λ guard. RefusesText guard.fields text.now told.new code)) }
{
    let Ok(text) = str::from_utf8(text) else {
        return Err(NO_TEXT);
    };
    let Some(place) = seat.place.take() else {
        return Err(LOST);
    };
    let (mut kept, stays) = kept_of(place);
    let answer = answer_any(alloc, &mut kept, text, told);
    seat.place = Some(left(kept, stays));
    answer
}

/// Answers what a text asks for. The reader keeps the answer until it is asked again.
#[unsafe(no_mangle)]
pub extern "C" fn attr_ask(
    alloc: Global,
    at: &mut HeldSeat,
    text: &[u8],
    told: &mut Answered,
) -> i32
    ensures answers { result ≡ OK → ByGuardOf at.old.value.place at.new.value.place
        (λ guard. AnswersText guard text.now told.new at.new.value.answer) }
    ensures text { result ≢ NO_TEXT → IsUtf8 text.now }
    ensures no_text { result ≡ NO_TEXT → IsUtf8 text.now → ⊥ }
    ensures by { AnswersBy no_answer told.new result }
    ensures lost { result ≡ LOST → at.old.value.place ≡ None }
    ensures refused { result ≢ OK → result ≢ NO_TEXT → result ≢ LOST → ByGuardOf at.old.value.place at.new.value.place
        (λ guard. RefusesText guard.fields text.now told.new result) }
    ensures left_no_text { result ≡ NO_TEXT → at.new.value ≡ at.old.value }
    ensures left_lost { result ≡ LOST → at.new.value ≡ at.old.value }
    ensures rest { at.new.value ≡ record at.old.value { place = at.new.value.place; answer = at.new.value.answer } }
    ensures answer { result ≢ OK → at.new.value.answer ≡ at.old.value.answer }
{
    *told = no_answer();
    let seat = at.get_mut();
    match answer_in(alloc, seat, text, told) {
        Ok(answer) => {
            seat.answer = answer;
            OK
        }
        Err(code) => code,
    }
}

/// Tells how many documents answer what a text asks for. The reader keeps the answer that it had.
#[unsafe(no_mangle)]
pub extern "C" fn attr_count(
    alloc: Global,
    at: &mut HeldSeat,
    text: &[u8],
    told: &mut Answered,
) -> i32
    ensures counts { result ≡ OK → ByGuardOf at.old.value.place at.new.value.place (λ guard. CountsText guard text.now told.new) }
    ensures text { result ≢ NO_TEXT → IsUtf8 text.now }
    ensures no_text { result ≡ NO_TEXT → IsUtf8 text.now → ⊥ }
    ensures by { AnswersBy no_answer told.new result }
    ensures lost { result ≡ LOST → at.old.value.place ≡ None }
    ensures refused { result ≢ OK → result ≢ NO_TEXT → result ≢ LOST → ByGuardOf at.old.value.place at.new.value.place
        (λ guard. RefusesText guard.fields text.now told.new result) }
    ensures left_no_text { result ≡ NO_TEXT → at.new.value ≡ at.old.value }
    ensures left_lost { result ≡ LOST → at.new.value ≡ at.old.value }
    ensures rest { at.new.value ≡ record at.old.value { place = at.new.value.place } }
{
    *told = no_answer();
    match answer_in(alloc, at.get_mut(), text, told) {
        Ok(_) => OK,
        Err(code) => code,
    }
}

/// Copies the documents of the last answer, from the one at this place on, and says how many.
#[unsafe(no_mangle)]
pub extern "C" fn attr_hits(at: &mut HeldSeat, first: usize, into: &mut [u32]) -> usize
    ensures copies { Copies (documents_of at.old.value.answer) first into.old into.new result }
    ensures same { at.new.value ≡ at.old.value }
{
    copy_hits(&at.get_mut().answer, first, into)
}

/// The same with their scores. The answer to a query has none.
#[unsafe(no_mangle)]
pub extern "C" fn attr_scores(at: &mut HeldSeat, first: usize, into: &mut [Scored]) -> usize
    ensures copies { Copies (scores_told at.old.value.answer) first into.old into.new result }
    ensures same { at.new.value ≡ at.old.value }
{
    copy_scores(&at.get_mut().answer, first, into)
}

/// Reads the items of a document in the attribute of a number. The reader keeps them until it reads others.
#[unsafe(no_mangle)]
pub extern "C" fn attr_items(
    alloc: Global,
    at: &mut HeldSeat,
    doc: u32,
    field: u32,
    told: &mut Answered,
) -> i32
    ensures reads { result ≡ OK → ByGuardOf at.old.value.place at.new.value.place
        (λ guard. ReadsItems guard doc field told.new at.new.value.items) }
    ensures within { result ≡ OK → ByGuardOf at.old.value.place at.new.value.place (λ guard. IsInBounds guard.fields doc field) }
    ensures by { AnswersBy no_answer told.new result }
    ensures lost { result ≡ LOST → at.old.value.place ≡ None }
    ensures refused { result ≢ OK → result ≢ LOST → ByGuardOf at.old.value.place at.new.value.place
        (λ guard. RefusesItems guard doc field told.new result) }
    ensures left { result ≡ LOST → at.new.value ≡ at.old.value }
    ensures rest { at.new.value ≡ record at.old.value { place = at.new.value.place; items = at.new.value.items } }
    ensures items { result ≢ OK → at.new.value.items ≡ at.old.value.items }
{
    *told = no_answer();
    let seat = at.get_mut();
    let Some(place) = seat.place.take() else {
        return LOST;
    };
    let (mut kept, stays) = kept_of(place);
    let items = items_any(alloc, &mut kept, doc, field, told);
    seat.place = Some(left(kept, stays));
    match items {
        Ok(items) => {
            seat.items = items;
            OK
        }
        Err(code) => code,
    }
}

/// Tells an item of those that were read last. If there is no item of that number, all that is told is 0.
#[unsafe(no_mangle)]
pub extern "C" fn attr_item(at: &mut HeldSeat, number: usize, told: &mut ItemTold) -> i32
    ensures there { result ≡ pos 0 → option_map item_told (slice_get at.old.value.items number) ≡ Some told.new }
    ensures none { result ≢ pos 0 → slice_get at.old.value.items number ≡ None }
    ensures bounds { result ≢ OK → result ≡ BOUNDS }
    ensures zeros { result ≢ OK → told.new ≡ no_item }
    ensures same { at.new.value ≡ at.old.value }
{
    item_at(at.get_mut().items.as_slice(), number, told)
}

/// Copies the text of such an item, and says how many bytes were copied.
#[unsafe(no_mangle)]
pub extern "C" fn attr_item_text(at: &mut HeldSeat, number: usize, into: &mut [u8]) -> usize
    ensures copies { Copies (text_in (slice_get at.old.value.items number)) 0 into.old into.new result }
    ensures same { at.new.value ≡ at.old.value }
{
    copy_bytes(text_at(at.get_mut().items.as_slice(), number), into)
}

/// Saves the first attribute. The reader keeps the bytes until it saves again.
#[unsafe(no_mangle)]
pub extern "C" fn attr_save(alloc: Global, at: &mut HeldSeat, told: &mut Answered) -> i32
    ensures saves { result ≡ OK → ByGuardOf at.old.value.place at.new.value.place
        (λ guard. SavesTable guard told.new at.new.value.saved.items) }
    ensures by { AnswersBy no_answer told.new result }
    ensures lost { result ≡ LOST → at.old.value.place ≡ None }
    ensures refused { result ≢ OK → result ≢ LOST → ByGuardOf at.old.value.place at.new.value.place (λ guard. result ≡ MEMORY) }
    ensures left { result ≡ LOST → at.new.value ≡ at.old.value }
    ensures rest { at.new.value ≡ record at.old.value { place = at.new.value.place; saved = at.new.value.saved } }
    ensures saved { result ≢ OK → at.new.value.saved ≡ at.old.value.saved }
{
    *told = no_answer();
    let seat = at.get_mut();
    let Some(place) = seat.place.take() else {
        return LOST;
    };
    let (mut kept, stays) = kept_of(place);
    let bytes = save_any(alloc, &mut kept, told);
    seat.place = Some(left(kept, stays));
    match bytes {
        Ok(bytes) => {
            seat.saved = bytes;
            OK
        }
        Err(code) => code,
    }
}

/// Copies bytes of the last save, from the one at this place on, and says how many.
#[unsafe(no_mangle)]
pub extern "C" fn attr_saved(at: &mut HeldSeat, first: usize, into: &mut [u8]) -> usize
    ensures copies { Copies at.old.value.saved.items first into.old into.new result }
    ensures same { at.new.value ≡ at.old.value }
{
    copy_from(at.get_mut().saved.as_slice(), first, into)
}
