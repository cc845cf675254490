//! What C calls for the documents of a commit, with a reader's handle.
ghost use Rattle.std.specs.Prelude.{◌≡◌, ◌≢◌, None};
ghost use Rattle.attr_c.specs.Listing.{CopiesDocuments};
ghost use Rattle.attr_c.specs.Seats.{ByGuardOf};
ghost use Rattle.attr_c.specs.Telling.{no_answer, AnswersBy};
ghost use Rattle.attr_c.specs.declared.codes.TheConstants.{LOST, MEMORY, OK};

use crate::codes::{LOST, OK};
use crate::handles::HeldSeat;
use crate::listing::documents_any;
use crate::read_exports::no_answer;
use crate::seat::{kept_of, left};
use crate::told::Answered;
use std::alloc::Global;

/// Copies the documents of the commit that are not below a number, ascending, as many as there is room for.
#[unsafe(no_mangle)]
pub extern "C" fn attr_documents(
    alloc: Global,
    at: &mut HeldSeat,
    first: u32,
    into: &mut [u32],
    told: &mut Answered,
) -> i32
    ensures copies { result ≡ OK → ByGuardOf at.old.value.place at.new.value.place
        (λ guard. CopiesDocuments guard first told.new into.old into.new) }
    ensures by { AnswersBy no_answer told.new result }
    ensures lost { result ≡ LOST → at.old.value.place ≡ None }
    ensures refused { result ≢ OK → result ≢ LOST → ByGuardOf at.old.value.place at.new.value.place (λ guard. result ≡ MEMORY) }
    ensures left { result ≡ LOST → at.new.value ≡ at.old.value }
    ensures unwritten { result ≢ OK → into.new ≡ into.old }
    ensures rest { at.new.value ≡ record at.old.value { place = at.new.value.place } }
{
    *told = no_answer();
    let seat = at.get_mut();
    let Some(place) = seat.place.take() else {
        return LOST;
    };
    let (mut kept, stays) = kept_of(place);
    let copied = documents_any(alloc, &mut kept, first, into, told);
    seat.place = Some(left(kept, stays));
    match copied {
        Ok(()) => OK,
        Err(code) => code,
    }
}
