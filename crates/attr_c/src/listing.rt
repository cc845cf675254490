//! The documents of a commit from a number on.
ghost use Rattle.std.specs.Prelude.{◌≡◌, IfErr, OnErr, OnOk};
ghost use Rattle.attr_c.specs.Listing.{CopiesDocuments};
ghost use Rattle.attr_c.specs.Seats.{kept_view};
ghost use Rattle.attr_c.specs.Telling.{code_in, AnswersBy};
ghost use Rattle.attr_c.specs.declared.codes.TheConstants.{MEMORY};

use crate::answer::copy_docs;
use crate::asking::tell_commit;
use crate::codes::MEMORY;
use crate::kept::Kept;
use crate::seat::AnyKept;
use crate::told::Answered;
use std::alloc::Global;

/// Copies the documents of a guard's commit that are not below a number, or returns the code of a refusal.
fn documents_of<const OFFSET_BITS: u32>(
    alloc: Global,
    kept: &mut Kept<OFFSET_BITS>,
    first: u32,
    into: &mut [u32],
    told: &mut Answered,
) -> Result<(), i32>
    ensures copies { OnOk result (CopiesDocuments kept.old first told.new into.old into.new) }
    ensures memory { IfErr result (λ code. code ≡ MEMORY) }
    ensures unwritten { OnErr result (into.new ≡ into.old) }
    ensures by { AnswersBy told.old told.new (code_in result) }
    ensures same { kept.new ≡ kept.old }
{
    tell_commit(kept, told);
    match kept.documents(alloc, first, into.len()) {
        Ok(docs) => {
            told.count = copy_docs(docs.as_slice(), into) as u64;
            Ok(())
        }
        Err(_) => Err(MEMORY),
    }
}

pub fn documents_any(
    alloc: Global,
    kept: &mut AnyKept,
    first: u32,
    into: &mut [u32],
    told: &mut Answered,
) -> Result<(), i32>
    ensures copies { OnOk result (CopiesDocuments (kept_view kept.old) first told.new into.old into.new) }
    ensures memory { IfErr result (λ code. code ≡ MEMORY) }
    ensures unwritten { OnErr result (into.new ≡ into.old) }
    ensures by { AnswersBy told.old told.new (code_in result) }
    ensures same { kept_view kept.new ≡ kept_view kept.old }
{
    match kept {
        AnyKept::Narrow(kept) => documents_of(alloc, kept, first, into, told),
        AnyKept::Wide(kept) => documents_of(alloc, kept, first, into, told),
    }
}
