//! The whole numbers of given documents.
ghost use Rattle.std.specs.Prelude.{◌≡◌, ◌≢◌};
ghost use Rattle.attr_c.specs.Seats.{kept_view};
ghost use Rattle.attr_c.specs.Sorting.{IsBulk, LongsOf, RefusesLongs};
ghost use Rattle.attr_c.specs.Telling.{AnswersBy};
ghost use Rattle.attr_c.specs.declared.codes.TheConstants.{OK};

use crate::asking::tell_commit;
use crate::codes::{BOUNDS, OK};
use crate::kept::Kept;
use crate::seat::AnyKept;
use crate::told::Answered;

/// Writes the numbers of documents at a guard's commit and which of them have one, or returns the code of a refusal.
fn longs_of<const OFFSET_BITS: u32>(
    kept: &mut Kept<OFFSET_BITS>,
    field: u32,
    documents: &[u32],
    numbers: &mut [i64],
    present: &mut [u8],
    told: &mut Answered,
) -> i32
    ensures longs { result ≡ OK → LongsOf kept.old documents.now field numbers.new present.new told.new }
    ensures within { result ≡ OK → IsBulk kept.old.fields field documents.now numbers.old present.old }
    ensures refused { result ≢ OK → RefusesLongs kept.old.fields field documents.now numbers.old present.old result }
    ensures numbers { result ≢ OK → numbers.new ≡ numbers.old }
    ensures present { result ≢ OK → present.new ≡ present.old }
    ensures by { AnswersBy told.old told.new result }
    ensures same { kept.new ≡ kept.old }
{
    if field as usize >= kept.fields().len() {
        return BOUNDS;
    }
    if numbers.len() != documents.len() || present.len() != documents.len() {
        return BOUNDS;
    }
    tell_commit(kept, told);
    told.count = kept.longs(field, documents, numbers, present) as u64;
    OK
}

pub fn longs_any(
    kept: &mut AnyKept,
    field: u32,
    documents: &[u32],
    numbers: &mut [i64],
    present: &mut [u8],
    told: &mut Answered,
) -> i32
    ensures longs { result ≡ OK → LongsOf (kept_view kept.old) documents.now field numbers.new present.new told.new }
    ensures within { result ≡ OK → IsBulk (kept_view kept.old).fields field documents.now numbers.old present.old }
    ensures refused { result ≢ OK → RefusesLongs (kept_view kept.old).fields field documents.now numbers.old present.old result }
    ensures numbers { result ≢ OK → numbers.new ≡ numbers.old }
    ensures present { result ≢ OK → present.new ≡ present.old }
    ensures by { AnswersBy told.old told.new result }
    ensures same { kept_view kept.new ≡ kept_view kept.old }
{
    match kept {
        AnyKept::Narrow(kept) => longs_of(kept, field, documents, numbers, present, told),
        AnyKept::Wide(kept) => longs_of(kept, field, documents, numbers, present, told),
    }
}
