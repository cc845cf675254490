//! Whether what belongs to a key lies outside a buffer.
ghost use Rattle.std.specs.Prelude.{◌≡◌, ◌≢◌, ◌<◌, ◌^◌, true};
ghost use Rattle.entry_ref.specs.References.{buffer_of};
ghost use Rattle.image_format.specs.Postings.{list_form};
ghost use Rattle.image_format.specs.Documents.{AreItemRecords};
ghost use Rattle.compaction_moves.specs.DocumentMoves.{AreItemsApart};
ghost use Rattle.compaction_steps.specs.Sights.{StandsApart, IsPairOf, IsRecordApart};

use arena_api::Frozen;
use attr_compaction::is_vector;
use attr_types::{Kind, ValueType};
use compaction_moves::items_lie;
use entry_ref::EntryRef;

/// What belongs to a key, by its phase: the record of a value, a document's items, or a value's list.
#[derive(Clone, Copy, Drop)]
pub enum Sight {
    Key,
    Items,
    List,
}

/// Returns whether a record lies outside the buffer.
fn is_apart<const OFFSET_BITS: u32>(reference: u64, buffer: u32) -> bool
    requires { reference < 2 ^ 32 }
    ensures { result ≡ true → buffer_of OFFSET_BITS reference ≢ buffer }
{
    EntryRef::<OFFSET_BITS>::from_raw(reference as u32).buffer() != buffer
}

/// Returns whether a list is a single record outside the buffer.
fn list_is_apart<const OFFSET_BITS: u32>(list: u64, buffer: u32) -> bool
    ensures { result ≡ true → IsRecordApart OFFSET_BITS buffer (list_form list) }
{
    if is_vector(list) {
        return false;
    }
    if list % 2 == 1 {
        return false;
    }
    is_apart::<OFFSET_BITS>(list / 2, buffer)
}

/// Returns whether the items of a reference lie outside the buffer.
fn items_are_apart<const OFFSET_BITS: u32, F: Frozen<OFFSET_BITS>>(
    frozen: &mut F,
    kind: Kind,
    value_type: ValueType,
    word: u64,
    buffer: u32,
) -> bool
    requires few { word < 2 ^ 32 }
    requires records { AreItemRecords kind value_type (F.records frozen.old) word }
    ensures apart { result ≡ true → AreItemsApart OFFSET_BITS buffer kind (F.records frozen.old) word }
    ensures same { frozen.new ≡ frozen.old }
{
    let reference = EntryRef::from_raw(word as u32);
    !items_lie(frozen, kind, value_type, reference, buffer)
}

/// Returns whether what belongs to a pair's key lies outside the buffer.
#[tactic(none)]
pub fn pair_is_apart<const OFFSET_BITS: u32, F: Frozen<OFFSET_BITS>>(
    frozen: &mut F,
    sight: Sight,
    kind: Kind,
    value_type: ValueType,
    key: u64,
    word: u64,
    buffer: u32,
) -> bool
    requires pair { IsPairOf kind value_type (F.records frozen.old) sight (key, word) }
    ensures apart { result ≡ true → StandsApart OFFSET_BITS buffer kind (F.records frozen.old) sight (key, word) }
    ensures same { frozen.new ≡ frozen.old }
{
    let _ = frozen;
    match sight {
        Sight::Key => is_apart::<OFFSET_BITS>(key, buffer),
        Sight::Items => items_are_apart(frozen, kind, value_type, word, buffer),
        Sight::List => list_is_apart::<OFFSET_BITS>(word, buffer),
    }
}
