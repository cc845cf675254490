//! Makes a record of words, padded with zeros up to its class.

ghost use Rattle.std.specs.Prelude.{◌≡◌, ◌≤◌, true, length, IfOk, IfErr, OnErr};
ghost use Rattle.image_format.specs.Words.{class_of};
ghost use Rattle.store_api.specs.Calls.{Refuses};
ghost use Rattle.store_api.specs.Units.{MayDo};
ghost use Rattle.array_store.specs.Adding.{AddsRecord, AddsNothing, MakesOneOf};

use crate::MOST_WORDS;
use crate::class::class_of;
use entry_ref::EntryRef;
use store_api::{Store, StoreError};

/// Makes a record of words, in their class.
pub fn make_record<const OFFSET_BITS: u32, S: Store<OFFSET_BITS>>(
    store: &mut S,
    words: &[u64],
) -> Result<EntryRef<OFFSET_BITS>, StoreError>
    requires unit { (S.ledger store.old).unit ≡ true }
    requires few { length words.now ≤ MOST_WORDS }
    ensures adds { IfOk result (AddsRecord OFFSET_BITS (S.ledger store.old) (S.ledger store.new) (S.records store.old) (S.records store.new)
        words.now) }
    ensures refuses { IfErr result (Refuses (S.ledger store.old) (S.ledger store.new) (class_of (length words.now))) }
    ensures refused { OnErr result (AddsNothing (S.ledger store.old) (S.ledger store.new) (S.records store.old) (S.records store.new)) }
    ensures counts { MakesOneOf (class_of (length words.now)) (S.ledger store.old) (S.ledger store.new) }
    ensures may { MayDo (S.ledger store.old) (S.ledger store.new) }
{
    store.make(class_of(words.len() as u32), words)
}
