//! The record of a short list, copied.
ghost use Rattle.std.specs.Prelude.{◌≡◌, ◌≤◌, ◌+◌, ◌∷◌, true, length, IfOk, IfErr};
ghost use Rattle.store_api.specs.Calls.{Refuses};
ghost use Rattle.store_api.specs.Units.{MayDo};
ghost use Rattle.array_store.specs.Adding.{AddsRecord, MakesOneOf};
ghost use Rattle.image_format.specs.Words.{class_of, stored_items, IsStoredList};

use arena_api::read;
use array_store::add;
use entry_ref::EntryRef;
use image_format::MOST_SHORT;
use store_api::{Store, StoreError};

/// Makes a copy of a record's items, with a buffer of their size.
fn copy_by<const OFFSET_BITS: u32, S: Store<OFFSET_BITS>>(
    store: &mut S,
    array: EntryRef<OFFSET_BITS>,
    items: &mut [u64],
) -> Result<EntryRef<OFFSET_BITS>, StoreError>
    requires unit { (S.ledger store.old).unit ≡ true }
    requires stored { IsStoredList MOST_SHORT (S.records store.old array) }
    requires size { length items.old ≡ length (stored_items (S.records store.old array)) }
    ensures adds { IfOk result (AddsRecord OFFSET_BITS (S.ledger store.old) (S.ledger store.new) (S.records store.old) (S.records store.new)
        (length (stored_items (S.records store.old array.entry)) ∷ stored_items (S.records store.old array.entry))) }
    ensures items { IfOk result (λ r. stored_items (S.records store.new r) ≡ stored_items (S.records store.old array.entry)) }
    ensures counts { MakesOneOf (class_of (1 + length (stored_items (S.records store.old array.entry)))) (S.ledger store.old)
        (S.ledger store.new) }
    ensures refuses { IfErr result (Refuses (S.ledger store.old) (S.ledger store.new)
        (class_of (1 + length (stored_items (S.records store.old array.entry))))) }
    ensures may { MayDo (S.ledger store.old) (S.ledger store.new) }
{
    read(store, array, 1, items);
    add(store, items)
}

/// Makes a copy of the record of a short list.
pub fn copy_record<const OFFSET_BITS: u32, S: Store<OFFSET_BITS>>(
    store: &mut S,
    array: EntryRef<OFFSET_BITS>,
) -> Result<EntryRef<OFFSET_BITS>, StoreError>
    requires unit { (S.ledger store.old).unit ≡ true }
    requires stored { IsStoredList MOST_SHORT (S.records store.old array) }
    ensures adds { IfOk result (AddsRecord OFFSET_BITS (S.ledger store.old) (S.ledger store.new) (S.records store.old) (S.records store.new)
        (length (stored_items (S.records store.old array.entry)) ∷ stored_items (S.records store.old array.entry))) }
    ensures items { IfOk result (λ r. stored_items (S.records store.new r) ≡ stored_items (S.records store.old array.entry)) }
    ensures counts { MakesOneOf (class_of (1 + length (stored_items (S.records store.old array.entry)))) (S.ledger store.old)
        (S.ledger store.new) }
    ensures refuses { IfErr result (Refuses (S.ledger store.old) (S.ledger store.new)
        (class_of (1 + length (stored_items (S.records store.old array.entry))))) }
    ensures may { MayDo (S.ledger store.old) (S.ledger store.new) }
{
    let mut buffer = [0; MOST_SHORT];
    let count = count_of(store, array);
    copy_by(store, array, &mut buffer[..count])
}

/// Returns the number of items of a short list.
fn count_of<const OFFSET_BITS: u32, S: Store<OFFSET_BITS>>(
    store: &mut S,
    array: EntryRef<OFFSET_BITS>,
) -> usize
    requires { IsStoredList MOST_SHORT (S.records store.old array) }
    ensures count { result ≡ length (stored_items (S.records store.old array.entry)) }
    ensures few { result ≤ MOST_SHORT }
    ensures same { store.new ≡ store.old }
{
    store.word(array, 0) as usize
}
