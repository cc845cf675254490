//! Arrays of items in records of a store: added, counted and read.

ghost use Rattle.std.specs.Prelude.{◌≡◌, ◌+◌, ◌<◌, ◌≤◌, ◌∷◌, true, length, slice_index, IfOk, IfErr, OnErr};
ghost use Rattle.image_format.specs.Words.{class_of, stored_items};
ghost use Rattle.store_api.specs.Calls.{Refuses};
ghost use Rattle.store_api.specs.Units.{MayDo};
ghost use Rattle.array_store.specs.Adding.{AddsRecord, AddsNothing, MakesOneOf};
ghost use Rattle.array_store.specs.Arrays.{IsArray};

use crate::record::make_record;
use crate::{MOST_ITEMS, MOST_WORDS};
use arena_api::Frozen;
use entry_ref::EntryRef;
use store_api::{Store, StoreError};

/// Writes the record of an array.
fn write_array(words: &mut [u64], items: &[u64])
    requires { length words.old ≡ 1 + length items.now }
    ensures { words.new ≡ length items.now ∷ items.now }
{
    let (first, rest) = words.split_at_mut(1);
    first[0] = items.len() as u64;
    rest.copy_from_slice(items);
}

/// Adds an array, with a buffer in which its record fits.
fn add_by<const OFFSET_BITS: u32, S: Store<OFFSET_BITS>>(
    store: &mut S,
    items: &[u64],
    buffer: &mut [u64],
) -> Result<EntryRef<OFFSET_BITS>, StoreError>
    requires unit { (S.ledger store.old).unit ≡ true }
    requires few { length items.now ≤ MOST_ITEMS }
    requires room { 1 + length items.now ≤ length buffer.old }
    ensures adds { IfOk result (AddsRecord OFFSET_BITS (S.ledger store.old) (S.ledger store.new) (S.records store.old) (S.records store.new)
        (length items.now ∷ items.now)) }
    ensures refuses { IfErr result (Refuses (S.ledger store.old) (S.ledger store.new) (class_of (1 + length items.now))) }
    ensures refused { OnErr result (AddsNothing (S.ledger store.old) (S.ledger store.new) (S.records store.old) (S.records store.new)) }
    ensures counts { MakesOneOf (class_of (1 + length items.now)) (S.ledger store.old) (S.ledger store.new) }
    ensures may { MayDo (S.ledger store.old) (S.ledger store.new) }
{
    let words = &mut buffer[..1 + items.len()];
    write_array(words, items);
    make_record(store, words)
}

/// Adds an array of these items.
pub fn add<const OFFSET_BITS: u32, S: Store<OFFSET_BITS>>(
    store: &mut S,
    items: &[u64],
) -> Result<EntryRef<OFFSET_BITS>, StoreError>
    requires unit { (S.ledger store.old).unit ≡ true }
    requires few { length items.now ≤ MOST_ITEMS }
    ensures adds { IfOk result (AddsRecord OFFSET_BITS (S.ledger store.old) (S.ledger store.new) (S.records store.old) (S.records store.new)
        (length items.now ∷ items.now)) }
    ensures array { IfOk result (λ r. IsArray (S.records store.new r)) }
    ensures items { IfOk result (λ r. stored_items (S.records store.new r) ≡ items.now) }
    ensures refuses { IfErr result (Refuses (S.ledger store.old) (S.ledger store.new) (class_of (1 + length items.now))) }
    ensures refused { OnErr result (AddsNothing (S.ledger store.old) (S.ledger store.new) (S.records store.old) (S.records store.new)) }
    ensures counts { MakesOneOf (class_of (1 + length items.now)) (S.ledger store.old) (S.ledger store.new) }
    ensures may { MayDo (S.ledger store.old) (S.ledger store.new) }
{
    match items.len() {
        0..=15 => add_by(store, items, &mut [0; 16]),
        16..=127 => add_by(store, items, &mut [0; 128]),
        _ => add_by(store, items, &mut [0; MOST_WORDS]),
    }
}

/// Returns the number of items of an array.
pub fn count<const OFFSET_BITS: u32, F: Frozen<OFFSET_BITS>>(
    frozen: &mut F,
    array: EntryRef<OFFSET_BITS>,
) -> u32
    requires { IsArray (F.records frozen.old array) }
    ensures count { result ≡ length (stored_items (F.records frozen.old array.entry)) }
    ensures few { result ≤ MOST_ITEMS }
    ensures same { frozen.new ≡ frozen.old }
{
    frozen.word(array, 0) as u32
}

/// Returns item `i` of an array.
pub fn get<const OFFSET_BITS: u32, F: Frozen<OFFSET_BITS>>(
    frozen: &mut F,
    array: EntryRef<OFFSET_BITS>,
    i: u32,
) -> u64
    requires array { IsArray (F.records frozen.old array) }
    requires below { i < length (stored_items (F.records frozen.old array)) }
    ensures item { result ≡ slice_index (stored_items (F.records frozen.old array.entry)) i }
    ensures same { frozen.new ≡ frozen.old }
{
    frozen.word(array, 1 + i)
}
