//! The record of a document's items, made.

ghost use Rattle.std.specs.Prelude.{◌≡◌, ◌+◌, ◌<◌, ◌≤◌, ◌∷◌, [], ℕ, true, length, map, IfOk, IfErr};
ghost use Rattle.std.specs.List.{AllByRecursion};
ghost use Rattle.store_api.specs.Calls.{RefusesOf};
ghost use Rattle.store_api.specs.Parts.{Owns, Turns, entries};
ghost use Rattle.store_api.specs.Units.{MayDo, MakesAtMost, MakesWithin};
ghost use Rattle.array_store.specs.Adding.{MakesOneOf};
ghost use Rattle.image_format.specs.Words.{class_of};
ghost use Rattle.attr_types.specs.Lawful.{IsLawfulItems};
ghost use Rattle.attr_field.specs.Documents.{items_own};
ghost use Rattle.attr_field.specs.Items.{entries_by_key, has_list, items_record, word_entry, IsItemsWidth, IsWeightOf, MakesItems};

use array_store::add;
use attr_types::{Item, Kind};
use entry_ref::EntryRef;
use image_format::WEIGHT_BASE;
use std::alloc::{AllocError, Global};
use store_api::{Store, StoreError, drop_one, may_do_law};

/// Returns the word of an item, given the record of its value.
fn word_of<const OFFSET_BITS: u32>(kind: Kind, key: EntryRef<OFFSET_BITS>, item: &Item) -> u64
    requires { IsWeightOf kind item.now.weight }
    ensures { word_entry kind result ≡ (key.entry, item.now.weight) }
{
    let reference = key.raw() as u64;
    match kind {
        Kind::Single => reference,
        Kind::Array => reference,
        Kind::WeightedSet => reference * WEIGHT_BASE + item.weight.cast_unsigned() as u64,
    }
}

/// Returns the words of items, given the records of their values.
fn words_of<const OFFSET_BITS: u32>(
    alloc: Global,
    kind: Kind,
    keys: &[EntryRef<OFFSET_BITS>],
    items: &[Item],
) -> Result<Vec<u64>, AllocError>
    requires sized { length keys.now ≡ length items.now }
    requires weights { AllByRecursion (λ item. IsWeightOf kind item.weight) items.now }
    ensures { IfOk result (λ words. map (word_entry kind) words.items ≡ entries_by_key keys.now items.now) }
{
    let mut words = Vec::with_capacity(alloc, keys.len())?;
    for i in 0..keys.len() {
        words.push(word_of(kind, keys[i], &items[i]))?;
    }
    Ok(words)
}

/// Makes the record of an array or a weighted set that has items.
fn make_list<const OFFSET_BITS: u32, S: Store<OFFSET_BITS>>(
    alloc: Global,
    store: &mut S,
    kind: Kind,
    keys: &[EntryRef<OFFSET_BITS>],
    items: &[Item],
) -> Result<EntryRef<OFFSET_BITS>, StoreError>
    requires unit { (S.ledger store.old).unit ≡ true }
    requires list { has_list kind ≡ true }
    requires sized { length keys.now ≡ length items.now }
    requires some { 0 < length items.now }
    requires few { length items.now ≤ 1023 }
    requires weights { AllByRecursion (λ item. IsWeightOf kind item.weight) items.now }
    ensures makes { IfOk result (MakesItems kind (S.ledger store.old) (S.ledger store.new) (S.records store.old) (S.records store.new)
        (entries_by_key keys.now items.now)) }
    ensures counts { MakesOneOf (class_of (1 + length items.now)) (S.ledger store.old) (S.ledger store.new) }
    ensures refuses { IfErr result (RefusesOf (IsItemsWidth kind (length items.now)) (S.ledger store.old) (S.ledger store.new)) }
    ensures may { MayDo (S.ledger store.old) (S.ledger store.new) }
{
    may_do_law::<OFFSET_BITS, S>();
    let Ok(words) = words_of(alloc, kind, keys, items) else {
        return Err(StoreError::Memory);
    };
    add(store, &words)
}

/// Makes a document's reference: 0 if it has no items, the record of the value for a single item, otherwise a record
/// of its own.
pub fn make_items<const OFFSET_BITS: u32, S: Store<OFFSET_BITS>>(
    alloc: Global,
    store: &mut S,
    kind: Kind,
    keys: &[EntryRef<OFFSET_BITS>],
    items: &[Item],
) -> Result<EntryRef<OFFSET_BITS>, StoreError>
    requires unit { (S.ledger store.old).unit ≡ true }
    requires sized { length keys.now ≡ length items.now }
    requires there { AllByRecursion (λ (key : ℕ). 0 < key) keys.now }
    requires lawful { IsLawfulItems kind items.now }
    ensures makes { IfOk result (MakesItems kind (S.ledger store.old) (S.ledger store.new) (S.records store.old) (S.records store.new)
        (entries_by_key keys.now items.now)) }
    ensures counts { MakesWithin (S.ledger store.old) (S.ledger store.new) (items_record kind (length items.now)) }
    ensures refuses { IfErr result (RefusesOf (IsItemsWidth kind (length items.now)) (S.ledger store.old) (S.ledger store.new)) }
    ensures may { MayDo (S.ledger store.old) (S.ledger store.new) }
{
    may_do_law::<OFFSET_BITS, S>();
    if keys.is_empty() {
        return Ok(EntryRef::from_raw(0));
    }
    match kind {
        Kind::Single => Ok(keys[0]),
        Kind::Array => make_list(alloc, store, kind, keys, items),
        Kind::WeightedSet => make_list(alloc, store, kind, keys, items),
    }
}

/// Drops the record that a document's reference owns.
pub fn drop_items<const OFFSET_BITS: u32, S: Store<OFFSET_BITS>>(
    store: &mut S,
    kind: Kind,
    reference: EntryRef<OFFSET_BITS>,
)
    requires unit { (S.ledger store.old).unit ≡ true }
    requires owns { Owns (S.ledger store.old) (S.records store.old) (entries (items_own kind reference) ∷ []) }
    ensures turns { Turns (S.ledger store.old) (S.ledger store.new) (S.records store.old) (S.records store.new)
        (entries (items_own kind reference.entry) ∷ []) [] }
    ensures none_made { (c w : ℕ) → MakesAtMost c 0 ((S.ledger store.old).of_width w) ((S.ledger store.new).of_width w) }
    ensures may { MayDo (S.ledger store.old) (S.ledger store.new) }
{
    may_do_law::<OFFSET_BITS, S>();
    if !reference.valid() {
        return;
    }
    match kind {
        Kind::Single => {}
        Kind::Array => drop_one(store, reference),
        Kind::WeightedSet => drop_one(store, reference),
    }
}
