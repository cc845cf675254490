//! Makes lists of few documents.

ghost use Rattle.std.specs.Prelude.{◌≡◌, ◌<◌, ◌≤◌, true, false, length, map, IfOk, IfErr};
ghost use Rattle.std.specs.List.{AllByRecursion};
ghost use Rattle.std.specs.List.Sorted.{IsStrictlySortedBy};
ghost use Rattle.std.specs.Map.{keys_of};
ghost use Rattle.std.specs.Ordering.{nat_cmp};
ghost use Rattle.store_api.specs.Calls.{RefusesOf};
ghost use Rattle.store_api.specs.Units.{MayDo, MakesWithin};
ghost use Rattle.image_format.specs.Words.{unpacked};
ghost use Rattle.attr_types.specs.Lawful.{IsDocNumber};
ghost use Rattle.posting_store.specs.Changes.{list_most, IsListWidth, MakesList};
ghost use Rattle.posting_store.specs.Lists.{AreDocuments};

use crate::posting::Posting;
use array_store::add as add_array;
use frozen_btree::{NumberKey, build_leaf};
use image_format::{MOST_SHORT, WEIGHT_BASE};
use store_api::{Store, StoreError};

/// Makes the record of a short list.
fn make_short<const OFFSET_BITS: u32, S: Store<OFFSET_BITS>>(
    store: &mut S,
    items: &[u64],
) -> Result<Posting, StoreError>
    requires unit { (S.ledger store.old).unit ≡ true }
    requires some { 0 < length items.now }
    requires few { length items.now ≤ MOST_SHORT }
    requires documents { AreDocuments (map unpacked items.now) }
    ensures makes { IfOk result (MakesList (S.ledger store.old) (S.ledger store.new) (S.records store.old) (S.records store.new)
        0 (map unpacked items.now) false) }
    ensures counts { MakesWithin (S.ledger store.old) (S.ledger store.new) (list_most 0 (length items.now)) }
    ensures refuses { IfErr result (RefusesOf (IsListWidth (length items.now)) (S.ledger store.old) (S.ledger store.new)) }
    ensures may { MayDo (S.ledger store.old) (S.ledger store.new) }
{
    let record = add_array(store, items)?;
    Ok(Posting::short(record))
}

/// Makes the leaf of a list of nine documents.
fn make_leaf<const OFFSET_BITS: u32, S: Store<OFFSET_BITS>>(
    store: &mut S,
    items: &[u64],
) -> Result<Posting, StoreError>
    requires unit { (S.ledger store.old).unit ≡ true }
    requires nine { length items.now ≡ 9 }
    requires documents { AreDocuments (map unpacked items.now) }
    ensures makes { IfOk result (MakesList (S.ledger store.old) (S.ledger store.new) (S.records store.old) (S.records store.new)
        0 (map unpacked items.now) false) }
    ensures counts { MakesWithin (S.ledger store.old) (S.ledger store.new) (list_most 0 (length items.now)) }
    ensures refuses { IfErr result (RefusesOf (IsListWidth (length items.now)) (S.ledger store.old) (S.ledger store.new)) }
    ensures may { MayDo (S.ledger store.old) (S.ledger store.new) }
{
    let mut keys = [0; 9];
    let mut values = [0; 9];
    for i in 0..9 {
        keys[i] = items[i] / WEIGHT_BASE;
        values[i] = items[i] % WEIGHT_BASE;
    }
    let root = build_leaf::<OFFSET_BITS, S, NumberKey>(store, &keys, &values)?;
    Ok(Posting::tree(root))
}

/// Makes a list of at most nine items with ascending documents, which is no bit vector.
pub fn make_list<const OFFSET_BITS: u32, S: Store<OFFSET_BITS>>(
    store: &mut S,
    items: &[u64],
) -> Result<Posting, StoreError>
    requires unit { (S.ledger store.old).unit ≡ true }
    requires few { length items.now ≤ 9 }
    requires documents { AreDocuments (map unpacked items.now) }
    ensures makes { IfOk result (MakesList (S.ledger store.old) (S.ledger store.new) (S.records store.old) (S.records store.new)
        0 (map unpacked items.now) false) }
    ensures counts { MakesWithin (S.ledger store.old) (S.ledger store.new) (list_most 0 (length items.now)) }
    ensures refuses { IfErr result (RefusesOf (IsListWidth (length items.now)) (S.ledger store.old) (S.ledger store.new)) }
    ensures may { MayDo (S.ledger store.old) (S.ledger store.new) }
{
    if items.is_empty() {
        return Ok(Posting::EMPTY);
    }
    if items.len() <= MOST_SHORT {
        return make_short(store, items);
    }
    make_leaf(store, items)
}
