//! The keys of the list phase: each document of each value.

ghost use Rattle.std.specs.Prelude.{◌≡◌, IfOk, Some};
ghost use Rattle.std.specs.List.{AllByRecursion};
ghost use Rattle.tree_read.specs.Trees.{tree_pairs};
ghost use Rattle.tree_read.specs.SearchPlaces.{pairs_from, IsAt};
ghost use Rattle.tree_read.specs.Pairs.{lookup_pair};
ghost use Rattle.image_format.specs.Values.{stored_value, IsValueRecord};
ghost use Rattle.attr_types.specs.Value.{type_of};
ghost use Rattle.attr_compaction.specs.declared.plan.PlanKey.TheVariants as keys;
ghost use Rattle.enum_dictionary.specs.Dictionaries.{behind, beside_value};
ghost use Rattle.value_index.specs.Indexes.{IsIndex};
ghost use Rattle.attr_compaction.specs.PhaseKeys.{first_item, key_past, keys_of_pairs, next_in_list, pair_keys, HasType, IsListPair};

use crate::PlanKey;
use crate::lists::{first_in_list, past_in_list};
use arena_api::Frozen;
use attr_types::{Value, ValueType};
use entry_ref::EntryRef;
use enum_dictionary::{find, upper};
use frozen_btree::Cursor;
use std::alloc::{AllocError, Global};
use unique_store::get;

/// Returns the key of a document in the list of a value, whose record is given.
fn pair_key<const OFFSET_BITS: u32, F: Frozen<OFFSET_BITS>>(
    alloc: Global,
    frozen: &mut F,
    value_type: ValueType,
    key: EntryRef<OFFSET_BITS>,
    doc: u32,
) -> Result<Option<PlanKey>, AllocError>
    requires { IsValueRecord value_type (F.records frozen.old key) }
    ensures pair { IfOk result (λ found. found ≡ Some (keys.Pair (stored_value value_type (F.records frozen.old) key.entry) doc)) }
    ensures same { frozen.new ≡ frozen.old }
{
    let value = get(alloc, frozen, key, value_type)?;
    Ok(Some(PlanKey::Pair(value, doc)))
}

/// Returns the first key of the list of the next pair, if there is one.
fn pair_at<const OFFSET_BITS: u32, F: Frozen<OFFSET_BITS>>(
    alloc: Global,
    frozen: &mut F,
    value_type: ValueType,
    cursor: &Cursor<OFFSET_BITS>,
) -> Result<Option<PlanKey>, AllocError>
    requires at { IsAt (F.records frozen.old) cursor.now }
    requires pairs { AllByRecursion (IsListPair value_type (F.records frozen.old)) (pairs_from (F.records frozen.old) cursor.now) }
    ensures first { IfOk result (λ found. found
        ≡ first_item (keys_of_pairs value_type (F.records frozen.old) (pairs_from (F.records frozen.old) cursor.now))) }
    ensures same { frozen.new ≡ frozen.old }
{
    if cursor.at_end() {
        return Ok(None);
    }
    let key = EntryRef::from_raw(cursor.key() as u32);
    let list = cursor.value();
    match first_in_list(frozen, list) {
        Some(doc) => pair_key(alloc, frozen, value_type, key, doc),
        None => Ok(None),
    }
}

/// Returns the first key of the lists.
fn first_pair<const OFFSET_BITS: u32, F: Frozen<OFFSET_BITS>>(
    alloc: Global,
    frozen: &mut F,
    value_type: ValueType,
    root: EntryRef<OFFSET_BITS>,
) -> Result<Option<PlanKey>, AllocError>
    requires { IsIndex value_type (F.records frozen.old) root }
    ensures first { IfOk result (λ found. found ≡ first_item (pair_keys value_type (F.records frozen.old) root.entry)) }
    ensures same { frozen.new ≡ frozen.old }
{
    let cursor = Cursor::first(frozen, root);
    pair_at(alloc, frozen, value_type, &cursor)
}

/// Returns the next key in a list.
fn next_in<const OFFSET_BITS: u32, F: Frozen<OFFSET_BITS>>(
    alloc: Global,
    frozen: &mut F,
    value_type: ValueType,
    key: EntryRef<OFFSET_BITS>,
    list: u64,
    doc: u32,
) -> Result<Option<PlanKey>, AllocError>
    requires { IsListPair value_type (F.records frozen.old) (key, list) }
    ensures next { IfOk result (λ found. found ≡ next_in_list value_type (F.records frozen.old) doc (Some (key.entry, list))) }
    ensures same { frozen.new ≡ frozen.old }
{
    match past_in_list(frozen, list, doc) {
        Some(next) => pair_key(alloc, frozen, value_type, key, next),
        None => Ok(None),
    }
}

/// Returns the next key in the list of a value, if the value exists.
fn next_of_value<const OFFSET_BITS: u32, F: Frozen<OFFSET_BITS>>(
    alloc: Global,
    frozen: &mut F,
    value_type: ValueType,
    root: EntryRef<OFFSET_BITS>,
    value: &Value,
    doc: u32,
) -> Result<Option<PlanKey>, AllocError>
    requires index { IsIndex value_type (F.records frozen.old) root }
    requires typed { type_of value.now ≡ value_type }
    ensures next { IfOk result (λ found. found ≡ next_in_list value_type (F.records frozen.old) doc
        (lookup_pair (beside_value value.now (F.records frozen.old)) (tree_pairs (F.records frozen.old) root.entry))) }
    ensures same { frozen.new ≡ frozen.old }
{
    match find(frozen, root, value) {
        Some(entry) => next_in(alloc, frozen, value_type, entry.key, entry.posting, doc),
        None => Ok(None),
    }
}

/// Returns the first key of the lists of the values above a value.
fn first_behind<const OFFSET_BITS: u32, F: Frozen<OFFSET_BITS>>(
    alloc: Global,
    frozen: &mut F,
    value_type: ValueType,
    root: EntryRef<OFFSET_BITS>,
    value: &Value,
) -> Result<Option<PlanKey>, AllocError>
    requires index { IsIndex value_type (F.records frozen.old) root }
    requires typed { type_of value.now ≡ value_type }
    ensures first { IfOk result (λ found. found ≡ first_item (keys_of_pairs value_type (F.records frozen.old)
        (behind (beside_value value.now (F.records frozen.old)) (tree_pairs (F.records frozen.old) root.entry)))) }
    ensures same { frozen.new ≡ frozen.old }
{
    let cursor = upper(frozen, root, value);
    pair_at(alloc, frozen, value_type, &cursor)
}

/// Returns the first key of the lists after a document in the list of a value.
#[tactic(none)]
fn pair_past<const OFFSET_BITS: u32, F: Frozen<OFFSET_BITS>>(
    alloc: Global,
    frozen: &mut F,
    value_type: ValueType,
    root: EntryRef<OFFSET_BITS>,
    value: &Value,
    doc: u32,
) -> Result<Option<PlanKey>, AllocError>
    requires index { IsIndex value_type (F.records frozen.old) root }
    requires typed { type_of value.now ≡ value_type }
    ensures next { IfOk result (λ found. found
        ≡ key_past (keys.Pair value.now doc) (pair_keys value_type (F.records frozen.old) root.entry)) }
    ensures same { frozen.new ≡ frozen.old }
{
    let next = next_of_value(alloc, frozen, value_type, root, value, doc)?;
    match next {
        Some(found) => Ok(Some(found)),
        None => first_behind(alloc, frozen, value_type, root, value),
    }
}

/// Returns the first key of the lists after a key.
#[tactic(none)]
pub fn pair_after<const OFFSET_BITS: u32, F: Frozen<OFFSET_BITS>>(
    alloc: Global,
    frozen: &mut F,
    value_type: ValueType,
    root: EntryRef<OFFSET_BITS>,
    key: &PlanKey,
) -> Result<Option<PlanKey>, AllocError>
    requires index { IsIndex value_type (F.records frozen.old) root }
    requires typed { HasType value_type key.now }
    ensures next { IfOk result (λ found. found ≡ key_past key.now (pair_keys value_type (F.records frozen.old) root.entry)) }
    ensures same { frozen.new ≡ frozen.old }
{
    match key {
        PlanKey::Start => first_pair(alloc, frozen, value_type, root),
        PlanKey::Value(_) => first_pair(alloc, frozen, value_type, root),
        PlanKey::Doc(_) => first_pair(alloc, frozen, value_type, root),
        PlanKey::Pair(value, doc) => pair_past(alloc, frozen, value_type, root, value, *doc),
    }
}
