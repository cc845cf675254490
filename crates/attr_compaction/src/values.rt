//! The keys of the value phase: one value of the dictionary after another.

ghost use Rattle.std.specs.Prelude.{◌≡◌, IfOk};
ghost use Rattle.std.specs.List.{AllByRecursion};
ghost use Rattle.std.specs.Option.{option_map};
ghost use Rattle.tree_read.specs.SearchPlaces.{pairs_from, IsAt};
ghost use Rattle.image_format.specs.Values.{stored_value, IsValueRecord};
ghost use Rattle.attr_types.specs.Value.{type_of};
ghost use Rattle.attr_compaction.specs.declared.plan.PlanKey.TheVariants as keys;
ghost use Rattle.enum_dictionary.specs.Dictionaries.{IsDictionary};
ghost use Rattle.attr_compaction.specs.PhaseKeys.{first_item, key_past, value_keys, HasType};

use crate::PlanKey;
use arena_api::Frozen;
use attr_types::{Value, ValueType};
use entry_ref::EntryRef;
use enum_dictionary::upper;
use frozen_btree::Cursor;
use std::alloc::{AllocError, Global};
use unique_store::get;

/// Returns the value of the next pair, if there is one.
fn value_at<const OFFSET_BITS: u32, F: Frozen<OFFSET_BITS>>(
    alloc: Global,
    frozen: &mut F,
    value_type: ValueType,
    cursor: &Cursor<OFFSET_BITS>,
) -> Result<Option<PlanKey>, AllocError>
    requires at { IsAt (F.records frozen.old) cursor.now }
    requires values { AllByRecursion (λ p. IsValueRecord value_type (F.records frozen.old p.0))
        (pairs_from (F.records frozen.old) cursor.now) }
    ensures value { IfOk result (λ found. found
        ≡ option_map (λ p. keys.Value (stored_value value_type (F.records frozen.old) p.0))
        (first_item (pairs_from (F.records frozen.old) cursor.now))) }
    ensures same { frozen.new ≡ frozen.old }
{
    if cursor.at_end() {
        return Ok(None);
    }
    let key = EntryRef::from_raw(cursor.key() as u32);
    let value = get(alloc, frozen, key, value_type)?;
    Ok(Some(PlanKey::Value(value)))
}

/// Returns the first value of a dictionary.
fn first_value<const OFFSET_BITS: u32, F: Frozen<OFFSET_BITS>>(
    alloc: Global,
    frozen: &mut F,
    value_type: ValueType,
    root: EntryRef<OFFSET_BITS>,
) -> Result<Option<PlanKey>, AllocError>
    requires { IsDictionary value_type (F.records frozen.old) root }
    ensures next { IfOk result (λ found. found ≡ key_past keys.Start (value_keys value_type (F.records frozen.old) root.entry)) }
    ensures same { frozen.new ≡ frozen.old }
{
    let cursor = Cursor::first(frozen, root);
    value_at(alloc, frozen, value_type, &cursor)
}

/// Returns the first value of a dictionary above another.
fn value_past<const OFFSET_BITS: u32, F: Frozen<OFFSET_BITS>>(
    alloc: Global,
    frozen: &mut F,
    value_type: ValueType,
    root: EntryRef<OFFSET_BITS>,
    value: &Value,
) -> Result<Option<PlanKey>, AllocError>
    requires dictionary { IsDictionary value_type (F.records frozen.old) root }
    requires typed { type_of value.now ≡ value_type }
    ensures next { IfOk result (λ found. found
        ≡ key_past (keys.Value value.now) (value_keys value_type (F.records frozen.old) root.entry)) }
    ensures same { frozen.new ≡ frozen.old }
{
    let cursor = upper(frozen, root, value);
    value_at(alloc, frozen, value_type, &cursor)
}

/// Returns the first value of a dictionary after a key.
#[tactic(none)]
pub fn value_after<const OFFSET_BITS: u32, F: Frozen<OFFSET_BITS>>(
    alloc: Global,
    frozen: &mut F,
    value_type: ValueType,
    root: EntryRef<OFFSET_BITS>,
    key: &PlanKey,
) -> Result<Option<PlanKey>, AllocError>
    requires dictionary { IsDictionary value_type (F.records frozen.old) root }
    requires typed { HasType value_type key.now }
    ensures next { IfOk result (λ found. found ≡ key_past key.now (value_keys value_type (F.records frozen.old) root.entry)) }
    ensures same { frozen.new ≡ frozen.old }
{
    match key {
        PlanKey::Start => first_value(alloc, frozen, value_type, root),
        PlanKey::Value(value) => value_past(alloc, frozen, value_type, root, value),
        PlanKey::Doc(_) => Ok(None),
        PlanKey::Pair(_, _) => Ok(None),
    }
}
