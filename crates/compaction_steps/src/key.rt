//! Visits one key of the plan, in a unit of its own.

ghost use Rattle.std.specs.Prelude.{◌≡◌, ◌≢◌, ℕ, ◌<◌, Bool, true, false, set, slice_get, Some, IfOk, IfErr, OnErr};
ghost use Rattle.attr_compaction.specs.declared.plan.TheConstants.{PHASES};
ghost use Rattle.attr_operations.specs.Calls.{KeepsStore, LeavesEntries, RefusesUnit};
ghost use Rattle.attr_operations.specs.Fields.{HoldsAttributes, IsFieldAt, trees_of, trees_of_field};
ghost use Rattle.attr_compaction.specs.PhaseKeys.{key_past, HasType};
ghost use Rattle.image_format.specs.Documents.{column_at};
ghost use Rattle.attr_types.specs.Value.{type_of};
ghost use Rattle.entry_ref.specs.References.{buffer_of};
ghost use Rattle.value_index.specs.Indexes.{key_at, IsIndex};
ghost use Rattle.compaction_moves.specs.Counts.{MakesKey};
ghost use Rattle.compaction_moves.specs.Steps.{CopiesNone};
ghost use Rattle.value_index.specs.Forms.{IsPlainIndex};
ghost use Rattle.compaction_steps.specs.Units.{keys_at, plan_at, CompactsTo, CopiesOne, HasActive, HasRecordIn, IsUnderWay, SparesBelow};

use crate::{same_law, stage_law};
use arena_api::Frozen;
use attr_compaction::{KEYS, Plan, PlanKey, next_key};
use attr_field::{FieldRoots, field_law};
use attr_types::{Field, Value};
use compaction_moves::move_one;
use entry_ref::EntryRef;
use enum_dictionary::find;
use std::alloc::{AllocError, Global};
use store_api::{Store, StoreError};

/// Returns the first key after the plan's place, in its phase of this attribute.
pub fn next_of<const OFFSET_BITS: u32, F: Frozen<OFFSET_BITS>>(
    alloc: Global,
    frozen: &mut F,
    field: &Field,
    roots: FieldRoots<OFFSET_BITS>,
    plan: &Plan,
) -> Result<Option<PlanKey>, AllocError>
    requires field { IsFieldAt (F.records frozen.old) (trees_of_field field.now roots) }
    requires phase { plan.now.place.stage.phase < PHASES }
    requires typed { HasType field.now.value plan.now.place.key }
    ensures next { IfOk result (λ found. found ≡ key_past plan.now.place.key
        (keys_at (F.records frozen.old) (trees_of_field field.now roots.entry) plan.now.place.stage.phase)) }
    ensures same { frozen.new ≡ frozen.old }
{
    next_key(
        alloc,
        frozen,
        field.value,
        roots.documents,
        roots.dictionary,
        plan.phase(),
        plan.key(),
    )
}

/// Returns whether the record of a value lies in the buffer.
#[tactic(none)]
fn value_lies<const OFFSET_BITS: u32, F: Frozen<OFFSET_BITS>>(
    frozen: &mut F,
    dictionary: EntryRef<OFFSET_BITS>,
    value: &Value,
    buffer: u32,
) -> bool
    requires index { IsIndex (type_of value.now) (F.records frozen.old) dictionary }
    ensures apart { result ≡ false → (ref : ℕ) → key_at value.now (F.records frozen.old) dictionary.entry ≡ Some ref
        → buffer_of OFFSET_BITS ref ≢ buffer }
    ensures lies { result ≡ true → HasRecordIn OFFSET_BITS buffer value.now (F.records frozen.old) dictionary.entry }
    ensures same { frozen.new ≡ frozen.old }
{
    match find(frozen, dictionary, value) {
        Some(entry) => entry.key.buffer() == buffer,
        None => false,
    }
}

/// Returns whether the move of a key copies the record of a value, so that the old one may stay in use in the victim.
#[tactic(none)]
pub fn copies_record<const OFFSET_BITS: u32, F: Frozen<OFFSET_BITS>>(
    frozen: &mut F,
    field: &Field,
    own: FieldRoots<OFFSET_BITS>,
    plan: &Plan,
    key: &PlanKey,
) -> bool
    requires field { IsFieldAt (F.records frozen.old) (trees_of_field field.now own) }
    requires typed { HasType field.now.value key.now }
    ensures none { result ≡ false
        → CopiesNone OFFSET_BITS (F.records frozen.old) (trees_of_field field.now own.entry) plan.now key.now }
    ensures one { result ≡ true
        → CopiesOne OFFSET_BITS (F.records frozen.old) (trees_of_field field.now own.entry) plan.now key.now }
    ensures same { frozen.new ≡ frozen.old }
{
    let _ = field;
    if plan.phase() != KEYS {
        return false;
    }
    match key {
        PlanKey::Start => false,
        PlanKey::Value(value) => value_lies(frozen, own.dictionary, value, plan.victim()),
        PlanKey::Doc(_) => false,
        PlanKey::Pair(_, _) => false,
    }
}

/// Visits a key of the plan's attribute, in a unit of its own. Returns the attribute's new roots.
#[tactic(none)]
pub fn move_unit<const OFFSET_BITS: u32, S: Store<OFFSET_BITS>>(
    alloc: Global,
    store: &mut S,
    fields: &[Field],
    roots: &[FieldRoots<OFFSET_BITS>],
    root: EntryRef<OFFSET_BITS>,
    field: &Field,
    own: FieldRoots<OFFSET_BITS>,
    plan: &Plan,
    key: &PlanKey,
) -> Result<FieldRoots<OFFSET_BITS>, StoreError>
    requires holds { HoldsAttributes OFFSET_BITS (S.ledger store.old) (S.records store.old) fields.now
        (trees_of fields.now roots.now) root }
    requires under_way { IsUnderWay OFFSET_BITS root (S.ledger store.old) (S.records store.old) (trees_of fields.now roots.now) plan.now }
    requires phase { plan.now.place.stage.phase < PHASES }
    requires at { slice_get (trees_of fields.now roots.now) plan.now.place.stage.field ≡ Some (trees_of_field field.now own) }
    requires next { key_past plan.now.place.key (keys_at (S.records store.old) (trees_of_field field.now own) plan.now.place.stage.phase)
        ≡ Some key.now }
    ensures moves { IfOk result (λ next. (copies : Bool)
        → (copies ≡ false → CopiesNone OFFSET_BITS (S.records store.old) (trees_of_field field.now own.entry) plan.now key.now)
        → CompactsTo OFFSET_BITS (S.ledger store.new) (S.records store.old)
        (S.records store.new) fields.now (trees_of fields.now roots.now)
        (set (trees_of fields.now roots.now) plan.now.place.stage.field (trees_of_field field.now next))
        root.entry (plan_at plan.now copies key.now)) }
    ensures left { OnErr result (LeavesEntries (S.ledger store.old) (S.ledger store.new) (S.records store.old) (S.records store.new)) }
    ensures refused { IfErr result (RefusesUnit (S.ledger store.old) (S.ledger store.new)) }
    ensures spares { IfErr result (SparesBelow (S.ledger store.new) 34) }
    ensures counts { MakesKey (IsPlainIndex (S.records store.old) own.entry.dictionary) field.now.kind field.now.value
        (column_at field.now.kind field.now.value (S.records store.old) own.entry.documents) (S.ledger store.old) (S.ledger store.new) }
    ensures active { IfErr result (HasActive (S.ledger store.new)) }
    ensures keeps { KeepsStore (S.ledger store.old) (S.ledger store.new) }
{
    field_law();
    same_law();
    stage_law();
    let _ = fields;
    let _ = roots;
    let _ = root;
    store.begin();
    match move_one(alloc, store, field, own, plan, key) {
        Ok(next) => {
            store.accept();
            Ok(next)
        }
        Err(error) => {
            store.undo();
            Err(error)
        }
    }
}
