//! Moves what belongs to one key of a phase out of the victim.

ghost use Rattle.std.specs.Prelude.{◌≡◌, ◌<◌, ◌∷◌, [], true, Some, IfOk, IfErr};
ghost use Rattle.store_api.specs.Calls.{IsUsedWidth, RefusesOf};
ghost use Rattle.store_api.specs.Parts.{Owns};
ghost use Rattle.store_api.specs.Units.{MayDo};
ghost use Rattle.compaction_moves.specs.Cleared.{trees_of_roots, IsClearedField};
ghost use Rattle.attr_compaction.specs.declared.plan.TheConstants.{PHASES};
ghost use Rattle.attr_compaction.specs.declared.plan.PlanKey.TheVariants as keys;
ghost use Rattle.attr_field.specs.Fields.{field_part, IsField, RefersBeside};
ghost use Rattle.image_format.specs.Documents.{column_at};
ghost use Rattle.compaction_moves.specs.Counts.{MakesKey};
ghost use Rattle.value_index.specs.Forms.{IsPlainIndex};
ghost use Rattle.compaction_moves.specs.FieldMoves.{HasBegun};
ghost use Rattle.compaction_moves.specs.Steps.{CanMove, Moved};
ghost use Rattle.attr_compaction.specs.PhaseKeys.{key_past, phase_keys};

use crate::field_documents::{move_document_items, move_map_nodes};
use crate::indexes::{move_value_key, move_value_list, move_value_nodes};
use attr_compaction::{DOCUMENTS, KEYS, Plan, PlanKey};
use attr_field::FieldRoots;
use attr_types::{Doc, Field, Value};
use std::alloc::Global;
use store_api::{Store, StoreError};

/// Moves a value's key, or, in the last phase, the nodes on the way to the value.
#[tactic(none)]
fn move_by_value<const OFFSET_BITS: u32, S: Store<OFFSET_BITS>>(
    store: &mut S,
    field: &Field,
    roots: FieldRoots<OFFSET_BITS>,
    plan: &Plan,
    value: &Value,
) -> Result<FieldRoots<OFFSET_BITS>, StoreError>
    requires below { plan.now.place.stage.phase < PHASES }
    requires can { CanMove OFFSET_BITS (S.ledger store.old) (S.records store.old) (trees_of_roots field.now roots) plan.now
        plan.now.place.stage.phase (keys.Value value.now) }
    ensures moved { IfOk result (λ next. Moved OFFSET_BITS plan.now (keys.Value value.now) (S.ledger store.old) (S.ledger store.new)
        (S.records store.old) (S.records store.new) (trees_of_roots field.now roots.entry) (trees_of_roots field.now next)) }
    ensures counts { MakesKey (IsPlainIndex (S.records store.old) roots.entry.dictionary) field.now.kind field.now.value
        (column_at field.now.kind field.now.value (S.records store.old) roots.entry.documents) (S.ledger store.old) (S.ledger store.new) }
    ensures refuses { IfErr result (RefusesOf (IsUsedWidth (S.ledger store.old) (S.records store.old)) (S.ledger store.old)
        (S.ledger store.new)) }
    ensures may { MayDo (S.ledger store.old) (S.ledger store.new) }
{
    if plan.phase() == KEYS {
        return move_value_key(store, field, roots, plan, value);
    }
    move_value_nodes(store, field, roots, plan, value)
}

/// Moves a document's items, or, in the last phase, the nodes on the way to the document.
#[tactic(none)]
fn move_by_document<const OFFSET_BITS: u32, S: Store<OFFSET_BITS>>(
    alloc: Global,
    store: &mut S,
    field: &Field,
    roots: FieldRoots<OFFSET_BITS>,
    plan: &Plan,
    number: u32,
) -> Result<FieldRoots<OFFSET_BITS>, StoreError>
    requires below { plan.now.place.stage.phase < PHASES }
    requires can { CanMove OFFSET_BITS (S.ledger store.old) (S.records store.old) (trees_of_roots field.now roots) plan.now
        plan.now.place.stage.phase (keys.Doc number) }
    ensures moved { IfOk result (λ next. Moved OFFSET_BITS plan.now (keys.Doc number) (S.ledger store.old) (S.ledger store.new)
        (S.records store.old) (S.records store.new) (trees_of_roots field.now roots.entry) (trees_of_roots field.now next)) }
    ensures counts { MakesKey (IsPlainIndex (S.records store.old) roots.entry.dictionary) field.now.kind field.now.value
        (column_at field.now.kind field.now.value (S.records store.old) roots.entry.documents) (S.ledger store.old) (S.ledger store.new) }
    ensures refuses { IfErr result (RefusesOf (IsUsedWidth (S.ledger store.old) (S.records store.old)) (S.ledger store.old)
        (S.ledger store.new)) }
    ensures may { MayDo (S.ledger store.old) (S.ledger store.new) }
{
    let doc = Doc::new(number);
    if plan.phase() == DOCUMENTS {
        return move_document_items(alloc, store, field, roots, plan, doc);
    }
    move_map_nodes(store, field, roots, plan, doc)
}

/// Moves what belongs to one key of the plan's phase out of the victim, in one attribute. Returns the new roots.
pub fn move_one<const OFFSET_BITS: u32, S: Store<OFFSET_BITS>>(
    alloc: Global,
    store: &mut S,
    field: &Field,
    roots: FieldRoots<OFFSET_BITS>,
    plan: &Plan,
    key: &PlanKey,
) -> Result<FieldRoots<OFFSET_BITS>, StoreError>
    requires unit { (S.ledger store.old).unit ≡ true }
    requires begun { HasBegun (S.ledger store.old) }
    requires sealed { (S.ledger store.old).sealed plan.now.victim ≡ true }
    requires phase { plan.now.place.stage.phase < PHASES }
    requires field { IsField field.now.kind field.now.value (S.records store.old) roots.documents roots.dictionary }
    requires owns { Owns (S.ledger store.old) (S.records store.old) (field_part field.now.kind roots.documents roots.dictionary ∷ []) }
    requires refers { RefersBeside (S.ledger store.old) field.now.kind (S.records store.old) roots.documents roots.dictionary
        (field_part field.now.kind roots.documents roots.dictionary ∷ []) }
    requires next { key_past plan.now.place.key (phase_keys field.now.value (S.records store.old) roots.documents roots.dictionary
        plan.now.place.stage.phase) ≡ Some key.now }
    requires cleared { IsClearedField OFFSET_BITS plan.now.victim plan.now.place plan.now.place.stage.field (S.records store.old)
        (trees_of_roots field.now roots) }
    // The key is visited, and everything visited before is still outside the victim.
    ensures moved { IfOk result (λ next. Moved OFFSET_BITS plan.now key.now (S.ledger store.old) (S.ledger store.new)
        (S.records store.old) (S.records store.new) (trees_of_roots field.now roots.entry) (trees_of_roots field.now next)) }
    ensures counts { MakesKey (IsPlainIndex (S.records store.old) roots.entry.dictionary) field.now.kind field.now.value
        (column_at field.now.kind field.now.value (S.records store.old) roots.entry.documents) (S.ledger store.old) (S.ledger store.new) }
    ensures refuses { IfErr result (RefusesOf (IsUsedWidth (S.ledger store.old) (S.records store.old)) (S.ledger store.old)
        (S.ledger store.new)) }
    ensures may { MayDo (S.ledger store.old) (S.ledger store.new) }
{
    match key {
        PlanKey::Start => unreachable!(),
        PlanKey::Value(value) => move_by_value(store, field, roots, plan, value),
        PlanKey::Doc(number) => move_by_document(alloc, store, field, roots, plan, *number),
        PlanKey::Pair(value, doc) => move_value_list(store, field, roots, plan, value, *doc),
    }
}
