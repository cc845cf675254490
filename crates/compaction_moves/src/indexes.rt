//! Moves in the index of an attribute, beside its documents.
ghost use Rattle.std.specs.Prelude.{◌≡◌, IfOk, IfErr};
ghost use Rattle.compaction_moves.specs.Cleared.{trees_of_roots};
ghost use Rattle.store_api.specs.Calls.{IsUsedWidth, RefusesOf};
ghost use Rattle.store_api.specs.Units.{MayDo};
ghost use Rattle.attr_compaction.specs.declared.plan.TheConstants.{KEYS, LISTS, NODES};
ghost use Rattle.attr_compaction.specs.declared.plan.PlanKey.TheVariants as keys;
ghost use Rattle.image_format.specs.Documents.{column_at};
ghost use Rattle.compaction_moves.specs.Counts.{MakesKey};
ghost use Rattle.value_index.specs.Forms.{IsPlainIndex};
ghost use Rattle.compaction_moves.specs.Steps.{CanMove, Moved};

use crate::{keys_law, leaves_law, move_key, move_list, move_nodes, moved_law};
use attr_compaction::Plan;
use attr_field::{FieldRoots, documents_law};
use attr_types::{Field, Value};
use store_api::{Store, StoreError};

/// Moves the key of a value.
#[tactic(none)]
pub fn move_value_key<const OFFSET_BITS: u32, S: Store<OFFSET_BITS>>(
    store: &mut S,
    field: &Field,
    roots: FieldRoots<OFFSET_BITS>,
    plan: &Plan,
    value: &Value,
) -> Result<FieldRoots<OFFSET_BITS>, StoreError>
    requires can { CanMove OFFSET_BITS (S.ledger store.old) (S.records store.old) (trees_of_roots field.now roots) plan.now KEYS
        (keys.Value value.now) }
    ensures moved { IfOk result (λ next. Moved OFFSET_BITS plan.now (keys.Value value.now) (S.ledger store.old) (S.ledger store.new)
        (S.records store.old) (S.records store.new) (trees_of_roots field.now roots.entry) (trees_of_roots field.now next)) }
    ensures counts { MakesKey (IsPlainIndex (S.records store.old) roots.entry.dictionary) field.now.kind field.now.value
        (column_at field.now.kind field.now.value (S.records store.old) roots.entry.documents) (S.ledger store.old) (S.ledger store.new) }
    ensures refuses { IfErr result (RefusesOf (IsUsedWidth (S.ledger store.old) (S.records store.old)) (S.ledger store.old)
        (S.ledger store.new)) }
    ensures may { MayDo (S.ledger store.old) (S.ledger store.new) }
{
    documents_law();
    keys_law();
    moved_law::<OFFSET_BITS, S>();
    let _ = field;
    let dictionary = move_key(store, roots.dictionary, value, plan.victim())?;
    Ok(FieldRoots {
        documents: roots.documents,
        dictionary,
    })
}

/// Moves the list of a value, as far as the way to one document.
#[tactic(none)]
pub fn move_value_list<const OFFSET_BITS: u32, S: Store<OFFSET_BITS>>(
    store: &mut S,
    field: &Field,
    roots: FieldRoots<OFFSET_BITS>,
    plan: &Plan,
    value: &Value,
    doc: u32,
) -> Result<FieldRoots<OFFSET_BITS>, StoreError>
    requires can { CanMove OFFSET_BITS (S.ledger store.old) (S.records store.old) (trees_of_roots field.now roots) plan.now LISTS
        (keys.Pair value.now doc) }
    ensures moved { IfOk result (λ next. Moved OFFSET_BITS plan.now (keys.Pair value.now doc) (S.ledger store.old) (S.ledger store.new)
        (S.records store.old) (S.records store.new) (trees_of_roots field.now roots.entry) (trees_of_roots field.now next)) }
    ensures counts { MakesKey (IsPlainIndex (S.records store.old) roots.entry.dictionary) field.now.kind field.now.value
        (column_at field.now.kind field.now.value (S.records store.old) roots.entry.documents) (S.ledger store.old) (S.ledger store.new) }
    ensures refuses { IfErr result (RefusesOf (IsUsedWidth (S.ledger store.old) (S.records store.old)) (S.ledger store.old)
        (S.ledger store.new)) }
    ensures may { MayDo (S.ledger store.old) (S.ledger store.new) }
{
    documents_law();
    keys_law();
    moved_law::<OFFSET_BITS, S>();
    leaves_law::<OFFSET_BITS, S>();
    let _ = field;
    let dictionary = move_list(store, roots.dictionary, value, doc, plan.victim())?;
    Ok(FieldRoots {
        documents: roots.documents,
        dictionary,
    })
}

/// Moves the nodes of the dictionary on the way to a value.
#[tactic(none)]
pub fn move_value_nodes<const OFFSET_BITS: u32, S: Store<OFFSET_BITS>>(
    store: &mut S,
    field: &Field,
    roots: FieldRoots<OFFSET_BITS>,
    plan: &Plan,
    value: &Value,
) -> Result<FieldRoots<OFFSET_BITS>, StoreError>
    requires can { CanMove OFFSET_BITS (S.ledger store.old) (S.records store.old) (trees_of_roots field.now roots) plan.now NODES
        (keys.Value value.now) }
    ensures moved { IfOk result (λ next. Moved OFFSET_BITS plan.now (keys.Value value.now) (S.ledger store.old) (S.ledger store.new)
        (S.records store.old) (S.records store.new) (trees_of_roots field.now roots.entry) (trees_of_roots field.now next)) }
    ensures counts { MakesKey (IsPlainIndex (S.records store.old) roots.entry.dictionary) field.now.kind field.now.value
        (column_at field.now.kind field.now.value (S.records store.old) roots.entry.documents) (S.ledger store.old) (S.ledger store.new) }
    ensures refuses { IfErr result (RefusesOf (IsUsedWidth (S.ledger store.old) (S.records store.old)) (S.ledger store.old)
        (S.ledger store.new)) }
    ensures may { MayDo (S.ledger store.old) (S.ledger store.new) }
{
    documents_law();
    keys_law();
    moved_law::<OFFSET_BITS, S>();
    leaves_law::<OFFSET_BITS, S>();
    let _ = field;
    let dictionary = move_nodes(store, roots.dictionary, value, plan.victim())?;
    Ok(FieldRoots {
        documents: roots.documents,
        dictionary,
    })
}
