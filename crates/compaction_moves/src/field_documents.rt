//! Moves in the documents of an attribute, beside its index.
ghost use Rattle.std.specs.Prelude.{◌≡◌, IfOk, IfErr};
ghost use Rattle.compaction_moves.specs.Cleared.{trees_of_roots};
ghost use Rattle.store_api.specs.Calls.{IsUsedWidth, RefusesOf};
ghost use Rattle.store_api.specs.Units.{MayDo};
ghost use Rattle.attr_compaction.specs.declared.plan.TheConstants.{DOCUMENTS, NODES};
ghost use Rattle.attr_compaction.specs.declared.plan.PlanKey.TheVariants as keys;
ghost use Rattle.image_format.specs.Documents.{column_at};
ghost use Rattle.compaction_moves.specs.Counts.{MakesKey};
ghost use Rattle.value_index.specs.Forms.{IsPlainIndex};
ghost use Rattle.compaction_moves.specs.Steps.{CanMove, Moved};

use crate::{can_law, items_law, keys_law, leaves_law, map_law, move_document_nodes, move_items};
use attr_compaction::Plan;
use attr_field::FieldRoots;
use attr_types::{Doc, Field};
use std::alloc::Global;
use store_api::{Store, StoreError};
use value_index::index_law;

/// Moves the items of a document.
#[tactic(none)]
pub fn move_document_items<const OFFSET_BITS: u32, S: Store<OFFSET_BITS>>(
    alloc: Global,
    store: &mut S,
    field: &Field,
    roots: FieldRoots<OFFSET_BITS>,
    plan: &Plan,
    doc: Doc,
) -> Result<FieldRoots<OFFSET_BITS>, StoreError>
    requires can { CanMove OFFSET_BITS (S.ledger store.old) (S.records store.old) (trees_of_roots field.now roots) plan.now DOCUMENTS
        (keys.Doc doc) }
    ensures moved { IfOk result (λ next. Moved OFFSET_BITS plan.now (keys.Doc doc) (S.ledger store.old) (S.ledger store.new)
        (S.records store.old) (S.records store.new) (trees_of_roots field.now roots.entry) (trees_of_roots field.now next)) }
    ensures counts { MakesKey (IsPlainIndex (S.records store.old) roots.entry.dictionary) field.now.kind field.now.value
        (column_at field.now.kind field.now.value (S.records store.old) roots.entry.documents) (S.ledger store.old) (S.ledger store.new) }
    ensures refuses { IfErr result (RefusesOf (IsUsedWidth (S.ledger store.old) (S.records store.old)) (S.ledger store.old)
        (S.ledger store.new)) }
    ensures may { MayDo (S.ledger store.old) (S.ledger store.new) }
{
    index_law();
    keys_law();
    can_law::<OFFSET_BITS, S>();
    items_law::<OFFSET_BITS, S>();
    let documents = move_items(
        alloc,
        store,
        field.kind,
        field.value,
        roots.documents,
        roots.dictionary,
        doc,
        plan.victim(),
    )?;
    Ok(FieldRoots {
        documents,
        dictionary: roots.dictionary,
    })
}

/// Moves the nodes of the map on the way to a document.
#[tactic(none)]
pub fn move_map_nodes<const OFFSET_BITS: u32, S: Store<OFFSET_BITS>>(
    store: &mut S,
    field: &Field,
    roots: FieldRoots<OFFSET_BITS>,
    plan: &Plan,
    doc: Doc,
) -> Result<FieldRoots<OFFSET_BITS>, StoreError>
    requires can { CanMove OFFSET_BITS (S.ledger store.old) (S.records store.old) (trees_of_roots field.now roots) plan.now NODES
        (keys.Doc doc) }
    ensures moved { IfOk result (λ next. Moved OFFSET_BITS plan.now (keys.Doc doc) (S.ledger store.old) (S.ledger store.new)
        (S.records store.old) (S.records store.new) (trees_of_roots field.now roots.entry) (trees_of_roots field.now next)) }
    ensures counts { MakesKey (IsPlainIndex (S.records store.old) roots.entry.dictionary) field.now.kind field.now.value
        (column_at field.now.kind field.now.value (S.records store.old) roots.entry.documents) (S.ledger store.old) (S.ledger store.new) }
    ensures refuses { IfErr result (RefusesOf (IsUsedWidth (S.ledger store.old) (S.records store.old)) (S.ledger store.old)
        (S.ledger store.new)) }
    ensures may { MayDo (S.ledger store.old) (S.ledger store.new) }
{
    index_law();
    keys_law();
    can_law::<OFFSET_BITS, S>();
    map_law::<OFFSET_BITS, S>();
    leaves_law::<OFFSET_BITS, S>();
    let documents = move_document_nodes(
        store,
        field.kind,
        field.value,
        roots.documents,
        doc,
        plan.victim(),
    )?;
    Ok(FieldRoots {
        documents,
        dictionary: roots.dictionary,
    })
}
