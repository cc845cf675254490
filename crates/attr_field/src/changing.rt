//! A put and a remove of one document in an attribute.

ghost use Rattle.std.specs.Prelude.{◌≡◌, ℕ, ◌∷◌, [], true, length, IsSome, Some, None, IfOk, IfErr};
ghost use Rattle.std.specs.BTreeMap.{is_at};
ghost use Rattle.std.specs.Map.{lookup};
ghost use Rattle.std.specs.Ordering.{nat_cmp};
ghost use Rattle.store_api.specs.Calls.{RefusesOf};
ghost use Rattle.store_api.specs.Parts.{Owns};
ghost use Rattle.store_api.specs.Units.{MayDo, MakesWithin};
ghost use Rattle.attr_field.specs.Changes.{MakesField};
ghost use Rattle.attr_field.specs.Counts.{change_most, low_change_most, StaysLow};
ghost use Rattle.attr_field.specs.Fields.{field_part, IsField, RefersBeside};
ghost use Rattle.attr_field.specs.Forms.{wants};
ghost use Rattle.attr_field.specs.Steps.{IsMadeBy};
ghost use Rattle.attr_field.specs.Widths.{IsFieldWidth};
ghost use Rattle.image_format.specs.Documents.{column_at};
ghost use Rattle.index_model.specs.Changes.{first_weights};
ghost use Rattle.index_model.specs.Columns.{items_of, with_change};
ghost use Rattle.attr_types.specs.Lawful.{ItemsFit};
ghost use Rattle.value_index.specs.Forms.{IsOfForm, WeighOnes};

use crate::comparing::has_already;
use crate::documents_law;
use crate::roots::FieldRoots;
use crate::steps::{add_values, remove_values, set_items, take_out};
use crate::weights::{Weights, change_weights};
use attr_types::{Doc, Item, Kind, ValueType};
use std::alloc::Global;
use store_api::{Store, StoreError};
use value_index::key_law;

/// Sets the items of a document, given the weights of its values before and after, or none for a single, whose item is
/// another one.
#[tactic(none)]
fn put_changed<const OFFSET_BITS: u32, S: Store<OFFSET_BITS>>(
    alloc: Global,
    store: &mut S,
    kind: Kind,
    value_type: ValueType,
    roots: FieldRoots<OFFSET_BITS>,
    doc: Doc,
    old: &[Item],
    new: &[Item],
    weights: &Option<Weights>,
    dense: bool,
    total: u32,
) -> Result<FieldRoots<OFFSET_BITS>, StoreError>
    requires unit { (S.ledger store.old).unit ≡ true }
    requires field { IsField kind value_type (S.records store.old) roots.documents roots.dictionary }
    requires owns { Owns (S.ledger store.old) (S.records store.old) (field_part kind roots.documents roots.dictionary ∷ []) }
    requires refers { RefersBeside (S.ledger store.old) kind (S.records store.old) roots.documents roots.dictionary
        (field_part kind roots.documents roots.dictionary ∷ []) }
    requires form { IsOfForm dense value_type (S.records store.old) roots.dictionary }
    requires was { old.now ≡ items_of (column_at kind value_type (S.records store.old) roots.documents) doc }
    requires how { IsMadeBy old.now new.now weights.now }
    requires ones { WeighOnes dense (first_weights [] new.now) }
    requires fits { ItemsFit kind value_type new.now }
    ensures makes { IfOk result (λ next. MakesField kind value_type (S.ledger store.old) (S.ledger store.new) (S.records store.old)
        (S.records store.new) roots.entry.documents roots.entry.dictionary
        (with_change (column_at kind value_type (S.records store.old) roots.entry.documents) doc (Some new.now))
        next.documents next.dictionary) }
    ensures form { IfOk result (λ next. IsOfForm dense value_type (S.records store.new) next.dictionary) }
    ensures counts { MakesWithin (S.ledger store.old) (S.ledger store.new)
        (change_most dense kind (column_at kind value_type (S.records store.old) roots.entry.documents) doc old.now new.now) }
    ensures low { (levels : ℕ) → StaysLow levels (column_at kind value_type (S.records store.old) roots.entry.documents)
        (first_weights [] new.now)
        → MakesWithin (S.ledger store.old) (S.ledger store.new)
        (low_change_most levels dense kind (column_at kind value_type (S.records store.old) roots.entry.documents) doc old.now new.now) }
    ensures refuses { IfErr result (RefusesOf (IsFieldWidth dense kind
        (with_change (column_at kind value_type (S.records store.old) roots.entry.documents) doc (Some new.now))
        (items_of (column_at kind value_type (S.records store.old) roots.entry.documents) doc) new.now)
        (S.ledger store.old) (S.ledger store.new)) }
    ensures may { MayDo (S.ledger store.old) (S.ledger store.new) }
{
    documents_law();
    key_law();
    let added = add_values(
        alloc,
        store,
        kind,
        value_type,
        roots.documents,
        roots.dictionary,
        doc,
        old,
        new,
        weights,
        dense,
        total,
    )?;
    let documents = set_items(
        alloc,
        store,
        kind,
        value_type,
        roots.documents,
        added.root,
        doc,
        added.key,
        new,
        weights,
    )?;
    let dictionary = remove_values(
        alloc, store, kind, value_type, documents, added.root, doc, old, new, weights, dense, total,
    )?;
    Ok(FieldRoots {
        documents,
        dictionary,
    })
}

/// Returns whether bit vectors are wanted in an attribute of this kind: never with weighted sets.
fn wants(dense: bool, kind: Kind) -> bool
    ensures { result ≡ wants dense kind }
{
    match kind {
        Kind::Single => dense,
        Kind::Array => dense,
        Kind::WeightedSet => false,
    }
}

/// Sets the items of a document, where `old` are the items that it had, or none. Returns the new roots. With `dense` the
/// list of a frequent value among `documents` documents becomes a bit vector; with weighted sets the flag changes nothing.
#[tactic(none)]
pub fn put<const OFFSET_BITS: u32, S: Store<OFFSET_BITS>>(
    alloc: Global,
    store: &mut S,
    kind: Kind,
    value_type: ValueType,
    roots: FieldRoots<OFFSET_BITS>,
    doc: Doc,
    old: &[Item],
    new: &[Item],
    dense: bool,
    documents: u32,
) -> Result<FieldRoots<OFFSET_BITS>, StoreError>
    requires unit { (S.ledger store.old).unit ≡ true }
    requires field { IsField kind value_type (S.records store.old) roots.documents roots.dictionary }
    requires owns { Owns (S.ledger store.old) (S.records store.old) (field_part kind roots.documents roots.dictionary ∷ []) }
    requires refers { RefersBeside (S.ledger store.old) kind (S.records store.old) roots.documents roots.dictionary
        (field_part kind roots.documents roots.dictionary ∷ []) }
    requires form { IsOfForm (wants dense kind) value_type (S.records store.old) roots.dictionary }
    requires was { old.now ≡ items_of (column_at kind value_type (S.records store.old) roots.documents) doc }
    requires fits { ItemsFit kind value_type new.now }
    ensures makes { IfOk result (λ next. MakesField kind value_type (S.ledger store.old) (S.ledger store.new) (S.records store.old)
        (S.records store.new) roots.entry.documents roots.entry.dictionary
        (with_change (column_at kind value_type (S.records store.old) roots.entry.documents) doc (Some new.now))
        next.documents next.dictionary) }
    ensures form { IfOk result (λ next. IsOfForm (wants dense kind) value_type (S.records store.new) next.dictionary) }
    ensures same { lookup (is_at (nat_cmp doc)) (column_at kind value_type (S.records store.old) roots.entry.documents) ≡ Some new.now
        → store.new ≡ store.old }
    ensures counts { MakesWithin (S.ledger store.old) (S.ledger store.new)
        (change_most (wants dense kind) kind (column_at kind value_type (S.records store.old) roots.entry.documents) doc old.now new.now) }
    ensures low { (levels : ℕ) → StaysLow levels (column_at kind value_type (S.records store.old) roots.entry.documents)
        (first_weights [] new.now)
        → MakesWithin (S.ledger store.old) (S.ledger store.new)
        (low_change_most levels (wants dense kind) kind (column_at kind value_type (S.records store.old) roots.entry.documents) doc old.now new.now) }
    ensures refuses { IfErr result (RefusesOf (IsFieldWidth (wants dense kind) kind
        (with_change (column_at kind value_type (S.records store.old) roots.entry.documents) doc (Some new.now)) old.now new.now)
        (S.ledger store.old) (S.ledger store.new)) }
    ensures may { MayDo (S.ledger store.old) (S.ledger store.new) }
{
    documents_law();
    let Ok(same) = has_already(
        alloc,
        store,
        kind,
        value_type,
        roots.documents,
        doc,
        old,
        new,
    ) else {
        return Err(StoreError::Memory);
    };
    if same {
        return Ok(roots);
    }
    let wanted = wants(dense, kind);
    let Ok(weights) = change_weights(alloc, kind, old, new) else {
        return Err(StoreError::Memory);
    };
    put_changed(
        alloc, store, kind, value_type, roots, doc, old, new, &weights, wanted, documents,
    )
}

/// Removes a document that exists, given the weights of its values, or none for a single.
#[tactic(none)]
fn remove_changed<const OFFSET_BITS: u32, S: Store<OFFSET_BITS>>(
    alloc: Global,
    store: &mut S,
    kind: Kind,
    value_type: ValueType,
    roots: FieldRoots<OFFSET_BITS>,
    doc: Doc,
    old: &[Item],
    weights: &Option<Weights>,
    dense: bool,
    total: u32,
) -> Result<FieldRoots<OFFSET_BITS>, StoreError>
    requires unit { (S.ledger store.old).unit ≡ true }
    requires field { IsField kind value_type (S.records store.old) roots.documents roots.dictionary }
    requires owns { Owns (S.ledger store.old) (S.records store.old) (field_part kind roots.documents roots.dictionary ∷ []) }
    requires refers { RefersBeside (S.ledger store.old) kind (S.records store.old) roots.documents roots.dictionary
        (field_part kind roots.documents roots.dictionary ∷ []) }
    requires form { IsOfForm dense value_type (S.records store.old) roots.dictionary }
    requires there { IsSome (lookup (is_at (nat_cmp doc)) (column_at kind value_type (S.records store.old) roots.documents)) }
    requires was { old.now ≡ items_of (column_at kind value_type (S.records store.old) roots.documents) doc }
    requires how { IsMadeBy old.now [] weights.now }
    ensures makes { IfOk result (λ next. MakesField kind value_type (S.ledger store.old) (S.ledger store.new) (S.records store.old)
        (S.records store.new) roots.entry.documents roots.entry.dictionary
        (with_change (column_at kind value_type (S.records store.old) roots.entry.documents) doc None)
        next.documents next.dictionary) }
    ensures form { IfOk result (λ next. IsOfForm dense value_type (S.records store.new) next.dictionary) }
    ensures counts { MakesWithin (S.ledger store.old) (S.ledger store.new)
        (change_most dense kind (column_at kind value_type (S.records store.old) roots.entry.documents) doc old.now []) }
    ensures low { (levels : ℕ) → StaysLow levels (column_at kind value_type (S.records store.old) roots.entry.documents) []
        → MakesWithin (S.ledger store.old) (S.ledger store.new)
        (low_change_most levels dense kind (column_at kind value_type (S.records store.old) roots.entry.documents) doc old.now []) }
    ensures refuses { IfErr result (RefusesOf (IsFieldWidth dense kind
        (with_change (column_at kind value_type (S.records store.old) roots.entry.documents) doc None)
        (items_of (column_at kind value_type (S.records store.old) roots.entry.documents) doc) [])
        (S.ledger store.old) (S.ledger store.new)) }
    ensures may { MayDo (S.ledger store.old) (S.ledger store.new) }
{
    documents_law();
    key_law();
    let documents = take_out(
        store,
        kind,
        value_type,
        roots.documents,
        roots.dictionary,
        doc,
    )?;
    let dictionary = remove_values(
        alloc,
        store,
        kind,
        value_type,
        documents,
        roots.dictionary,
        doc,
        old,
        &[],
        weights,
        dense,
        total,
    )?;
    Ok(FieldRoots {
        documents,
        dictionary,
    })
}

/// Removes a document that exists with these items. Returns the new roots. With `dense` the list of a frequent value among
/// `documents` documents becomes or remains a bit vector; with weighted sets the flag changes nothing.
#[tactic(none)]
pub fn remove<const OFFSET_BITS: u32, S: Store<OFFSET_BITS>>(
    alloc: Global,
    store: &mut S,
    kind: Kind,
    value_type: ValueType,
    roots: FieldRoots<OFFSET_BITS>,
    doc: Doc,
    old: &[Item],
    dense: bool,
    documents: u32,
) -> Result<FieldRoots<OFFSET_BITS>, StoreError>
    requires unit { (S.ledger store.old).unit ≡ true }
    requires field { IsField kind value_type (S.records store.old) roots.documents roots.dictionary }
    requires owns { Owns (S.ledger store.old) (S.records store.old) (field_part kind roots.documents roots.dictionary ∷ []) }
    requires refers { RefersBeside (S.ledger store.old) kind (S.records store.old) roots.documents roots.dictionary
        (field_part kind roots.documents roots.dictionary ∷ []) }
    requires form { IsOfForm (wants dense kind) value_type (S.records store.old) roots.dictionary }
    requires there { IsSome (lookup (is_at (nat_cmp doc)) (column_at kind value_type (S.records store.old) roots.documents)) }
    requires was { old.now ≡ items_of (column_at kind value_type (S.records store.old) roots.documents) doc }
    ensures makes { IfOk result (λ next. MakesField kind value_type (S.ledger store.old) (S.ledger store.new) (S.records store.old)
        (S.records store.new) roots.entry.documents roots.entry.dictionary
        (with_change (column_at kind value_type (S.records store.old) roots.entry.documents) doc None)
        next.documents next.dictionary) }
    ensures form { IfOk result (λ next. IsOfForm (wants dense kind) value_type (S.records store.new) next.dictionary) }
    ensures counts { MakesWithin (S.ledger store.old) (S.ledger store.new)
        (change_most (wants dense kind) kind (column_at kind value_type (S.records store.old) roots.entry.documents) doc old.now []) }
    ensures low { (levels : ℕ) → StaysLow levels (column_at kind value_type (S.records store.old) roots.entry.documents) []
        → MakesWithin (S.ledger store.old) (S.ledger store.new)
        (low_change_most levels (wants dense kind) kind (column_at kind value_type (S.records store.old) roots.entry.documents) doc old.now []) }
    ensures refuses { IfErr result (RefusesOf (IsFieldWidth (wants dense kind) kind
        (with_change (column_at kind value_type (S.records store.old) roots.entry.documents) doc None) old.now [])
        (S.ledger store.old) (S.ledger store.new)) }
    ensures may { MayDo (S.ledger store.old) (S.ledger store.new) }
{
    documents_law();
    let wanted = wants(dense, kind);
    let Ok(weights) = change_weights(alloc, kind, old, &[]) else {
        return Err(StoreError::Memory);
    };
    remove_changed(
        alloc, store, kind, value_type, roots, doc, old, &weights, wanted, documents,
    )
}
