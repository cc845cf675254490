//! Reading and changing one document of all attributes.
ghost use Rattle.std.specs.Prelude.{◌≡◌, ℕ, ◌<◌, ◌∷◌, [], true, length, IsSome, IfOk, IfErr, OnOk};
ghost use Rattle.std.specs.Prelude.{IfSome, IfNone, option_copied, option_map, unwrap_or};
ghost use Rattle.std.specs.BTreeMap.{is_at};
ghost use Rattle.std.specs.Map.{lookup};
ghost use Rattle.std.specs.Ordering.{nat_cmp};
ghost use Rattle.store_api.specs.Calls.{RefusesOf};
ghost use Rattle.store_api.specs.Parts.{Owns};
ghost use Rattle.store_api.specs.Units.{MayDo, MakesWithin};
ghost use Rattle.attr_field.specs.Changes.{MakesField};
ghost use Rattle.attr_field.specs.Fields.{field_part, IsField, RefersBeside};
ghost use Rattle.attr_field.specs.Widths.{IsFieldWidth};
ghost use Rattle.image_format.specs.Documents.{column_at};
ghost use Rattle.attr_field.specs.Counts.{change_most, low_change_most, StaysLow};
ghost use Rattle.attr_field.specs.Forms.{wants};
ghost use Rattle.index_model.specs.Changes.{first_weights};
ghost use Rattle.index_model.specs.Columns.{items_of as items_had, with_change};
ghost use Rattle.attr_types.specs.Lawful.{IsDocNumber, ItemsFit};
ghost use Rattle.attr_types.specs.Query.{items_in};
ghost use Rattle.attr_types.specs.Table.{document_at};
ghost use Rattle.value_index.specs.Forms.{IsOfForm};
ghost use Rattle.attr_operations.specs.Counts.{MakesDocument};
ghost use Rattle.attr_operations.specs.Fields.{AreFields, ChangesFields, FitsFields, HaveForms, OwnsFields, table_with, trees_of};
ghost use Rattle.attr_operations.specs.Views.{table_at};
ghost use Rattle.attr_operations.specs.Widths.{IsChangedWidth};

use arena_api::Frozen;
use attr_field::{FieldRoots, field_law, items, put, remove};
use attr_types::{Doc, Field, FieldItems, Item};
use std::alloc::{AllocError, Global};
use store_api::{Store, StoreError, may_do_law};
use tree_read::total;

/// Returns a document with its items in each attribute, if it exists.
#[tactic(none)]
pub fn read_document<const OFFSET_BITS: u32, F: Frozen<OFFSET_BITS>>(
    alloc: Global,
    frozen: &mut F,
    fields: &[Field],
    roots: &[FieldRoots<OFFSET_BITS>],
    doc: Doc,
) -> Result<Option<FieldItems>, AllocError>
    requires sized { length roots.now ≡ length fields.now }
    requires fields { AreFields (F.records frozen.old) fields.now (trees_of fields.now roots.now) }
    ensures document { IfOk result (λ document. document
        ≡ document_at (table_at (F.records frozen.old) (trees_of fields.now roots.now)) doc) }
    ensures same { frozen.new ≡ frozen.old }
{
    field_law();
    let mut document = Vec::with_capacity(alloc, fields.len())?;
    for i in 0..fields.len() {
        let field = &fields[i];
        match items(alloc, frozen, field.kind, field.value, roots[i], doc)? {
            Some(items) => document.push(items)?,
            None => return Ok(None),
        }
    }
    Ok(Some(FieldItems::from_vec(document)))
}

/// Returns the number of documents.
pub fn count_documents<const OFFSET_BITS: u32, F: Frozen<OFFSET_BITS>>(
    frozen: &mut F,
    fields: &[Field],
    roots: &[FieldRoots<OFFSET_BITS>],
) -> u32
    requires sized { length roots.now ≡ length fields.now }
    requires fields { AreFields (F.records frozen.old) fields.now (trees_of fields.now roots.now) }
    ensures count { result ≡ length (table_at (F.records frozen.old) (trees_of fields.now roots.now)) }
    ensures same { frozen.new ≡ frozen.old }
{
    let _ = &fields[0];
    total(frozen, roots[0].documents)
}

/// Returns the number of documents after the change of one, by the number before.
fn count_after(total: u32, old: Option<&FieldItems>, new: Option<&FieldItems>) -> u32 {
    if new.is_none() {
        return total.saturating_sub(1);
    }
    if old.is_some() {
        total
    } else {
        total.saturating_add(1)
    }
}

/// Returns the items of a document in an attribute, or none if it does not exist.
fn items_before(document: Option<&FieldItems>, i: usize) -> &[Item]
    requires { IfSome (option_copied document) (λ d. i < length d) }
    ensures { result.now ≡ unwrap_or (option_map (λ d. items_in d i) (option_copied document.entry)) [] }
{
    match document {
        Some(document) => document.as_slice()[i].as_slice(),
        None => &[],
    }
}

/// Returns the items that a document gets in an attribute, or `None` if it is removed.
fn items_after(document: Option<&FieldItems>, i: usize) -> Option<&[Item]>
    requires { IfSome (option_copied document) (λ d. i < length d) }
    ensures { option_copied result ≡ option_map (λ d. items_in d i) (option_copied document.entry) }
{
    match document {
        Some(document) => Some(document.as_slice()[i].as_slice()),
        None => None,
    }
}

/// Sets a document's items in one attribute, or removes the document. `documents` documents are there then.
fn change_field<const OFFSET_BITS: u32, S: Store<OFFSET_BITS>>(
    alloc: Global,
    store: &mut S,
    field: &Field,
    roots: FieldRoots<OFFSET_BITS>,
    doc: Doc,
    old: &[Item],
    new: Option<&[Item]>,
    dense: bool,
    documents: u32,
) -> Result<FieldRoots<OFFSET_BITS>, StoreError>
    requires unit { (S.ledger store.old).unit ≡ true }
    requires field { IsField field.now.kind field.now.value (S.records store.old) roots.documents roots.dictionary }
    requires owns { Owns (S.ledger store.old) (S.records store.old) (field_part field.now.kind roots.documents roots.dictionary ∷ []) }
    requires refers { RefersBeside (S.ledger store.old) field.now.kind (S.records store.old) roots.documents roots.dictionary
        (field_part field.now.kind roots.documents roots.dictionary ∷ []) }
    requires form { IsOfForm (wants dense field.now.kind) field.now.value (S.records store.old) roots.dictionary }
    requires there { IfNone (option_copied new)
        (IsSome (lookup (is_at (nat_cmp doc)) (column_at field.now.kind field.now.value (S.records store.old) roots.documents))) }
    requires was { old.now ≡ items_had (column_at field.now.kind field.now.value (S.records store.old) roots.documents) doc }
    requires fits { IfSome (option_copied new) (ItemsFit field.now.kind field.now.value) }
    ensures makes { IfOk result (λ next. MakesField field.now.kind field.now.value (S.ledger store.old) (S.ledger store.new)
        (S.records store.old) (S.records store.new) roots.entry.documents roots.entry.dictionary
        (with_change (column_at field.now.kind field.now.value (S.records store.old) roots.entry.documents) doc (option_copied new.entry))
        next.documents next.dictionary) }
    ensures form { IfOk result (λ next.
        IsOfForm (wants dense field.now.kind) field.now.value (S.records store.new) next.dictionary) }
    ensures counts { MakesWithin (S.ledger store.old) (S.ledger store.new)
        (change_most (wants dense field.now.kind) field.now.kind
        (column_at field.now.kind field.now.value (S.records store.old) roots.entry.documents) doc old.now (unwrap_or (option_copied new.entry) [])) }
    ensures low { (levels : ℕ)
        → StaysLow levels (column_at field.now.kind field.now.value (S.records store.old) roots.entry.documents)
        (first_weights [] (unwrap_or (option_copied new.entry) []))
        → MakesWithin (S.ledger store.old) (S.ledger store.new)
        (low_change_most levels (wants dense field.now.kind) field.now.kind
        (column_at field.now.kind field.now.value (S.records store.old) roots.entry.documents) doc old.now (unwrap_or (option_copied new.entry) [])) }
    ensures refuses { IfErr result (RefusesOf (IsFieldWidth (wants dense field.now.kind) field.now.kind
        (with_change (column_at field.now.kind field.now.value (S.records store.old) roots.entry.documents) doc (option_copied new.entry))
        old.now (unwrap_or (option_copied new.entry) [])) (S.ledger store.old) (S.ledger store.new)) }
    ensures may { MayDo (S.ledger store.old) (S.ledger store.new) }
{
    match new {
        Some(items) => put(
            alloc,
            store,
            field.kind,
            field.value,
            roots,
            doc,
            old,
            items,
            dense,
            documents,
        ),
        None => remove(
            alloc,
            store,
            field.kind,
            field.value,
            roots,
            doc,
            old,
            dense,
            documents,
        ),
    }
}

/// Changes a document's items in each attribute, in place. `documents` documents are there then.
#[tactic(none)]
fn change_each<const OFFSET_BITS: u32, S: Store<OFFSET_BITS>>(
    alloc: Global,
    store: &mut S,
    fields: &[Field],
    roots: &mut [FieldRoots<OFFSET_BITS>],
    doc: Doc,
    old: Option<&FieldItems>,
    new: Option<&FieldItems>,
    dense: bool,
    documents: u32,
) -> Result<(), StoreError>
    requires unit { (S.ledger store.old).unit ≡ true }
    requires sized { length roots.old ≡ length fields.now }
    requires fields { AreFields (S.records store.old) fields.now (trees_of fields.now roots.old) }
    requires forms { HaveForms dense (S.records store.old) (trees_of fields.now roots.old) }
    requires owns { OwnsFields (S.ledger store.old) (S.records store.old) (trees_of fields.now roots.old) }
    requires number { IsDocNumber doc }
    requires there { option_copied old ≡ document_at (table_at (S.records store.old) (trees_of fields.now roots.old)) doc }
    requires gone { IfNone (option_copied new) (IsSome (option_copied old)) }
    requires fits { IfSome (option_copied new) (FitsFields fields.now) }
    ensures sized { OnOk result (length roots.new ≡ length fields.now) }
    ensures changes { OnOk result (ChangesFields fields.now (S.ledger store.old) (S.ledger store.new)
        (S.records store.old) (S.records store.new)
        (trees_of fields.now roots.old) doc (option_copied new.entry) (trees_of fields.now roots.new)) }
    ensures forms { OnOk result (HaveForms dense (S.records store.new) (trees_of fields.now roots.new)) }
    ensures counts { MakesDocument dense (S.ledger store.old) (S.ledger store.new) fields.now
        (table_at (S.records store.old) (trees_of fields.now roots.old)) doc
        (option_copied old.entry) (option_copied new.entry) (length fields.now) }
    ensures refuses { IfErr result (RefusesOf (IsChangedWidth dense fields.now
        (table_with (table_at (S.records store.old) (trees_of fields.now roots.old)) doc (option_copied new.entry))
        (option_copied old.entry) (option_copied new.entry)) (S.ledger store.old) (S.ledger store.new)) }
    ensures may { MayDo (S.ledger store.old) (S.ledger store.new) }
{
    field_law();
    may_do_law::<OFFSET_BITS, S>();
    for i in 0..fields.len() {
        let before = items_before(old, i);
        let after = items_after(new, i);
        roots[i] = change_field(
            alloc, store, &fields[i], roots[i], doc, before, after, dense, documents,
        )?;
    }
    Ok(())
}

/// Changes a document's items in each attribute, or removes the document. `total` documents are there before. Returns the
/// new roots.
pub fn change_document<const OFFSET_BITS: u32, S: Store<OFFSET_BITS>>(
    alloc: Global,
    store: &mut S,
    fields: &[Field],
    roots: &[FieldRoots<OFFSET_BITS>],
    doc: Doc,
    old: Option<&FieldItems>,
    new: Option<&FieldItems>,
    dense: bool,
    total: u32,
) -> Result<Vec<FieldRoots<OFFSET_BITS>>, StoreError>
    requires unit { (S.ledger store.old).unit ≡ true }
    requires sized { length roots.now ≡ length fields.now }
    requires fields { AreFields (S.records store.old) fields.now (trees_of fields.now roots.now) }
    requires forms { HaveForms dense (S.records store.old) (trees_of fields.now roots.now) }
    requires owns { OwnsFields (S.ledger store.old) (S.records store.old) (trees_of fields.now roots.now) }
    requires number { IsDocNumber doc }
    requires there { option_copied old ≡ document_at (table_at (S.records store.old) (trees_of fields.now roots.now)) doc }
    requires gone { IfNone (option_copied new) (IsSome (option_copied old)) }
    requires fits { IfSome (option_copied new) (FitsFields fields.now) }
    ensures sized { IfOk result (λ next. length next.items ≡ length fields.now) }
    ensures changes { IfOk result (λ next. ChangesFields fields.now (S.ledger store.old) (S.ledger store.new)
        (S.records store.old) (S.records store.new)
        (trees_of fields.now roots.now) doc (option_copied new.entry) (trees_of fields.now next.items)) }
    ensures forms { IfOk result (λ next. HaveForms dense (S.records store.new) (trees_of fields.now next.items)) }
    ensures counts { MakesDocument dense (S.ledger store.old) (S.ledger store.new) fields.now
        (table_at (S.records store.old) (trees_of fields.now roots.now)) doc
        (option_copied old.entry) (option_copied new.entry) (length fields.now) }
    ensures refuses { IfErr result (RefusesOf (IsChangedWidth dense fields.now
        (table_with (table_at (S.records store.old) (trees_of fields.now roots.now)) doc (option_copied new.entry))
        (option_copied old.entry) (option_copied new.entry)) (S.ledger store.old) (S.ledger store.new)) }
    ensures may { MayDo (S.ledger store.old) (S.ledger store.new) }
{
    may_do_law::<OFFSET_BITS, S>();
    let Ok(mut next) = Vec::from_slice(alloc, roots) else {
        return Err(StoreError::Memory);
    };
    let documents = count_after(total, old, new);
    change_each(
        alloc, store, fields, &mut next, doc, old, new, dense, documents,
    )?;
    Ok(next)
}
