//! One operation on the attributes.
ghost use Rattle.std.specs.Prelude.{◌≡◌, false, length, IfOk, IfErr, IfSome, option_copied};
ghost use Rattle.attr_types.specs.Lawful.{OpFits};
ghost use Rattle.attr_types.specs.Table.{document_at};
ghost use Rattle.attr_types.specs.declared.op.Op.TheVariants.{Put, Update, Remove};
ghost use Rattle.attr_operations.specs.Calls.{KeepsStore};
ghost use Rattle.attr_operations.specs.Counts.{MakesOperation, SparesOperation};
ghost use Rattle.attr_operations.specs.Fields.{AreFields, HaveForms, OwnsFields, trees_of};
ghost use Rattle.attr_operations.specs.Steps.{Stepped};
ghost use Rattle.attr_operations.specs.Views.{table_at};
ghost use Rattle.attr_operations.specs.Widths.{IsFullAmong, IsOperationWidth};

use crate::document::{count_documents, read_document};
use crate::unit::change_unit;
use attr_field::{FieldRoots, field_law};
use attr_types::{Change, Doc, Field, FieldItems, Op, updated_document};
use std::alloc::Global;
use store_api::{Store, StoreError};

/// Sets a document's items. `total` documents are there before.
#[tactic(none)]
fn put_document<const OFFSET_BITS: u32, S: Store<OFFSET_BITS>>(
    alloc: Global,
    store: &mut S,
    fields: &[Field],
    roots: &[FieldRoots<OFFSET_BITS>],
    doc: Doc,
    old: Option<&FieldItems>,
    items: &FieldItems,
    dense: bool,
    total: u32,
) -> Result<Option<Vec<FieldRoots<OFFSET_BITS>>>, StoreError>
    requires unit { (S.ledger store.old).unit ≡ false }
    requires sized { length roots.now ≡ length fields.now }
    requires fields { AreFields (S.records store.old) fields.now (trees_of fields.now roots.now) }
    requires forms { HaveForms dense (S.records store.old) (trees_of fields.now roots.now) }
    requires owns { OwnsFields (S.ledger store.old) (S.records store.old) (trees_of fields.now roots.now) }
    requires there { option_copied old ≡ document_at (table_at (S.records store.old) (trees_of fields.now roots.now)) doc }
    requires fits { OpFits fields.now (Put doc items.now) }
    ensures steps { Stepped fields.now (S.ledger store.old) (S.ledger store.new) (S.records store.old) (S.records store.new)
        (trees_of fields.now roots.now) (Put doc items.now) (store.new ≡ store.old) result }
    ensures forms { IfOk result (λ made. IfSome made (λ next.
        HaveForms dense (S.records store.new) (trees_of fields.now next.items))) }
    ensures counts { MakesOperation dense (S.ledger store.old) (S.ledger store.new) fields.now
        (table_at (S.records store.old) (trees_of fields.now roots.now)) (Put doc items.now) }
    ensures spares { IfErr result (SparesOperation dense (S.ledger store.new) fields.now
        (table_at (S.records store.old) (trees_of fields.now roots.now)) (Put doc items.now)) }
    ensures widths { IfErr result (IsFullAmong (IsOperationWidth dense fields.now
        (table_at (S.records store.old) (trees_of fields.now roots.now)) (Put doc items.now))) }
    ensures keeps { KeepsStore (S.ledger store.old) (S.ledger store.new) }
{
    let next = change_unit(
        alloc,
        store,
        fields,
        roots,
        doc,
        old,
        Some(items),
        dense,
        total,
    )?;
    Ok(Some(next))
}

/// Removes a document, if it exists. `total` documents are there before.
#[tactic(none)]
fn remove_document<const OFFSET_BITS: u32, S: Store<OFFSET_BITS>>(
    alloc: Global,
    store: &mut S,
    fields: &[Field],
    roots: &[FieldRoots<OFFSET_BITS>],
    doc: Doc,
    old: Option<&FieldItems>,
    dense: bool,
    total: u32,
) -> Result<Option<Vec<FieldRoots<OFFSET_BITS>>>, StoreError>
    requires unit { (S.ledger store.old).unit ≡ false }
    requires sized { length roots.now ≡ length fields.now }
    requires fields { AreFields (S.records store.old) fields.now (trees_of fields.now roots.now) }
    requires forms { HaveForms dense (S.records store.old) (trees_of fields.now roots.now) }
    requires owns { OwnsFields (S.ledger store.old) (S.records store.old) (trees_of fields.now roots.now) }
    requires there { option_copied old ≡ document_at (table_at (S.records store.old) (trees_of fields.now roots.now)) doc }
    requires fits { OpFits fields.now (Remove doc) }
    ensures steps { Stepped fields.now (S.ledger store.old) (S.ledger store.new) (S.records store.old) (S.records store.new)
        (trees_of fields.now roots.now) (Remove doc) (store.new ≡ store.old) result }
    ensures forms { IfOk result (λ made. IfSome made (λ next.
        HaveForms dense (S.records store.new) (trees_of fields.now next.items))) }
    ensures counts { MakesOperation dense (S.ledger store.old) (S.ledger store.new) fields.now
        (table_at (S.records store.old) (trees_of fields.now roots.now)) (Remove doc) }
    ensures spares { IfErr result (SparesOperation dense (S.ledger store.new) fields.now
        (table_at (S.records store.old) (trees_of fields.now roots.now)) (Remove doc)) }
    ensures widths { IfErr result (IsFullAmong (IsOperationWidth dense fields.now
        (table_at (S.records store.old) (trees_of fields.now roots.now)) (Remove doc))) }
    ensures keeps { KeepsStore (S.ledger store.old) (S.ledger store.new) }
{
    field_law();
    if old.is_none() {
        return Ok(None);
    }
    let next = change_unit(alloc, store, fields, roots, doc, old, None, dense, total)?;
    Ok(Some(next))
}

/// Applies the changes of an update to a document in all attributes, or in none. `total` documents are there before.
#[tactic(none)]
fn update_document<const OFFSET_BITS: u32, S: Store<OFFSET_BITS>>(
    alloc: Global,
    store: &mut S,
    fields: &[Field],
    roots: &[FieldRoots<OFFSET_BITS>],
    doc: Doc,
    old: Option<&FieldItems>,
    create: bool,
    changes: &[Change],
    dense: bool,
    total: u32,
) -> Result<Option<Vec<FieldRoots<OFFSET_BITS>>>, StoreError>
    requires unit { (S.ledger store.old).unit ≡ false }
    requires sized { length roots.now ≡ length fields.now }
    requires fields { AreFields (S.records store.old) fields.now (trees_of fields.now roots.now) }
    requires forms { HaveForms dense (S.records store.old) (trees_of fields.now roots.now) }
    requires owns { OwnsFields (S.ledger store.old) (S.records store.old) (trees_of fields.now roots.now) }
    requires there { option_copied old ≡ document_at (table_at (S.records store.old) (trees_of fields.now roots.now)) doc }
    requires fits { OpFits fields.now (Update doc create changes.now) }
    ensures steps { Stepped fields.now (S.ledger store.old) (S.ledger store.new) (S.records store.old) (S.records store.new)
        (trees_of fields.now roots.now) (Update doc create changes.now) (store.new ≡ store.old) result }
    ensures forms { IfOk result (λ made. IfSome made (λ next.
        HaveForms dense (S.records store.new) (trees_of fields.now next.items))) }
    ensures counts { MakesOperation dense (S.ledger store.old) (S.ledger store.new) fields.now
        (table_at (S.records store.old) (trees_of fields.now roots.now)) (Update doc create changes.now) }
    ensures spares { IfErr result (SparesOperation dense (S.ledger store.new) fields.now
        (table_at (S.records store.old) (trees_of fields.now roots.now)) (Update doc create changes.now)) }
    ensures widths { IfErr result (IsFullAmong (IsOperationWidth dense fields.now
        (table_at (S.records store.old) (trees_of fields.now roots.now)) (Update doc create changes.now))) }
    ensures keeps { KeepsStore (S.ledger store.old) (S.ledger store.new) }
{
    field_law();
    let Ok(new) = updated_document(alloc, fields, create, changes, old) else {
        return Err(StoreError::Memory);
    };
    let Some(document) = new else {
        return Ok(None);
    };
    let next = change_unit(
        alloc,
        store,
        fields,
        roots,
        doc,
        old,
        Some(&document),
        dense,
        total,
    )?;
    Ok(Some(next))
}

/// Applies an operation. Returns the new roots, or `None` if the operation is skipped. With `dense` the lists of frequent
/// values become bit vectors, except in weighted sets.
#[tactic(none)]
pub fn step<const OFFSET_BITS: u32, S: Store<OFFSET_BITS>>(
    alloc: Global,
    store: &mut S,
    fields: &[Field],
    roots: &[FieldRoots<OFFSET_BITS>],
    op: &Op,
    dense: bool,
) -> Result<Option<Vec<FieldRoots<OFFSET_BITS>>>, StoreError>
    requires unit { (S.ledger store.old).unit ≡ false }
    requires sized { length roots.now ≡ length fields.now }
    requires fields { AreFields (S.records store.old) fields.now (trees_of fields.now roots.now) }
    requires forms { HaveForms dense (S.records store.old) (trees_of fields.now roots.now) }
    requires owns { OwnsFields (S.ledger store.old) (S.records store.old) (trees_of fields.now roots.now) }
    requires fits { OpFits fields.now op.now }
    ensures steps { Stepped fields.now (S.ledger store.old) (S.ledger store.new) (S.records store.old) (S.records store.new)
        (trees_of fields.now roots.now) op.now (store.new ≡ store.old) result }
    ensures forms { IfOk result (λ made. IfSome made (λ next.
        HaveForms dense (S.records store.new) (trees_of fields.now next.items))) }
    ensures counts { MakesOperation dense (S.ledger store.old) (S.ledger store.new) fields.now
        (table_at (S.records store.old) (trees_of fields.now roots.now)) op.now }
    ensures spares { IfErr result (SparesOperation dense (S.ledger store.new) fields.now
        (table_at (S.records store.old) (trees_of fields.now roots.now)) op.now) }
    ensures widths { IfErr result (IsFullAmong (IsOperationWidth dense fields.now
        (table_at (S.records store.old) (trees_of fields.now roots.now)) op.now)) }
    ensures keeps { KeepsStore (S.ledger store.old) (S.ledger store.new) }
{
    let doc = op.doc();
    let total = count_documents(store, fields, roots);
    let Ok(document) = read_document(alloc, store, fields, roots, doc) else {
        return Err(StoreError::Memory);
    };
    let old = document.as_ref();
    match op {
        Op::Put { items, .. } => {
            put_document(alloc, store, fields, roots, doc, old, items, dense, total)
        }
        Op::Update { create, change, .. } => {
            update_document(
                alloc,
                store,
                fields,
                roots,
                doc,
                old,
                *create,
                change.as_slice(),
                dense,
                total,
            )
        }
        Op::Remove { .. } => {
            remove_document(alloc, store, fields, roots, doc, old, dense, total)
        }
    }
}
