//! Units on the attributes' store. Each is complete, or leaves everything as it was.
ghost use Rattle.std.specs.Prelude.{◌≡◌, ◌<◌, false, length, IsSome, IfOk, IfErr, OnErr, IfSome, IfNone, option_copied};
ghost use Rattle.attr_types.specs.Lawful.{IsDocNumber};
ghost use Rattle.attr_types.specs.Table.{document_at};
ghost use Rattle.attr_operations.specs.Calls.{KeepsStore, LeavesEntries, RefusesUnit};
ghost use Rattle.attr_operations.specs.Counts.{document_forms, document_nodes, document_records, MakesDocument, SparesAtMost};
ghost use Rattle.value_index.specs.Counts.{besides, by_width};
ghost use Rattle.attr_operations.specs.Fields.{AreFields, ChangesFields, FitsFields, HaveForms, OwnsFields, table_with, trees_of};
ghost use Rattle.attr_operations.specs.Views.{table_at};
ghost use Rattle.attr_operations.specs.Widths.{IsChangedWidth, IsFullAmong};

use crate::document::change_document;
use attr_field::{FieldRoots, field_law};
use attr_types::{Doc, Field, FieldItems};
use std::alloc::Global;
use store_api::{Store, StoreError};

/// Changes a document's items in each attribute, or removes the document, in a unit of its own. `total` documents are
/// there before.
#[tactic(none)]
pub fn change_unit<const OFFSET_BITS: u32, S: Store<OFFSET_BITS>>(
    alloc: Global,
    store: &mut S,
    fields: &[Field],
    roots: &[FieldRoots<OFFSET_BITS>],
    doc: Doc,
    old: Option<&FieldItems>,
    new: Option<&FieldItems>,
    dense: bool,
    total: u32,
) -> Result<Vec<FieldRoots<OFFSET_BITS>>, StoreError>
    requires unit { (S.ledger store.old).unit ≡ false }
    requires sized { length roots.now ≡ length fields.now }
    requires fields { AreFields (S.records store.old) fields.now (trees_of fields.now roots.now) }
    requires forms { HaveForms dense (S.records store.old) (trees_of fields.now roots.now) }
    requires owns { OwnsFields (S.ledger store.old) (S.records store.old) (trees_of fields.now roots.now) }
    requires number { IsDocNumber doc }
    requires there { option_copied old ≡ document_at (table_at (S.records store.old) (trees_of fields.now roots.now)) doc }
    requires gone { IfNone (option_copied new) (IsSome (option_copied old)) }
    requires fits { IfSome (option_copied new) (FitsFields fields.now) }
    ensures sized { IfOk result (λ next. length next.items ≡ length fields.now) }
    ensures changes { IfOk result (λ next. ChangesFields fields.now (S.ledger store.old) (S.ledger store.new)
        (S.records store.old) (S.records store.new)
        (trees_of fields.now roots.now) doc (option_copied new.entry) (trees_of fields.now next.items)) }
    ensures forms { IfOk result (λ next. HaveForms dense (S.records store.new) (trees_of fields.now next.items)) }
    ensures left { OnErr result (LeavesEntries (S.ledger store.old) (S.ledger store.new) (S.records store.old) (S.records store.new)) }
    ensures refused { IfErr result (RefusesUnit (S.ledger store.old) (S.ledger store.new)) }
    ensures counts { MakesDocument dense (S.ledger store.old) (S.ledger store.new) fields.now
        (table_at (S.records store.old) (trees_of fields.now roots.now)) doc
        (option_copied old.entry) (option_copied new.entry) (length fields.now) }
    ensures spares { IfErr result (SparesAtMost (S.ledger store.new)
        (besides (by_width (document_nodes (option_copied old.entry) (option_copied new.entry) (length fields.now))
        (document_records fields.now (table_at (S.records store.old) (trees_of fields.now roots.now)) doc
        (option_copied old.entry) (option_copied new.entry) (length fields.now)))
        (document_forms dense fields.now (table_at (S.records store.old) (trees_of fields.now roots.now)) doc
        (option_copied old.entry) (option_copied new.entry) (length fields.now)))) }
    ensures widths { IfErr result (IsFullAmong (IsChangedWidth dense fields.now
        (table_with (table_at (S.records store.old) (trees_of fields.now roots.now)) doc (option_copied new.entry))
        (option_copied old.entry) (option_copied new.entry))) }
    ensures keeps { KeepsStore (S.ledger store.old) (S.ledger store.new) }
{
    field_law();
    store.begin();
    match change_document(alloc, store, fields, roots, doc, old, new, dense, total) {
        Ok(next) => {
            store.accept();
            Ok(next)
        }
        Err(error) => {
            store.undo();
            Err(error)
        }
    }
}
