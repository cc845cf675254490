//! Committing attributes: their root record is made, and the store commits what it reaches.
ghost use Rattle.std.specs.Prelude.{◌≡◌, ◌+◌, ◌*◌, ◌<◌, ◌≤◌, length, IfOk, IfErr, OnErr};
ghost use Rattle.array_store.specs.Adding.{MakesOneOf};
ghost use Rattle.image_format.specs.Shapes.{shape_of, types_of};
ghost use Rattle.image_format.specs.Words.{class_of};
ghost use Rattle.attr_types.specs.declared.field.TheConstants.{MOST_FIELDS};
ghost use Rattle.attr_operations.specs.Calls.{KeepsStore, LeavesEntries};
ghost use Rattle.attr_operations.specs.Commits.{CommitsAttributes, IsForWidth, RefusesRoot, TurnsRoot};
ghost use Rattle.attr_operations.specs.Fields.{HoldsAttributes, trees_of};

use crate::root::root_unit;
use attr_field::{FieldRoots, field_law};
use attr_types::Field;
use entry_ref::EntryRef;
use image_format::{AttrLayout, root_law};
use store_api::{Store, StoreError, Stored};

/// Commits attributes that are all that is in use, apart from the previous root record. Returns the new root record.
#[tactic(none)]
pub fn commit_attributes<const OFFSET_BITS: u32, S: Store<OFFSET_BITS, Layout = AttrLayout>>(
    store: &mut S,
    fields: &[Field],
    roots: &[FieldRoots<OFFSET_BITS>],
    operations: u32,
    before: EntryRef<OFFSET_BITS>,
) -> Result<(EntryRef<OFFSET_BITS>, Stored), StoreError>
    requires sized { length roots.now ≡ length fields.now }
    requires few { length fields.now ≤ MOST_FIELDS }
    requires shape { (S.ledger store.old).shape ≡ shape_of (types_of fields.now) }
    requires holds { HoldsAttributes OFFSET_BITS (S.ledger store.old) (S.records store.old) fields.now
        (trees_of fields.now roots.now) before }
    requires room { (S.ledger store.old).work.commits.last < (S.ledger store.old).work.sizes.commits }
    ensures commits { IfOk result (λ made. CommitsAttributes OFFSET_BITS fields.now (trees_of fields.now roots.now) operations
        (S.ledger store.old) (S.ledger store.new) (S.records store.old) (S.records store.new) made.0 made.1) }
    ensures turns { IfOk result (λ made. TurnsRoot (S.ledger store.old) (S.ledger store.new) before.entry made.0) }
    ensures left { OnErr result (LeavesEntries (S.ledger store.old) (S.ledger store.new) (S.records store.old) (S.records store.new)) }
    ensures refused { IfErr result (RefusesRoot (S.ledger store.old) (S.ledger store.new)) }
    ensures width { IfErr result (IsForWidth (class_of (1 + 2 * length fields.now))) }
    ensures counts { MakesOneOf (class_of (1 + 2 * length fields.now)) (S.ledger store.old) (S.ledger store.new) }
    ensures keeps { OnErr result (KeepsStore (S.ledger store.old) (S.ledger store.new)) }
{
    field_law();
    root_law();
    let _ = fields;
    let root = root_unit(store, roots, operations, before)?;
    let stored = store.commit(root);
    Ok((root, stored))
}
