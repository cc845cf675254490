//! A compaction is begun or continued.
ghost use Rattle.std.specs.Prelude.{◌≡◌, ◌≤◌, None, length, IfNone, IfSome};
ghost use Rattle.attr_operations.specs.Fields.{HoldsAttributes, trees_of};
ghost use Rattle.attr_types.specs.declared.field.TheConstants.{MOST_FIELDS};
ghost use Rattle.compaction_steps.specs.Units.{IsUnderWay};
ghost use Rattle.compaction_steps.specs.Walks.{HasLastField};
ghost use Rattle.compaction_steps.specs.Compactions.{BeginsNone, OpensPlan};

use crate::stage_law;
use attr_compaction::Plan;
use attr_field::FieldRoots;
use attr_types::Field;
use entry_ref::EntryRef;
use store_api::Store;

/// Begins a compaction of the buffer that is most worth it, and returns its plan before the first key. Returns `None`
/// if no buffer is worth it.
#[tactic(none)]
fn begin_plan<const OFFSET_BITS: u32, S: Store<OFFSET_BITS>>(
    store: &mut S,
    fields: &[Field],
    roots: &[FieldRoots<OFFSET_BITS>],
    root: EntryRef<OFFSET_BITS>,
) -> Option<Plan>
    requires few { length fields.now ≤ MOST_FIELDS }
    requires holds { HoldsAttributes OFFSET_BITS (S.ledger store.old) (S.records store.old) fields.now
        (trees_of fields.now roots.now) root }
    requires unfinished { (S.ledger store.old).finished ≡ None }
    ensures opens { IfSome result (OpensPlan OFFSET_BITS root.entry (S.ledger store.old) (S.ledger store.new) (S.records store.old)
        (S.records store.new) fields.now (trees_of fields.now roots.now) None) }
    ensures none { IfNone result (BeginsNone OFFSET_BITS (S.ledger store.old) None (store.new ≡ store.old)) }
{
    stage_law();
    let _ = roots;
    let _ = root;
    let victim = store.choose_victim()?;
    store.seal(victim);
    Some(Plan::start(victim, fields.len() as u32))
}

/// Returns the plan of the compaction in progress, or begins one. Returns `None` if no buffer is worth it.
#[tactic(none)]
pub fn open_plan<const OFFSET_BITS: u32, S: Store<OFFSET_BITS>>(
    store: &mut S,
    fields: &[Field],
    roots: &[FieldRoots<OFFSET_BITS>],
    root: EntryRef<OFFSET_BITS>,
    before: Option<Plan>,
) -> Option<Plan>
    requires few { length fields.now ≤ MOST_FIELDS }
    requires holds { HoldsAttributes OFFSET_BITS (S.ledger store.old) (S.records store.old) fields.now
        (trees_of fields.now roots.now) root }
    requires under_way { IfSome before (IsUnderWay OFFSET_BITS root (S.ledger store.old) (S.records store.old) (trees_of fields.now roots.now)) }
    requires last { IfSome before HasLastField }
    requires unfinished { (S.ledger store.old).finished ≡ None }
    ensures opens { IfSome result (OpensPlan OFFSET_BITS root.entry (S.ledger store.old) (S.ledger store.new) (S.records store.old)
        (S.records store.new) fields.now (trees_of fields.now roots.now) before) }
    ensures none { IfNone result (BeginsNone OFFSET_BITS (S.ledger store.old) before (store.new ≡ store.old)) }
{
    match before {
        Some(plan) => Some(plan),
        None => begin_plan(store, fields, roots, root),
    }
}
