//! One turn of a compaction: a key visited, or the phase ended.

ghost use Rattle.std.specs.Prelude.{◌≡◌, ◌<◌, length, IfOk, IfErr, OnErr};
ghost use Rattle.attr_compaction.specs.declared.plan.TheConstants.{PHASES};
ghost use Rattle.attr_operations.specs.Calls.{KeepsStore, LeavesEntries, RefusesUnit};
ghost use Rattle.attr_operations.specs.Fields.{HoldsAttributes, trees_of};
ghost use Rattle.attr_operations.specs.Views.{table_at};
ghost use Rattle.compaction_steps.specs.Counts.{MakesKeys};
ghost use Rattle.compaction_steps.specs.Units.{next_at, ArePlain, GoesOn, HasActive, IsUnderWay, KeepKeys, LeavesAtEnd, SparesBelow};

use crate::key::{copies_record, move_unit, next_of};
use crate::stage_law;
use attr_compaction::{Plan, PlanKey};
use attr_field::FieldRoots;
use attr_types::Field;
use entry_ref::EntryRef;
use std::alloc::Global;
use store_api::{Store, StoreError};

/// The result of one turn of a compaction.
#[derive(Clone, Copy, Debug, PartialEq, Eq, Drop)]
pub enum Turn {
    /// A key was visited: everything that belongs to it lies elsewhere.
    Moved,
    /// The phase has no further key, and the place moved before the next phase.
    PhaseOver,
}

/// One turn of a compaction: visits the first key after the plan's place, in a unit of its own, or moves the place to
/// the next phase if the phase has no further key. The contents of the attributes are unchanged.
#[tactic(none)]
pub fn compact_one<const OFFSET_BITS: u32, S: Store<OFFSET_BITS>>(
    alloc: Global,
    store: &mut S,
    fields: &[Field],
    roots: &mut [FieldRoots<OFFSET_BITS>],
    root: EntryRef<OFFSET_BITS>,
    plan: &mut Plan,
) -> Result<Turn, StoreError>
    requires sized { length roots.old ≡ length fields.now }
    requires holds { HoldsAttributes OFFSET_BITS (S.ledger store.old) (S.records store.old) fields.now
        (trees_of fields.now roots.old) root }
    requires under_way { IsUnderWay OFFSET_BITS root (S.ledger store.old) (S.records store.old) (trees_of fields.now roots.old) plan.old }
    requires phase { plan.old.place.stage.phase < PHASES }
    ensures sized { length roots.new ≡ length fields.now }
    ensures holds { HoldsAttributes OFFSET_BITS (S.ledger store.new) (S.records store.new) fields.now
        (trees_of fields.now roots.new) root.entry }
    ensures under_way { IsUnderWay OFFSET_BITS root.entry (S.ledger store.new) (S.records store.new) (trees_of fields.now roots.new) plan.new }
    ensures table { table_at (S.records store.new) (trees_of fields.now roots.new)
        ≡ table_at (S.records store.old) (trees_of fields.now roots.old) }
    ensures keys { KeepKeys (S.records store.old) (S.records store.new) (trees_of fields.now roots.old) (trees_of fields.now roots.new) }
    ensures goes_on { IfOk result (GoesOn plan.old plan.new
        (next_at (S.records store.old) (trees_of fields.now roots.old) plan.old.place)) }
    ensures over { IfOk result (LeavesAtEnd (store.new ≡ store.old) (roots.new ≡ roots.old)) }
    ensures roots { OnErr result (roots.new ≡ roots.old) }
    ensures plan { OnErr result (plan.new ≡ plan.old) }
    ensures left { OnErr result (LeavesEntries (S.ledger store.old) (S.ledger store.new) (S.records store.old) (S.records store.new)) }
    ensures refused { IfErr result (RefusesUnit (S.ledger store.old) (S.ledger store.new)) }
    ensures spares { IfErr result (SparesBelow (S.ledger store.new) 34) }
    ensures counts { MakesKeys (ArePlain (S.records store.old) (trees_of fields.now roots.old)) fields.now
        (table_at (S.records store.old) (trees_of fields.now roots.old)) (S.ledger store.old) (S.ledger store.new) 1 }
    ensures active { IfErr result (HasActive (S.ledger store.new)) }
    ensures keeps { KeepsStore (S.ledger store.old) (S.ledger store.new) }
{
    stage_law();
    let i = plan.field() as usize;
    let field = &fields[i];
    let own = roots[i];
    let Ok(next) = next_of(alloc, store, field, own, plan) else {
        return Err(StoreError::Memory);
    };
    let Some(key) = next else {
        plan.next(PlanKey::Start, false);
        return Ok(Turn::PhaseOver);
    };
    let copies = copies_record(store, field, own, plan, &key);
    roots[i] = move_unit(alloc, store, fields, roots, root, field, own, plan, &key)?;
    plan.next(key, copies);
    Ok(Turn::Moved)
}
