//! Passes keys under which nothing lies in the victim.

ghost use Rattle.std.specs.Prelude.{◌≡◌, ◌<◌, ◌≤◌, length};
ghost use Rattle.attr_compaction.specs.declared.plan.TheConstants.{PHASES};
ghost use Rattle.attr_operations.specs.Fields.{HoldsAttributes, trees_of};
ghost use Rattle.compaction_steps.specs.Units.{IsUnderWay, PassesKeys};

use crate::{Passed, pass_clear, stage_law};
use attr_compaction::Plan;
use attr_field::FieldRoots;
use attr_types::Field;
use entry_ref::EntryRef;
use std::alloc::Global;
use store_api::Store;

/// Passes keys after the plan's place, at most `most` of them, as long as nothing that belongs to them lies in the
/// victim. No unit is begun for them. Returns their number.
#[tactic(none)]
pub fn pass_keys<const OFFSET_BITS: u32, S: Store<OFFSET_BITS>>(
    alloc: Global,
    store: &mut S,
    fields: &[Field],
    roots: &[FieldRoots<OFFSET_BITS>],
    root: EntryRef<OFFSET_BITS>,
    plan: &mut Plan,
    most: u32,
) -> u32
    requires sized { length roots.now ≡ length fields.now }
    requires holds { HoldsAttributes OFFSET_BITS (S.ledger store.old) (S.records store.old) fields.now
        (trees_of fields.now roots.now) root }
    requires under_way { IsUnderWay OFFSET_BITS root (S.ledger store.old) (S.records store.old) (trees_of fields.now roots.now) plan.old }
    requires phase { plan.old.place.stage.phase < PHASES }
    ensures under_way { IsUnderWay OFFSET_BITS root.entry (S.ledger store.old) (S.records store.old) (trees_of fields.now roots.now) plan.new }
    ensures passes { PassesKeys (S.records store.old) (trees_of fields.now roots.now) plan.old plan.new result }
    ensures few { result ≤ most }
    ensures same { store.new ≡ store.old }
{
    stage_law();
    let _ = root;
    let i = plan.field() as usize;
    let field = &fields[i];
    let own = roots[i];
    match pass_clear(alloc, store, field, own, plan, most) {
        Some(passed) => {
            let Passed { keys, last } = passed;
            plan.next(last, false);
            keys
        }
        None => 0,
    }
}
