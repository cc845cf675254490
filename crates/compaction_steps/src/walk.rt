//! Visits a number of keys, one turn after another.

ghost use Rattle.compaction_steps.specs.Counts.{MakesKeys};
ghost use Rattle.attr_operations.specs.Views.{table_at};
ghost use Rattle.std.specs.Prelude.{◌≡◌, ◌<◌, ◌+◌, length, nat_eq, if◌then◌else◌, Ok, Err, Some};
ghost use Rattle.attr_compaction.specs.declared.plan.TheConstants.{PHASES};
ghost use Rattle.attr_operations.specs.Fields.{HoldsAttributes, trees_of};
ghost use Rattle.compaction_steps.specs.Units.{ArePlain, IsUnderWay};
ghost use Rattle.compaction_steps.specs.Walks.{HasLastField, Walks};
ghost use Rattle.compaction_steps.specs.declared.walk.Walk.TheVariants.{Visited};

use crate::passing::pass_keys;
use crate::unit::{Turn, compact_one};
use attr_compaction::{PHASES, Plan};
use attr_field::FieldRoots;
use attr_types::Field;
use entry_ref::EntryRef;
use std::alloc::Global;
use store_api::{Store, StoreError};

/// How far a walk got.
#[derive(Clone, Copy, Debug, PartialEq, Eq, Drop)]
pub enum Walk {
    /// This many keys were visited. If `stop` is set, the next key was refused for that reason.
    Visited { keys: u32, stop: Option<StoreError> },
    /// No key is left.
    Over,
}

/// Returns the result of a walk whose next key was refused after `keys` keys.
fn refused(keys: u32, error: StoreError) -> Result<Walk, StoreError>
    ensures { result ≡ (if nat_eq keys 0 then Err error else Ok (Visited keys (Some error))) }
{
    if keys == 0 {
        return Err(error);
    }
    Ok(Walk::Visited {
        keys,
        stop: Some(error),
    })
}

/// Visits `keys` keys of a compaction from the plan's place on. A key of which something lies in the victim is
/// visited in a unit of its own. If the first key is refused, each entry is as it was.
#[tactic(none)]
pub fn visit_keys<const OFFSET_BITS: u32, S: Store<OFFSET_BITS>>(
    alloc: Global,
    store: &mut S,
    fields: &[Field],
    roots: &mut [FieldRoots<OFFSET_BITS>],
    root: EntryRef<OFFSET_BITS>,
    plan: &mut Plan,
    keys: u32,
) -> Result<Walk, StoreError>
    requires sized { length roots.old ≡ length fields.now }
    requires holds { HoldsAttributes OFFSET_BITS (S.ledger store.old) (S.records store.old) fields.now
        (trees_of fields.now roots.old) root }
    requires under_way { IsUnderWay OFFSET_BITS root (S.ledger store.old) (S.records store.old) (trees_of fields.now roots.old) plan.old }
    requires last { HasLastField plan.old }
    ensures sized { length roots.new ≡ length fields.now }
    ensures walks { Walks OFFSET_BITS root.entry (S.ledger store.old) (S.ledger store.new) (S.records store.old) (S.records store.new)
        fields.now (trees_of fields.now roots.old) (trees_of fields.now roots.new) plan.old plan.new keys result }
    ensures counts { MakesKeys (ArePlain (S.records store.old) (trees_of fields.now roots.old)) fields.now
        (table_at (S.records store.old) (trees_of fields.now roots.old)) (S.ledger store.old) (S.ledger store.new) keys }
{
    let mut done: u32 = 0;
    while done < keys {
        if plan.phase() == PHASES {
            return Ok(Walk::Over);
        }
        let passed = pass_keys(alloc, store, fields, roots, root, plan, keys - done);
        done += passed;
        if done == keys {
            return Ok(Walk::Visited { keys, stop: None });
        }
        let _ = plan.field();
        match compact_one(alloc, store, fields, roots, root, plan) {
            Ok(Turn::Moved) => {
                done += 1;
            }
            Ok(Turn::PhaseOver) => {}
            Err(error) => return refused(done, error),
        }
    }
    Ok(Walk::Visited {
        keys: done,
        stop: None,
    })
}
