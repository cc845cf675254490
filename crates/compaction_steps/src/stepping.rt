//! A step of a compaction.
ghost use Rattle.compaction_steps.specs.Counts.{MakesKeys};
ghost use Rattle.attr_operations.specs.Views.{table_at};
ghost use Rattle.std.specs.Prelude.{◌≡◌, ◌≤◌, None, length, IfSome};
ghost use Rattle.attr_operations.specs.Fields.{HoldsAttributes, KeepForms, trees_of};
ghost use Rattle.attr_types.specs.declared.field.TheConstants.{MOST_FIELDS};
ghost use Rattle.compaction_steps.specs.Units.{ArePlain, IsUnderWay};
ghost use Rattle.compaction_steps.specs.Walks.{HasLastField};
ghost use Rattle.compaction_steps.specs.Compactions.{Compacts};

use crate::ending::end_plan;
use crate::opening::open_plan;
use crate::walk::{Walk, visit_keys};
use attr_compaction::Plan;
use attr_field::FieldRoots;
use attr_types::Field;
use entry_ref::EntryRef;
use std::alloc::Global;
use store_api::{Store, StoreError};

/// The result of a step.
#[derive(Clone, Copy, Debug, PartialEq, Eq, Drop)]
pub enum Step {
    /// No compaction is in progress, and no buffer was worth one.
    Idle,
    /// This many keys were visited. If `stop` is set, the next key was refused for that reason.
    Moved { keys: u32, stop: Option<StoreError> },
    /// No key is left, and nothing of this buffer is reached.
    Finished(u32),
}

/// Visits `keys` keys of the compaction in progress, or of one that it begins. Returns the compaction then in
/// progress and the result of the step, which is a refusal if the first key was refused.
#[tactic(none)]
pub fn compact<const OFFSET_BITS: u32, S: Store<OFFSET_BITS>>(
    alloc: Global,
    store: &mut S,
    fields: &[Field],
    roots: &mut [FieldRoots<OFFSET_BITS>],
    root: EntryRef<OFFSET_BITS>,
    before: Option<Plan>,
    keys: u32,
) -> (Option<Plan>, Result<Step, StoreError>)
    requires sized { length roots.old ≡ length fields.now }
    requires few { length fields.now ≤ MOST_FIELDS }
    requires holds { HoldsAttributes OFFSET_BITS (S.ledger store.old) (S.records store.old) fields.now
        (trees_of fields.now roots.old) root }
    requires under_way { IfSome before (IsUnderWay OFFSET_BITS root (S.ledger store.old) (S.records store.old) (trees_of fields.now roots.old)) }
    requires last { IfSome before HasLastField }
    requires unfinished { (S.ledger store.old).finished ≡ None }
    ensures sized { length roots.new ≡ length fields.now }
    ensures compacts { Compacts OFFSET_BITS root.entry (S.ledger store.old) (S.ledger store.new) (S.records store.old) (S.records store.new)
        fields.now (trees_of fields.now roots.old) (trees_of fields.now roots.new) before result.0 (store.new ≡ store.old) keys result.1 }
    ensures forms { KeepForms (S.records store.old) (S.records store.new) (trees_of fields.now roots.old) (trees_of fields.now roots.new) }
    ensures counts { MakesKeys (ArePlain (S.records store.old) (trees_of fields.now roots.old)) fields.now
        (table_at (S.records store.old) (trees_of fields.now roots.old)) (S.ledger store.old) (S.ledger store.new) keys }
{
    let Some(mut plan) = open_plan(store, fields, roots, root, before) else {
        return (None, Ok(Step::Idle));
    };
    match visit_keys(alloc, store, fields, roots, root, &mut plan, keys) {
        Ok(
            Walk::Visited {
                keys: visited,
                stop,
            },
        ) => (
            Some(plan),
            Ok(Step::Moved {
                keys: visited,
                stop,
            }),
        ),
        Ok(Walk::Over) => {
            let buffer = end_plan(store, fields, roots, root, &plan);
            (None, Ok(Step::Finished(buffer)))
        }
        Err(error) => (Some(plan), Err(error)),
    }
}
