//! The end of a compaction.
ghost use Rattle.std.specs.Prelude.{◌≡◌, ◌≢◌, ℕ, Some};
ghost use Rattle.entry_ref.specs.References.{buffer_of};
ghost use Rattle.entry_ref.specs.Records.{Among};
ghost use Rattle.attr_compaction.specs.declared.plan.TheConstants.{PHASES};
ghost use Rattle.image_format.specs.Tables.{attributes_reach};
ghost use Rattle.attr_operations.specs.Fields.{HoldsAttributes, trees_of};
ghost use Rattle.compaction_steps.specs.GivenUp.{EndsPlan};
ghost use Rattle.compaction_steps.specs.Units.{IsUnderWay};
ghost use Rattle.compaction_steps.specs.Walks.{HasLastField};

use crate::stage_law;
use attr_compaction::Plan;
use attr_field::FieldRoots;
use attr_types::Field;
use entry_ref::EntryRef;
use store_api::Store;

/// Returns the emptied buffer if the compaction is past all keys. It goes on hold with the next commit.
#[tactic(none)]
pub fn end_plan<const OFFSET_BITS: u32, S: Store<OFFSET_BITS>>(
    store: &mut S,
    fields: &[Field],
    roots: &[FieldRoots<OFFSET_BITS>],
    root: EntryRef<OFFSET_BITS>,
    plan: &Plan,
) -> u32
    requires holds { HoldsAttributes OFFSET_BITS (S.ledger store.old) (S.records store.old) fields.now
        (trees_of fields.now roots.now) root }
    requires under_way { IsUnderWay OFFSET_BITS root (S.ledger store.old) (S.records store.old) (trees_of fields.now roots.now) plan.now }
    requires last { HasLastField plan.now }
    requires over { plan.now.place.stage.phase ≡ PHASES }
    ensures buffer { result ≡ plan.now.victim }
    ensures ledger { S.ledger store.new ≡ record (S.ledger store.old) { finished = Some plan.now.victim } }
    ensures records { S.records store.new ≡ S.records store.old }
    ensures apart { (r : ℕ) → Among r (attributes_reach (S.records store.new) (trees_of fields.now roots.now))
        → buffer_of OFFSET_BITS r ≢ plan.now.victim }
    ensures holds { HoldsAttributes OFFSET_BITS (S.ledger store.new) (S.records store.new) fields.now
        (trees_of fields.now roots.now) root.entry }
{
    stage_law();
    let _ = fields;
    let _ = roots;
    let _ = root;
    let victim = plan.victim();
    store.finish(victim);
    victim
}

/// Gives the compaction in progress up if it copied no value's record: its victim is no longer sealed, and the result is
/// `None`. Otherwise nothing changes, and the compaction stays. All records are unchanged.
#[tactic(none)]
pub fn give_up<const OFFSET_BITS: u32, S: Store<OFFSET_BITS>>(
    store: &mut S,
    fields: &[Field],
    roots: &[FieldRoots<OFFSET_BITS>],
    root: EntryRef<OFFSET_BITS>,
    plan: Plan,
) -> Option<Plan>
    requires holds { HoldsAttributes OFFSET_BITS (S.ledger store.old) (S.records store.old) fields.now
        (trees_of fields.now roots.now) root }
    requires under_way { IsUnderWay OFFSET_BITS root (S.ledger store.old) (S.records store.old) (trees_of fields.now roots.now) plan }
    ensures ends { EndsPlan (S.ledger store.old) (S.ledger store.new) plan result (store.new ≡ store.old) }
    ensures records { S.records store.new ≡ S.records store.old }
    ensures holds { HoldsAttributes OFFSET_BITS (S.ledger store.new) (S.records store.new) fields.now
        (trees_of fields.now roots.now) root.entry }
{
    let _ = fields;
    let _ = roots;
    let _ = root;
    if plan.has_copied() {
        return Some(plan);
    }
    store.unseal(plan.victim());
    None
}
