//! Documents of a list that is a tree are passed, the rest of a leaf at a time: no node on the ways to them lies in the
//! victim.
ghost use Rattle.std.specs.Prelude.{◌≡◌, ◌≤◌, ◌/◌, ◌%◌, IfSome};
ghost use Rattle.compaction_moves.specs.Cleared.{trees_of_roots};
ghost use Rattle.attr_compaction.specs.declared.plan.TheConstants.{LISTS};
ghost use Rattle.attr_compaction.specs.declared.plan.PlanKey.TheVariants as keys;
ghost use Rattle.posting_store.specs.Lists.{IsPlain};
ghost use Rattle.value_index.specs.Flows.{list_word};
ghost use Rattle.compaction_steps.specs.Passes.{CanPass, Passes};

use crate::clear_passing::Passed;
use crate::ways::way_of;
use arena_api::Frozen;
use attr_compaction::{Plan, PlanKey};
use attr_field::FieldRoots;
use attr_types::{Field, Value};
use entry_ref::EntryRef;
use frozen_btree::NumberKey;

/// Returns the root of a list that is a tree.
fn root_of<const OFFSET_BITS: u32>(list: u64) -> EntryRef<OFFSET_BITS>
    requires { IsPlain list }
    ensures { result ≡ list / 2 }
{
    EntryRef::from_raw((list / 2) as u32)
}

/// Returns the key of a document in the list of a value, if there is memory for it.
fn key_of(value: &Value, doc: u32) -> Option<PlanKey>
    ensures { IfSome result (λ key. key ≡ keys.Pair value.now doc) }
{
    match value.clone() {
        Ok(copy) => Some(PlanKey::Pair(copy, doc)),
        Err(_) => None,
    }
}

/// Passes documents of one leaf of the list of a value.
#[tactic(none)]
pub fn pass_tree_list<const OFFSET_BITS: u32, F: Frozen<OFFSET_BITS>>(
    frozen: &mut F,
    field: &Field,
    roots: FieldRoots<OFFSET_BITS>,
    plan: &Plan,
    value: &Value,
    doc: u32,
    list: u64,
    most: u32,
) -> Option<Passed>
    requires can { CanPass OFFSET_BITS plan.now.victim plan.now.place (F.records frozen.old) (trees_of_roots field.now roots) LISTS
        (keys.Pair value.now doc) }
    requires list { list ≡ list_word value.now (F.records frozen.old) roots.dictionary }
    requires plain { IsPlain list }
    requires odd { list % 2 ≡ 1 }
    ensures passes { IfSome result (λ p. Passes OFFSET_BITS plan.now.victim plan.now.place (F.records frozen.old)
        (trees_of_roots field.now roots.entry)
        p.last p.keys) }
    ensures few { IfSome result (λ p. p.keys ≤ most) }
    ensures same { frozen.new ≡ frozen.old }
{
    let _ = field;
    let _ = roots;
    if most == 0 {
        return None;
    }
    let root = root_of(list);
    let victim = plan.victim();
    let way = way_of(frozen, root, &NumberKey(doc as u64 + 1), victim, most);
    if way.pairs == 0 {
        return None;
    }
    match key_of(value, way.last as u32) {
        Some(last) => Some(Passed {
            keys: way.pairs,
            last,
        }),
        None => None,
    }
}
