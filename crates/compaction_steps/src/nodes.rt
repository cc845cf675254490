//! Keys of the last phase that are passed: no node on the ways to them lies in the victim.
ghost use Rattle.std.specs.Prelude.{◌≡◌, ◌<◌, ◌≤◌, ◌-◌, true, IfSome, if◌then◌else◌};
ghost use Rattle.tree_read.specs.Trees.{tree_pairs};
ghost use Rattle.compaction_moves.specs.Cleared.{trees_of_roots};
ghost use Rattle.attr_compaction.specs.declared.plan.TheConstants.{NODES};
ghost use Rattle.attr_compaction.specs.declared.plan.PlanKey.TheVariants as keys;
ghost use Rattle.image_format.specs.Values.{stored_value};
ghost use Rattle.attr_types.specs.Value.{type_of, value_cmp};
ghost use Rattle.enum_dictionary.specs.Dictionaries.{beside_value, IsDictionary};
ghost use Rattle.compaction_steps.specs.Passes.{CanPass, Passes};
ghost use Rattle.compaction_steps.specs.Ways.{IsWay, IsWayApart};

use crate::clear_passing::{Passed, value_at};
use crate::ways::{Way, way_of};
use arena_api::Frozen;
use attr_compaction::{Plan, PlanKey};
use attr_field::FieldRoots;
use attr_types::{Field, Value};
use entry_ref::EntryRef;
use enum_dictionary::{LongKey, TextKey};
use frozen_btree::NumberKey;
use std::alloc::Global;

/// Returns the rest of the leaf of a dictionary to which a value leads.
fn value_way<const OFFSET_BITS: u32, F: Frozen<OFFSET_BITS>>(
    frozen: &mut F,
    root: EntryRef<OFFSET_BITS>,
    value: &Value,
    buffer: u32,
    most: u32,
) -> Way
    requires dictionary { IsDictionary (type_of value.now) (F.records frozen.old) root }
    requires some { 0 < most }
    ensures way { IsWay (IsWayApart OFFSET_BITS buffer value_cmp (stored_value (type_of value.now)) (F.records frozen.old) root.entry)
        (beside_value value.now (F.records frozen.old))
        (tree_pairs (F.records frozen.old) root.entry) result.pairs result.last result.found }
    ensures few { result.pairs ≤ most }
    ensures same { frozen.new ≡ frozen.old }
{
    match value {
        Value::Long(_) => way_of(frozen, root, &LongKey::new(value), buffer, most),
        Value::Text(_) => way_of(frozen, root, &TextKey::new(value), buffer, most),
    }
}

/// Returns how many of the pairs are after the key.
fn past_in(way: Way) -> u32
    requires { way.found ≡ true → 0 < way.pairs }
    ensures { result ≡ (if way.found then way.pairs - 1 else way.pairs) }
{
    if way.found { way.pairs - 1 } else { way.pairs }
}

/// Passes values of one leaf of the dictionary.
#[tactic(none)]
pub fn pass_value_nodes<const OFFSET_BITS: u32, F: Frozen<OFFSET_BITS>>(
    alloc: Global,
    frozen: &mut F,
    field: &Field,
    roots: FieldRoots<OFFSET_BITS>,
    plan: &Plan,
    value: &Value,
    most: u32,
) -> Option<Passed>
    requires { CanPass OFFSET_BITS plan.now.victim plan.now.place (F.records frozen.old) (trees_of_roots field.now roots) NODES
        (keys.Value value.now) }
    ensures passes { IfSome result (λ p. Passes OFFSET_BITS plan.now.victim plan.now.place (F.records frozen.old)
        (trees_of_roots field.now roots.entry)
        p.last p.keys) }
    ensures few { IfSome result (λ p. p.keys ≤ most) }
    ensures same { frozen.new ≡ frozen.old }
{
    if most == 0 {
        return None;
    }
    let way = value_way(frozen, roots.dictionary, value, plan.victim(), most);
    let keys = past_in(way);
    if keys == 0 {
        return None;
    }
    match value_at(alloc, frozen, field.value, way.last) {
        Some(last) => Some(Passed {
            keys,
            last: PlanKey::Value(last),
        }),
        None => None,
    }
}

/// Passes documents of one leaf of the map.
#[tactic(none)]
pub fn pass_map_nodes<const OFFSET_BITS: u32, F: Frozen<OFFSET_BITS>>(
    frozen: &mut F,
    field: &Field,
    roots: FieldRoots<OFFSET_BITS>,
    plan: &Plan,
    doc: u32,
    most: u32,
) -> Option<Passed>
    requires { CanPass OFFSET_BITS plan.now.victim plan.now.place (F.records frozen.old) (trees_of_roots field.now roots) NODES
        (keys.Doc doc) }
    ensures passes { IfSome result (λ p. Passes OFFSET_BITS plan.now.victim plan.now.place (F.records frozen.old)
        (trees_of_roots field.now roots.entry)
        p.last p.keys) }
    ensures few { IfSome result (λ p. p.keys ≤ most) }
    ensures same { frozen.new ≡ frozen.old }
{
    let _ = field;
    if most == 0 {
        return None;
    }
    let key = NumberKey(doc as u64 + 1);
    let way = way_of(frozen, roots.documents, &key, plan.victim(), most);
    if way.pairs == 0 {
        return None;
    }
    Some(Passed {
        keys: way.pairs,
        last: PlanKey::Doc(way.last as u32),
    })
}
