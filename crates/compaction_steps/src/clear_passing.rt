//! Keys of a phase that are passed.
ghost use Rattle.std.specs.Prelude.{◌≡◌, ◌≤◌, ◌%◌, true, false, IfSome};
ghost use Rattle.compaction_moves.specs.Cleared.{trees_of_roots, IsClearedField};
ghost use Rattle.attr_compaction.specs.declared.plan.TheConstants.{DOCUMENTS, KEYS, LISTS};
ghost use Rattle.attr_compaction.specs.declared.plan.PlanKey.TheVariants as keys;
ghost use Rattle.attr_field.specs.Fields.{IsField};
ghost use Rattle.image_format.specs.Values.{stored_value, IsValueRecord};
ghost use Rattle.attr_types.specs.Value.{type_of};
ghost use Rattle.enum_dictionary.specs.Dictionaries.{IsDictionary};
ghost use Rattle.posting_store.specs.Lists.{IsPlain};
ghost use Rattle.value_index.specs.Flows.{list_word};
ghost use Rattle.attr_compaction.specs.PhaseKeys.{HasType};
ghost use Rattle.compaction_steps.specs.Passes.{CanPass, Passes};

use crate::nodes::{pass_map_nodes, pass_value_nodes};
use crate::runs::run_from;
use crate::sights::Sight;
use crate::trees::pass_tree_list;
use arena_api::Frozen;
use attr_compaction::{DOCUMENTS, KEYS, LISTS, NODES, Plan, PlanKey, is_vector};
use attr_field::FieldRoots;
use attr_types::{Field, Value, ValueType};
use entry_ref::EntryRef;
use enum_dictionary::{find, upper};
use frozen_btree::{Cursor, NumberKey};
use std::alloc::Global;
use unique_store::get;

/// The number of keys that were passed, and the last of them.
#[derive(Drop)]
pub struct Passed {
    pub keys: u32,
    pub last: PlanKey,
}

/// Returns the value of a record, if there is memory for it.
pub fn value_at<const OFFSET_BITS: u32, F: Frozen<OFFSET_BITS>>(
    alloc: Global,
    frozen: &mut F,
    value_type: ValueType,
    reference: u64,
) -> Option<Value>
    requires { IsValueRecord value_type (F.records frozen.old reference) }
    ensures value { IfSome result (λ v. v ≡ stored_value value_type (F.records frozen.old) reference) }
    ensures same { frozen.new ≡ frozen.old }
{
    let key = EntryRef::from_raw(reference as u32);
    match get(alloc, frozen, key, value_type) {
        Ok(value) => Some(value),
        Err(_) => None,
    }
}

/// Passes values whose records lie outside the buffer.
#[tactic(none)]
fn pass_values<const OFFSET_BITS: u32, F: Frozen<OFFSET_BITS>>(
    alloc: Global,
    frozen: &mut F,
    field: &Field,
    roots: FieldRoots<OFFSET_BITS>,
    plan: &Plan,
    value: &Value,
    most: u32,
) -> Option<Passed>
    requires { CanPass OFFSET_BITS plan.now.victim plan.now.place (F.records frozen.old) (trees_of_roots field.now roots) KEYS
        (keys.Value value.now) }
    ensures passes { IfSome result (λ p. Passes OFFSET_BITS plan.now.victim plan.now.place (F.records frozen.old)
        (trees_of_roots field.now roots.entry)
        p.last p.keys) }
    ensures few { IfSome result (λ p. p.keys ≤ most) }
    ensures same { frozen.new ≡ frozen.old }
{
    let mut cursor = upper(frozen, roots.dictionary, value);
    let run = run_from(
        frozen,
        Sight::Key,
        field.kind,
        field.value,
        &mut cursor,
        plan.victim(),
        most,
    );
    if run.pairs == 0 {
        return None;
    }
    match value_at(alloc, frozen, field.value, run.last) {
        Some(last) => Some(Passed {
            keys: run.pairs,
            last: PlanKey::Value(last),
        }),
        None => None,
    }
}

/// Passes documents whose items lie outside the buffer.
#[tactic(none)]
fn pass_documents<const OFFSET_BITS: u32, F: Frozen<OFFSET_BITS>>(
    frozen: &mut F,
    field: &Field,
    roots: FieldRoots<OFFSET_BITS>,
    plan: &Plan,
    doc: u32,
    most: u32,
) -> Option<Passed>
    requires { CanPass OFFSET_BITS plan.now.victim plan.now.place (F.records frozen.old) (trees_of_roots field.now roots) DOCUMENTS
        (keys.Doc doc) }
    ensures passes { IfSome result (λ p. Passes OFFSET_BITS plan.now.victim plan.now.place (F.records frozen.old)
        (trees_of_roots field.now roots.entry)
        p.last p.keys) }
    ensures few { IfSome result (λ p. p.keys ≤ most) }
    ensures same { frozen.new ≡ frozen.old }
{
    let mut cursor = Cursor::seek(frozen, roots.documents, &NumberKey(doc as u64 + 1));
    let run = run_from(
        frozen,
        Sight::Items,
        field.kind,
        field.value,
        &mut cursor,
        plan.victim(),
        most,
    );
    if run.pairs == 0 {
        return None;
    }
    Some(Passed {
        keys: run.pairs,
        last: PlanKey::Doc(run.last as u32),
    })
}

/// Returns the word of the list of a value, or 0 if the value does not exist.
fn word_of<const OFFSET_BITS: u32, F: Frozen<OFFSET_BITS>>(
    frozen: &mut F,
    root: EntryRef<OFFSET_BITS>,
    value: &Value,
) -> u64
    requires { IsDictionary (type_of value.now) (F.records frozen.old) root }
    ensures word { result ≡ list_word value.now (F.records frozen.old) root.entry }
    ensures same { frozen.new ≡ frozen.old }
{
    match find(frozen, root, value) {
        Some(entry) => entry.posting,
        None => 0,
    }
}

/// Returns whether a list that is no bit vector is a tree.
fn is_tree(list: u64) -> bool
    ensures odd { result ≡ true → list % 2 ≡ 1 }
    ensures even { result ≡ false → list % 2 ≡ 0 }
{
    list % 2 == 1
}

/// Passes lists that are single records outside the buffer, from a value on whose list is one or that does not exist.
#[tactic(none)]
fn pass_records<const OFFSET_BITS: u32, F: Frozen<OFFSET_BITS>>(
    alloc: Global,
    frozen: &mut F,
    field: &Field,
    roots: FieldRoots<OFFSET_BITS>,
    plan: &Plan,
    value: &Value,
    doc: u32,
    most: u32,
) -> Option<Passed>
    requires can { CanPass OFFSET_BITS plan.now.victim plan.now.place (F.records frozen.old) (trees_of_roots field.now roots) LISTS
        (keys.Pair value.now doc) }
    requires plain { IsPlain (list_word value.now (F.records frozen.old) roots.dictionary) }
    requires even { list_word value.now (F.records frozen.old) roots.dictionary % 2 ≡ 0 }
    ensures passes { IfSome result (λ p. Passes OFFSET_BITS plan.now.victim plan.now.place (F.records frozen.old)
        (trees_of_roots field.now roots.entry)
        p.last p.keys) }
    ensures few { IfSome result (λ p. p.keys ≤ most) }
    ensures same { frozen.new ≡ frozen.old }
{
    let _ = doc;
    let mut cursor = upper(frozen, roots.dictionary, value);
    let run = run_from(
        frozen,
        Sight::List,
        field.kind,
        field.value,
        &mut cursor,
        plan.victim(),
        most,
    );
    if run.pairs == 0 {
        return None;
    }
    match value_at(alloc, frozen, field.value, run.last) {
        Some(last) => Some(Passed {
            keys: run.pairs,
            last: PlanKey::Pair(last, 0),
        }),
        None => None,
    }
}

/// Passes documents of a list that is a tree, or lists that are single records. Bit vectors are not passed.
#[tactic(none)]
fn pass_lists<const OFFSET_BITS: u32, F: Frozen<OFFSET_BITS>>(
    alloc: Global,
    frozen: &mut F,
    field: &Field,
    roots: FieldRoots<OFFSET_BITS>,
    plan: &Plan,
    value: &Value,
    doc: u32,
    most: u32,
) -> Option<Passed>
    requires { CanPass OFFSET_BITS plan.now.victim plan.now.place (F.records frozen.old) (trees_of_roots field.now roots) LISTS
        (keys.Pair value.now doc) }
    ensures passes { IfSome result (λ p. Passes OFFSET_BITS plan.now.victim plan.now.place (F.records frozen.old)
        (trees_of_roots field.now roots.entry)
        p.last p.keys) }
    ensures few { IfSome result (λ p. p.keys ≤ most) }
    ensures same { frozen.new ≡ frozen.old }
{
    let list = word_of(frozen, roots.dictionary, value);
    if is_vector(list) {
        return None;
    }
    if is_tree(list) {
        return pass_tree_list(frozen, field, roots, plan, value, doc, list, most);
    }
    pass_records(alloc, frozen, field, roots, plan, value, doc, most)
}

/// Passes values, according to the plan's phase.
#[tactic(none)]
fn pass_by_value<const OFFSET_BITS: u32, F: Frozen<OFFSET_BITS>>(
    alloc: Global,
    frozen: &mut F,
    field: &Field,
    roots: FieldRoots<OFFSET_BITS>,
    plan: &Plan,
    value: &Value,
    most: u32,
) -> Option<Passed>
    requires { CanPass OFFSET_BITS plan.now.victim plan.now.place (F.records frozen.old)
        (trees_of_roots field.now roots) plan.now.place.stage.phase
        (keys.Value value.now) }
    ensures passes { IfSome result (λ p. Passes OFFSET_BITS plan.now.victim plan.now.place (F.records frozen.old)
        (trees_of_roots field.now roots.entry)
        p.last p.keys) }
    ensures few { IfSome result (λ p. p.keys ≤ most) }
    ensures same { frozen.new ≡ frozen.old }
{
    if plan.phase() == KEYS {
        return pass_values(alloc, frozen, field, roots, plan, value, most);
    }
    if plan.phase() == NODES {
        return pass_value_nodes(alloc, frozen, field, roots, plan, value, most);
    }
    None
}

/// Passes documents, according to the plan's phase.
#[tactic(none)]
fn pass_by_document<const OFFSET_BITS: u32, F: Frozen<OFFSET_BITS>>(
    frozen: &mut F,
    field: &Field,
    roots: FieldRoots<OFFSET_BITS>,
    plan: &Plan,
    doc: u32,
    most: u32,
) -> Option<Passed>
    requires { CanPass OFFSET_BITS plan.now.victim plan.now.place (F.records frozen.old)
        (trees_of_roots field.now roots) plan.now.place.stage.phase
        (keys.Doc doc) }
    ensures passes { IfSome result (λ p. Passes OFFSET_BITS plan.now.victim plan.now.place (F.records frozen.old)
        (trees_of_roots field.now roots.entry)
        p.last p.keys) }
    ensures few { IfSome result (λ p. p.keys ≤ most) }
    ensures same { frozen.new ≡ frozen.old }
{
    if plan.phase() == DOCUMENTS {
        return pass_documents(frozen, field, roots, plan, doc, most);
    }
    if plan.phase() == NODES {
        return pass_map_nodes(frozen, field, roots, plan, doc, most);
    }
    None
}

/// Passes the keys after a plan's place, at most `most` of them, as long as nothing that belongs to them lies in the
/// victim. Returns `None` if the next one may have to be moved.
#[tactic(none)]
pub fn pass_clear<const OFFSET_BITS: u32, F: Frozen<OFFSET_BITS>>(
    alloc: Global,
    frozen: &mut F,
    field: &Field,
    roots: FieldRoots<OFFSET_BITS>,
    plan: &Plan,
    most: u32,
) -> Option<Passed>
    requires field { IsField field.now.kind field.now.value (F.records frozen.old) roots.documents roots.dictionary }
    requires typed { HasType field.now.value plan.now.place.key }
    requires cleared { IsClearedField OFFSET_BITS plan.now.victim plan.now.place plan.now.place.stage.field (F.records frozen.old)
        (trees_of_roots field.now roots) }
    ensures passes { IfSome result (λ p. Passes OFFSET_BITS plan.now.victim plan.now.place (F.records frozen.old)
        (trees_of_roots field.now roots.entry)
        p.last p.keys) }
    ensures few { IfSome result (λ p. p.keys ≤ most) }
    ensures same { frozen.new ≡ frozen.old }
{
    match plan.key() {
        PlanKey::Start => None,
        PlanKey::Value(value) => pass_by_value(alloc, frozen, field, roots, plan, value, most),
        PlanKey::Doc(doc) => pass_by_document(frozen, field, roots, plan, *doc, most),
        PlanKey::Pair(value, doc) => {
            if plan.phase() != LISTS {
                return None;
            }
            pass_lists(alloc, frozen, field, roots, plan, value, *doc, most)
        }
    }
}
