//! Whether an operation fits the attributes, decided at run time.
ghost use Rattle.std.specs.Prelude.{◌≡◌, ◌≤◌, ◌↔◌, IsTrue, pos};
ghost use Rattle.std.specs.List.{list_all};
ghost use Rattle.std.specs.Ordering.{int_eq};
ghost use Rattle.attr_types.specs.Fitting.{is_of_type, have_type, have_weight_one, ascends, are_lawful};
ghost use Rattle.attr_types.specs.Fitting.{items_fit, act_fits, change_fits, document_fits, changes_fit, op_fits};
ghost use Rattle.attr_types.specs.Lawful.{OpFits};
ghost use Rattle.attr_types.specs.Table.{op_doc};
ghost use Rattle.attr_types.specs.Value.{values_of};

use crate::change::{Act, Change};
use crate::doc::Doc;
use crate::field::{Field, Fields};
use crate::items::{Item, Items, MOST_ITEMS};
use crate::kind::{Kind, ValueType};
use crate::op::Op;
use crate::value::Value;

fn is_value_of(value_type: ValueType, value: &Value) -> bool
    ensures { result ≡ is_of_type value_type value.now }
{
    match (value_type, value) {
        (ValueType::Long, Value::Long(_)) | (ValueType::Text, Value::Text(_)) => true,
        _ => false,
    }
}

fn are_values_of(value_type: ValueType, values: &[Value]) -> bool
    ensures { result ≡ list_all (is_of_type value_type) values.now }
{
    values.iter().all(|value| is_value_of(value_type, value))
}

fn are_items_of(value_type: ValueType, items: &[Item]) -> bool
    ensures { result ≡ have_type value_type items.now }
{
    items
        .iter()
        .all(|item| is_value_of(value_type, &item.value))
}

fn weigh_one(items: &[Item]) -> bool
    ensures { result ≡ have_weight_one items.now }
{
    items.iter().all(|item| item.weight == 1)
}

fn ascend(items: &[Item]) -> bool
    ensures { result ≡ ascends (values_of items.now) }
{
    let mut rest = items;
    while let [first, others @ ..] = rest {
        if let [second, ..] = others {
            if first.value >= second.value {
                return false;
            }
        }
        rest = others;
    }
    true
}

fn are_lawful_items(kind: Kind, items: &[Item]) -> bool
    ensures { result ≡ are_lawful kind items.now }
{
    match kind {
        Kind::Single => items.len() <= 1 && weigh_one(items),
        Kind::Array => items.len() <= MOST_ITEMS && weigh_one(items),
        Kind::WeightedSet => items.len() <= MOST_ITEMS && ascend(items),
    }
}

fn do_items_fit(kind: Kind, value_type: ValueType, items: &Items) -> bool
    ensures { result ≡ items_fit kind value_type items.now }
{
    are_lawful_items(kind, items.as_slice()) && are_items_of(value_type, items.as_slice())
}

fn does_act_fit(value_type: ValueType, act: &Act) -> bool
    ensures { result ≡ act_fits value_type act.now }
{
    match act {
        Act::Set(value) => is_value_of(value_type, value),
        Act::Shift(_) => value_type == ValueType::Long,
    }
}

fn does_change_fit(kind: Kind, value_type: ValueType, change: &Change) -> bool
    ensures { result ≡ change_fits kind value_type change.now }
{
    match (kind, change) {
        (_, Change::Keep) => true,
        (_, Change::Assign(items)) => do_items_fit(kind, value_type, items),
        (Kind::Array | Kind::WeightedSet, Change::Add(items)) => {
            do_items_fit(kind, value_type, items)
        }
        (Kind::WeightedSet, Change::Take(names)) => are_values_of(value_type, names.as_slice()),
        (Kind::Single, Change::Shift(_)) => value_type == ValueType::Long,
        (Kind::Array, Change::At { act, .. }) => does_act_fit(value_type, act),
        (Kind::WeightedSet, Change::Of { value, .. }) => is_value_of(value_type, value),
        (Kind::Single, Change::Add(_) | Change::Take(_) | Change::At { .. } | Change::Of { .. })
        | (Kind::Array, Change::Take(_) | Change::Shift(_) | Change::Of { .. })
        | (Kind::WeightedSet, Change::Shift(_) | Change::At { .. }) => false,
    }
}

fn does_document_fit(fields: &[Field], document: &[Items]) -> bool
    ensures { result ≡ document_fits fields.now document.now }
{
    let mut fields_left = fields;
    let mut document_left = document;
    while let [field, fields @ ..] = fields_left {
        let [items, document @ ..] = document_left else {
            return false;
        };
        if !do_items_fit(field.kind, field.value, items) {
            return false;
        }
        fields_left = fields;
        document_left = document;
    }
    document_left.is_empty()
}

fn do_changes_fit(fields: &[Field], changes: &[Change]) -> bool
    ensures { result ≡ changes_fit fields.now changes.now }
{
    let mut fields_left = fields;
    let mut changes_left = changes;
    while let [field, fields @ ..] = fields_left {
        let [change, changes @ ..] = changes_left else {
            return false;
        };
        if !does_change_fit(field.kind, field.value, change) {
            return false;
        }
        fields_left = fields;
        changes_left = changes;
    }
    changes_left.is_empty()
}

impl Op {
    /// Returns the document that the operation changes.
    pub fn doc(&self) -> Doc
        ensures doc { result ≡ op_doc self.now }
        ensures first { 1 ≤ result }
        ensures last { result ≤ 1048575 }
    {
        let doc = match self {
            Op::Put { doc, .. } | Op::Update { doc, .. } | Op::Remove { doc } => *doc,
        };
        let _number = doc.number();
        doc
    }
}

fn does_op_fit(fields: &[Field], op: &Op) -> bool
    ensures { result ≡ op_fits fields.now op.now }
{
    match op {
        Op::Put { items, .. } => does_document_fit(fields, items.as_slice()),
        Op::Update { change, .. } => do_changes_fit(fields, change.as_slice()),
        Op::Remove { .. } => true,
    }
}

/// Returns whether an operation fits the attributes.
pub fn fits(fields: &Fields, op: &Op) -> bool
    ensures { IsTrue result ↔ OpFits fields.now op.now }
{
    let _doc = op.doc();
    does_op_fit(fields.as_slice(), op)
}
