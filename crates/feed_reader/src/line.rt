//! The operation of one line.

ghost use Rattle.std.specs.Prelude.{◌≡◌, option_map};
ghost use Rattle.std.specs.List.{list_any};
ghost use Rattle.serde_json.specs.View.{view};
ghost use Rattle.feed_reader.specs.declared.refusal.Refusal.TheVariants.{NotJson};
ghost use Rattle.feed_reader.specs.Answers.{ReadsAs, or_else};
ghost use Rattle.feed_reader.specs.Grammar.{json_read, op_name_of, id_of, fields_of, create_of, asked_of};
ghost use Rattle.feed_reader.specs.Grammar.{has_other_member, op_asked, supported, is_over, gives_too_many, op_of_value, op_of_line};

use crate::fields::{all_known, changes_in, document_in};
use crate::id::document_of_id;
use crate::operation::{Asked, OpName};
use crate::refusal::{LineError, Refusal};
use crate::update::members_given;
use attr_types::{Doc, Field, MOST_ITEMS, Op};
use serde_json::Value as Json;
use std::alloc::Global;

fn operation_in(line: &Json) -> Option<(OpName, &Json)>
    ensures { option_map (λ p. (p.0, view p.1.now)) result ≡ op_name_of (view line.now) }
{
    match (line.get("put"), line.get("update"), line.get("remove")) {
        (Some(member), None, None) => Some((OpName::Put, member)),
        (None, Some(member), None) => Some((OpName::Update, member)),
        (None, None, Some(member)) => Some((OpName::Remove, member)),
        _ => None,
    }
}

fn id_in(member: &Json) -> Option<Doc>
    ensures { result ≡ id_of (view member.now) }
{
    document_of_id(member.as_str()?)
}

/// Returns the object `fields` of a line.
fn fields_in(line: &Json) -> Option<&Json>
    ensures { option_map (λ v. view v.now) result ≡ fields_of (view line.now) }
{
    let fields = line.get("fields")?;
    if fields.is_object() {
        Some(fields)
    } else {
        None
    }
}

/// Returns whether a put or an update may create a missing document.
fn create_in(line: &Json) -> Option<bool>
    ensures { result ≡ create_of (view line.now) }
{
    match line.get("create") {
        Some(json) => json.as_bool(),
        None => Some(false),
    }
}

#[tactic(auto, unfolding(crate::specs::Grammar::asked_of))]
fn asked_in(
    alloc: Global,
    fields: &[Field],
    operation: OpName,
    create: Option<bool>,
    members: Option<&Json>,
) -> Result<Asked, LineError>
    ensures { ReadsAs (λ asked. asked) result
        (asked_of fields.now operation create (option_map (λ v. view v.now) members.entry)) }
{
    match operation {
        OpName::Put => {
            let _create = create.ok_or(Refusal::BadValue)?;
            let members = members.ok_or(Refusal::BadValue)?;
            Ok(Asked::Put(document_in(alloc, fields, members)?))
        }
        OpName::Update => {
            let create = create.ok_or(Refusal::BadValue)?;
            let members = members.ok_or(Refusal::BadValue)?;
            let changes = changes_in(alloc, fields, members)?;
            let changes = all_known(alloc, changes)?;
            Ok(Asked::Update { create, changes })
        }
        OpName::Remove => Ok(Asked::Remove),
    }
}

/// Returns whether a line has a member that its operation does not allow.
fn has_other_member(operation: OpName, line: &Json) -> bool
    ensures { result ≡ has_other_member operation (view line.now) }
{
    let has_condition = line.get("condition").is_some();
    match operation {
        OpName::Put | OpName::Update => has_condition,
        OpName::Remove => has_condition || line.get("create").is_some(),
    }
}

fn op_asked(doc: Doc, asked: Asked) -> Option<Op>
    ensures { result ≡ op_asked doc asked }
{
    match asked {
        Asked::Put(items) => Some(Op::Put { doc, items }),
        Asked::Update { create, changes } => changes.map(|change| Op::Update {
            doc,
            create,
            change,
        }),
        Asked::Remove => Some(Op::Remove { doc }),
    }
}

fn supported_in(operation: OpName, line: &Json, doc: Doc, asked: Asked) -> Option<Op>
    ensures { result ≡ supported operation (view line.now) doc asked }
{
    if has_other_member(operation, line) {
        return None;
    }
    op_asked(doc, asked)
}

fn is_over(operation: OpName, members: &Json, field: &Field) -> bool
    ensures { result ≡ is_over operation (view members.now) field.now }
{
    members_given(operation, members.get(field.name.as_str())) > MOST_ITEMS
}

fn is_some_over(fields: &[Field], operation: OpName, members: &Json) -> bool
    ensures { result ≡ list_any (is_over operation (view members.now)) fields.now }
{
    fields
        .iter()
        .any(|field| is_over(operation, members, field))
}

/// Returns whether a line gives some field a list or an object with more members than a document may have items.
fn gives_too_many(fields: &[Field], operation: OpName, members: Option<&Json>) -> bool
    ensures { result ≡ gives_too_many fields.now operation (option_map (λ v. view v.now) members.entry) }
{
    match members {
        None => false,
        Some(members) => is_some_over(fields, operation, members),
    }
}

#[tactic(auto, unfolding(crate::specs::Grammar::op_of_value))]
fn op_in(alloc: Global, fields: &[Field], line: &Json) -> Result<Op, LineError>
    ensures { ReadsAs (λ op. op) result (op_of_value fields.now (view line.now)) }
{
    let (operation, member) = operation_in(line).ok_or(Refusal::NoOperation)?;
    let doc = id_in(member).ok_or(Refusal::BadId)?;
    let members = fields_in(line);
    let asked = asked_in(alloc, fields, operation, create_in(line), members)?;
    let op = supported_in(operation, line, doc, asked).ok_or(Refusal::Unsupported)?;
    if gives_too_many(fields, operation, members) {
        return Err(LineError::Refused(Refusal::TooManyItems));
    }
    Ok(op)
}

fn json_in(alloc: Global, line: &[u8]) -> Result<Json, LineError>
    ensures { ReadsAs view result (or_else NotJson (json_read line.now)) }
{
    match Json::from_slice(alloc, line) {
        Ok(json) => Ok(json),
        Err(e) => {
            if e.is_memory() {
                Err(LineError::Memory)
            } else {
                Err(LineError::Refused(Refusal::NotJson))
            }
        }
    }
}

/// Returns the operation of a line.
#[tactic(auto, unfolding(crate::specs::Grammar::op_of_line))]
pub fn read_line(alloc: Global, fields: &[Field], line: &[u8]) -> Result<Op, LineError>
    ensures { ReadsAs (λ op. op) result (op_of_line fields.now line.now) }
{
    let json = json_in(alloc, line)?;
    op_in(alloc, fields, &json)
}
