//! Writing the bytes of fields after others.
ghost use Rattle.std.specs.Prelude.{◌≡◌, ◌≤◌, ◌++◌, length, OnOk};
ghost use Rattle.std.specs.Int.{w32, to_be_bytes};
ghost use Rattle.std.specs.List.{flat_map, AllByRecursion};
ghost use Rattle.attr_types.specs.Query.{items_in};
ghost use Rattle.attr_saver.specs.Bytes.{kind_byte, type_byte, form_bytes, head_bytes, text_bytes, value_bytes, weight_bytes, item_bytes};
ghost use Rattle.attr_saver.specs.Bytes.{document_bytes};
ghost use Rattle.attr_saver.specs.Lawful.{IsStorable, IsStorableValue, IsStorableText, first_column};

use crate::reader::MAGIC;
use attr_types::{Doc, FieldItems, Item, Kind, Text, Value, ValueType};
use std::alloc::AllocError;
use std::collections::BTreeMap;

pub(crate) fn kind_byte(kind: Kind) -> u8
    ensures { result ≡ kind_byte kind }
{
    match kind {
        Kind::Single => 0,
        Kind::Array => 1,
        Kind::WeightedSet => 2,
    }
}

pub(crate) fn type_byte(value_type: ValueType) -> u8
    ensures { result ≡ type_byte value_type }
{
    match value_type {
        ValueType::Long => 0,
        ValueType::Text => 1,
    }
}

fn push_number(out: &mut Vec<u8>, number: u32) -> Result<(), AllocError>
    ensures { OnOk result (out.new.items ≡ out.old.items ++ to_be_bytes w32 number) }
{
    out.extend_from_slice(&number.to_be_bytes())?;
    Ok(())
}

fn push_form(out: &mut Vec<u8>, kind: Kind, value_type: ValueType) -> Result<(), AllocError>
    ensures { OnOk result (out.new.items ≡ out.old.items ++ form_bytes kind value_type) }
{
    out.extend_from_slice(MAGIC)?;
    out.push(kind_byte(kind))?;
    out.push(type_byte(value_type))?;
    Ok(())
}

/// Writes the fields before the documents.
#[tactic(auto, unfolding(crate::specs::Bytes::head_bytes))]
pub(crate) fn push_head(
    out: &mut Vec<u8>,
    kind: Kind,
    value_type: ValueType,
    operations: u32,
    documents: u32,
) -> Result<(), AllocError>
    ensures { OnOk result (out.new.items
        ≡ out.old.items ++ head_bytes kind value_type operations documents) }
{
    push_form(out, kind, value_type)?;
    push_number(out, operations)?;
    push_number(out, documents)
}

fn push_text(out: &mut Vec<u8>, text: &Text) -> Result<(), AllocError>
    ensures bytes { OnOk result (out.new.items ≡ out.old.items ++ text_bytes text.now) }
    ensures fits { OnOk result (IsStorableText text.now) }
{
    let len = text.len() as u16;
    out.extend_from_slice(&len.to_be_bytes())?;
    out.extend_from_slice(text.as_str().as_bytes())?;
    Ok(())
}

fn push_value(out: &mut Vec<u8>, value: &Value) -> Result<(), AllocError>
    ensures bytes { OnOk result (out.new.items ≡ out.old.items ++ value_bytes value.now) }
    ensures fits { OnOk result (IsStorableValue value.now) }
{
    match value {
        Value::Long(number) => {
            out.extend_from_slice(&number.to_be_bytes())?;
            Ok(())
        }
        Value::Text(text) => push_text(out, text),
    }
}

fn push_weight(out: &mut Vec<u8>, kind: Kind, weight: i32) -> Result<(), AllocError>
    ensures { OnOk result (out.new.items ≡ out.old.items ++ weight_bytes kind weight) }
{
    match kind {
        Kind::Single | Kind::Array => Ok(()),
        Kind::WeightedSet => {
            out.extend_from_slice(&weight.to_be_bytes())?;
            Ok(())
        }
    }
}

fn push_item(out: &mut Vec<u8>, kind: Kind, item: &Item) -> Result<(), AllocError>
    ensures bytes { OnOk result (out.new.items ≡ out.old.items ++ item_bytes kind item.now) }
    ensures fits { OnOk result (IsStorable item.now) }
{
    push_value(out, &item.value)?;
    push_weight(out, kind, item.weight)
}

fn push_items(out: &mut Vec<u8>, kind: Kind, items: &[Item]) -> Result<(), AllocError>
    ensures bytes { OnOk result (out.new.items ≡ out.old.items ++ flat_map (item_bytes kind) items.now) }
    ensures fits { OnOk result (AllByRecursion IsStorable items.now) }
{
    for item in items {
        push_item(out, kind, item)?;
    }
    Ok(())
}

/// Returns the items of a document in its first attribute.
pub(crate) fn first_items(document: &FieldItems) -> &[Item]
    ensures { result.now ≡ items_in document.now 0 }
{
    match document.as_slice() {
        [items, ..] => items.as_slice(),
        [] => &[],
    }
}

fn push_document(out: &mut Vec<u8>, kind: Kind, doc: Doc, items: &[Item]) -> Result<(), AllocError>
    requires { length items.now ≤ 1023 }
    ensures bytes { OnOk result (out.new.items
        ≡ out.old.items ++ document_bytes kind (record { doc = doc; items = items.now })) }
    ensures fits { OnOk result (AllByRecursion IsStorable items.now) }
{
    let count = items.len() as u16;
    out.extend_from_slice(&doc.number().to_be_bytes())?;
    out.extend_from_slice(&count.to_be_bytes())?;
    push_items(out, kind, items)
}

/// Writes the documents of a table, each with its items in the first attribute.
pub(crate) fn push_documents(
    out: &mut Vec<u8>,
    kind: Kind,
    documents: &BTreeMap<Doc, FieldItems>,
) -> Result<(), AllocError>
    requires { AllByRecursion (λ d. length d.items ≤ 1023) (first_column documents.now.entries) }
    ensures bytes { OnOk result (out.new.items
        ≡ out.old.items ++ flat_map (document_bytes kind) (first_column documents.now.entries)) }
    ensures fits { OnOk result (AllByRecursion (λ d. AllByRecursion IsStorable d.items)
        (first_column documents.now.entries)) }
{
    for (doc, document) in documents {
        push_document(out, kind, *doc, first_items(document))?;
    }
    Ok(())
}
