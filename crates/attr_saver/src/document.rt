//! Reading the fields of a document, and all fields of a save.
ghost use Rattle.std.specs.Prelude.{◌≡◌, ◌≤◌, IfOk};
ghost use Rattle.attr_saver.specs.Answers.{Gives};
ghost use Rattle.attr_saver.specs.Fields.{kind_of, read_kind, type_by_byte, read_type, read_count};
ghost use Rattle.attr_saver.specs.Fields.{read_doc, most_by_kind, read_item_count, read_document, read_documents, read_fields};

use crate::error::Broken;
use crate::reader::Reader;
use crate::saved::{Saved, SavedDocument, SavedTable};
use crate::value::read_items;
use attr_types::{Doc, Kind, MOST_ITEMS, ValueType};
use std::alloc::Global;

fn kind_of(byte: u8) -> Option<Kind>
    ensures { result ≡ kind_of byte }
{
    match byte {
        0 => Some(Kind::Single),
        1 => Some(Kind::Array),
        2 => Some(Kind::WeightedSet),
        _ => None,
    }
}

#[tactic(auto, unfolding(crate::specs::Fields::read_kind))]
fn read_kind(reader: &mut Reader) -> Result<Kind, Broken>
    ensures { Gives (λ x. (x, reader.new)) result (read_kind reader.old) }
{
    let left = reader.left();
    let byte = reader.u8()?;
    match kind_of(byte) {
        Some(kind) => Ok(kind),
        None => Err(Broken::Field { left }),
    }
}

fn type_of(byte: u8) -> Option<ValueType>
    ensures { result ≡ type_by_byte byte }
{
    match byte {
        0 => Some(ValueType::Long),
        1 => Some(ValueType::Text),
        _ => None,
    }
}

#[tactic(auto, unfolding(crate::specs::Fields::read_type))]
fn read_type(reader: &mut Reader) -> Result<ValueType, Broken>
    ensures { Gives (λ x. (x, reader.new)) result (read_type reader.old) }
{
    let left = reader.left();
    let byte = reader.u8()?;
    match type_of(byte) {
        Some(value_type) => Ok(value_type),
        None => Err(Broken::Field { left }),
    }
}

/// Reads the number of documents that follow.
#[tactic(auto, unfolding(crate::specs::Fields::read_count))]
fn read_count(reader: &mut Reader) -> Result<u32, Broken>
    ensures { Gives (λ x. (x, reader.new)) result (read_count reader.old) }
{
    let left = reader.left();
    let count = reader.u32()?;
    if Doc::LAST < count {
        return Err(Broken::Field { left });
    }
    Ok(count)
}

/// Reads the number of a document, which must be above `before`.
#[tactic(auto, unfolding(crate::specs::Fields::read_doc))]
fn read_doc(reader: &mut Reader, before: u32) -> Result<Doc, Broken>
    ensures { Gives (λ x. (x, reader.new)) result (read_doc before reader.old) }
{
    let left = reader.left();
    let number = reader.u32()?;
    if number <= before || Doc::LAST < number {
        return Err(Broken::Field { left });
    }
    Ok(Doc::new(number))
}

fn most_items(kind: Kind) -> u16
    ensures { result ≡ most_by_kind kind }
{
    match kind {
        Kind::Single => 1,
        Kind::Array | Kind::WeightedSet => MOST_ITEMS as u16,
    }
}

/// Reads the number of items of a document.
#[tactic(auto, unfolding(crate::specs::Fields::read_item_count))]
fn read_item_count(reader: &mut Reader, kind: Kind) -> Result<u16, Broken>
    ensures { Gives (λ x. (x, reader.new)) result (read_item_count kind reader.old) }
{
    let left = reader.left();
    let count = reader.u16()?;
    if most_items(kind) < count {
        return Err(Broken::Field { left });
    }
    Ok(count)
}

/// Reads a document, whose number must be above `before`.
#[tactic(auto, unfolding(crate::specs::Fields::read_document))]
fn read_document(
    alloc: Global,
    reader: &mut Reader,
    kind: Kind,
    value_type: ValueType,
    before: u32,
) -> Result<SavedDocument, Broken>
    ensures { Gives (λ x. (x, reader.new)) result (read_document kind value_type before reader.old) }
{
    let doc = read_doc(reader, before)?;
    let count = read_item_count(reader, kind)?;
    let items = read_items(alloc, reader, kind, value_type, count)?;
    Ok(SavedDocument { doc, items })
}

fn read_documents(
    alloc: Global,
    reader: &mut Reader,
    kind: Kind,
    value_type: ValueType,
    count: u32,
) -> Result<SavedTable, Broken>
    ensures { Gives (λ x. (x, reader.new)) result (read_documents kind value_type count 0 reader.old) }
{
    let mut documents = Vec::new(alloc);
    let mut before = 0;
    for _ in 0..count {
        let document = read_document(alloc, reader, kind, value_type, before)?;
        before = document.doc.number();
        documents.push(document)?;
    }
    Ok(SavedTable::from_vec(documents))
}

/// Reads all of the bytes as a save.
#[tactic(auto, unfolding(crate::specs::Fields::read_fields))]
pub(crate) fn saved_in_bytes(alloc: Global, bytes: &[u8]) -> Result<Saved, Broken>
    ensures { Gives (λ x. x) result (read_fields bytes.now) }
{
    let mut reader = Reader::new(bytes);
    reader.magic()?;
    let kind = read_kind(&mut reader)?;
    let value = read_type(&mut reader)?;
    let operations = reader.u32()?;
    let count = read_count(&mut reader)?;
    let table = read_documents(alloc, &mut reader, kind, value, count)?;
    let left = reader.left();
    if left != 0 {
        return Err(Broken::Field { left });
    }
    Ok(Saved {
        kind,
        value,
        operations,
        table,
    })
}
