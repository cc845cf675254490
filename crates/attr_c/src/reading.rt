//! The answers of an image.
ghost use Rattle.std.specs.Prelude.{◌≡◌, ◌<◌, ◌≤◌, ◌^◌, Some, length, slice_get, slice_index, IfOk};
ghost use Rattle.image_format.specs.Images.{operations_at, root_words, table_of, IsLawfulImage};
ghost use Rattle.image_format.specs.Shapes.{shape_of, types_of};
ghost use Rattle.attr_saver.specs.Bytes.{saved_bytes};
ghost use Rattle.attr_saver.specs.Lawful.{save_of};
ghost use Rattle.attr_types.specs.Scores.{ask_tree, answer_on};
ghost use Rattle.attr_types.specs.declared.field.TheConstants.{MOST_FIELDS};
ghost use Rattle.attr_c.specs.Said.{said, items_of, save_of_table};

use crate::answer::Answer;
use arena_api::Frozen;
use attr_field::document_items;
use attr_rounds::first_documents;
use attr_saver::{column_law, saved_in};
use attr_types::{Ask, Doc, Field, Fields, Items};
use entry_ref::EntryRef;
use image_format::image_law;
use query_eval::{hits, scores};
use std::alloc::{AllocError, Global};

/// Returns the number of operations of an image.
pub fn operations_in<const OFFSET_BITS: u32, F: Frozen<OFFSET_BITS>>(
    frozen: &mut F,
    root: EntryRef<OFFSET_BITS>,
) -> u32
    requires image { IsLawfulImage (F.shape frozen.old) (F.records frozen.old) root }
    ensures count { result ≡ operations_at (F.records frozen.old) root.entry }
    ensures same { frozen.new ≡ frozen.old }
{
    if root.valid() {
        frozen.word(root, 0) as u32
    } else {
        0
    }
}

/// Returns the answer of an image to an ask.
pub fn answer_at<const OFFSET_BITS: u32, F: Frozen<OFFSET_BITS>>(
    alloc: Global,
    frozen: &mut F,
    root: EntryRef<OFFSET_BITS>,
    fields: &Fields,
    ask: &Ask,
) -> Result<Answer, AllocError>
    requires few { length fields.now ≤ MOST_FIELDS }
    requires shape { F.shape frozen.old ≡ shape_of (types_of fields.now) }
    requires image { IsLawfulImage (F.shape frozen.old) (F.records frozen.old) root }
    ensures answer { IfOk result (λ answer. said answer
        ≡ answer_on (ask_tree ask.now) (table_of (F.shape frozen.old) (F.records frozen.old) root.entry)) }
    ensures same { frozen.new ≡ frozen.old }
{
    match ask {
        Ask::Hits(query) => {
            let docs = hits(alloc, frozen, root, fields, query)?;
            Ok(Answer::Hits(docs))
        }
        Ask::Dot { field, parts } => {
            let list = scores(alloc, frozen, root, fields, *field, parts)?;
            Ok(Answer::Scores(list))
        }
    }
}

/// Returns the root in word `i` of the root record.
fn root_at<const OFFSET_BITS: u32, F: Frozen<OFFSET_BITS>>(
    frozen: &mut F,
    root: EntryRef<OFFSET_BITS>,
    i: u32,
) -> EntryRef<OFFSET_BITS>
    requires there { 0 < root → i < length (F.records frozen.old root) }
    requires small { slice_index (root_words (F.records frozen.old) root) i < 2 ^ 32 }
    ensures root { result ≡ slice_index (root_words (F.records frozen.old) root.entry) i }
    ensures same { frozen.new ≡ frozen.old }
{
    if root.valid() {
        EntryRef::from_raw(frozen.word(root, i) as u32)
    } else {
        EntryRef::from_raw(0)
    }
}

/// Returns the items of a document in the attribute with a number.
pub fn field_items<const OFFSET_BITS: u32, F: Frozen<OFFSET_BITS>>(
    alloc: Global,
    frozen: &mut F,
    root: EntryRef<OFFSET_BITS>,
    fields: &Fields,
    field: u32,
    doc: Doc,
) -> Result<Option<Items>, AllocError>
    requires few { length fields.now ≤ MOST_FIELDS }
    requires shape { F.shape frozen.old ≡ shape_of (types_of fields.now) }
    requires image { IsLawfulImage (F.shape frozen.old) (F.records frozen.old) root }
    ensures items { field < length fields.now → IfOk result (λ found. found
        ≡ items_of field doc (table_of (F.shape frozen.old) (F.records frozen.old) root.entry)) }
    ensures same { frozen.new ≡ frozen.old }
{
    match fields.as_slice().get(field as usize) {
        Some(own) => {
            let tree = root_at(frozen, root, 1 + 2 * field);
            document_items(alloc, frozen, own.kind, own.value, tree, doc)
        }
        None => Ok(None),
    }
}

/// Returns the bytes of a save of the first attribute of an image.
fn first_saved<const OFFSET_BITS: u32, F: Frozen<OFFSET_BITS>>(
    alloc: Global,
    frozen: &mut F,
    root: EntryRef<OFFSET_BITS>,
    fields: &Fields,
    field: &Field,
) -> Result<Vec<u8>, AllocError>
    requires few { length fields.now ≤ MOST_FIELDS }
    requires first { slice_get fields.now 0 ≡ Some field.now }
    requires shape { F.shape frozen.old ≡ shape_of (types_of fields.now) }
    requires image { IsLawfulImage (F.shape frozen.old) (F.records frozen.old) root }
    ensures bytes { IfOk result (λ bytes. bytes.items ≡ saved_bytes (save_of field.now.kind field.now.value
        (operations_at (F.records frozen.old) root.entry) (table_of (F.shape frozen.old) (F.records frozen.old) root.entry))) }
    ensures same { frozen.new ≡ frozen.old }
{
    image_law();
    column_law();
    let operations = operations_in(frozen, root);
    let documents = first_documents(alloc, frozen, root, fields, field)?;
    saved_in(alloc, field.kind, field.value, operations, &documents)
}

/// Returns the bytes of a save of the first attribute of an image, or no bytes if there are no attributes.
pub fn saved_at<const OFFSET_BITS: u32, F: Frozen<OFFSET_BITS>>(
    alloc: Global,
    frozen: &mut F,
    root: EntryRef<OFFSET_BITS>,
    fields: &Fields,
) -> Result<Vec<u8>, AllocError>
    requires few { length fields.now ≤ MOST_FIELDS }
    requires shape { F.shape frozen.old ≡ shape_of (types_of fields.now) }
    requires image { IsLawfulImage (F.shape frozen.old) (F.records frozen.old) root }
    ensures bytes { IfOk result (λ bytes. bytes.items ≡ save_of_table fields.now
        (operations_at (F.records frozen.old) root.entry) (table_of (F.shape frozen.old) (F.records frozen.old) root.entry)) }
    ensures same { frozen.new ≡ frozen.old }
{
    match fields.as_slice() {
        [field, ..] => first_saved(alloc, frozen, root, fields, field),
        [] => Ok(Vec::new(alloc)),
    }
}
