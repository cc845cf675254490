//! The documents of an image, read for a save or a summary.

ghost use Rattle.std.specs.Prelude.{◌≡◌, ◌≤◌, ◌<◌, ◌^◌, Some, length, slice_get, slice_index, IfOk};
ghost use Rattle.image_format.specs.Images.{root_words, table_of, IsLawfulImage};
ghost use Rattle.image_format.specs.Shapes.{shape_of, types_of};
ghost use Rattle.index_model.specs.Columns.{column_of};
ghost use Rattle.attr_types.specs.declared.field.TheConstants.{MOST_FIELDS};

use crate::reading::documents_in;
use arena_api::Frozen;
use attr_types::{Doc, Field, FieldItems, Fields};
use entry_ref::EntryRef;
use std::alloc::{AllocError, Global};
use std::collections::BTreeMap;

/// Returns the root in word `i` of the root record.
fn root_at<const OFFSET_BITS: u32, F: Frozen<OFFSET_BITS>>(
    frozen: &mut F,
    root: EntryRef<OFFSET_BITS>,
    i: u32,
) -> EntryRef<OFFSET_BITS>
    requires there { 0 < root → i < length (F.records frozen.old root) }
    requires small { slice_index (root_words (F.records frozen.old) root) i < 2 ^ 32 }
    ensures root { result ≡ slice_index (root_words (F.records frozen.old) root.entry) i }
    ensures same { frozen.new ≡ frozen.old }
{
    if root.valid() {
        EntryRef::from_raw(frozen.word(root, i) as u32)
    } else {
        EntryRef::from_raw(0)
    }
}

/// Returns the documents of an image of these attributes, each with its items in the first attribute.
pub fn first_documents<const OFFSET_BITS: u32, F: Frozen<OFFSET_BITS>>(
    alloc: Global,
    frozen: &mut F,
    root: EntryRef<OFFSET_BITS>,
    _fields: &Fields,
    field: &Field,
) -> Result<BTreeMap<Doc, FieldItems>, AllocError>
    requires few { length _fields.now ≤ MOST_FIELDS }
    requires first { slice_get _fields.now 0 ≡ Some field.now }
    requires shape { F.shape frozen.old ≡ shape_of (types_of _fields.now) }
    requires image { IsLawfulImage (F.shape frozen.old) (F.records frozen.old) root }
    ensures column { IfOk result (λ documents. column_of 0 documents.entries
        ≡ column_of 0 (table_of (F.shape frozen.old) (F.records frozen.old) root.entry)) }
    ensures same { frozen.new ≡ frozen.old }
{
    let tree = root_at(frozen, root, 1);
    documents_in(alloc, frozen, field.kind, field.value, tree)
}
