//! The documents of an image from a number on.
ghost use Rattle.std.specs.Prelude.{◌≡◌, ◌≤◌, length, take, IfOk};
ghost use Rattle.std.specs.List.{AllByRecursion};
ghost use Rattle.std.specs.Map.{keys_of};
ghost use Rattle.tree_read.specs.SearchPlaces.{IsAt, pairs_from};
ghost use Rattle.tree_read.specs.Trees.{tree_pairs};
ghost use Rattle.doc_vector.specs.Documents.{IsDocumentMap, IsDocumentPair};
ghost use Rattle.image_format.specs.Images.{table_of, IsLawfulImage};
ghost use Rattle.image_format.specs.Shapes.{shape_of, types_of};
ghost use Rattle.attr_types.specs.declared.field.TheConstants.{MOST_FIELDS};
ghost use Rattle.result_model.specs.Values as model;

use arena_api::Frozen;
use attr_types::{Doc, DocList, Field, Fields};
use entry_ref::EntryRef;
use frozen_btree::{Cursor, NumberKey};
use query_eval::root_at;
use std::alloc::{AllocError, Global};

/// Returns the root of a tree that has all documents.
fn documents_root<const OFFSET_BITS: u32, F: Frozen<OFFSET_BITS>>(
    frozen: &mut F,
    root: EntryRef<OFFSET_BITS>,
    fields: &[Field],
) -> EntryRef<OFFSET_BITS>
    requires few { length fields.now ≤ MOST_FIELDS }
    requires shape { F.shape frozen.old ≡ shape_of (types_of fields.now) }
    requires image { IsLawfulImage (F.shape frozen.old) (F.records frozen.old) root }
    ensures map { IsDocumentMap (F.records frozen.old) result }
    ensures keys { keys_of (tree_pairs (F.records frozen.old) result) ≡ keys_of (table_of (F.shape frozen.old) (F.records frozen.old) root.entry) }
    ensures same { frozen.new ≡ frozen.old }
{
    match fields.get(0) {
        Some(_) => root_at(frozen, root, 1),
        None => EntryRef::from_raw(0),
    }
}

/// Returns the first `count` documents from the cursor on.
fn documents_along<const OFFSET_BITS: u32, F: Frozen<OFFSET_BITS>>(
    alloc: Global,
    frozen: &mut F,
    cursor: &mut Cursor<OFFSET_BITS>,
    count: usize,
) -> Result<DocList, AllocError>
    requires at { IsAt (F.records frozen.old) cursor.old }
    requires pairs { AllByRecursion IsDocumentPair (pairs_from (F.records frozen.old) cursor.old) }
    ensures docs { IfOk result (λ docs. docs ≡ take count (keys_of (pairs_from (F.records frozen.old) cursor.old))) }
    ensures same { frozen.new ≡ frozen.old }
{
    let mut docs = DocList::new(alloc);
    let mut left = count;
    while left > 0 {
        if cursor.at_end() {
            return Ok(docs);
        }
        docs.push(Doc::new(cursor.key() as u32))?;
        cursor.next(frozen);
        left -= 1;
    }
    Ok(docs)
}

/// Returns the documents that are not below `first`, ascending: at most `count`. Any number may be asked for.
pub fn documents_from<const OFFSET_BITS: u32, F: Frozen<OFFSET_BITS>>(
    alloc: Global,
    frozen: &mut F,
    root: EntryRef<OFFSET_BITS>,
    fields: &Fields,
    first: u32,
    count: usize,
) -> Result<DocList, AllocError>
    requires few { length fields.now ≤ MOST_FIELDS }
    requires shape { F.shape frozen.old ≡ shape_of (types_of fields.now) }
    requires image { IsLawfulImage (F.shape frozen.old) (F.records frozen.old) root }
    ensures docs { IfOk result (λ docs. docs
        ≡ model.documents_from first count (table_of (F.shape frozen.old) (F.records frozen.old) root.entry)) }
    ensures same { frozen.new ≡ frozen.old }
{
    let tree = documents_root(frozen, root, fields.as_slice());
    let mut cursor = Cursor::seek(frozen, tree, &NumberKey(u64::from(first)));
    documents_along(alloc, frozen, &mut cursor, count)
}
