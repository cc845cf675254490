//! Groups of documents by their values.
ghost use Rattle.std.specs.Prelude.{◌≡◌, ◌≤◌, ℕ, length, take, IfOk};
ghost use Rattle.std.specs.List.{flat_map};
ghost use Rattle.image_format.specs.Images.{table_of, IsLawfulImage};
ghost use Rattle.image_format.specs.Shapes.{shape_of, types_of};
ghost use Rattle.attr_types.specs.Value.{value_cmp, values_of};
ghost use Rattle.attr_types.specs.declared.field.TheConstants.{MOST_FIELDS};
ghost use Rattle.index_model.specs.Columns.{items_of};
ghost use Rattle.result_model.specs.Groups as model;
ghost use Rattle.result_model.specs.Orders.{in_order};
ghost use Rattle.query_results.specs.Attributes.{column_in, HasDocuments};
ghost use Rattle.query_results.specs.Walks.{IsWalk};

use crate::attribute::{Attribute, attribute_of};
use crate::dictionary_groups::groups_by_dictionary;
use crate::group_keys::largest_of;
use crate::items::next_items;
use crate::runs::{distinct_in, groups_in};
use crate::walks::{Walk, walk_of};
use arena_api::Frozen;
use attr_types::{Doc, DocList, Fields, Value};
use entry_ref::EntryRef;
use query_eval::documents;
use result_model::Groups;
use std::alloc::{AllocError, Global};

/// About how many postings are counted while one document is read.
const POSTINGS_PER_DOCUMENT: usize = 8;

/// Returns the distinct values of a document, at the next step of a walk.
fn next_distinct<const OFFSET_BITS: u32, F: Frozen<OFFSET_BITS>>(
    alloc: Global,
    frozen: &mut F,
    attribute: &Attribute<OFFSET_BITS>,
    walk: &mut Walk<OFFSET_BITS>,
    doc: Doc,
) -> Result<Vec<Value>, AllocError>
    requires documents { HasDocuments OFFSET_BITS (F.records frozen.old) attribute.now }
    requires walk { IsWalk (F.records frozen.old) attribute.now.documents walk.old }
    ensures values { IfOk result (λ values. values.items
        ≡ in_order value_cmp (values_of (items_of (column_in OFFSET_BITS (F.records frozen.old) attribute.now) doc))) }
    ensures walk { IsWalk (F.records frozen.old) attribute.now.documents walk.new }
    ensures same { frozen.new ≡ frozen.old }
{
    let items = next_items(alloc, frozen, attribute, walk, doc)?;
    distinct_in(alloc, items)
}

/// Returns the distinct values of each of these documents, one document's after another's.
fn distinct_along<const OFFSET_BITS: u32, F: Frozen<OFFSET_BITS>>(
    alloc: Global,
    frozen: &mut F,
    attribute: &Attribute<OFFSET_BITS>,
    docs: &[Doc],
) -> Result<Vec<Value>, AllocError>
    requires { HasDocuments OFFSET_BITS (F.records frozen.old) attribute.now }
    ensures values { IfOk result (λ list. list.items ≡ flat_map
        (λ (doc : ℕ). in_order value_cmp (values_of (items_of (column_in OFFSET_BITS (F.records frozen.old) attribute.now) doc))) docs.now) }
    ensures same { frozen.new ≡ frozen.old }
{
    let mut list = Vec::new(alloc);
    let mut walk = walk_of(frozen, attribute.documents);
    for doc in docs {
        let mut values = next_distinct(alloc, frozen, attribute, &mut walk, *doc)?;
        list.append(&mut values)?;
    }
    Ok(list)
}

/// Returns each distinct value of these documents in the attribute with this number, with how many of the documents
/// have it, by value: each document is read.
fn groups_along<const OFFSET_BITS: u32, F: Frozen<OFFSET_BITS>>(
    alloc: Global,
    frozen: &mut F,
    root: EntryRef<OFFSET_BITS>,
    fields: &Fields,
    field: u32,
    docs: &DocList,
) -> Result<Groups, AllocError>
    requires few { length fields.now ≤ MOST_FIELDS }
    requires shape { F.shape frozen.old ≡ shape_of (types_of fields.now) }
    requires image { IsLawfulImage (F.shape frozen.old) (F.records frozen.old) root }
    ensures groups { IfOk result (λ list. list
        ≡ model.all_groups field docs.now (table_of (F.shape frozen.old) (F.records frozen.old) root.entry)) }
    ensures same { frozen.new ≡ frozen.old }
{
    let attribute = attribute_of(frozen, root, fields.as_slice(), field);
    let values = distinct_along(alloc, frozen, &attribute, docs.as_slice())?;
    groups_in(alloc, values)
}

/// Returns whether so many documents are grouped faster by the dictionary than by reading each.
fn are_many<const OFFSET_BITS: u32, F: Frozen<OFFSET_BITS>>(
    frozen: &mut F,
    root: EntryRef<OFFSET_BITS>,
    count: usize,
) -> bool
    requires { IsLawfulImage (F.shape frozen.old) (F.records frozen.old) root }
    ensures same { frozen.new ≡ frozen.old }
{
    count >= documents(frozen, root) as usize / POSTINGS_PER_DOCUMENT
}

/// Returns each distinct value of these documents in the attribute with this number, with how many of the documents
/// have it, by value.
fn all_groups<const OFFSET_BITS: u32, F: Frozen<OFFSET_BITS>>(
    alloc: Global,
    frozen: &mut F,
    root: EntryRef<OFFSET_BITS>,
    fields: &Fields,
    field: u32,
    docs: &DocList,
) -> Result<Groups, AllocError>
    requires few { length fields.now ≤ MOST_FIELDS }
    requires shape { F.shape frozen.old ≡ shape_of (types_of fields.now) }
    requires image { IsLawfulImage (F.shape frozen.old) (F.records frozen.old) root }
    ensures groups { IfOk result (λ list. list
        ≡ model.all_groups field docs.now (table_of (F.shape frozen.old) (F.records frozen.old) root.entry)) }
    ensures same { frozen.new ≡ frozen.old }
{
    if !are_many(frozen, root, docs.as_slice().len()) {
        return groups_along(alloc, frozen, root, fields, field, docs);
    }
    match groups_by_dictionary(alloc, frozen, root, fields, field, docs)? {
        Some(groups) => Ok(groups),
        None => groups_along(alloc, frozen, root, fields, field, docs),
    }
}

/// Returns the first groups.
fn first_groups(groups: Groups, count: usize) -> Groups
    ensures { result ≡ take count groups }
{
    let mut list = groups.into_vec();
    list.truncate(count);
    Groups::from_vec(list)
}

/// Returns each distinct value of these documents in the attribute with this number, with how many of the documents
/// have it: the first `count` by value. It is fastest if the documents ascend.
pub fn groups<const OFFSET_BITS: u32, F: Frozen<OFFSET_BITS>>(
    alloc: Global,
    frozen: &mut F,
    root: EntryRef<OFFSET_BITS>,
    fields: &Fields,
    field: u32,
    docs: &DocList,
    count: usize,
) -> Result<Groups, AllocError>
    requires few { length fields.now ≤ MOST_FIELDS }
    requires shape { F.shape frozen.old ≡ shape_of (types_of fields.now) }
    requires image { IsLawfulImage (F.shape frozen.old) (F.records frozen.old) root }
    ensures groups { IfOk result (λ list. list
        ≡ model.groups field docs.now count (table_of (F.shape frozen.old) (F.records frozen.old) root.entry)) }
    ensures same { frozen.new ≡ frozen.old }
{
    let groups = all_groups(alloc, frozen, root, fields, field, docs)?;
    Ok(first_groups(groups, count))
}

/// Returns the `count` groups of these documents that have the most of them: the greatest count first, and equal counts
/// by value. It is fastest if the documents ascend.
pub fn largest_groups<const OFFSET_BITS: u32, F: Frozen<OFFSET_BITS>>(
    alloc: Global,
    frozen: &mut F,
    root: EntryRef<OFFSET_BITS>,
    fields: &Fields,
    field: u32,
    docs: &DocList,
    count: usize,
) -> Result<Groups, AllocError>
    requires few { length fields.now ≤ MOST_FIELDS }
    requires shape { F.shape frozen.old ≡ shape_of (types_of fields.now) }
    requires image { IsLawfulImage (F.shape frozen.old) (F.records frozen.old) root }
    ensures groups { IfOk result (λ list. list
        ≡ model.largest_groups field docs.now count (table_of (F.shape frozen.old) (F.records frozen.old) root.entry)) }
    ensures same { frozen.new ≡ frozen.old }
{
    let groups = all_groups(alloc, frozen, root, fields, field, docs)?;
    largest_of(alloc, groups, count)
}
