//! Documents in the order of their values by a walk of the dictionary, which stops as soon as enough are found.
ghost use Rattle.std.specs.Prelude.{◌≡◌, ◌≤◌, ◌++◌, ℕ, List, true, filter, take, drop, length, IfOk, IfSome};
ghost use Rattle.attr_types.specs.declared.field.TheConstants.{MOST_FIELDS};
ghost use Rattle.attr_types.specs.declared.kind.Kind.TheVariants.{Single as SingleKind};
ghost use Rattle.image_format.specs.Images.{table_of, IsLawfulImage};
ghost use Rattle.image_format.specs.Postings.{index_of};
ghost use Rattle.image_format.specs.Shapes.{shape_of, types_of};
ghost use Rattle.index_model.specs.Leaves.{listed};
ghost use Rattle.index_model.specs.Sets.{in_words};
ghost use Rattle.query_eval.specs.Parts.{index_of_pairs, AreIndexPairs, IsIndexed};
ghost use Rattle.result_model.specs.Orders as model;
ghost use Rattle.result_model.specs.declared.direction.Direction.TheVariants.{Ascending};
ghost use Rattle.tree_read.specs.SearchPlaces.{pairs_from, IsAt};

use crate::dictionary::dictionary_of;
use crate::hit_set::{push_kept, set_of};
use crate::lists::documents_in;
use crate::orders::window;
use arena_api::Frozen;
use attr_types::{Doc, DocList, Fields, Kind, ValueType};
use entry_ref::EntryRef;
use frozen_btree::Cursor;
use index_model::DocSet;
use std::alloc::{AllocError, Global};

/// Returns the documents of a set by their values, from the cursor on, up to the first value with which they are at
/// least `most`.
fn kept_from<const OFFSET_BITS: u32, F: Frozen<OFFSET_BITS>>(
    alloc: Global,
    frozen: &mut F,
    cursor: &mut Cursor<OFFSET_BITS>,
    value_type: ValueType,
    set: &DocSet,
    most: usize,
) -> Result<Vec<Doc>, AllocError>
    requires at { IsAt (F.records frozen.old) cursor.old }
    requires pairs { AreIndexPairs value_type (F.records frozen.old) (pairs_from (F.records frozen.old) cursor.old) }
    ensures docs { IfOk result (λ docs.
        docs.items ++ filter (in_words set.now) (listed (index_of_pairs value_type (F.records frozen.old) (pairs_from (F.records frozen.old) cursor.new)))
        ≡ filter (in_words set.now) (listed (index_of_pairs value_type (F.records frozen.old) (pairs_from (F.records frozen.old) cursor.old)))) }
    ensures same { frozen.new ≡ frozen.old }
{
    let _ = value_type;
    let mut docs = Vec::new(alloc);
    let mut list = Vec::new(alloc);
    while docs.len() < most {
        if cursor.at_end() {
            return Ok(docs);
        }
        list = documents_in(frozen, cursor.value(), list)?;
        push_kept(&mut docs, list.as_slice(), set)?;
        cursor.next(frozen);
    }
    Ok(docs)
}

/// Returns a part of a list.
fn part_of(alloc: Global, docs: &[Doc], from: usize, count: usize) -> Result<DocList, AllocError>
    ensures { IfOk result (λ part. part ≡ take count (drop from docs.now)) }
{
    let mut part = Vec::new(alloc);
    part.extend_from_slice(window(docs, from, count))?;
    Ok(DocList::from_vec(part))
}

/// Returns the documents of a set by their values: `count` of them after the first `from`. Returns `None` if the values
/// end before.
fn part_by_value<const OFFSET_BITS: u32, F: Frozen<OFFSET_BITS>>(
    alloc: Global,
    frozen: &mut F,
    root: EntryRef<OFFSET_BITS>,
    value_type: ValueType,
    set: &DocSet,
    from: usize,
    count: usize,
) -> Result<Option<DocList>, AllocError>
    requires { IsIndexed value_type (F.records frozen.old) root }
    ensures part { IfOk result (λ found. IfSome found (λ part. (others : List ℕ)
        → part ≡ take count (drop from (filter (in_words set.now) (listed (index_of value_type (F.records frozen.old) root.entry)) ++ others)))) }
    ensures same { frozen.new ≡ frozen.old }
{
    let Some(most) = from.checked_add(count) else {
        return Ok(None);
    };
    let mut cursor = Cursor::first(frozen, root);
    let docs = kept_from(alloc, frozen, &mut cursor, value_type, set, most)?;
    if docs.len() < most {
        return Ok(None);
    }
    Ok(Some(part_of(alloc, docs.as_slice(), from, count)?))
}

fn is_single(kind: Kind) -> bool
    ensures { result ≡ true → kind ≡ SingleKind }
{
    match kind {
        Kind::Single => true,
        Kind::Array => false,
        Kind::WeightedSet => false,
    }
}

/// Returns these documents by their values in the attribute with this number, ascending, and then by their numbers:
/// `count` of them after the first `from`. Returns `None` if the attribute is not single, the documents do not ascend,
/// or the values end before.
pub fn sorted_by_dictionary<const OFFSET_BITS: u32, F: Frozen<OFFSET_BITS>>(
    alloc: Global,
    frozen: &mut F,
    root: EntryRef<OFFSET_BITS>,
    fields: &Fields,
    field: u32,
    docs: &DocList,
    from: usize,
    count: usize,
) -> Result<Option<DocList>, AllocError>
    requires few { length fields.now ≤ MOST_FIELDS }
    requires shape { F.shape frozen.old ≡ shape_of (types_of fields.now) }
    requires image { IsLawfulImage (F.shape frozen.old) (F.records frozen.old) root }
    ensures sorted { IfOk result (λ found. IfSome found (λ list. list
        ≡ model.sorted field Ascending docs.now from count (table_of (F.shape frozen.old) (F.records frozen.old) root.entry))) }
    ensures same { frozen.new ≡ frozen.old }
{
    let dictionary = dictionary_of(frozen, root, fields.as_slice(), field);
    if !is_single(dictionary.kind) {
        return Ok(None);
    }
    let Some(set) = set_of(alloc, docs.as_slice())? else {
        return Ok(None);
    };
    part_by_value(
        alloc,
        frozen,
        dictionary.root,
        dictionary.value_type,
        &set,
        from,
        count,
    )
}
