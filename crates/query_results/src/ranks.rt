//! Documents in the order of their values.
ghost use Rattle.std.specs.Prelude.{◌≡◌, ◌≤◌, ℕ, List, Option, length, map, take, drop, IfOk};
ghost use Rattle.image_format.specs.Images.{table_of, IsLawfulImage};
ghost use Rattle.image_format.specs.Shapes.{shape_of, types_of};
ghost use Rattle.attr_types.specs.declared.field.TheConstants.{MOST_FIELDS};
ghost use Rattle.attr_types.specs.declared.value.Value.{Value};
ghost use Rattle.result_model.specs.Orders as model;
ghost use Rattle.result_model.specs.declared.direction.Direction.{Direction};
ghost use Rattle.result_model.specs.declared.direction.Direction.TheVariants.{Ascending};
ghost use Rattle.query_results.specs.Attributes.{value_in, HasDocuments};
ghost use Rattle.query_results.specs.Ranks.{place_of, ranked};
ghost use Rattle.query_results.specs.Walks.{IsWalk};

use crate::attribute::{Attribute, attribute_of};
use crate::dictionary_order::sorted_by_dictionary;
use crate::items::next_value;
use crate::orders::{put_in_order, window};
use crate::walks::{Walk, walk_of};
use arena_api::Frozen;
use attr_types::{Doc, DocList, Fields, Value};
use entry_ref::EntryRef;
use query_eval::documents;
use result_model::Direction;
use std::alloc::{AllocError, Global};
use std::cmp::Reverse;

/// About how many postings are passed while one document is read.
const POSTINGS_PER_DOCUMENT: usize = 4;

/// Where a value is in an order of values.
#[derive(Drop, PartialEq, Eq, PartialOrd, Ord)]
pub enum Place {
    Up(Value),
    Down(Reverse<Value>),
    Last,
}

/// A document with the place of its value.
#[derive(Drop, PartialEq, Eq, PartialOrd, Ord)]
pub struct Ranked {
    pub place: Place,
    pub doc: Doc,
}

/// Returns the place of a value in a direction, or the last place.
fn place_in(direction: Direction, value: Option<Value>) -> Place
    ensures { result ≡ place_of direction value }
{
    match value {
        Some(value) => match direction {
            Direction::Ascending => Place::Up(value),
            Direction::Descending => Place::Down(Reverse(value)),
        },
        None => Place::Last,
    }
}

/// Returns a document with its place, at the next step of a walk.
fn next_ranked<const OFFSET_BITS: u32, F: Frozen<OFFSET_BITS>>(
    alloc: Global,
    frozen: &mut F,
    attribute: &Attribute<OFFSET_BITS>,
    direction: Direction,
    walk: &mut Walk<OFFSET_BITS>,
    doc: Doc,
) -> Result<Ranked, AllocError>
    requires documents { HasDocuments OFFSET_BITS (F.records frozen.old) attribute.now }
    requires walk { IsWalk (F.records frozen.old) attribute.now.documents walk.old }
    ensures ranked { IfOk result (λ found. found ≡ ranked direction (value_in OFFSET_BITS (F.records frozen.old) attribute.now doc, doc)) }
    ensures walk { IsWalk (F.records frozen.old) attribute.now.documents walk.new }
    ensures same { frozen.new ≡ frozen.old }
{
    let value = next_value(alloc, frozen, attribute, walk, doc)?;
    Ok(Ranked {
        place: place_in(direction, value),
        doc,
    })
}

/// Returns these documents with the places of their values in an attribute.
fn ranked_along<const OFFSET_BITS: u32, F: Frozen<OFFSET_BITS>>(
    alloc: Global,
    frozen: &mut F,
    attribute: &Attribute<OFFSET_BITS>,
    direction: Direction,
    docs: &[Doc],
) -> Result<Vec<Ranked>, AllocError>
    requires { HasDocuments OFFSET_BITS (F.records frozen.old) attribute.now }
    ensures ranked { IfOk result (λ list. list.items
        ≡ map (λ (doc : ℕ). ranked direction (value_in OFFSET_BITS (F.records frozen.old) attribute.now doc, doc)) docs.now) }
    ensures same { frozen.new ≡ frozen.old }
{
    let mut list = Vec::new(alloc);
    let mut walk = walk_of(frozen, attribute.documents);
    for doc in docs {
        let ranked = next_ranked(alloc, frozen, attribute, direction, &mut walk, *doc)?;
        list.push(ranked)?;
    }
    Ok(list)
}

/// Returns the documents of keys.
fn docs_of(alloc: Global, list: &[Ranked]) -> Result<DocList, AllocError>
    ensures { IfOk result (λ docs. docs ≡ map (λ key. key.doc) list.now) }
{
    let mut docs = DocList::new(alloc);
    for ranked in list {
        docs.push(ranked.doc)?;
    }
    Ok(docs)
}

/// Returns documents by their places: `count` of them after the first `from`.
fn in_order_of(
    alloc: Global,
    list: Vec<Ranked>,
    from: usize,
    count: usize,
) -> Result<DocList, AllocError>
    ensures { IfOk result (λ docs. (direction : Direction) (keys : List (Option Value × ℕ)) → list.items ≡ map (ranked direction) keys
        → docs ≡ take count (drop from (map (λ k. k.1) (model.in_order (model.by_value_then_document direction) keys)))) }
{
    let mut list = list;
    put_in_order(&mut list);
    docs_of(alloc, window(list.as_slice(), from, count))
}

/// Returns what `sorted` does: each document is read.
fn sorted_along<const OFFSET_BITS: u32, F: Frozen<OFFSET_BITS>>(
    alloc: Global,
    frozen: &mut F,
    root: EntryRef<OFFSET_BITS>,
    fields: &Fields,
    field: u32,
    direction: Direction,
    docs: &DocList,
    from: usize,
    count: usize,
) -> Result<DocList, AllocError>
    requires few { length fields.now ≤ MOST_FIELDS }
    requires shape { F.shape frozen.old ≡ shape_of (types_of fields.now) }
    requires image { IsLawfulImage (F.shape frozen.old) (F.records frozen.old) root }
    ensures sorted { IfOk result (λ list. list
        ≡ model.sorted field direction docs.now from count (table_of (F.shape frozen.old) (F.records frozen.old) root.entry)) }
    ensures same { frozen.new ≡ frozen.old }
{
    let attribute = attribute_of(frozen, root, fields.as_slice(), field);
    let list = ranked_along(alloc, frozen, &attribute, direction, docs.as_slice())?;
    in_order_of(alloc, list, from, count)
}

/// Returns whether a page of so many documents is found faster by the dictionary than by reading each document: the walk
/// passes about as many postings for each document of the page as there are documents for each given one.
fn stops_early<const OFFSET_BITS: u32, F: Frozen<OFFSET_BITS>>(
    frozen: &mut F,
    root: EntryRef<OFFSET_BITS>,
    given: usize,
    page: usize,
) -> bool
    requires { IsLawfulImage (F.shape frozen.old) (F.records frozen.old) root }
    ensures same { frozen.new ≡ frozen.old }
{
    let passed = documents(frozen, root) as usize / given.max(1) + 1;
    page.saturating_mul(passed) / POSTINGS_PER_DOCUMENT <= given
}

/// Returns what `sorted` does, ascending.
fn sorted_up<const OFFSET_BITS: u32, F: Frozen<OFFSET_BITS>>(
    alloc: Global,
    frozen: &mut F,
    root: EntryRef<OFFSET_BITS>,
    fields: &Fields,
    field: u32,
    docs: &DocList,
    from: usize,
    count: usize,
) -> Result<DocList, AllocError>
    requires few { length fields.now ≤ MOST_FIELDS }
    requires shape { F.shape frozen.old ≡ shape_of (types_of fields.now) }
    requires image { IsLawfulImage (F.shape frozen.old) (F.records frozen.old) root }
    ensures sorted { IfOk result (λ list. list
        ≡ model.sorted field Ascending docs.now from count (table_of (F.shape frozen.old) (F.records frozen.old) root.entry)) }
    ensures same { frozen.new ≡ frozen.old }
{
    if !stops_early(
        frozen,
        root,
        docs.as_slice().len(),
        from.saturating_add(count),
    ) {
        return sorted_along(
            alloc,
            frozen,
            root,
            fields,
            field,
            Direction::Ascending,
            docs,
            from,
            count,
        );
    }
    match sorted_by_dictionary(alloc, frozen, root, fields, field, docs, from, count)? {
        Some(list) => Ok(list),
        None => sorted_along(
            alloc,
            frozen,
            root,
            fields,
            field,
            Direction::Ascending,
            docs,
            from,
            count,
        ),
    }
}

/// Returns these documents by their values in the attribute with this number, and then by their numbers: `count` of
/// them after the first `from`. Documents without a value are last in both directions. It is fastest if the documents
/// ascend.
pub fn sorted<const OFFSET_BITS: u32, F: Frozen<OFFSET_BITS>>(
    alloc: Global,
    frozen: &mut F,
    root: EntryRef<OFFSET_BITS>,
    fields: &Fields,
    field: u32,
    direction: Direction,
    docs: &DocList,
    from: usize,
    count: usize,
) -> Result<DocList, AllocError>
    requires few { length fields.now ≤ MOST_FIELDS }
    requires shape { F.shape frozen.old ≡ shape_of (types_of fields.now) }
    requires image { IsLawfulImage (F.shape frozen.old) (F.records frozen.old) root }
    ensures sorted { IfOk result (λ list. list
        ≡ model.sorted field direction docs.now from count (table_of (F.shape frozen.old) (F.records frozen.old) root.entry)) }
    ensures same { frozen.new ≡ frozen.old }
{
    match direction {
        Direction::Ascending => sorted_up(alloc, frozen, root, fields, field, docs, from, count),
        Direction::Descending => sorted_along(
            alloc, frozen, root, fields, field, direction, docs, from, count,
        ),
    }
}
