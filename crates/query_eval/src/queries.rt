//! Queries, by the dictionaries of the attributes.
ghost use Rattle.std.specs.Prelude.{◌≡◌, ◌||◌, ◌&&◌, ℕ, IfOk, slice_get};
ghost use Rattle.attr_types.specs.Query.{tree_of, query_trees, and, or, one};
ghost use Rattle.index_model.specs.Gathers.{is_gathered};
ghost use Rattle.index_model.specs.Sets.{has, Holds};
ghost use Rattle.index_model.specs.Found.{found, found_all, is_listed};
ghost use Rattle.index_model.specs.Leaves.{listed, meeting};
ghost use Rattle.query_eval.specs.Parts.{IsIndexed};
ghost use Rattle.image_format.specs.Postings.{index_of};
ghost use Rattle.query_eval.specs.Indexes.{AreIndexed, AreMatched, IsMatched, indexes_in};

use crate::common::common_of_values;
use crate::dictionary::Dictionary;
use crate::members::{gather_lists, lists_of};
use crate::sizes::shortest_of;
use crate::walks::{gather_every, gather_leaf};
use crate::words::{kept_with, with_value};
use arena_api::Frozen;
use attr_types::{DocList, Leaf, Query};
use index_model::Gathered;
use std::alloc::{AllocError, Global};

/// Adds the documents that have a value in some attribute to those gathered.
fn gather_listed<const OFFSET_BITS: u32, F: Frozen<OFFSET_BITS>>(
    alloc: Global,
    frozen: &mut F,
    dictionaries: &[Dictionary<OFFSET_BITS>],
    gathered: Gathered,
) -> Result<Gathered, AllocError>
    requires { AreIndexed OFFSET_BITS (F.records frozen.old) dictionaries.now }
    ensures docs { IfOk result (λ all. (doc : ℕ) → is_gathered all doc
        ≡ (is_gathered gathered doc || is_listed (indexes_in OFFSET_BITS (F.records frozen.old) dictionaries.now) doc)) }
    ensures same { frozen.new ≡ frozen.old }
{
    let mut all = gathered;
    for dictionary in dictionaries {
        all = gather_every(alloc, frozen, dictionary.root, dictionary.values, all)?;
    }
    Ok(all)
}

/// Adds the documents that meet a leaf, by a dictionary, to those gathered. A single value is looked up; a range of
/// values is walked.
fn gather_meeting<const OFFSET_BITS: u32, F: Frozen<OFFSET_BITS>>(
    alloc: Global,
    frozen: &mut F,
    dictionary: Dictionary<OFFSET_BITS>,
    leaf: &Leaf,
    gathered: Gathered,
) -> Result<Gathered, AllocError>
    requires { IsIndexed dictionary.values (F.records frozen.old) dictionary.root }
    ensures docs { IfOk result (λ all. (doc : ℕ) → is_gathered all doc ≡ (is_gathered gathered doc
        || has (listed (meeting leaf.now (index_of dictionary.entry.values (F.records frozen.old) dictionary.entry.root))) doc)) }
    ensures same { frozen.new ≡ frozen.old }
{
    let Dictionary { root, values } = dictionary;
    match leaf {
        Leaf::Is(value) => with_value(alloc, frozen, root, values, value, gathered),
        _ => gather_leaf(alloc, frozen, root, values, leaf, gathered),
    }
}

/// Adds the documents of a leaf in an attribute to those gathered.
fn gather_one<const OFFSET_BITS: u32, F: Frozen<OFFSET_BITS>>(
    alloc: Global,
    frozen: &mut F,
    dictionaries: &[Dictionary<OFFSET_BITS>],
    field: u32,
    leaf: &Leaf,
    gathered: Gathered,
) -> Result<Gathered, AllocError>
    requires { AreIndexed OFFSET_BITS (F.records frozen.old) dictionaries.now }
    ensures docs { IfOk result (λ all. (doc : ℕ) → is_gathered all doc
        ≡ (is_gathered gathered doc || found (one field leaf.now) (indexes_in OFFSET_BITS (F.records frozen.old) dictionaries.now) doc)) }
    ensures same { frozen.new ≡ frozen.old }
{
    match dictionaries.get(field as usize) {
        Some(dictionary) => gather_meeting(alloc, frozen, *dictionary, leaf, gathered),
        None => Ok(gathered),
    }
}

/// Returns the documents of `docs` that meet a leaf, by a dictionary.
fn kept_meeting<const OFFSET_BITS: u32, F: Frozen<OFFSET_BITS>>(
    alloc: Global,
    frozen: &mut F,
    dictionary: Dictionary<OFFSET_BITS>,
    leaf: &Leaf,
    docs: &DocList,
) -> Result<DocList, AllocError>
    requires { IsIndexed dictionary.values (F.records frozen.old) dictionary.root }
    ensures kept { IfOk result (λ kept. (doc : ℕ) → has kept doc ≡ (has docs.now doc
        && has (listed (meeting leaf.now (index_of dictionary.entry.values (F.records frozen.old) dictionary.entry.root))) doc)) }
    ensures same { frozen.new ≡ frozen.old }
{
    let Dictionary { root, values } = dictionary;
    match leaf {
        Leaf::Is(value) => kept_with(alloc, frozen, root, values, value, docs),
        _ => {
            let own = gather_leaf(alloc, frozen, root, values, leaf, Gathered::new(alloc))?;
            own.kept_of(alloc, docs)
        }
    }
}

/// Returns the documents of `docs` that meet a leaf in an attribute.
fn kept_one<const OFFSET_BITS: u32, F: Frozen<OFFSET_BITS>>(
    alloc: Global,
    frozen: &mut F,
    dictionaries: &[Dictionary<OFFSET_BITS>],
    field: u32,
    leaf: &Leaf,
    docs: &DocList,
) -> Result<DocList, AllocError>
    requires { AreIndexed OFFSET_BITS (F.records frozen.old) dictionaries.now }
    ensures kept { IfOk result (λ kept. (doc : ℕ) → has kept doc
        ≡ (has docs.now doc && found (one field leaf.now) (indexes_in OFFSET_BITS (F.records frozen.old) dictionaries.now) doc)) }
    ensures same { frozen.new ≡ frozen.old }
{
    match dictionaries.get(field as usize) {
        Some(dictionary) => kept_meeting(alloc, frozen, *dictionary, leaf, docs),
        None => Ok(DocList::new(alloc)),
    }
}

/// Adds the documents that a query matches to those gathered.
#[cycle(gathering)]
fn gather<const OFFSET_BITS: u32, F: Frozen<OFFSET_BITS>>(
    alloc: Global,
    frozen: &mut F,
    dictionaries: &[Dictionary<OFFSET_BITS>],
    query: &Query,
    gathered: Gathered,
) -> Result<Gathered, AllocError>
    requires { AreIndexed OFFSET_BITS (F.records frozen.old) dictionaries.now }
    ensures docs { IfOk result (λ all. (doc : ℕ) → is_gathered all doc
        ≡ (is_gathered gathered doc || found (tree_of query.now) (indexes_in OFFSET_BITS (F.records frozen.old) dictionaries.now) doc)) }
    ensures same { frozen.new ≡ frozen.old }
{
    match query {
        Query::One { field, leaf } => gather_one(
            alloc,
            frozen,
            dictionaries,
            *field,
            leaf,
            gathered,
        ),
        Query::And(queries) => gather_and(alloc, frozen, dictionaries, queries, gathered),
        Query::Or(queries) => gather_some(alloc, frozen, dictionaries, queries, gathered),
    }
}

/// Adds the documents that some member matches to those gathered. Values are looked up first, and then their lists
/// are read.
#[cycle(gathering)]
fn gather_some<const OFFSET_BITS: u32, F: Frozen<OFFSET_BITS>>(
    alloc: Global,
    frozen: &mut F,
    dictionaries: &[Dictionary<OFFSET_BITS>],
    queries: &Vec<Query>,
    gathered: Gathered,
) -> Result<Gathered, AllocError>
    requires { AreIndexed OFFSET_BITS (F.records frozen.old) dictionaries.now }
    ensures docs { IfOk result (λ all. (doc : ℕ) → is_gathered all doc
        ≡ (is_gathered gathered doc || found (or (query_trees queries.now.items))
        (indexes_in OFFSET_BITS (F.records frozen.old) dictionaries.now) doc)) }
    ensures same { frozen.new ≡ frozen.old }
{
    match lists_of(alloc, frozen, dictionaries, queries.as_slice(), 0)? {
        Some(lists) => gather_lists(alloc, frozen, lists.as_slice(), gathered),
        None => gather_each(alloc, frozen, dictionaries, queries, gathered),
    }
}

/// Adds the documents that some member matches to those gathered, member by member.
#[cycle(gathering)]
fn gather_each<const OFFSET_BITS: u32, F: Frozen<OFFSET_BITS>>(
    alloc: Global,
    frozen: &mut F,
    dictionaries: &[Dictionary<OFFSET_BITS>],
    queries: &Vec<Query>,
    gathered: Gathered,
) -> Result<Gathered, AllocError>
    requires { AreIndexed OFFSET_BITS (F.records frozen.old) dictionaries.now }
    ensures docs { IfOk result (λ all. (doc : ℕ) → is_gathered all doc
        ≡ (is_gathered gathered doc || found (or (query_trees queries.now.items))
        (indexes_in OFFSET_BITS (F.records frozen.old) dictionaries.now) doc)) }
    ensures same { frozen.new ≡ frozen.old }
{
    let mut all = gathered;
    for query in queries {
        all = gather(alloc, frozen, dictionaries, query, all)?;
    }
    Ok(all)
}

/// Returns the documents that a query matches, ascending.
#[cycle(gathering)]
pub fn matching<const OFFSET_BITS: u32, F: Frozen<OFFSET_BITS>>(
    alloc: Global,
    frozen: &mut F,
    dictionaries: &[Dictionary<OFFSET_BITS>],
    query: &Query,
) -> Result<DocList, AllocError>
    requires { AreIndexed OFFSET_BITS (F.records frozen.old) dictionaries.now }
    ensures docs { IfOk result (λ docs. Holds docs
        (found (tree_of query.now) (indexes_in OFFSET_BITS (F.records frozen.old) dictionaries.now))) }
    ensures same { frozen.new ≡ frozen.old }
{
    let all = gather(alloc, frozen, dictionaries, query, Gathered::new(alloc))?;
    all.into_list(alloc)
}

/// Returns the documents of `docs` that member `i` matches. If it is the member that they are known to match, these
/// are all.
#[cycle(gathering)]
fn kept<const OFFSET_BITS: u32, F: Frozen<OFFSET_BITS>>(
    alloc: Global,
    frozen: &mut F,
    dictionaries: &[Dictionary<OFFSET_BITS>],
    query: &Query,
    i: usize,
    known: usize,
    docs: DocList,
) -> Result<DocList, AllocError>
    requires { AreIndexed OFFSET_BITS (F.records frozen.old) dictionaries.now }
    ensures docs { IfOk result (λ kept.
        (i ≡ known → IsMatched docs query.now (indexes_in OFFSET_BITS (F.records frozen.old) dictionaries.now))
        → (doc : ℕ) → has kept doc ≡ (has docs doc
        && found (tree_of query.now) (indexes_in OFFSET_BITS (F.records frozen.old) dictionaries.now) doc)) }
    ensures same { frozen.new ≡ frozen.old }
{
    if i == known {
        return Ok(docs);
    }
    match query {
        Query::One { field, leaf } => kept_one(alloc, frozen, dictionaries, *field, leaf, &docs),
        _ => {
            let own = gather(alloc, frozen, dictionaries, query, Gathered::new(alloc))?;
            own.kept_of(alloc, &docs)
        }
    }
}

/// Adds the documents that all members match to those gathered. Members that are one value each may be answered from
/// their lists.
#[cycle(gathering)]
fn gather_and<const OFFSET_BITS: u32, F: Frozen<OFFSET_BITS>>(
    alloc: Global,
    frozen: &mut F,
    dictionaries: &[Dictionary<OFFSET_BITS>],
    queries: &Vec<Query>,
    gathered: Gathered,
) -> Result<Gathered, AllocError>
    requires { AreIndexed OFFSET_BITS (F.records frozen.old) dictionaries.now }
    ensures docs { IfOk result (λ all. (doc : ℕ) → is_gathered all doc
        ≡ (is_gathered gathered doc || found (and (query_trees queries.now.items))
        (indexes_in OFFSET_BITS (F.records frozen.old) dictionaries.now) doc)) }
    ensures same { frozen.new ≡ frozen.old }
{
    match common_of_values(alloc, frozen, dictionaries, queries.as_slice())? {
        Some(common) => gathered.with_docs(alloc, common.as_slice()),
        None => gather_common(alloc, frozen, dictionaries, queries, gathered),
    }
}

/// Adds the documents that all members match to those gathered. Begins with the member that has the fewest documents,
/// as far as known.
#[cycle(gathering)]
fn gather_common<const OFFSET_BITS: u32, F: Frozen<OFFSET_BITS>>(
    alloc: Global,
    frozen: &mut F,
    dictionaries: &[Dictionary<OFFSET_BITS>],
    queries: &Vec<Query>,
    gathered: Gathered,
) -> Result<Gathered, AllocError>
    requires { AreIndexed OFFSET_BITS (F.records frozen.old) dictionaries.now }
    ensures docs { IfOk result (λ all. (doc : ℕ) → is_gathered all doc
        ≡ (is_gathered gathered doc || found (and (query_trees queries.now.items))
        (indexes_in OFFSET_BITS (F.records frozen.old) dictionaries.now) doc)) }
    ensures same { frozen.new ≡ frozen.old }
{
    let first = shortest_of(frozen, dictionaries, queries.as_slice());
    match queries.as_slice().get(first) {
        Some(query) => {
            let docs = matching(alloc, frozen, dictionaries, query)?;
            let common = keep_common(alloc, frozen, dictionaries, queries, first, docs)?;
            gathered.with_docs(alloc, common.as_slice())
        }
        None => gather_listed(alloc, frozen, dictionaries, gathered),
    }
}

/// Filters `docs` by every member except `known`, which they all match. Stops when none remain.
#[cycle(gathering)]
fn keep_common<const OFFSET_BITS: u32, F: Frozen<OFFSET_BITS>>(
    alloc: Global,
    frozen: &mut F,
    dictionaries: &[Dictionary<OFFSET_BITS>],
    queries: &Vec<Query>,
    known: usize,
    docs: DocList,
) -> Result<DocList, AllocError>
    requires { AreIndexed OFFSET_BITS (F.records frozen.old) dictionaries.now }
    ensures docs { IfOk result (λ common.
        AreMatched docs (slice_get queries.now.items known) (indexes_in OFFSET_BITS (F.records frozen.old) dictionaries.now)
        → (doc : ℕ) → has common doc
        ≡ (has docs doc && found_all (query_trees queries.now.items)
        (indexes_in OFFSET_BITS (F.records frozen.old) dictionaries.now) doc)) }
    ensures same { frozen.new ≡ frozen.old }
{
    let mut common = docs;
    for (i, query) in queries.iter().enumerate() {
        if common.is_empty() {
            return Ok(common);
        }
        common = kept(alloc, frozen, dictionaries, query, i, known, common)?;
    }
    Ok(common)
}
