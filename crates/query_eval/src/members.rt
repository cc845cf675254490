//! The lists of members that are one value each.
ghost use Rattle.std.specs.Prelude.{◌≡◌, ◌≤◌, ◌||◌, ℕ, true, IfOk, IfSome};
ghost use Rattle.std.specs.List.{AllByRecursion};
ghost use Rattle.std.specs.Map.{keys_of};
ghost use Rattle.image_format.specs.Postings.{index_of, list_form, postings_at};
ghost use Rattle.image_format.specs.declared.TheConstants.{FIRST_VECTOR};
ghost use Rattle.index_model.specs.Found.{found};
ghost use Rattle.index_model.specs.Gathers.{is_gathered};
ghost use Rattle.index_model.specs.Leaves.{listed, meeting};
ghost use Rattle.index_model.specs.Sets.{has};
ghost use Rattle.attr_types.specs.Query.{tree_of, one};
ghost use Rattle.query_eval.specs.Indexes.{AreIndexed, indexes_in};
ghost use Rattle.query_eval.specs.Lists.{some_has, AreListWords, AreListsOf};
ghost use Rattle.query_eval.specs.Parts.{IsIndexed};
ghost use Rattle.query_eval.specs.Weights.{IsListWord};

use crate::dictionary::Dictionary;
use crate::lists::gather_list;
use crate::vectors::union_of_vectors;
use crate::words::word_of;
use arena_api::Frozen;
use attr_types::{Leaf, Query};
use image_format::FIRST_VECTOR;
use index_model::Gathered;
use std::alloc::{AllocError, Global};

/// Returns the word of the list of a leaf that is one value.
fn word_of_leaf<const OFFSET_BITS: u32, F: Frozen<OFFSET_BITS>>(
    frozen: &mut F,
    dictionary: Dictionary<OFFSET_BITS>,
    leaf: &Leaf,
) -> Option<u64>
    requires { IsIndexed dictionary.values (F.records frozen.old) dictionary.root }
    ensures form { IsListWord (F.records frozen.old) result }
    ensures docs { IfSome result (λ list. keys_of (postings_at (F.records frozen.old) (list_form list))
        ≡ listed (meeting leaf.now (index_of dictionary.entry.values (F.records frozen.old) dictionary.entry.root))) }
    ensures same { frozen.new ≡ frozen.old }
{
    match leaf {
        Leaf::Is(value) => word_of(frozen, dictionary.root, dictionary.values, value),
        _ => None,
    }
}

/// Returns the word of the list of a leaf that is one value, in an attribute.
fn word_of_one<const OFFSET_BITS: u32, F: Frozen<OFFSET_BITS>>(
    frozen: &mut F,
    dictionaries: &[Dictionary<OFFSET_BITS>],
    field: u32,
    leaf: &Leaf,
) -> Option<u64>
    requires { AreIndexed OFFSET_BITS (F.records frozen.old) dictionaries.now }
    ensures form { IsListWord (F.records frozen.old) result }
    ensures docs { IfSome result (λ list. (doc : ℕ) → has (keys_of (postings_at (F.records frozen.old) (list_form list))) doc
        ≡ found (one field leaf.now) (indexes_in OFFSET_BITS (F.records frozen.old) dictionaries.now) doc) }
    ensures same { frozen.new ≡ frozen.old }
{
    match dictionaries.get(field as usize) {
        Some(dictionary) => word_of_leaf(frozen, *dictionary, leaf),
        None => None,
    }
}

/// Returns the word of the list of a member that is one value.
pub fn word_of_member<const OFFSET_BITS: u32, F: Frozen<OFFSET_BITS>>(
    frozen: &mut F,
    dictionaries: &[Dictionary<OFFSET_BITS>],
    query: &Query,
) -> Option<u64>
    requires { AreIndexed OFFSET_BITS (F.records frozen.old) dictionaries.now }
    ensures form { IsListWord (F.records frozen.old) result }
    ensures docs { IfSome result (λ list. (doc : ℕ) → has (keys_of (postings_at (F.records frozen.old) (list_form list))) doc
        ≡ found (tree_of query.now) (indexes_in OFFSET_BITS (F.records frozen.old) dictionaries.now) doc) }
    ensures same { frozen.new ≡ frozen.old }
{
    match query {
        Query::One { field, leaf } => word_of_one(frozen, dictionaries, *field, leaf),
        _ => None,
    }
}

/// Returns whether a query is one value.
fn is_value(query: &Query) -> bool {
    match query {
        Query::One { field: _, leaf } => match leaf {
            Leaf::Is(_) => true,
            _ => false,
        },
        _ => false,
    }
}

fn are_values(queries: &[Query]) -> bool {
    for query in queries {
        if !is_value(query) {
            return false;
        }
    }
    true
}

/// Returns the words of the lists of members that are one value each. Returns `None` if there are other members, or
/// if a word is below `least`.
pub fn lists_of<const OFFSET_BITS: u32, F: Frozen<OFFSET_BITS>>(
    alloc: Global,
    frozen: &mut F,
    dictionaries: &[Dictionary<OFFSET_BITS>],
    queries: &[Query],
    least: u64,
) -> Result<Option<Vec<u64>>, AllocError>
    requires { AreIndexed OFFSET_BITS (F.records frozen.old) dictionaries.now }
    ensures lists { IfOk result (λ lists. IfSome lists (λ words. AreListsOf (F.records frozen.old) words.items queries.now
        (indexes_in OFFSET_BITS (F.records frozen.old) dictionaries.now))) }
    ensures same { frozen.new ≡ frozen.old }
{
    if !are_values(queries) {
        return Ok(None);
    }
    let mut lists = Vec::new(alloc);
    for query in queries {
        let Some(list) = word_of_member(frozen, dictionaries, query) else {
            return Ok(None);
        };
        if list < least {
            return Ok(None);
        }
        lists.push(list)?;
    }
    Ok(Some(lists))
}

/// Returns whether all lists are bit vectors.
pub fn are_vectors(lists: &[u64]) -> bool
    ensures { result ≡ true → AllByRecursion (λ list. FIRST_VECTOR ≤ list) lists.now }
{
    for list in lists {
        if *list < FIRST_VECTOR {
            return false;
        }
    }
    true
}

/// Adds the documents of each list to those gathered.
fn gather_each<const OFFSET_BITS: u32, F: Frozen<OFFSET_BITS>>(
    alloc: Global,
    frozen: &mut F,
    lists: &[u64],
    gathered: Gathered,
) -> Result<Gathered, AllocError>
    requires { AreListWords (F.records frozen.old) lists.now }
    ensures docs { IfOk result (λ all. (doc : ℕ) → is_gathered all doc
        ≡ (is_gathered gathered doc || some_has (F.records frozen.old) lists.now doc)) }
    ensures same { frozen.new ≡ frozen.old }
{
    let mut all = gathered;
    for list in lists {
        all = gather_list(alloc, frozen, *list, all)?;
    }
    Ok(all)
}

/// Adds the documents of the lists to those gathered. Bit vectors are combined block by block.
pub fn gather_lists<const OFFSET_BITS: u32, F: Frozen<OFFSET_BITS>>(
    alloc: Global,
    frozen: &mut F,
    lists: &[u64],
    gathered: Gathered,
) -> Result<Gathered, AllocError>
    requires { AreListWords (F.records frozen.old) lists.now }
    ensures docs { IfOk result (λ all. (doc : ℕ) → is_gathered all doc
        ≡ (is_gathered gathered doc || some_has (F.records frozen.old) lists.now doc)) }
    ensures same { frozen.new ≡ frozen.old }
{
    if are_vectors(lists) {
        let docs = union_of_vectors(alloc, frozen, lists)?;
        return gathered.with_docs(alloc, docs.as_slice());
    }
    gather_each(alloc, frozen, lists, gathered)
}
