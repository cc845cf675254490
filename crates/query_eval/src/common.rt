//! An `And` of values, by their lists.
ghost use Rattle.std.specs.Prelude.{◌≡◌, ◌<◌, ◌&&◌, ℕ, length, IfOk, IfSome};
ghost use Rattle.std.specs.Map.{keys_of};
ghost use Rattle.image_format.specs.Postings.{postings_at, tree, IsPostingList};
ghost use Rattle.index_model.specs.Postings.{HaveDocNumbers};
ghost use Rattle.index_model.specs.Sets.{has};
ghost use Rattle.query_eval.specs.Indexes.{AreCommon, AreIndexed, indexes_in};
ghost use Rattle.query_eval.specs.Lists.{all_have, AreInBoth, AreListWords};
ghost use Rattle.query_eval.specs.Weights.{IsListWord};

use crate::dictionary::Dictionary;
use crate::kept::keep_marked;
use crate::lists::{gather_list, keep_list};
use crate::marks::marks_of_tree;
use crate::members::{are_vectors, lists_of, word_of_member};
use crate::sizes::size_of_list;
use crate::vectors::common_of_vectors;
use arena_api::Frozen;
use attr_types::{DocList, Leaf, Query};
use entry_ref::EntryRef;
use image_format::FIRST_VECTOR;
use index_model::Gathered;
use std::alloc::{AllocError, Global};

/// Returns the documents that are in both trees, by a bit vector of the first. Returns `None` if the bit vector would
/// need many more words than there are documents.
fn common_in_trees<const OFFSET_BITS: u32, F: Frozen<OFFSET_BITS>>(
    alloc: Global,
    frozen: &mut F,
    first: EntryRef<OFFSET_BITS>,
    second: EntryRef<OFFSET_BITS>,
) -> Result<Option<DocList>, AllocError>
    requires first { IsPostingList (F.records frozen.old) (tree first) }
    requires documents { HaveDocNumbers (postings_at (F.records frozen.old) (tree first)) }
    requires second { IsPostingList (F.records frozen.old) (tree second) }
    requires others { HaveDocNumbers (postings_at (F.records frozen.old) (tree second)) }
    ensures common { IfOk result (λ common. IfSome common (λ docs. (doc : ℕ) → has docs doc
        ≡ (has (keys_of (postings_at (F.records frozen.old) (tree first.entry))) doc
        && has (keys_of (postings_at (F.records frozen.old) (tree second.entry))) doc))) }
    ensures same { frozen.new ≡ frozen.old }
{
    let Some(marks) = marks_of_tree(alloc, frozen, first)? else {
        return Ok(None);
    };
    let common = keep_marked(alloc, frozen, second, marks)?;
    Ok(Some(common))
}

/// Returns the documents that are in both lists, if both are trees. Returns `None` if one is not, or if the first
/// gets no bit vector.
fn common_by_marks<const OFFSET_BITS: u32, F: Frozen<OFFSET_BITS>>(
    alloc: Global,
    frozen: &mut F,
    first: u64,
    second: u64,
) -> Result<Option<DocList>, AllocError>
    requires first { IsListWord (F.records frozen.old) (Some first) }
    requires second { IsListWord (F.records frozen.old) (Some second) }
    ensures common { IfOk result (λ common. IfSome common (AreInBoth (F.records frozen.old) first second)) }
    ensures same { frozen.new ≡ frozen.old }
{
    if first >= FIRST_VECTOR || first % 2 == 0 {
        return Ok(None);
    }
    if second >= FIRST_VECTOR || second % 2 == 0 {
        return Ok(None);
    }
    common_in_trees(
        alloc,
        frozen,
        EntryRef::from_raw((first / 2) as u32),
        EntryRef::from_raw((second / 2) as u32),
    )
}

/// Returns the documents that are in both lists. The second must not be shorter.
fn common_in_order<const OFFSET_BITS: u32, F: Frozen<OFFSET_BITS>>(
    alloc: Global,
    frozen: &mut F,
    first: u64,
    second: u64,
) -> Result<DocList, AllocError>
    requires first { IsListWord (F.records frozen.old) (Some first) }
    requires second { IsListWord (F.records frozen.old) (Some second) }
    ensures common { IfOk result (AreInBoth (F.records frozen.old) first second) }
    ensures same { frozen.new ≡ frozen.old }
{
    if let Some(common) = common_by_marks(alloc, frozen, first, second)? {
        return Ok(common);
    }
    let own = gather_list(alloc, frozen, first, Gathered::new(alloc))?;
    let docs = own.into_list(alloc)?;
    keep_list(alloc, frozen, second, &docs)
}

/// Returns the documents that are in both lists, given the words that a dictionary stores for them.
fn common_of_lists<const OFFSET_BITS: u32, F: Frozen<OFFSET_BITS>>(
    alloc: Global,
    frozen: &mut F,
    one: u64,
    other: u64,
) -> Result<DocList, AllocError>
    requires one { IsListWord (F.records frozen.old) (Some one) }
    requires other { IsListWord (F.records frozen.old) (Some other) }
    ensures common { IfOk result (AreInBoth (F.records frozen.old) one other) }
    ensures same { frozen.new ≡ frozen.old }
{
    if one >= FIRST_VECTOR && other >= FIRST_VECTOR {
        return common_of_vectors(alloc, frozen, one, &[other]);
    }
    if size_of_list(frozen, other) < size_of_list(frozen, one) {
        common_in_order(alloc, frozen, other, one)
    } else {
        common_in_order(alloc, frozen, one, other)
    }
}

/// Returns the documents that are in all of the lists, if all are bit vectors.
fn common_of_all<const OFFSET_BITS: u32, F: Frozen<OFFSET_BITS>>(
    alloc: Global,
    frozen: &mut F,
    lists: &[u64],
) -> Result<Option<DocList>, AllocError>
    requires { AreListWords (F.records frozen.old) lists.now }
    ensures docs { IfOk result (λ common. IfSome common (λ docs. (0 < length lists.now)
        × ((doc : ℕ) → has docs doc ≡ all_have (F.records frozen.old) lists.now doc))) }
    ensures same { frozen.new ≡ frozen.old }
{
    if lists.is_empty() || !are_vectors(lists) {
        return Ok(None);
    }
    let common = common_of_vectors(alloc, frozen, lists[0], &lists[1..])?;
    Ok(Some(common))
}

/// Returns the documents that several members match, if each is one value and all of their lists are bit vectors.
fn common_of_many<const OFFSET_BITS: u32, F: Frozen<OFFSET_BITS>>(
    alloc: Global,
    frozen: &mut F,
    dictionaries: &[Dictionary<OFFSET_BITS>],
    queries: &[Query],
) -> Result<Option<DocList>, AllocError>
    requires { AreIndexed OFFSET_BITS (F.records frozen.old) dictionaries.now }
    ensures docs { IfOk result (λ common. IfSome common (λ docs.
        AreCommon docs queries.now (indexes_in OFFSET_BITS (F.records frozen.old) dictionaries.now))) }
    ensures same { frozen.new ≡ frozen.old }
{
    match lists_of(alloc, frozen, dictionaries, queries, FIRST_VECTOR)? {
        Some(lists) => common_of_all(alloc, frozen, lists.as_slice()),
        None => Ok(None),
    }
}

fn is_one_value(query: &Query) -> bool {
    match query {
        Query::One { field: _, leaf } => match leaf {
            Leaf::Is(_) => true,
            _ => false,
        },
        _ => false,
    }
}

/// Returns the documents that two members match, if each is one value. Returns `None` if there are other members.
fn common_of_two<const OFFSET_BITS: u32, F: Frozen<OFFSET_BITS>>(
    alloc: Global,
    frozen: &mut F,
    dictionaries: &[Dictionary<OFFSET_BITS>],
    queries: &[Query],
) -> Result<Option<DocList>, AllocError>
    requires { AreIndexed OFFSET_BITS (F.records frozen.old) dictionaries.now }
    ensures docs { IfOk result (λ common. IfSome common (λ docs.
        AreCommon docs queries.now (indexes_in OFFSET_BITS (F.records frozen.old) dictionaries.now))) }
    ensures same { frozen.new ≡ frozen.old }
{
    let [one, other] = queries else {
        return Ok(None);
    };
    if !is_one_value(one) {
        return Ok(None);
    }
    if !is_one_value(other) {
        return Ok(None);
    }
    let Some(first) = word_of_member(frozen, dictionaries, one) else {
        return Ok(None);
    };
    let Some(second) = word_of_member(frozen, dictionaries, other) else {
        return Ok(None);
    };
    let common = common_of_lists(alloc, frozen, first, second)?;
    Ok(Some(common))
}

/// Returns the documents that all members match, if each is one value. Returns `None` if there are other members, or
/// if there are more than two and not all of their lists are bit vectors.
pub fn common_of_values<const OFFSET_BITS: u32, F: Frozen<OFFSET_BITS>>(
    alloc: Global,
    frozen: &mut F,
    dictionaries: &[Dictionary<OFFSET_BITS>],
    queries: &[Query],
) -> Result<Option<DocList>, AllocError>
    requires { AreIndexed OFFSET_BITS (F.records frozen.old) dictionaries.now }
    ensures docs { IfOk result (λ common. IfSome common (λ docs.
        AreCommon docs queries.now (indexes_in OFFSET_BITS (F.records frozen.old) dictionaries.now))) }
    ensures same { frozen.new ≡ frozen.old }
{
    if queries.len() > 2 {
        common_of_many(alloc, frozen, dictionaries, queries)
    } else {
        common_of_two(alloc, frozen, dictionaries, queries)
    }
}
