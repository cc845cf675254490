//! The parts of a dot product, by the lists of their values.
ghost use Rattle.std.specs.Prelude.{◌≡◌, ◌≤◌, ◌||◌, ◌*ℤ◌, ◌^◌, ℕ, List, Some, map, IfOk, OnOk};
ghost use Rattle.std.specs.Int.RustNames.{unsigned_abs};
ghost use Rattle.image_format.specs.Postings.{index_of, list_form, postings_at};
ghost use Rattle.index_model.specs.Changes.{HasItems};
ghost use Rattle.attr_types.specs.Scores.{score_of};
ghost use Rattle.attr_types.specs.declared.items.Item.{Item as AnyItem};
ghost use Rattle.index_model.specs.Gathers.{is_gathered};
ghost use Rattle.index_model.specs.Sets.{Holds};
ghost use Rattle.query_eval.specs.Lists.{list_has};
ghost use Rattle.query_eval.specs.PartLists.{some_part_has, score_in_lists, AreListParts, AddsPart, AreListsOfParts, AreScoresIn};
ghost use Rattle.query_eval.specs.Parts.{IsIndexed};
ghost use Rattle.query_eval.specs.Weights.{is_found, weight_in_list, IsListWord};

use crate::lists::gather_list;
use crate::weights::weight_at;
use crate::words::word_of;
use arena_api::Frozen;
use attr_types::{Doc, Part, Score, ScoreList, ValueType};
use entry_ref::EntryRef;
use index_model::Gathered;
use std::alloc::{AllocError, Global};

/// The word of the list of a part's value, and the part's weight.
#[derive(Clone, Copy, Drop)]
struct ListPart {
    list: u64,
    weight: i32,
}

/// Adds the list of a part's value, if the value has one.
fn push_part<const OFFSET_BITS: u32, F: Frozen<OFFSET_BITS>>(
    frozen: &mut F,
    root: EntryRef<OFFSET_BITS>,
    value_type: ValueType,
    part: &Part,
    lists: &mut Vec<ListPart>,
) -> Result<(), AllocError>
    requires { IsIndexed value_type (F.records frozen.old) root }
    ensures adds { OnOk result (AddsPart (F.records frozen.old) (index_of value_type (F.records frozen.old) root.entry) part.now
        lists.old.items lists.new.items) }
    ensures same { frozen.new ≡ frozen.old }
{
    let Some(list) = word_of(frozen, root, value_type, &part.value) else {
        return Ok(());
    };
    lists.push(ListPart {
        list,
        weight: part.weight,
    })?;
    Ok(())
}

/// Returns the lists of the parts' values. Each value is looked up once, and those without a list are left out.
fn lists_of_parts<const OFFSET_BITS: u32, F: Frozen<OFFSET_BITS>>(
    alloc: Global,
    frozen: &mut F,
    root: EntryRef<OFFSET_BITS>,
    value_type: ValueType,
    parts: &[Part],
) -> Result<Vec<ListPart>, AllocError>
    requires { IsIndexed value_type (F.records frozen.old) root }
    ensures lists { IfOk result (λ lists. AreListsOfParts (F.records frozen.old) (index_of value_type (F.records frozen.old) root.entry)
        parts.now lists.items) }
    ensures same { frozen.new ≡ frozen.old }
{
    let mut lists = Vec::new(alloc);
    for part in parts {
        push_part(frozen, root, value_type, part, &mut lists)?;
    }
    Ok(lists)
}

/// Adds the documents of a part's list to those gathered.
fn gather_part<const OFFSET_BITS: u32, F: Frozen<OFFSET_BITS>>(
    alloc: Global,
    frozen: &mut F,
    part: &ListPart,
    gathered: Gathered,
) -> Result<Gathered, AllocError>
    requires { IsListWord (F.records frozen.old) (Some part.now.list) }
    ensures docs { IfOk result (λ all. (doc : ℕ) → is_gathered all doc
        ≡ (is_gathered gathered doc || list_has (F.records frozen.old) part.now.list doc)) }
    ensures same { frozen.new ≡ frozen.old }
{
    gather_list(alloc, frozen, part.list, gathered)
}

/// Returns the documents that some list has.
fn gather_parts<const OFFSET_BITS: u32, F: Frozen<OFFSET_BITS>>(
    alloc: Global,
    frozen: &mut F,
    lists: &[ListPart],
) -> Result<Gathered, AllocError>
    requires { AreListParts (F.records frozen.old) lists.now }
    ensures docs { IfOk result (λ all. (doc : ℕ) → is_gathered all doc ≡ some_part_has (F.records frozen.old) lists.now doc) }
    ensures same { frozen.new ≡ frozen.old }
{
    let mut all = Gathered::new(alloc);
    for part in lists {
        all = gather_part(alloc, frozen, part, all)?;
    }
    Ok(all)
}

fn product(weight: i32, other: i32) -> i128
    ensures value { result ≡ weight *ℤ other }
    ensures bound { unsigned_abs result ≤ 2 ^ 62 }
{
    i128::from(weight) * i128::from(other)
}

/// Returns what a part adds to the score of a document.
fn score_in_list<const OFFSET_BITS: u32, F: Frozen<OFFSET_BITS>>(
    frozen: &mut F,
    part: &ListPart,
    doc: u32,
) -> i128
    requires { IsListWord (F.records frozen.old) (Some part.now.list) }
    ensures value { result ≡ part.now.weight *ℤ weight_in_list doc (postings_at (F.records frozen.old) (list_form part.now.list)) }
    ensures bound { unsigned_abs result ≤ 2 ^ 62 }
    ensures same { frozen.new ≡ frozen.old }
{
    let weight = weight_at(frozen, part.list, doc);
    product(part.weight, weight)
}

/// Returns the score of a document.
fn score_at<const OFFSET_BITS: u32, F: Frozen<OFFSET_BITS>>(
    frozen: &mut F,
    lists: &[ListPart],
    doc: u32,
) -> i128
    requires { AreListParts (F.records frozen.old) lists.now }
    ensures score { result ≡ score_in_lists (F.records frozen.old) lists.now doc }
    ensures same { frozen.new ≡ frozen.old }
{
    let mut score: i128 = 0;
    for part in lists {
        score += score_in_list(frozen, part, doc);
    }
    score
}

/// Returns documents, each with its score.
fn scores_of<const OFFSET_BITS: u32, F: Frozen<OFFSET_BITS>>(
    alloc: Global,
    frozen: &mut F,
    lists: &[ListPart],
    docs: &[Doc],
) -> Result<ScoreList, AllocError>
    requires { AreListParts (F.records frozen.old) lists.now }
    ensures scores { IfOk result (λ list.
        list ≡ map (λ doc. record { doc = doc; score = score_in_lists (F.records frozen.old) lists.now doc }) docs.now) }
    ensures same { frozen.new ≡ frozen.old }
{
    let mut list = ScoreList::new(alloc);
    for doc in docs {
        let score = score_at(frozen, lists, doc.number());
        list.push(Score { doc: *doc, score })?;
    }
    Ok(list)
}

/// Returns the documents that some list has, ascending, each with its score.
fn scores_by_lists<const OFFSET_BITS: u32, F: Frozen<OFFSET_BITS>>(
    alloc: Global,
    frozen: &mut F,
    lists: &[ListPart],
) -> Result<ScoreList, AllocError>
    requires { AreListParts (F.records frozen.old) lists.now }
    ensures scores { IfOk result (λ list. AreScoresIn (F.records frozen.old) lists.now list) }
    ensures same { frozen.new ≡ frozen.old }
{
    let docs = gather_parts(alloc, frozen, lists)?.into_list(alloc)?;
    scores_of(alloc, frozen, lists, docs.as_slice())
}

/// Returns the documents that have the value of some part, ascending, each with its score.
pub fn scored<const OFFSET_BITS: u32, F: Frozen<OFFSET_BITS>>(
    alloc: Global,
    frozen: &mut F,
    root: EntryRef<OFFSET_BITS>,
    value_type: ValueType,
    parts: &[Part],
) -> Result<ScoreList, AllocError>
    requires { IsIndexed value_type (F.records frozen.old) root }
    ensures scores { IfOk result (λ list. (items : ℕ → List AnyItem)
        → ((doc : ℕ) → HasItems (index_of value_type (F.records frozen.old) root.entry) doc (items doc))
        → (docs : List ℕ) → Holds docs (is_found parts.now (index_of value_type (F.records frozen.old) root.entry))
        → list ≡ map (λ doc. record { doc = doc; score = score_of parts.now (items doc) }) docs) }
    ensures same { frozen.new ≡ frozen.old }
{
    let lists = lists_of_parts(alloc, frozen, root, value_type, parts)?;
    scores_by_lists(alloc, frozen, lists.as_slice())
}
