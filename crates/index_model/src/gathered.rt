//! Documents gathered in any order: a few in a list that is sorted at the end, many in a bit vector.
ghost use Rattle.std.specs.Prelude.{◌≡◌, ◌≤◌, ◌||◌, ◌&&◌, ℕ, false, true, length, filter, IfOk, OnOk};
ghost use Rattle.index_model.specs.Gathers.{is_gathered};
ghost use Rattle.index_model.specs.Sets.{has, in_words, IsAscending, AreBelow, IsPlaceOf, Holds};

use crate::bits::DocSet;
use attr_types::{Doc, DocList};
use std::alloc::{AllocError, Global};

/// A list with no more documents than this stays a list.
const FEW: usize = 64;

/// The greatest number of bit vector words per document.
const MOST_SPARSE: usize = 16;

/// If a list is this many times as long as the list of sought documents, each of them is searched in it.
const MUCH_LONGER: usize = 8;

/// Documents in any order.
#[derive(Drop)]
pub enum Gathered {
    Few(Vec<Doc>),
    Many(DocSet),
}

/// Returns whether a bit vector costs less than a list that is sorted at the end, for these documents and as many as
/// `more`. The lists that are gathered ascend, so the last document is near the greatest. Both forms have the same
/// documents.
pub fn are_many(docs: &[Doc], more: usize) -> bool {
    match docs.last() {
        Some(last) => {
            let count = docs.len().max(more);
            count > FEW && (last.number() / 64) as usize / MOST_SPARSE < count
        }
        None => false,
    }
}

/// Returns whether documents already ascend strictly, as those of a single list of the index do.
fn is_sorted(docs: &[Doc]) -> bool
    ensures { result ≡ true → IsAscending docs.now }
{
    for place in 1..docs.len() {
        if docs[place - 1] >= docs[place] {
            return false;
        }
    }
    true
}

/// Returns the documents of a list in ascending order, without duplicates.
pub fn sorted_list(mut docs: Vec<Doc>) -> DocList
    ensures { Holds result (has docs.items) }
{
    if is_sorted(docs.as_slice()) {
        return DocList::from_vec(docs);
    }
    docs.sort_unstable();
    docs.dedup();
    DocList::from_vec(docs)
}

fn insert_each(set: &mut DocSet, docs: &[Doc]) -> Result<(), AllocError>
    ensures { OnOk result ((doc : ℕ) → in_words set.new doc ≡ (in_words set.old doc || has docs.now doc)) }
{
    for doc in docs {
        set.insert(*doc)?;
    }
    Ok(())
}

fn is_listed(docs: &[Doc], doc: Doc) -> bool
    requires { IsAscending docs.now }
    ensures { result ≡ has docs.now doc }
{
    docs.binary_search(&doc).is_ok()
}

fn kept_searched(alloc: Global, docs: &DocList, list: &DocList) -> Result<DocList, AllocError>
    requires { IsAscending list.now }
    ensures { IfOk result (λ kept. kept ≡ filter (has list.now) docs.now) }
{
    let mut kept = DocList::new(alloc);
    for doc in docs.as_slice() {
        if is_listed(list.as_slice(), *doc) {
            kept.push(*doc)?;
        }
    }
    Ok(kept)
}

/// Returns where a walk to a document begins: at `from` if the documents before it are below `doc`, otherwise at the
/// start.
fn start_near(list: &[Doc], from: usize, doc: Doc) -> usize
    requires ascends { IsAscending list.now }
    requires within { from ≤ length list.now }
    ensures { AreBelow list.now doc result }
{
    if from > 0 && list[from - 1] >= doc {
        return 0;
    }
    from
}

/// Returns the index of the first document that is not below `doc`, with a search that begins near `from`.
fn place_near(list: &[Doc], from: usize, doc: Doc) -> usize
    requires ascends { IsAscending list.now }
    requires within { from ≤ length list.now }
    ensures { IsPlaceOf list.now doc result }
{
    let mut place = start_near(list, from, doc);
    while place < list.len() && list[place] < doc {
        place += 1;
    }
    place
}

fn is_at(list: &[Doc], place: usize, doc: Doc) -> bool
    requires ascends { IsAscending list.now }
    requires place { IsPlaceOf list.now doc place }
    ensures { result ≡ has list.now doc }
{
    place < list.len() && list[place] == doc
}

fn kept_walked(alloc: Global, docs: &DocList, list: &DocList) -> Result<DocList, AllocError>
    requires { IsAscending list.now }
    ensures { IfOk result (λ kept. kept ≡ filter (has list.now) docs.now) }
{
    let mut kept = DocList::new(alloc);
    let mut place = 0;
    for doc in docs.as_slice() {
        place = place_near(list.as_slice(), place, *doc);
        if is_at(list.as_slice(), place, *doc) {
            kept.push(*doc)?;
        }
    }
    Ok(kept)
}

/// Returns the documents of `docs` that are in `list`. If `list` is much longer it is searched, otherwise both are
/// walked.
fn kept_listed(alloc: Global, docs: &DocList, list: &DocList) -> Result<DocList, AllocError>
    requires { IsAscending list.now }
    ensures { IfOk result (λ kept. kept ≡ filter (has list.now) docs.now) }
{
    if list.as_slice().len() / MUCH_LONGER > docs.as_slice().len() {
        kept_searched(alloc, docs, list)
    } else {
        kept_walked(alloc, docs, list)
    }
}

fn kept_in(alloc: Global, docs: &DocList, set: &DocSet) -> Result<DocList, AllocError>
    ensures { IfOk result (λ kept. kept ≡ filter (in_words set.now) docs.now) }
{
    let mut kept = DocList::new(alloc);
    for doc in docs.as_slice() {
        if set.contains(*doc) {
            kept.push(*doc)?;
        }
    }
    Ok(kept)
}

/// Returns the documents of `docs` that are in a set, by the bits of both.
fn kept_marked(alloc: Global, docs: &DocList, set: &DocSet) -> Result<DocList, AllocError>
    ensures { IfOk result (λ kept. (doc : ℕ) → has kept doc ≡ (has docs.now doc && in_words set.now doc)) }
{
    let mut marks = DocSet::new(alloc);
    insert_each(&mut marks, docs.as_slice())?;
    marks.retain(set);
    marks.to_list(alloc)
}

/// Returns the documents of `docs` that are in a set. If they are many, they are made a set themselves.
fn kept_in_set(alloc: Global, docs: &DocList, set: &DocSet) -> Result<DocList, AllocError>
    ensures { IfOk result (λ kept. (doc : ℕ) → has kept doc ≡ (has docs.now doc && in_words set.now doc)) }
{
    if are_many(docs.as_slice(), 0) {
        kept_marked(alloc, docs, set)
    } else {
        kept_in(alloc, docs, set)
    }
}

impl Gathered {
    /// Creates the empty collection.
    pub fn new(alloc: Global) -> Gathered
        ensures { (doc : ℕ) → is_gathered result doc ≡ false }
    {
        Gathered::Few(Vec::new(alloc))
    }

    /// Adds documents.
    pub fn with_docs(self, alloc: Global, more: &[Doc]) -> Result<Gathered, AllocError>
        ensures { IfOk result (λ all. (doc : ℕ) → is_gathered all doc ≡ (is_gathered self doc || has more.now doc)) }
    {
        match self {
            Gathered::Few(mut docs) => {
                if are_many(docs.as_slice(), more.len()) {
                    let mut set = DocSet::new(alloc);
                    insert_each(&mut set, docs.as_slice())?;
                    insert_each(&mut set, more)?;
                    Ok(Gathered::Many(set))
                } else {
                    docs.extend_from_slice(more)?;
                    Ok(Gathered::Few(docs))
                }
            }
            Gathered::Many(mut set) => {
                insert_each(&mut set, more)?;
                Ok(Gathered::Many(set))
            }
        }
    }

    /// Returns the documents as a bit vector.
    pub fn into_set(self, alloc: Global) -> Result<DocSet, AllocError>
        ensures { IfOk result (λ set. (doc : ℕ) → in_words set doc ≡ is_gathered self doc) }
    {
        match self {
            Gathered::Few(docs) => {
                let mut set = DocSet::new(alloc);
                insert_each(&mut set, docs.as_slice())?;
                Ok(set)
            }
            Gathered::Many(set) => Ok(set),
        }
    }

    /// Returns the documents in ascending order.
    pub fn into_list(self, alloc: Global) -> Result<DocList, AllocError>
        ensures { IfOk result (λ docs. Holds docs (is_gathered self)) }
    {
        match self {
            Gathered::Few(docs) => Ok(sorted_list(docs)),
            Gathered::Many(set) => set.to_list(alloc),
        }
    }

    /// Returns the documents of `docs` that were gathered.
    pub fn kept_of(self, alloc: Global, docs: &DocList) -> Result<DocList, AllocError>
        ensures { IfOk result (λ kept. (doc : ℕ) → has kept doc ≡ (has docs.now doc && is_gathered self doc)) }
    {
        match self {
            Gathered::Few(list) => {
                let list = sorted_list(list);
                kept_listed(alloc, docs, &list)
            }
            Gathered::Many(set) => kept_in_set(alloc, docs, &set),
        }
    }
}
