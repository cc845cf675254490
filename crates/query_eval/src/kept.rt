//! Filtering documents by a posting tree, with a bit vector up to the last document.
ghost use Rattle.std.specs.Prelude.{◌≡◌, ◌∷◌, ◌||◌, ◌&&◌, ◌/◌, ◌<◌, ℕ, [], true, nat_eq, length, IfOk, IfSome, OnOk};
ghost use Rattle.std.specs.Map.{keys_of};
ghost use Rattle.attr_types.specs.Lawful.{IsDocNumber};
ghost use Rattle.image_format.specs.Postings.{postings_at, tree, IsPostingList};
ghost use Rattle.index_model.specs.Postings.{HaveDocNumbers};
ghost use Rattle.index_model.specs.Sets.{has, in_words};
ghost use Rattle.query_eval.specs.Takers.{AddsMeeting};

use arena_api::Frozen;
use attr_types::{Doc, DocList};
use entry_ref::EntryRef;
use std::alloc::{AllocError, Global};
use tree_read::{TakesKeys, take_keys};

/// The greatest number of bit vector words per document.
pub const MOST_SPARSE: usize = 16;

/// Returns how many words have a bit for each of these ascending documents.
fn words_for(docs: &[Doc]) -> usize {
    match docs.last() {
        Some(doc) => (doc.number() / 64) as usize + 1,
        None => 0,
    }
}

/// Sets the bit of a document. Returns whether it has one.
pub fn mark(words: &mut [u64], doc: Doc) -> bool
    ensures { result ≡ true → (other : ℕ) → in_words words.new other ≡ (in_words words.old other || nat_eq other doc) }
{
    let number = doc.number();
    let place = (number / 64) as usize;
    if place >= words.len() {
        return false;
    }
    words[place] |= 1 << (number % 64);
    true
}

/// Sets the bits of documents. Returns whether each has one.
fn mark_each(words: &mut [u64], docs: &[Doc]) -> bool
    ensures { result ≡ true → (doc : ℕ) → in_words words.new doc ≡ (in_words words.old doc || has docs.now doc) }
{
    for doc in docs {
        if !mark(words, *doc) {
            return false;
        }
    }
    true
}

/// Returns a bit vector of documents up to the last. Returns `None` if it would be much longer than the list, or if
/// the documents do not ascend.
pub fn marks_of(alloc: Global, docs: &[Doc]) -> Result<Option<Vec<u64>>, AllocError>
    ensures { IfOk result (λ marks. IfSome marks (λ words. (doc : ℕ) → in_words words.items doc ≡ has docs.now doc)) }
{
    let size = words_for(docs);
    if size / MOST_SPARSE > docs.len() {
        return Ok(None);
    }
    let mut words = vec![in alloc; 0; size]?;
    if mark_each(&mut words, docs) {
        Ok(Some(words))
    } else {
        Ok(None)
    }
}

fn is_marked(words: &[u64], doc: Doc) -> bool
    ensures { result ≡ in_words words.now doc }
{
    let number = doc.number();
    let place = (number / 64) as usize;
    if place >= words.len() {
        return false;
    }
    (words[place] >> (number % 64)) & 1 == 1
}

fn push_marked(marks: &[u64], doc: Doc, kept: &mut Vec<Doc>) -> Result<(), AllocError>
    ensures { OnOk result ((other : ℕ) → has kept.new.items other
        ≡ (has kept.old.items other || (in_words marks.now other && nat_eq other doc))) }
{
    if is_marked(marks, doc) {
        kept.push(doc)?;
    }
    Ok(())
}

/// Documents in a bit vector, and those of them that a tree has.
#[derive(Drop)]
struct Kept {
    marks: Vec<u64>,
    docs: Vec<Doc>,
}

impl TakesKeys for Kept {
    ghost use Rattle.query_eval.specs.ProofsForTakers.{kept_none, kept_joined};

    ghost can_take = { IsDocNumber };

    ghost takes = { λ old keys new. (new.marks.items ≡ old.marks.items)
        × AddsMeeting (in_words old.marks.items) (has old.docs.items) keys (has new.docs.items) };

    fn take(&mut self, key: u64) -> Result<(), AllocError>
        requires { IsDocNumber key }
        ensures { OnOk result ((self.new.marks.items ≡ self.old.marks.items)
            × AddsMeeting (in_words self.old.marks.items) (has self.old.docs.items) (key ∷ []) (has self.new.docs.items)) }
    {
        push_marked(self.marks.as_slice(), Doc::new(key as u32), &mut self.docs)
    }

    ghost none = { λ taker. kept_none taker.marks.items (has taker.docs.items) };

    ghost joins = { λ a b c xs ys first second. kept_joined a.marks.items b.marks.items c.marks.items
        (has a.docs.items) (has b.docs.items) (has c.docs.items) xs ys first second };
}

/// Returns the documents of a bit vector that a tree has.
pub fn keep_marked<const OFFSET_BITS: u32, F: Frozen<OFFSET_BITS>>(
    alloc: Global,
    frozen: &mut F,
    root: EntryRef<OFFSET_BITS>,
    marks: Vec<u64>,
) -> Result<DocList, AllocError>
    requires form { IsPostingList (F.records frozen.old) (tree root) }
    requires documents { HaveDocNumbers (postings_at (F.records frozen.old) (tree root)) }
    ensures kept { IfOk result (λ kept. (doc : ℕ) → has kept doc
        ≡ (in_words marks.items doc && has (keys_of (postings_at (F.records frozen.old) (tree root.entry))) doc)) }
    ensures same { frozen.new ≡ frozen.old }
{
    let mut kept = Kept {
        marks,
        docs: Vec::new(alloc),
    };
    take_keys(frozen, root, &mut kept)?;
    Ok(DocList::from_vec(kept.docs))
}
