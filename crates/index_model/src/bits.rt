//! A bit vector of documents.
ghost use Rattle.std.specs.Prelude.{◌≡◌, ◌+◌, ◌*◌, ◌<◌, ◌≤◌, ◌||◌, ◌&&◌, ℕ, length, slice_index, nat_eq, false, IfOk, OnOk};
ghost use Rattle.index_model.specs.Sets.{in_words, Holds, HoldsBelow};

use attr_types::{Doc, DocList};
use std::alloc::{AllocError, Global};
use std::marker::Model;

/// The greatest number of words, with one bit for each document.
const WORDS: usize = 16_384;

/// A set of documents. It has words up to its last document, and no more than twice as many. Contracts see its words.
#[derive(Drop)]
pub struct DocSet {
    words: Vec<u64>,
}

impl Model for DocSet {
    ghost use Rattle.std.specs.Prelude.{◌≡◌, ◌≤◌, ℕ, List, length, false};
    ghost use Rattle.index_model.specs.Sets.{in_words};

    ghost Value = { List ℕ };

    ghost view = { λ s. s.words.items };

    ghost invariant = { λ s. (length s.words.items ≤ 16384) × (in_words s.words.items 0 ≡ false) };
}

impl DocSet {
    /// Creates the empty set.
    pub fn new(alloc: Global) -> DocSet
        ensures { (doc : ℕ) → in_words result doc ≡ false }
    {
        DocSet {
            words: Vec::new(alloc),
        }
    }

    /// Inserts a document.
    #[inline(always)]
    pub fn insert(&mut self, doc: Doc) -> Result<(), AllocError>
        ensures { OnOk result ((other : ℕ) → in_words self.new other ≡ (in_words self.old other || nat_eq other doc)) }
    {
        let number = doc.number();
        let place = (number / 64) as usize;
        reach(&mut self.words, place)?;
        self.words[place] |= 1 << (number % 64);
        Ok(())
    }

    /// Returns whether a document is in the set.
    pub fn contains(&self, doc: Doc) -> bool
        ensures { result ≡ in_words self.now doc }
    {
        let number = doc.number();
        let place = (number / 64) as usize;
        place < self.words.len() && (self.words[place] >> (number % 64)) & 1 == 1
    }

    /// Removes the documents that another set does not have.
    pub fn retain(&mut self, other: &DocSet)
        ensures { (doc : ℕ) → in_words self.new doc ≡ (in_words self.old doc && in_words other.now doc) }
    {
        keep_bits(&mut self.words, other.words.as_slice());
    }

    /// Returns the documents in ascending order.
    pub fn to_list(&self, alloc: Global) -> Result<DocList, AllocError>
        ensures { IfOk result (λ docs. Holds docs (in_words self.now)) }
    {
        list_of(alloc, self.words.as_slice())
    }
}

/// Appends words of zeros until there is a word at this place.
#[inline(always)]
fn reach(words: &mut Vec<u64>, place: usize) -> Result<(), AllocError>
    requires place { place < 16384 }
    requires size { length words.old.items ≤ 16384 }
    ensures size { length words.new.items ≤ 16384 }
    ensures there { OnOk result (place < length words.new.items) }
    ensures same { (doc : ℕ) → in_words words.new.items doc ≡ in_words words.old.items doc }
{
    if place < words.len() {
        return Ok(());
    }
    grow(words, place)
}

/// Doubles the words, so that documents in ascending order append seldom, or appends as many as this place needs.
#[cold]
#[inline(never)]
fn grow(words: &mut Vec<u64>, place: usize) -> Result<(), AllocError>
    requires place { place < 16384 }
    requires size { length words.old.items ≤ 16384 }
    ensures size { length words.new.items ≤ 16384 }
    ensures there { OnOk result (place < length words.new.items) }
    ensures same { (doc : ℕ) → in_words words.new.items doc ≡ in_words words.old.items doc }
{
    let size = (2 * words.len()).max(place + 1).min(WORDS);
    words.resize(size, 0)
}

fn word_at(words: &[u64], place: usize) -> u64
    ensures { result ≡ slice_index words.now place }
{
    match words.get(place) {
        Some(word) => *word,
        None => 0,
    }
}

fn keep_bits(words: &mut Vec<u64>, other: &[u64])
    ensures size { length words.new.items ≡ length words.old.items }
    ensures bits { (doc : ℕ) → in_words words.new.items doc ≡ (in_words words.old.items doc && in_words other.now doc) }
{
    for place in 0..words.len() {
        words[place] &= word_at(other, place);
    }
}

fn list_of(alloc: Global, words: &[u64]) -> Result<DocList, AllocError>
    requires size { length words.now ≤ 16384 }
    requires zero { in_words words.now 0 ≡ false }
    ensures { IfOk result (λ docs. Holds docs (in_words words.now)) }
{
    let mut docs = DocList::new(alloc);
    for place in 0..words.len() {
        if words[place] != 0 {
            push_word(&mut docs, words, place)?;
        }
    }
    Ok(docs)
}

fn push_word(docs: &mut DocList, words: &[u64], place: usize) -> Result<(), AllocError>
    requires place { place < length words.now }
    requires size { length words.now ≤ 16384 }
    requires zero { in_words words.now 0 ≡ false }
    requires before { HoldsBelow docs.old (64 * place) (in_words words.now) }
    ensures { OnOk result (HoldsBelow docs.new (64 * place + 64) (in_words words.now)) }
{
    let mut left = words[place];
    let mut next = 0;
    while left != 0 {
        let bit = left.trailing_zeros();
        docs.push(Doc::new(place as u32 * 64 + bit))?;
        left &= !(1 << bit);
        next = bit + 1;
    }
    Ok(())
}
