//! A cursor over the documents of a list.

ghost use Rattle.std.specs.Prelude.{◌≡◌, ◌↔◌, drop, length, nat_le, [], true, false, IsTrue};
ghost use Rattle.entry_ref.specs.Records.{Records};
ghost use Rattle.posting_store.specs.Lists.{list_at, is_vector, IsList, IsPlain};
ghost use Rattle.posting_store.specs.Walks.{postings_from, first_doc, first_weight, HasPosting, IsListPlace};

use crate::posting::{Posting, root_of};
use arena_api::Frozen;
use attr_types::Doc;
use bit_vector::{VectorCursor, has_at_least as has_documents};
use entry_ref::EntryRef;
use frozen_btree::{Cursor, total};
use image_format::WEIGHT_BASE;

/// A position before a document of a list, or at its end.
#[derive(Drop)]
pub enum PostingCursor<const OFFSET_BITS: u32> {
    /// Before item `at` of the record of a short list, or of the empty list.
    Short {
        list: EntryRef<OFFSET_BITS>,
        count: u32,
        at: u32,
    },
    Tree(Cursor<OFFSET_BITS>),
    Vector(VectorCursor<OFFSET_BITS>),
}

/// Returns a cursor before the first document of a list that is no bit vector.
fn walk_plain<const OFFSET_BITS: u32, F: Frozen<OFFSET_BITS>>(
    frozen: &mut F,
    list: Posting,
) -> PostingCursor<OFFSET_BITS>
    requires list { IsList (F.records frozen.old) list }
    requires plain { IsPlain list }
    ensures place { IsListPlace (F.records frozen.old) result }
    ensures postings { postings_from (F.records frozen.old) result ≡ list_at (F.records frozen.old) list }
    ensures same { frozen.new ≡ frozen.old }
{
    let root = EntryRef::from_raw((list.word() / 2) as u32);
    if list.word() % 2 == 1 {
        return PostingCursor::Tree(Cursor::first(frozen, root));
    }
    let count = if root.valid() {
        frozen.word(root, 0) as u32
    } else {
        0
    };
    PostingCursor::Short {
        list: root,
        count,
        at: 0,
    }
}

/// Returns a cursor before the first document of a list that is a bit vector.
fn walk_vector<const OFFSET_BITS: u32, F: Frozen<OFFSET_BITS>>(
    frozen: &mut F,
    list: Posting,
) -> PostingCursor<OFFSET_BITS>
    requires list { IsList (F.records frozen.old) list }
    requires vector { is_vector list ≡ true }
    ensures place { IsListPlace (F.records frozen.old) result }
    ensures postings { postings_from (F.records frozen.old) result ≡ list_at (F.records frozen.old) list }
    ensures same { frozen.new ≡ frozen.old }
{
    let root = root_of(frozen, list);
    PostingCursor::Vector(VectorCursor::first(frozen, root))
}

/// Returns a cursor before the first document of a list.
pub fn walk<const OFFSET_BITS: u32, F: Frozen<OFFSET_BITS>>(
    frozen: &mut F,
    list: Posting,
) -> PostingCursor<OFFSET_BITS>
    requires list { IsList (F.records frozen.old) list }
    ensures place { IsListPlace (F.records frozen.old) result }
    ensures postings { postings_from (F.records frozen.old) result ≡ list_at (F.records frozen.old) list }
    ensures same { frozen.new ≡ frozen.old }
{
    if list.is_vector() {
        walk_vector(frozen, list)
    } else {
        walk_plain(frozen, list)
    }
}

/// Returns the number of documents of a list that is no bit vector.
fn count_plain<const OFFSET_BITS: u32, F: Frozen<OFFSET_BITS>>(frozen: &mut F, list: Posting) -> u32
    requires list { IsList (F.records frozen.old) list }
    requires plain { IsPlain list }
    ensures count { result ≡ length (list_at (F.records frozen.old) list) }
    ensures same { frozen.new ≡ frozen.old }
{
    let root = EntryRef::from_raw((list.word() / 2) as u32);
    if list.word() % 2 == 1 {
        return total(frozen, root);
    }
    if root.valid() {
        frozen.word(root, 0) as u32
    } else {
        0
    }
}

/// Returns whether a list that is a bit vector has at least so many documents.
fn vector_has_at_least<const OFFSET_BITS: u32, F: Frozen<OFFSET_BITS>>(
    frozen: &mut F,
    list: Posting,
    least: u32,
) -> bool
    requires list { IsList (F.records frozen.old) list }
    requires vector { is_vector list ≡ true }
    ensures least { result ≡ nat_le least (length (list_at (F.records frozen.old) list)) }
    ensures same { frozen.new ≡ frozen.old }
{
    let root = root_of(frozen, list);
    has_documents(frozen, root, least)
}

/// Returns whether a list has at least so many documents: in one read, or in reads of the first words of a bit vector.
pub(crate) fn has_at_least<const OFFSET_BITS: u32, F: Frozen<OFFSET_BITS>>(
    frozen: &mut F,
    list: Posting,
    least: u32,
) -> bool
    requires list { IsList (F.records frozen.old) list }
    ensures least { result ≡ nat_le least (length (list_at (F.records frozen.old) list)) }
    ensures same { frozen.new ≡ frozen.old }
{
    if list.is_vector() {
        vector_has_at_least(frozen, list, least)
    } else {
        count_plain(frozen, list) >= least
    }
}

impl<const OFFSET_BITS: u32> PostingCursor<OFFSET_BITS> {
    /// Returns whether no document follows.
    pub fn at_end(&self) -> bool
        ensures posting { IsTrue result ↔ ¬ HasPosting self.now }
        ensures follows { result ≡ false → HasPosting self.now }
        ensures postings { (m : Records) → IsListPlace m self.now → IsTrue result ↔ (postings_from m self.now ≡ []) }
    {
        match self {
            PostingCursor::Short { count, at, .. } => *at >= *count,
            PostingCursor::Tree(cursor) => cursor.at_end(),
            PostingCursor::Vector(cursor) => cursor.at_end(),
        }
    }

    /// Returns the next document.
    pub fn doc<F: Frozen<OFFSET_BITS>>(&self, frozen: &mut F) -> Doc
        requires place { IsListPlace (F.records frozen.old) self.now }
        requires posting { HasPosting self.now }
        ensures doc { result ≡ first_doc (postings_from (F.records frozen.old) self.now) }
        ensures same { frozen.new ≡ frozen.old }
    {
        match self {
            PostingCursor::Short { list, at, .. } => {
                Doc::new((frozen.word(*list, 1 + *at) / WEIGHT_BASE) as u32)
            }
            PostingCursor::Tree(cursor) => Doc::new(cursor.key() as u32),
            PostingCursor::Vector(cursor) => cursor.doc(),
        }
    }

    /// Returns the weight of the next document.
    pub fn weight<F: Frozen<OFFSET_BITS>>(&self, frozen: &mut F) -> i32
        requires place { IsListPlace (F.records frozen.old) self.now }
        requires posting { HasPosting self.now }
        ensures weight { result ≡ first_weight (postings_from (F.records frozen.old) self.now) }
        ensures same { frozen.new ≡ frozen.old }
    {
        match self {
            PostingCursor::Short { list, at, .. } => {
                ((frozen.word(*list, 1 + *at) % WEIGHT_BASE) as u32).cast_signed()
            }
            PostingCursor::Tree(cursor) => (cursor.value() as u32).cast_signed(),
            PostingCursor::Vector(_) => 1,
        }
    }

    /// Moves past one document.
    pub fn next<F: Frozen<OFFSET_BITS>>(&mut self, frozen: &mut F)
        requires place { IsListPlace (F.records frozen.old) self.old }
        requires posting { HasPosting self.old }
        ensures place { IsListPlace (F.records frozen.old) self.new }
        ensures postings { postings_from (F.records frozen.old) self.new ≡ drop 1 (postings_from (F.records frozen.old) self.old) }
        ensures same { frozen.new ≡ frozen.old }
    {
        match self {
            PostingCursor::Short { at, .. } => *at += 1,
            PostingCursor::Tree(cursor) => cursor.next(frozen),
            PostingCursor::Vector(cursor) => cursor.next(frozen),
        }
    }
}
