//! A posting list, as the word that a dictionary holds.

ghost use Rattle.std.specs.Prelude.{◌≡◌, ◌↔◌, ◌<◌, ◌+◌, ◌*◌, ◌/◌, ◌%◌, ◌^◌, IsTrue, true, false};
ghost use Rattle.posting_store.specs.Lists.{is_vector, IsList, IsPlain};

use arena_api::Frozen;
use entry_ref::EntryRef;
use image_format::FIRST_VECTOR;
use std::marker::Model;

/// A list of documents with weights, as the word that a dictionary stores for it. 0 is the empty list.
#[derive(Clone, Copy, Debug, PartialEq, Eq)]
pub struct Posting {
    word: u64,
}

impl Model for Posting {
    ghost use Rattle.std.specs.Prelude.{ℕ};

    ghost Value = { ℕ };

    ghost view = { λ list. list.word };

    ghost inverse = { λ n. record { word = n } };
}

impl Posting {
    /// The empty list.
    pub const EMPTY: Posting = Posting { word: 0 };

    pub fn from_word(word: u64) -> Posting
        ensures { result ≡ word }
    {
        Posting { word }
    }

    pub fn word(self) -> u64
        ensures { result ≡ self }
    {
        self.word
    }

    /// Returns the short list that is this array.
    pub(crate) fn short<const OFFSET_BITS: u32>(array: EntryRef<OFFSET_BITS>) -> Posting
        ensures word { result ≡ 2 * array.entry }
        ensures plain { IsPlain result }
    {
        Posting {
            word: 2 * array.raw() as u64,
        }
    }

    /// Returns the list that is the tree with this root.
    pub(crate) fn tree<const OFFSET_BITS: u32>(root: EntryRef<OFFSET_BITS>) -> Posting
        ensures word { result ≡ 2 * root.entry + 1 }
        ensures plain { IsPlain result }
    {
        Posting {
            word: 2 * root.raw() as u64 + 1,
        }
    }

    /// Returns the list that is the bit vector with this root.
    pub(crate) fn vector<const OFFSET_BITS: u32>(root: EntryRef<OFFSET_BITS>) -> Posting
        ensures word { result ≡ FIRST_VECTOR + root.entry }
        ensures vector { is_vector result ≡ true }
    {
        Posting {
            word: FIRST_VECTOR + root.raw() as u64,
        }
    }

    /// Returns whether the list is a bit vector.
    pub(crate) fn is_vector(self) -> bool
        ensures vector { result ≡ is_vector self }
        ensures plain { result ≡ false → IsPlain self }
    {
        self.word >= FIRST_VECTOR
    }

    /// Returns whether a list that is no bit vector is a tree, not a record.
    pub(crate) fn is_tree(self) -> bool
        ensures { IsTrue result ↔ (self % 2 ≡ 1) }
    {
        self.word % 2 == 1
    }

    /// Returns the record of a short list, the root of a tree, or 0 for the empty list.
    pub(crate) fn entry<const OFFSET_BITS: u32>(self) -> EntryRef<OFFSET_BITS>
        requires { IsPlain self }
        ensures { result ≡ self / 2 }
    {
        EntryRef::from_raw((self.word / 2) as u32)
    }
}

/// Returns the root of a list that is a bit vector.
pub fn root_of<const OFFSET_BITS: u32, F: Frozen<OFFSET_BITS>>(
    frozen: &F,
    list: Posting,
) -> EntryRef<OFFSET_BITS>
    requires list { IsList (F.records frozen.now) list }
    requires vector { is_vector list ≡ true }
    ensures { list ≡ FIRST_VECTOR + result }
{
    let _ = frozen;
    EntryRef::from_raw((list.word() - FIRST_VECTOR) as u32)
}
