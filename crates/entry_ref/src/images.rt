//! Images: the records that a root reaches, the places of their words, and the layouts that interpret them.
#![tactic(auto)]

ghost use Rattle.std.specs.Prelude.{◌≡◌, ◌<◌, ◌≤◌, ℕ, List, [], length};
ghost use Rattle.entry_ref.specs.References.{buffer_of};
ghost use Rattle.entry_ref.specs.Images.{words_at, image_of};
ghost use Rattle.entry_ref.specs.Places.{IsEntry, place};
ghost use Rattle.entry_ref.specs.Records.{Records, SameAt, AllThere, references_of};
ghost use Rattle.entry_ref.specs.declared.images.Image.{Image};

use crate::EntryRef;
use std::collections::LinkedList;

/// A root and the records that it reaches, each as a reference with its words.
pub struct Image {
    pub root: u64,
    pub records: LinkedList<(u64, LinkedList<u64>)>,
}

/// A layout says which records a root reaches, and which images are lawful. The first number is a shape.
pub trait Layout {
    ghost reaches: { ℕ → Records → ℕ → List ℕ };

    ghost lawful: { ℕ → Records → ℕ → Type 0 };

    // root 0 reaches nothing and is lawful
    ghost empty_reaches: { (shape : ℕ) (m : Records) → reaches shape m 0 ≡ [] };

    ghost empty_lawful: { (shape : ℕ) (m : Records) → lawful shape m 0 };

    // a lawful root reaches only records that exist
    ghost present: { (shape : ℕ) (m : Records) (root : ℕ) → lawful shape m root → AllThere (reaches shape m root) m };

    // lawfulness and reach depend on the words of the reached records alone
    ghost stays: { (shape : ℕ) (m n : Records) (root : ℕ) → SameAt (reaches shape m root) m n
        → lawful shape m root → lawful shape n root × (reaches shape n root ≡ reaches shape m root) };
}

/// The number of words of a table before the states of its buffers: the root, the newest hold and the counts of 16 holds.
const FIRST_STATE: u64 = 18;

/// Returns the place of word `i` of an entry of `width` words, in a table of `buffers` buffers of `words` words each.
pub fn place_of<const OFFSET_BITS: u32>(
    buffers: u32,
    words: u32,
    width: u32,
    entry: EntryRef<OFFSET_BITS>,
    i: u32,
) -> u64
    requires entry { IsEntry OFFSET_BITS buffers words width entry }
    requires inside { i < width }
    ensures { result ≡ place OFFSET_BITS buffers words width entry.entry i }
{
    let base = FIRST_STATE + buffers as u64 + entry.buffer() as u64 * words as u64;
    base + entry.offset() as u64 * width as u64 + i as u64
}

/// If each buffer has one width, two words with the same place are the same word of the same entry.
pub fn places_law()
    ensures { (bits buffers words v w r q i j : ℕ) → IsEntry bits buffers words v r → IsEntry bits buffers words w q
        → (buffer_of bits r ≡ buffer_of bits q → v ≡ w) → i < v → j < w
        → place bits buffers words v r i ≡ place bits buffers words w q j → (r ≡ q) × (i ≡ j) }
{}

/// An image of given references has exactly these records, each with its words.
pub fn images_law()
    ensures references { (rs : List ℕ) (m : Records) (root : ℕ) → references_of (image_of rs m root).records ≡ rs }
    ensures words { (rs : List ℕ) (m : Records) (root : ℕ) → SameAt rs m (words_at (image_of rs m root)) }
{}
