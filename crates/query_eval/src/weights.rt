//! The weight of one document in a list, by the form of the list.
ghost use Rattle.std.specs.Int.{bit_at};
ghost use Rattle.std.specs.Prelude.{◌≡◌, ◌<◌, map, nat_eq, pos, if◌then◌else◌};
ghost use Rattle.image_format.specs.Postings.{list_form, postings_at, short, tree, vector, IsPostingList};
ghost use Rattle.image_format.specs.Words.{unpacked};
ghost use Rattle.query_eval.specs.Weights.{weight_in_list};

use crate::blocks::BLOCK_SIZE;
use arena_api::{Frozen, read};
use array_store::count;
use entry_ref::EntryRef;
use frozen_btree::{NumberKey, find};
use image_format::{FIRST_VECTOR, MOST_SHORT, WEIGHT_BASE};

fn weight_among(words: &[u64], doc: u32) -> i32
    ensures { result ≡ weight_in_list doc (map unpacked words.now) }
{
    for word in words {
        if *word >> 32 == u64::from(doc) {
            return ((*word % WEIGHT_BASE) as u32).cast_signed();
        }
    }
    0
}

fn weight_in_short<const OFFSET_BITS: u32, F: Frozen<OFFSET_BITS>>(
    frozen: &mut F,
    list: EntryRef<OFFSET_BITS>,
    doc: u32,
) -> i32
    requires form { IsPostingList (F.records frozen.old) (short list) }
    ensures weight { result ≡ weight_in_list doc (postings_at (F.records frozen.old) (short list.entry)) }
    ensures same { frozen.new ≡ frozen.old }
{
    let mut buffer = [0; MOST_SHORT];
    let words = &mut buffer[..count(frozen, list) as usize];
    read(frozen, list, 1, words);
    weight_among(words, doc)
}

fn weight_in_tree<const OFFSET_BITS: u32, F: Frozen<OFFSET_BITS>>(
    frozen: &mut F,
    root: EntryRef<OFFSET_BITS>,
    doc: u32,
) -> i32
    requires form { IsPostingList (F.records frozen.old) (tree root) }
    ensures weight { result ≡ weight_in_list doc (postings_at (F.records frozen.old) (tree root.entry)) }
    ensures same { frozen.new ≡ frozen.old }
{
    match find(frozen, root, &NumberKey(u64::from(doc))) {
        Some((_, weight)) => (weight as u32).cast_signed(),
        None => 0,
    }
}

/// Returns 1 if the bit is set, otherwise 0.
fn weight_of_bit(word: u64, bit: u32) -> i32
    requires { bit < 64 }
    ensures { result ≡ (if nat_eq (bit_at word bit) 1 then pos 1 else pos 0) }
{
    if (word >> bit) & 1 == 1 { 1 } else { 0 }
}

/// Returns the weight of a document in a bit vector, where each document has weight 1.
fn weight_in_vector<const OFFSET_BITS: u32, F: Frozen<OFFSET_BITS>>(
    frozen: &mut F,
    root: EntryRef<OFFSET_BITS>,
    doc: u32,
) -> i32
    requires form { IsPostingList (F.records frozen.old) (vector root) }
    ensures weight { result ≡ weight_in_list doc (postings_at (F.records frozen.old) (vector root.entry)) }
    ensures same { frozen.new ≡ frozen.old }
{
    match find(frozen, root, &NumberKey(u64::from(doc / BLOCK_SIZE))) {
        Some((_, block)) => {
            let place = doc % BLOCK_SIZE;
            let word = frozen.word(EntryRef::from_raw(block as u32), place / 64);
            weight_of_bit(word, place % 64)
        }
        None => 0,
    }
}

/// Returns the weight of a document in a list, or 0 if the list lacks it.
pub fn weight_at<const OFFSET_BITS: u32, F: Frozen<OFFSET_BITS>>(
    frozen: &mut F,
    list: u64,
    doc: u32,
) -> i32
    requires form { IsPostingList (F.records frozen.old) (list_form list) }
    ensures weight { result ≡ weight_in_list doc (postings_at (F.records frozen.old) (list_form list)) }
    ensures same { frozen.new ≡ frozen.old }
{
    if list >= FIRST_VECTOR {
        return weight_in_vector(
            frozen,
            EntryRef::from_raw((list - FIRST_VECTOR) as u32),
            doc,
        );
    }
    let list_root = EntryRef::from_raw((list / 2) as u32);
    if list % 2 == 0 {
        weight_in_short(frozen, list_root, doc)
    } else {
        weight_in_tree(frozen, list_root, doc)
    }
}
