//! The documents of a block of a bit vector, word by word.
ghost use Rattle.std.specs.Prelude.{◌≡◌, ◌<◌, ◌≤◌, ◌/◌, ◌||◌, ℕ, length, true, OnOk};
ghost use Rattle.attr_types.specs.Lawful.{IsDocNumber};
ghost use Rattle.image_format.specs.Postings.{block_documents};
ghost use Rattle.index_model.specs.Sets.{has, in_words};
ghost use Rattle.query_eval.specs.Blocks.{in_word};

use attr_types::Doc;
use image_format::{BLOCK_DOCUMENTS, BLOCK_WORDS};
use std::alloc::AllocError;

/// The number of documents of a block.
pub const BLOCK_SIZE: u32 = BLOCK_DOCUMENTS as u32;

/// Returns whether bit `i` of these words is set.
pub fn has_bit(words: &[u64], i: u32) -> bool
    requires { i / 64 < length words.now }
    ensures { result ≡ in_words words.now i }
{
    (words[(i / 64) as usize] >> (i % 64)) & 1 == 1
}

/// Adds the documents of a word.
fn push_word(docs: &mut Vec<Doc>, place: u32, word: u64) -> Result<(), AllocError>
    requires few { place < 16384 }
    requires documents { (doc : ℕ) → in_word place word doc ≡ true → IsDocNumber doc }
    ensures { OnOk result ((doc : ℕ) → has docs.new.items doc ≡ (has docs.old.items doc || in_word place word doc)) }
{
    let mut left = word;
    while left != 0 {
        let bit = left.trailing_zeros();
        docs.push(Doc::new(place * 64 + bit))?;
        left &= !(1 << bit);
    }
    Ok(())
}

/// Adds the documents of a block.
pub fn push_block(docs: &mut Vec<Doc>, block: u32, words: &[u64]) -> Result<(), AllocError>
    requires size { length words.now ≡ BLOCK_WORDS }
    requires few { block ≤ 255 }
    requires documents { (doc : ℕ) → has (block_documents block words.now) doc ≡ true → IsDocNumber doc }
    ensures { OnOk result ((doc : ℕ) → has docs.new.items doc
        ≡ (has docs.old.items doc || has (block_documents block words.now) doc)) }
{
    for i in 0..BLOCK_WORDS {
        push_word(docs, block * 64 + i as u32, words[i])?;
    }
    Ok(())
}
