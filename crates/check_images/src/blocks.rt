//! Checks the blocks of a bit vector.

ghost use Rattle.std.specs.Prelude.{◌≡◌, ◌<◌, ◌^◌, ◌++◌, ℕ, pos, map, OnOk, IfOk, IfErr};
ghost use Rattle.std.specs.List.{flat_map, AllByRecursion};
ghost use Rattle.image_format.specs.Postings.{block_documents, IsBlock};
ghost use Rattle.index_model.specs.Sets.{in_words};
ghost use Rattle.entry_ref.specs.Maps.{seen};
ghost use Rattle.check_images.specs.Refutations.{Refutes};

use crate::CheckFault;
use entry_ref::{word_in, words_at};
use image_format::{BLOCK_DOCUMENTS, BLOCK_WORDS};
use std::alloc::{AllocError, Global};
use std::collections::BTreeMap;

/// Returns whether bit `i` of a block is 1.
fn has_bit(words: &[u64], i: u64) -> bool
    ensures { result ≡ in_words words.now i }
{
    (word_in(words, (i / 64) as usize) >> (i % 64)) & 1 == 1
}

/// Appends the documents of a block, each with weight 1.
fn push_block(list: &mut Vec<(u64, i32)>, number: u64, words: &[u64]) -> Result<(), AllocError>
    requires { number < 2 ^ 20 }
    ensures { OnOk result (list.new.items ≡ list.old.items ++ map (λ doc. (doc, pos 1)) (block_documents number words.now)) }
{
    for i in 0..BLOCK_DOCUMENTS {
        if has_bit(words, i) {
            list.push((BLOCK_DOCUMENTS * number + i, 1))?;
        }
    }
    Ok(())
}

/// Appends the documents of a block, if the words are those of a block.
fn read_block(list: &mut Vec<(u64, i32)>, number: u64, words: &[u64]) -> Result<(), CheckFault>
    ensures form { OnOk result (IsBlock number words.now) }
    ensures list { OnOk result (list.new.items ≡ list.old.items ++ map (λ doc. (doc, pos 1)) (block_documents number words.now)) }
    ensures exact { IfErr result (Refutes (IsBlock number words.now)) }
{
    if number >= 1 << 20 || words.len() != BLOCK_WORDS {
        return Err(CheckFault::Broken);
    }
    let before = list.len();
    push_block(list, number, words)?;
    if list.len() == before {
        return Err(CheckFault::Broken);
    }
    Ok(())
}

/// Returns the documents of a bit vector's blocks, each with weight 1.
pub fn read_blocks(
    alloc: Global,
    records: &BTreeMap<u32, Vec<u64>>,
    pairs: &[(u64, u64)],
) -> Result<Vec<(u64, i32)>, CheckFault>
    ensures form { OnOk result (AllByRecursion (λ (p : ℕ × ℕ). IsBlock p.0 (seen records.now p.1)) pairs.now) }
    ensures list { IfOk result (λ list. list.items
        ≡ map (λ doc. (doc, pos 1)) (flat_map (λ (p : ℕ × ℕ). block_documents p.0 (seen records.now p.1)) pairs.now)) }
    ensures exact { IfErr result (Refutes (AllByRecursion (λ (p : ℕ × ℕ). IsBlock p.0 (seen records.now p.1)) pairs.now)) }
{
    let mut list = Vec::new(alloc);
    for pair in pairs {
        read_block(&mut list, pair.0, words_at(records, pair.1))?;
    }
    Ok(list)
}
