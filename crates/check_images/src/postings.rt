//! Checks a posting list in each of its forms.

ghost use Rattle.std.specs.Prelude.{◌≡◌, ◌<◌, ◌^◌, ℕ, map, OnOk, IfOk, IfErr};
ghost use Rattle.std.specs.List.{AllByRecursion};
ghost use Rattle.image_format.specs.Postings.{list_form, tree, vector, postings_at, IsPostingList};
ghost use Rattle.image_format.specs.Words.{weight_in_bits};
ghost use Rattle.entry_ref.specs.Maps.{seen};
ghost use Rattle.check_images.specs.Refutations.{Refutes};
ghost use Rattle.check_images.specs.Told.{Tells};

use crate::blocks::read_blocks;
use crate::words::{read_list, unpack_all};
use crate::{CheckFault, Keys, check_tree};
use entry_ref::words_at;
use image_format::{FIRST_VECTOR, MOST_SHORT};
use std::alloc::{AllocError, Global};
use std::collections::BTreeMap;

/// Returns the pairs of a posting tree as documents with weights, if each weight fits in 32 bits.
fn weigh_pairs(alloc: Global, pairs: &[(u64, u64)]) -> Result<Option<Vec<(u64, i32)>>, AllocError>
    ensures { IfOk result (Tells (AllByRecursion (λ (p : ℕ × ℕ). p.1 < 2 ^ 32) pairs.now)
        (λ list. list.items ≡ map (λ (p : ℕ × ℕ). (p.0, weight_in_bits p.1)) pairs.now)) }
{
    let mut list = Vec::new(alloc);
    for pair in pairs {
        match u32::try_from(pair.1) {
            Ok(bits) => list.push((pair.0, bits.cast_signed()))?,
            Err(_) => return Ok(None),
        }
    }
    Ok(Some(list))
}

/// Returns the documents of a posting tree, if it has more than a short list and its weights are valid.
fn read_tree(
    alloc: Global,
    records: &BTreeMap<u32, Vec<u64>>,
    root: u64,
) -> Result<Vec<(u64, i32)>, CheckFault>
    ensures form { OnOk result (IsPostingList (seen records.now) (tree root)) }
    ensures list { IfOk result (λ list. list.items ≡ postings_at (seen records.now) (tree root)) }
    ensures exact { IfErr result (Refutes (IsPostingList (seen records.now) (tree root))) }
{
    let pairs = check_tree(alloc, Keys::Numbers, records, root)?;
    if pairs.len() <= MOST_SHORT {
        return Err(CheckFault::Broken);
    }
    match weigh_pairs(alloc, pairs.as_slice())? {
        Some(list) => Ok(list),
        None => Err(CheckFault::Broken),
    }
}

/// Returns the documents of a bit vector, if it has more than a short list.
fn read_vector(
    alloc: Global,
    records: &BTreeMap<u32, Vec<u64>>,
    root: u64,
) -> Result<Vec<(u64, i32)>, CheckFault>
    ensures form { OnOk result (IsPostingList (seen records.now) (vector root)) }
    ensures list { IfOk result (λ list. list.items ≡ postings_at (seen records.now) (vector root)) }
    ensures exact { IfErr result (Refutes (IsPostingList (seen records.now) (vector root))) }
{
    let pairs = check_tree(alloc, Keys::Numbers, records, root)?;
    let list = read_blocks(alloc, records, pairs.as_slice())?;
    if list.len() <= MOST_SHORT {
        return Err(CheckFault::Broken);
    }
    Ok(list)
}

/// Returns the documents of the list for a word of the dictionary.
pub fn read_postings(
    alloc: Global,
    records: &BTreeMap<u32, Vec<u64>>,
    word: u64,
) -> Result<Vec<(u64, i32)>, CheckFault>
    ensures form { OnOk result (IsPostingList (seen records.now) (list_form word)) }
    ensures list { IfOk result (λ list. list.items ≡ postings_at (seen records.now) (list_form word)) }
    ensures exact { IfErr result (Refutes (IsPostingList (seen records.now) (list_form word))) }
{
    if word >= FIRST_VECTOR {
        return read_vector(alloc, records, word - FIRST_VECTOR);
    }
    if word % 2 != 0 {
        return read_tree(alloc, records, word / 2);
    }
    match read_list(alloc, MOST_SHORT, words_at(records, word / 2))? {
        Some(items) => Ok(unpack_all(alloc, items)?),
        None => Err(CheckFault::Broken),
    }
}
