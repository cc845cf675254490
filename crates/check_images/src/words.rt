//! Widths and padding, computed by the checker for itself.

ghost use Rattle.std.specs.Prelude.{◌≡◌, ◌↔◌, ◌≤◌, ◌∷◌, length, map, OnOk, IfOk, IsTrue};
ghost use Rattle.image_format.specs.Words.{class_of, filled, stored_items, unpacked, IsStoredList};
ghost use Rattle.check_images.specs.Told.{Tells};

use crate::rest_of;
use entry_ref::word_in;
use std::alloc::{AllocError, Global};

const CLASSES: [usize; 10] = [2, 4, 8, 16, 32, 64, 128, 256, 512, 1024];

/// Returns the least width that holds `count` words, at most 1024.
pub fn class_of(count: usize) -> usize
    ensures { result ≡ class_of count }
{
    for width in CLASSES {
        if count <= width {
            return width;
        }
    }
    1024
}

/// Appends zeros to words, up to their width.
fn fill(words: &mut Vec<u64>) -> Result<(), AllocError>
    ensures { OnOk result (words.new.items ≡ filled words.old.items) }
{
    let width = class_of(words.len()).max(words.len());
    words.resize(width, 0)?;
    Ok(())
}

/// Returns whether a record has these words, followed by zeros up to their width.
pub fn is_filled(mut front: Vec<u64>, words: &[u64]) -> Result<bool, AllocError>
    ensures { IfOk result (λ same. IsTrue same ↔ (words.now ≡ filled front.items)) }
{
    fill(&mut front)?;
    Ok(words == front.as_slice())
}

/// Returns the items of a list that is stored after its count.
pub fn stored_items(words: &[u64]) -> &[u64]
    ensures { result.now ≡ stored_items words.now }
{
    let rest = rest_of(words);
    let count = word_in(words, 0) as usize;
    match rest.get(..count) {
        Some(items) => items,
        None => rest,
    }
}

/// Returns the items of a stored list, if the record is a list of at most `most` items.
pub fn read_list(alloc: Global, most: usize, words: &[u64]) -> Result<Option<&[u64]>, AllocError>
    ensures { IfOk result (Tells (IsStoredList most words.now) (λ items. items.now ≡ stored_items words.now)) }
{
    let items = stored_items(words);
    if items.is_empty() || items.len() > most {
        return Ok(None);
    }
    let mut front = Vec::new(alloc);
    front.push(items.len() as u64)?;
    front.extend_from_slice(items)?;
    if is_filled(front, words)? {
        Ok(Some(items))
    } else {
        Ok(None)
    }
}

/// Returns the number and the weight in a word.
pub fn unpack(word: u64) -> (u64, i32)
    ensures { result ≡ unpacked word }
{
    let weight = (word % (1 << 32)) as u32;
    (word / (1 << 32), weight.cast_signed())
}

/// Returns the numbers and weights in words.
pub fn unpack_all(alloc: Global, words: &[u64]) -> Result<Vec<(u64, i32)>, AllocError>
    ensures { IfOk result (λ list. list.items ≡ map unpacked words.now) }
{
    words.iter().map(|word| unpack(*word)).collect(alloc)
}
