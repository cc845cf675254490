//! The forms of the lists of an image's first attribute, as its records have them.
use attr_types::{Field, ValueType};
use check_images::{CheckFault, Keys, check_tree, stored_long, stored_text};
use entry_ref::{word_in, words_at};
use image_format::FIRST_VECTOR;
use std::alloc::{AllocError, Global};
use std::collections::BTreeMap;

/// Returns the pairs of the tree at a root, if there is one.
fn pairs_of(
    alloc: Global,
    keys: Keys,
    records: &BTreeMap<u32, Vec<u64>>,
    root: u64,
) -> Result<Option<Vec<(u64, u64)>>, AllocError> {
    match check_tree(alloc, keys, records, root) {
        Ok(pairs) => Ok(Some(pairs)),
        Err(CheckFault::Broken) => Ok(None),
        Err(CheckFault::Memory) => Err(AllocError),
    }
}

/// Returns how many of these words there are up to the last one that is not 0.
fn used_words(words: &[u64]) -> usize {
    let mut used = 0;
    for (i, word) in words.iter().enumerate() {
        if *word != 0 {
            used = i.saturating_add(1);
        }
    }
    used
}

/// Writes the first of these words.
fn push_words(told: &mut String, words: &[u64], count: usize) -> Result<(), AllocError> {
    for word in words.iter().take(count) {
        write!(told, " {word}")?;
    }
    Ok(())
}

/// Writes the number of a block, and its words up to the last one that is not 0.
fn push_block(told: &mut String, number: u64, words: &[u64]) -> Result<(), AllocError> {
    let count = words.len();
    write!(told, ", block {number} of {count} words:")?;
    push_words(told, words, used_words(words))
}

/// Writes the blocks of a bit vector.
fn push_vector(
    alloc: Global,
    records: &BTreeMap<u32, Vec<u64>>,
    root: u64,
    told: &mut String,
) -> Result<(), AllocError> {
    told.push_str("bit vector")?;
    match pairs_of(alloc, Keys::Numbers, records, root)? {
        Some(blocks) => {
            for block in blocks.as_slice() {
                push_block(told, block.0, words_at(records, block.1))?;
            }
            Ok(())
        }
        None => told.push_str(" broken"),
    }
}

/// Writes how many documents a tree has.
fn push_tree(
    alloc: Global,
    records: &BTreeMap<u32, Vec<u64>>,
    root: u64,
    told: &mut String,
) -> Result<(), AllocError> {
    match pairs_of(alloc, Keys::Numbers, records, root)? {
        Some(pairs) => write!(told, "tree of {}", pairs.len()),
        None => told.push_str("tree broken"),
    }
}

/// Writes the count of a short list and its documents with their weights, a word each.
fn push_short(told: &mut String, words: &[u64]) -> Result<(), AllocError> {
    match words {
        [count, pairs @ ..] => {
            write!(told, "short list of {count}:")?;
            push_words(told, pairs, used_words(pairs))
        }
        [] => told.push_str("no list"),
    }
}

/// Writes the form of the list that a word of the dictionary names.
fn push_form(
    alloc: Global,
    records: &BTreeMap<u32, Vec<u64>>,
    word: u64,
    told: &mut String,
) -> Result<(), AllocError> {
    if word >= FIRST_VECTOR {
        return push_vector(alloc, records, word - FIRST_VECTOR, told);
    }
    if word % 2 != 0 {
        return push_tree(alloc, records, word / 2, told);
    }
    push_short(told, words_at(records, word / 2))
}

fn text_len(alloc: Global, words: &[u64]) -> Result<usize, AllocError> {
    Ok(stored_text(alloc, words)?.len())
}

/// Writes a value.
fn push_value(
    alloc: Global,
    value_type: ValueType,
    words: &[u64],
    told: &mut String,
) -> Result<(), AllocError> {
    match value_type {
        ValueType::Long => {
            let number = stored_long(words);
            write!(told, "; {number}: ")
        }
        ValueType::Text => {
            let len = text_len(alloc, words)?;
            write!(told, "; text of {len} bytes: ")
        }
    }
}

/// Writes each value of an attribute with the form of its list.
fn push_lists(
    alloc: Global,
    value_type: ValueType,
    records: &BTreeMap<u32, Vec<u64>>,
    dictionary: u64,
    told: &mut String,
) -> Result<(), AllocError> {
    let Some(entries) = pairs_of(alloc, Keys::Values(value_type), records, dictionary)? else {
        return told.push_str(" broken");
    };
    for entry in entries.as_slice() {
        push_value(alloc, value_type, words_at(records, entry.0), told)?;
        push_form(alloc, records, entry.1, told)?;
    }
    Ok(())
}

/// Writes each value of the first attribute of an image with the form of its list.
pub fn push_forms(
    alloc: Global,
    fields: &[Field],
    records: &BTreeMap<u32, Vec<u64>>,
    root: u64,
    told: &mut String,
) -> Result<(), AllocError> {
    let [field, ..] = fields else {
        return Ok(());
    };
    push_lists(
        alloc,
        field.value,
        records,
        word_in(words_at(records, root), 2),
        told,
    )
}
