//! Records read through a map from references to words.

ghost use Rattle.std.specs.Prelude.{◌≡◌, slice_index};
ghost use Rattle.entry_ref.specs.Maps.{seen};

use std::collections::BTreeMap;

/// Returns the words of the record at `reference`, or an empty slice if there is no record.
pub fn words_at(records: &BTreeMap<u32, Vec<u64>>, reference: u64) -> &[u64]
    ensures words { result.now ≡ seen records.now reference }
{
    match u32::try_from(reference) {
        Ok(number) => match records.get(&number) {
            Some(words) => words.as_slice(),
            None => &[],
        },
        Err(_) => &[],
    }
}

/// Returns word `i` of a record, or 0 past its end.
pub fn word_in(words: &[u64], i: usize) -> u64
    ensures { result ≡ slice_index words.now i }
{
    match words.get(i) {
        Some(word) => *word,
        None => 0,
    }
}
