//! The words that were stored last at each reference.

use std::alloc::{AllocError, Global};
use std::collections::BTreeMap;

/// The words last stored at each reference.
#[derive(Drop)]
pub struct Notes {
    alloc: Global,
    records: BTreeMap<u32, Vec<u64>>,
    kept: bool,
}

/// Returns these words, followed by zeros.
fn padded(alloc: Global, words: &[u64], width: u32) -> Result<Vec<u64>, AllocError> {
    let mut record = words.to_vec(alloc)?;
    for _ in words.len()..width as usize {
        record.push(0)?;
    }
    Ok(record)
}

/// Returns the words after one is replaced; missing words before it become zeros.
fn with_word(alloc: Global, words: &[u64], place: u32, word: u64) -> Result<Vec<u64>, AllocError> {
    let mut record = padded(alloc, words, place.saturating_add(1))?;
    if let Some(one) = record.get_mut(place as usize) {
        *one = word;
    }
    Ok(record)
}

impl Notes {
    /// Returns empty notes, which keep words or not.
    pub fn new(alloc: Global, kept: bool) -> Notes {
        Notes {
            alloc,
            records: BTreeMap::new(alloc),
            kept,
        }
    }

    /// Returns the words at each reference, unless some could not be kept.
    pub fn records(&self) -> Option<&BTreeMap<u32, Vec<u64>>> {
        if self.kept { Some(&self.records) } else { None }
    }

    fn add_record(&mut self, reference: u32, words: &[u64], width: u32) -> Result<(), AllocError> {
        let record = padded(self.alloc, words, width)?;
        self.records.insert(reference, record)?;
        Ok(())
    }

    fn add_word(&mut self, reference: u32, place: u32, word: u64) -> Result<(), AllocError> {
        let record = match self.records.get(&reference) {
            Some(words) => with_word(self.alloc, words.as_slice(), place, word)?,
            None => with_word(self.alloc, &[], place, word)?,
        };
        self.records.insert(reference, record)?;
        Ok(())
    }

    /// Notes a record that was stored whole.
    pub fn put(&mut self, reference: u32, words: &[u64], width: u32) {
        if self.kept {
            self.kept = self.add_record(reference, words, width).is_ok();
        }
    }

    /// Notes one stored word of a record.
    pub fn store(&mut self, reference: u32, place: u32, word: u64) {
        if self.kept {
            self.kept = self.add_word(reference, place, word).is_ok();
        }
    }
}
