//! Layouts whose reach can be computed.

ghost use Rattle.std.specs.Prelude.{◌≡◌, ◌≢◌, ℕ, IfOk, OnOk};
ghost use Rattle.entry_ref.specs.Maps.{seen};
ghost use Rattle.mem_work.specs.Entries.{with_those};

use entry_ref::{EntryRef, Layout, words_at};
use std::alloc::{AllocError, Global};
use std::collections::BTreeMap;

/// A layout whose reach can be computed.
pub trait Reach<const OFFSET_BITS: u32>: Layout {
    /// Returns the references that a root reaches.
    fn reached(
        alloc: Global,
        shape: u32,
        records: &BTreeMap<u32, Vec<u64>>,
        root: EntryRef<OFFSET_BITS>,
    ) -> Result<Vec<u32>, AllocError>
        ensures { IfOk result (λ references. references.items ≡ Self.reaches shape (seen records.now) root.entry) };
}

/// Inserts the records with these references into a map.
pub fn add_those(
    alloc: Global,
    references: Vec<u32>,
    records: &BTreeMap<u32, Vec<u64>>,
    map: &mut BTreeMap<u32, Vec<u64>>,
) -> Result<(), AllocError>
    ensures { OnOk result ((q : ℕ) → seen map.new q ≡ with_those references.items (seen records.now) (seen map.old) q) }
{
    let mut rest = references;
    while let Some(reference) = rest.pop() {
        put_words(
            alloc,
            reference,
            words_at(records, u64::from(reference)),
            map,
        )?;
    }
    Ok(())
}

/// Inserts one record into a map.
pub fn put_words(
    alloc: Global,
    reference: u32,
    words: &[u64],
    map: &mut BTreeMap<u32, Vec<u64>>,
) -> Result<(), AllocError>
    ensures here { OnOk result (seen map.new reference ≡ words.now) }
    ensures others { OnOk result ((q : ℕ) → q ≢ reference → seen map.new q ≡ seen map.old q) }
{
    map.insert(reference, words.to_vec(alloc)?)?;
    Ok(())
}
