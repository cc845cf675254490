//! Whether an entry is whole.

ghost use Rattle.std.specs.Prelude.{◌≡◌, ◌≢◌, ◌<◌, ◌+◌, ℕ, IfOk, OnOk, [], slice_index, take, drop};
ghost use Rattle.std.specs.List.{list_all};
ghost use Rattle.entry_ref.specs.References.{buffer_of};
ghost use Rattle.entry_ref.specs.Places.{IsEntry};
ghost use Rattle.entry_ref.specs.Before.{those_before};
ghost use Rattle.entry_ref.specs.Maps.{seen};
ghost use Rattle.mem_work.specs.Cells.{width_in, begin_of, stamp_at, standing, was_stored_since};
ghost use Rattle.mem_work.specs.Entries.{is_chosen, chosen};

use crate::cells::Cells;
use crate::reach::put_words;
use entry_ref::EntryRef;
use std::alloc::{AllocError, Global};
use std::collections::BTreeMap;

impl<const OFFSET_BITS: u32> Cells<OFFSET_BITS> {
    /// Returns every entry with its words. If a stamp is given, returns only entries of which each word was stored
    /// since that stamp.
    pub fn entries(
        &self,
        alloc: Global,
        since: Option<u64>,
    ) -> Result<BTreeMap<u32, Vec<u64>>, AllocError>
        ensures { IfOk result (λ map. (q : ℕ) → seen map q
            ≡ chosen since self.now.table.items self.now.stamps.items OFFSET_BITS self.now.buffers self.now.words q) }
    {
        let mut map = BTreeMap::new(alloc);
        for buffer in 0..self.buffers {
            self.add_entries(alloc, buffer, since, &mut map)?;
        }
        Ok(map)
    }

    /// Adds the entries of a buffer to those of the buffers before it.
    fn add_entries(
        &self,
        alloc: Global,
        buffer: u32,
        since: Option<u64>,
        map: &mut BTreeMap<u32, Vec<u64>>,
    ) -> Result<(), AllocError>
        requires inside { buffer < self.now.buffers }
        requires before { (q : ℕ) → seen map.old q ≡ those_before OFFSET_BITS
            (chosen since self.now.table.items self.now.stamps.items OFFSET_BITS self.now.buffers self.now.words) buffer 0 q }
        ensures entries { OnOk result ((q : ℕ) → seen map.new q ≡ those_before OFFSET_BITS
            (chosen since self.now.table.items self.now.stamps.items OFFSET_BITS self.now.buffers self.now.words) (buffer + 1) 0 q) }
    {
        let width = self.width(buffer);
        if width == 0 {
            return Ok(());
        }
        let end = (self.words as usize / width) as u32;
        for offset in 1..end {
            self.add_entry(alloc, EntryRef::new(offset, buffer), since, map)?;
        }
        Ok(())
    }

    /// Adds an entry to others, if it is requested.
    fn add_entry(
        &self,
        alloc: Global,
        entry: EntryRef<OFFSET_BITS>,
        since: Option<u64>,
        map: &mut BTreeMap<u32, Vec<u64>>,
    ) -> Result<(), AllocError>
        requires entry { IsEntry OFFSET_BITS self.now.buffers self.now.words
            (width_in self.now.table.items self.now.words (buffer_of OFFSET_BITS entry)) entry }
        requires absent { seen map.old entry ≡ [] }
        ensures here { OnOk result (seen map.new entry.entry
            ≡ chosen since self.now.table.items self.now.stamps.items OFFSET_BITS self.now.buffers self.now.words entry.entry) }
        ensures others { OnOk result ((q : ℕ) → q ≢ entry.entry → seen map.new q ≡ seen map.old q) }
    {
        if self.is_chosen(entry, since) {
            put_words(alloc, entry.raw(), self.words_of(entry), map)?;
        }
        Ok(())
    }

    /// Returns the width of a buffer's entries, or 0 if it is free.
    fn width(&self, buffer: u32) -> usize
        requires { buffer < self.now.buffers }
        ensures { result ≡ width_in self.now.table.items self.now.words buffer }
    {
        self.table[buffer as usize * self.words as usize] as usize
    }

    /// Returns whether an entry is requested.
    fn is_chosen(&self, entry: EntryRef<OFFSET_BITS>, since: Option<u64>) -> bool
        requires { IsEntry OFFSET_BITS self.now.buffers self.now.words
            (width_in self.now.table.items self.now.words (buffer_of OFFSET_BITS entry)) entry }
        ensures { result ≡ is_chosen since self.now.table.items self.now.stamps.items OFFSET_BITS self.now.buffers self.now.words
            entry.entry }
    {
        match since {
            Some(since) => all_since(self.entry_stamp(entry), self.stamps_of(entry), since),
            None => true,
        }
    }

    /// Returns the words of an entry.
    fn words_of(&self, entry: EntryRef<OFFSET_BITS>) -> &[u64]
        requires { IsEntry OFFSET_BITS self.now.buffers self.now.words
            (width_in self.now.table.items self.now.words (buffer_of OFFSET_BITS entry)) entry }
        ensures { result.now ≡ standing self.now.table.items OFFSET_BITS self.now.buffers self.now.words entry.entry }
    {
        let buffer = entry.buffer();
        let width = self.width(buffer);
        let first = buffer as usize * self.words as usize + entry.offset() as usize * width;
        &self.table[first..first + width]
    }

    /// Returns the stamp of an entry.
    fn entry_stamp(&self, entry: EntryRef<OFFSET_BITS>) -> u64
        requires { IsEntry OFFSET_BITS self.now.buffers self.now.words
            (width_in self.now.table.items self.now.words (buffer_of OFFSET_BITS entry)) entry }
        ensures { result ≡ slice_index self.now.stamps.items (stamp_at OFFSET_BITS self.now.buffers self.now.words entry.entry) }
    {
        self.stamps[self.stamp_place(entry)]
    }

    /// Returns the stamps of the words of an entry.
    fn stamps_of(&self, entry: EntryRef<OFFSET_BITS>) -> &[u64]
        requires { IsEntry OFFSET_BITS self.now.buffers self.now.words
            (width_in self.now.table.items self.now.words (buffer_of OFFSET_BITS entry)) entry }
        ensures { result.now ≡ take (width_in self.now.table.items self.now.words (buffer_of OFFSET_BITS entry.entry))
            (drop (begin_of OFFSET_BITS self.now.words
            (width_in self.now.table.items self.now.words (buffer_of OFFSET_BITS entry.entry)) entry.entry) self.now.stamps.items) }
    {
        let buffer = entry.buffer();
        let width = self.width(buffer);
        let first = buffer as usize * self.words as usize + entry.offset() as usize * width;
        &self.stamps[first..first + width]
    }
}

/// Returns whether each word of an entry was stored since a stamp, by the stamps of the entry and its words.
fn all_since(whole: u64, stamps: &[u64], since: u64) -> bool
    ensures { result ≡ list_all (was_stored_since since whole) stamps.now }
{
    stamps.iter().all(|stamp| since <= whole || since <= *stamp)
}
