//! The words of all buffers, with the commit under which each was stored.

ghost use Rattle.std.specs.Prelude.{◌≡◌, ◌↔◌, ◌<◌, ◌≤◌, ◌+◌, ◌*◌, ℕ, [], IsNone, IfSome, IfNone, IfOk, length, vec_len, slice_index};
ghost use Rattle.std.specs.Prelude.{slice_set, take, drop, map, replicate};
ghost use Rattle.entry_ref.specs.References.{buffer_of, offset_of, buffer_limit, offset_limit};
ghost use Rattle.entry_ref.specs.Places.{IsEntry};
ghost use Rattle.arena_api.specs.Works.{is_free, free_count};
ghost use Rattle.arena_api.specs.Calls.{IsLowestFree, padded};
ghost use Rattle.mem_work.specs.Cells.{width_in, begin_of, stamp_at, with_range, without_stamps, buffer_in};
ghost use Rattle.mem_work.specs.Marks.{mark_freed, marked_buffers};
ghost use Rattle.mem_work.specs.declared.marks.Mark.TheVariants.{Fresh, Held};

use crate::marks::Mark;
use entry_ref::EntryRef;
use std::alloc::{AllocError, Global};

/// The words of all buffers, and stamps that say under which commit words and entries were last stored.
#[derive(Drop)]
pub struct Cells<const OFFSET_BITS: u32> {
    pub buffers: u32,
    pub words: u32,
    pub table: Vec<u64>,
    pub stamps: Vec<u64>,
    pub marks: Vec<Mark>,
    ghost room: { vec_len table ≡ buffers * words },
    ghost stamped: { vec_len stamps ≡ buffers * words + buffers * words },
    ghost marked: { vec_len marks ≡ buffers },
    ghost some_buffers: { 1 ≤ buffers },
    ghost few_buffers: { buffers < buffer_limit OFFSET_BITS },
    ghost some_words: { 8192 ≤ words },
    ghost few_words: { words ≤ 65536 },
    ghost offsets: { words ≤ offset_limit OFFSET_BITS },
    ghost product: { buffers * words ≤ 67108864 },
}

impl<const OFFSET_BITS: u32> Cells<OFFSET_BITS> {
    pub fn create(alloc: Global, buffers: u32, words: u32) -> Result<Self, AllocError>
        requires some_buffers { 1 ≤ buffers }
        requires few_buffers { buffers < buffer_limit OFFSET_BITS }
        requires some_words { 8192 ≤ words }
        requires few_words { words ≤ 65536 }
        requires offsets { words ≤ offset_limit OFFSET_BITS }
        requires product { buffers * words ≤ 67108864 }
        ensures buffers { IfOk result (λ c. c.buffers ≡ buffers) }
        ensures words { IfOk result (λ c. c.words ≡ words) }
        ensures table { IfOk result (λ c. c.table.items ≡ replicate (buffers * words) 0) }
        ensures stamps { IfOk result (λ c. c.stamps.items ≡ replicate (buffers * words + buffers * words) 0) }
        ensures marks { IfOk result (λ c. c.marks.items ≡ replicate buffers Fresh) }
    {
        let count = buffers as usize * words as usize;
        let table = vec![in alloc; 0; count]?;
        let stamps = vec![in alloc; 0; count + count]?;
        let marks = vec![in alloc; Mark::Fresh; buffers as usize]?;
        Ok(Cells {
            buffers,
            words,
            table,
            stamps,
            marks,
        })
    }

    /// Returns the place of a word of an entry.
    fn place(&self, entry: EntryRef<OFFSET_BITS>, i: u32) -> usize
        requires entry { IsEntry OFFSET_BITS self.now.buffers self.now.words
            (width_in self.now.table.items self.now.words (buffer_of OFFSET_BITS entry)) entry }
        requires inside { i < width_in self.now.table.items self.now.words (buffer_of OFFSET_BITS entry) }
        ensures place { result ≡ begin_of OFFSET_BITS self.now.words
            (width_in self.now.table.items self.now.words (buffer_of OFFSET_BITS entry.entry)) entry.entry + i }
        ensures below { result < self.now.buffers * self.now.words }
    {
        let first = entry.buffer() as usize * self.words as usize;
        let width = self.table[first] as usize;
        first + entry.offset() as usize * width + i as usize
    }

    pub fn word(&self, entry: EntryRef<OFFSET_BITS>, i: u32) -> u64
        requires entry { IsEntry OFFSET_BITS self.now.buffers self.now.words
            (width_in self.now.table.items self.now.words (buffer_of OFFSET_BITS entry)) entry }
        requires inside { i < width_in self.now.table.items self.now.words (buffer_of OFFSET_BITS entry) }
        ensures { result ≡ slice_index self.now.table.items
            (begin_of OFFSET_BITS self.now.words
            (width_in self.now.table.items self.now.words (buffer_of OFFSET_BITS entry.entry)) entry.entry + i) }
    {
        self.table[self.place(entry, i)]
    }

    /// Reads words of an entry, starting at word `first`.
    pub fn read(&self, entry: EntryRef<OFFSET_BITS>, first: u32, into: &mut [u64])
        requires entry { IsEntry OFFSET_BITS self.now.buffers self.now.words
            (width_in self.now.table.items self.now.words (buffer_of OFFSET_BITS entry)) entry }
        requires inside { first + length into.old ≤ width_in self.now.table.items self.now.words (buffer_of OFFSET_BITS entry) }
        requires some { 0 < length into.old }
        ensures { into.new ≡ take (length into.old) (drop
            (begin_of OFFSET_BITS self.now.words
            (width_in self.now.table.items self.now.words (buffer_of OFFSET_BITS entry.entry)) entry.entry + first)
            self.now.table.items) }
    {
        let from = self.place(entry, first);
        into.copy_from_slice(&self.table[from..from + into.len()]);
    }

    /// Stores a word with a stamp.
    pub fn store(&mut self, entry: EntryRef<OFFSET_BITS>, i: u32, word: u64, stamp: u64)
        requires entry { IsEntry OFFSET_BITS self.old.buffers self.old.words
            (width_in self.old.table.items self.old.words (buffer_of OFFSET_BITS entry)) entry }
        requires inside { i < width_in self.old.table.items self.old.words (buffer_of OFFSET_BITS entry) }
        ensures table { self.new.table.items ≡ slice_set self.old.table.items
            (begin_of OFFSET_BITS self.old.words
            (width_in self.old.table.items self.old.words (buffer_of OFFSET_BITS entry.entry)) entry.entry + i) word }
        ensures stamps { self.new.stamps.items ≡ slice_set self.old.stamps.items
            (begin_of OFFSET_BITS self.old.words
            (width_in self.old.table.items self.old.words (buffer_of OFFSET_BITS entry.entry)) entry.entry + i) stamp }
        ensures marks { self.new.marks.items ≡ self.old.marks.items }
        ensures buffers { self.new.buffers ≡ self.old.buffers }
        ensures words { self.new.words ≡ self.old.words }
    {
        let place = self.place(entry, i);
        self.table[place] = word;
        self.stamps[place] = stamp;
    }

    /// Returns the place of an entry's stamp.
    pub fn stamp_place(&self, entry: EntryRef<OFFSET_BITS>) -> usize
        requires inside { buffer_of OFFSET_BITS entry < self.now.buffers }
        requires offset { offset_of OFFSET_BITS entry < self.now.words }
        ensures place { result ≡ stamp_at OFFSET_BITS self.now.buffers self.now.words entry.entry }
        ensures below { result < self.now.buffers * self.now.words + self.now.buffers * self.now.words }
    {
        self.table.len() + (entry.buffer() as usize * self.words as usize + entry.offset() as usize)
    }

    /// Stores the words of an entry, followed by zeros, with one stamp.
    pub fn put(&mut self, entry: EntryRef<OFFSET_BITS>, width: u32, words: &[u64], stamp: u64)
        requires entry { IsEntry OFFSET_BITS self.old.buffers self.old.words width entry }
        requires fits { length words.now ≤ width }
        ensures table { self.new.table.items ≡ with_range self.old.table.items (begin_of OFFSET_BITS self.old.words width entry.entry)
            (padded words.now width) }
        ensures stamps { self.new.stamps.items
            ≡ slice_set self.old.stamps.items (stamp_at OFFSET_BITS self.old.buffers self.old.words entry.entry) stamp }
        ensures marks { self.new.marks.items ≡ self.old.marks.items }
        ensures buffers { self.new.buffers ≡ self.old.buffers }
        ensures words { self.new.words ≡ self.old.words }
    {
        let first = entry.buffer() as usize * self.words as usize
            + entry.offset() as usize * width as usize;
        let end = first + width as usize;
        write_padded(&mut self.table[first..end], words);
        let place = self.stamp_place(entry);
        self.stamps[place] = stamp;
    }

    /// Takes the free buffer with the lowest number, and gives it a width.
    pub fn hand_out(&mut self, width: u32) -> Option<u32>
        requires { 0 < width }
        ensures none { IsNone result ↔ (free_count
            (marked_buffers self.old.marks.items (buffer_in self.old.table.items self.old.words)) self.old.buffers ≡ 0) }
        ensures lowest { IfSome result (IsLowestFree
            (marked_buffers self.old.marks.items (buffer_in self.old.table.items self.old.words)) self.old.buffers) }
        ensures handed { IfSome result (λ b. self.new.table.items ≡ slice_set self.old.table.items (b * self.old.words) width) }
        ensures refused { IfNone result (self.new.table.items ≡ self.old.table.items) }
        ensures stamps { self.new.stamps.items ≡ self.old.stamps.items }
        ensures marks { self.new.marks.items ≡ self.old.marks.items }
        ensures buffers { self.new.buffers ≡ self.old.buffers }
        ensures words { self.new.words ≡ self.old.words }
    {
        for buffer in 0..self.buffers {
            if self.is_free(buffer) {
                self.table[buffer as usize * self.words as usize] = u64::from(width);
                return Some(buffer);
            }
        }
        None
    }

    fn is_free(&self, buffer: u32) -> bool
        requires { buffer < self.now.buffers }
        ensures { result ≡ is_free (marked_buffers self.now.marks.items (buffer_in self.now.table.items self.now.words) buffer) }
    {
        let first = buffer as usize * self.words as usize;
        self.table[first] == 0 && !self.marks[buffer as usize].is_held()
    }

    pub fn free_buffers(&self) -> u32
        ensures { result ≡ free_count (marked_buffers self.now.marks.items (buffer_in self.now.table.items self.now.words))
            self.now.buffers }
    {
        let mut count = 0;
        for buffer in 0..self.buffers {
            if self.is_free(buffer) {
                count += 1;
            }
        }
        count
    }

    /// Puts a buffer on hold with a tag. Its words have no meaning any more.
    pub fn retire(&mut self, buffer: u32, generation: u64, commit: u32)
        requires { buffer < self.old.buffers }
        ensures table { self.new.table.items ≡ slice_set self.old.table.items (buffer * self.old.words) 0 }
        ensures stamps { self.new.stamps.items ≡ without_stamps self.old.stamps.items self.old.buffers self.old.words buffer }
        ensures marks { self.new.marks.items
            ≡ slice_set self.old.marks.items buffer (Held generation commit (width_in self.old.table.items self.old.words buffer)) }
        ensures buffers { self.new.buffers ≡ self.old.buffers }
        ensures words { self.new.words ≡ self.old.words }
    {
        let words = self.words as usize;
        let first = buffer as usize * words;
        let width = self.table[first];
        self.table[first] = 0;
        self.stamps[first..first + words].fill(0);
        let entries = self.table.len() + first;
        self.stamps[entries..entries + words].fill(0);
        self.marks[buffer as usize] = Mark::Held {
            generation,
            commit,
            width,
        };
    }

    /// Frees all buffers on hold whose tag is below a generation.
    pub fn free_below(&mut self, generation: u64)
        ensures marks { self.new.marks.items ≡ map (mark_freed generation) self.old.marks.items }
        ensures table { self.new.table.items ≡ self.old.table.items }
        ensures stamps { self.new.stamps.items ≡ self.old.stamps.items }
        ensures buffers { self.new.buffers ≡ self.old.buffers }
        ensures words { self.new.words ≡ self.old.words }
    {
        for i in 0..self.marks.len() {
            let mark = self.marks[i].freed(generation);
            self.marks[i] = mark;
        }
    }
}

/// Writes the given words, followed by zeros.
fn write_padded(row: &mut [u64], words: &[u64])
    requires { length words.now ≤ length row.old }
    ensures { row.new ≡ padded words.now (length row.old) }
{
    let (given, rest) = row.split_at_mut(words.len());
    given.copy_from_slice(words);
    rest.fill(0);
}
