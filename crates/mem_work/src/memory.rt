//! A memory without readers: `MemWork`.

ghost use Rattle.std.specs.Prelude.{◌≡◌, ◌≢◌, ◌<◌, ◌≤◌, ◌+◌, ◌-◌, ◌*◌, ◌^◌, ℕ, [], IfOk, length, IfSome, slice_index, take, drop};
ghost use Rattle.std.proofs.Common.{sym, ◌∙◌};
ghost use Rattle.entry_ref.specs.References.{buffer_of, buffer_limit, offset_limit};
ghost use Rattle.entry_ref.specs.Images.{words_at};
ghost use Rattle.entry_ref.specs.Places.{IsEntry};
ghost use Rattle.entry_ref.specs.Records.{HasWord, word_at, with_words};
ghost use Rattle.entry_ref.specs.Maps.{seen};
ghost use Rattle.arena_api.specs.Calls.{opened, MayStore, InNoCommit, AddsCommit, with_stored, padded, next_image, published};
ghost use Rattle.arena_api.specs.Works.{active_width};
ghost use Rattle.mem_work.specs.Cells.{width_in, standing, IsUnused, records_in, sizes_of, memory_view};
ghost use Rattle.mem_work.specs.Marks.{IsMarkOfWidth, mark_at, with_marks};

use crate::cells::Cells;
use crate::reach::{Reach, add_those};
use arena_api::{Advance, Frozen, Oldest, Work};
use entry_ref::{EntryRef, Layout};
use std::alloc::{AllocError, Global};
use std::collections::BTreeMap;
use std::marker::PhantomData;

/// A work in memory, without readers. It keeps only the last commit.
#[derive(Drop)]
pub struct MemWork<const OFFSET_BITS: u32, L: Layout> {
    cells: Cells<OFFSET_BITS>,
    shape: u32,
    last: u32,
    root: EntryRef<OFFSET_BITS>,
    // the generation of the only open hold, and the first commit that a reader of it could have
    generation: u64,
    first: u32,
    layout: PhantomData<L>,
    // no word has a stamp after that of the next commit
    ghost stamped: { (p : ℕ) → slice_index cells.stamps.items p ≤ last + 1 },
    // the words of a free buffer have earlier stamps
    ghost unused: { IsUnused cells.table.items cells.stamps.items cells.buffers cells.words (last + 1) },
    ghost marks: { (b : ℕ) → IsMarkOfWidth generation first last (width_in cells.table.items cells.words b) (mark_at cells.marks.items b) },
    ghost early: { first ≤ last },
    ghost generations: { generation ≤ 2 ^ 48 - 1 },
    ghost limit: { last < 2 ^ 32 },
    ghost lawful: { ∥ L.lawful shape (standing cells.table.items OFFSET_BITS cells.buffers cells.words) root ∥₁ },
}

impl<const OFFSET_BITS: u32, L: Layout> MemWork<OFFSET_BITS, L> {
    /// Creates a memory of `buffers` buffers with `words` words each, for images of this shape, in which nothing is
    /// committed.
    pub fn create(alloc: Global, buffers: u32, words: u32, shape: u32) -> Result<Self, AllocError>
        requires some_buffers { 1 ≤ buffers }
        requires few_buffers { buffers < buffer_limit OFFSET_BITS }
        requires some_words { 8192 ≤ words }
        requires few_words { words ≤ 65536 }
        requires offsets { words ≤ offset_limit OFFSET_BITS }
        requires product { buffers * words ≤ 67108864 }
        ensures knows { IfOk result (λ w. ⟦<MemWork<OFFSET_BITS, L> as Work<OFFSET_BITS>>⟧.knows w
            ≡ opened tt (sizes_of buffers words) []) }
        ensures records { IfOk result (λ w. (r : ℕ) → ⟦<MemWork<OFFSET_BITS, L> as Frozen<OFFSET_BITS>>⟧.records w r ≡ []) }
        ensures shape { IfOk result (λ w. ⟦<MemWork<OFFSET_BITS, L> as Frozen<OFFSET_BITS>>⟧.shape w ≡ shape) }
    {
        let cells = Cells::create(alloc, buffers, words)?;
        Ok(MemWork {
            cells,
            shape,
            last: 0,
            root: EntryRef::from_raw(0),
            generation: 0,
            first: 0,
            layout: PhantomData,
        })
    }
}

impl<const OFFSET_BITS: u32, L: Reach<OFFSET_BITS>> MemWork<OFFSET_BITS, L> {
    /// Returns every record: those that the last root reaches, and those stored whole since then.
    pub fn records(&self, alloc: Global) -> Result<BTreeMap<u32, Vec<u64>>, AllocError>
        ensures { IfOk result (λ map. seen map ≡ ⟦<MemWork<OFFSET_BITS, L> as Frozen<OFFSET_BITS>>⟧.records self.now) }
    {
        let standing = self.cells.entries(alloc, None)?;
        let reached = L::reached(alloc, self.shape, &standing, self.root)?;
        let mut map = self.cells.entries(alloc, Some(next_stamp(self.last)))?;
        add_those(alloc, reached, &standing, &mut map)?;
        Ok(map)
    }
}

impl<const OFFSET_BITS: u32, L: Layout> Frozen<OFFSET_BITS> for MemWork<OFFSET_BITS, L> {
    ghost use Rattle.mem_work.specs.ProofsForMemory.{memory_references};

    ghost shape = { λ s. s.shape };

    ghost records = { λ s. records_in L.reaches s.shape s.cells.table.items s.cells.stamps.items
        OFFSET_BITS s.cells.buffers s.cells.words s.last s.root };

    ghost begins = { λ s r. 0 };

    fn word(&mut self, entry: EntryRef<OFFSET_BITS>, i: u32) -> u64
        requires { HasWord (⟦<MemWork<OFFSET_BITS, L> as Frozen<OFFSET_BITS>>⟧.records self.old) entry i }
        ensures value { result ≡ word_at (⟦<MemWork<OFFSET_BITS, L> as Frozen<OFFSET_BITS>>⟧.records self.old) entry.entry i }
        ensures same { self.new ≡ self.old }
    {
        self.cells.word(entry, i)
    }

    fn start_of(&mut self, entry: EntryRef<OFFSET_BITS>, width: Option<u32>) -> u64
        requires some { HasWord (⟦<MemWork<OFFSET_BITS, L> as Frozen<OFFSET_BITS>>⟧.records self.old) entry 0 }
        requires width { IfSome width (λ w. length (⟦<MemWork<OFFSET_BITS, L> as Frozen<OFFSET_BITS>>⟧.records self.old entry) ≡ w) }
        ensures start { result ≡ ⟦<MemWork<OFFSET_BITS, L> as Frozen<OFFSET_BITS>>⟧.begins self.old entry.entry }
        ensures same { self.new ≡ self.old }
    {
        let _ = (entry, width);
        0
    }

    fn word_from(&mut self, entry: EntryRef<OFFSET_BITS>, start: u64, i: u32) -> u64
        requires there { HasWord (⟦<MemWork<OFFSET_BITS, L> as Frozen<OFFSET_BITS>>⟧.records self.old) entry i }
        requires start { start ≡ ⟦<MemWork<OFFSET_BITS, L> as Frozen<OFFSET_BITS>>⟧.begins self.old entry }
        ensures value { result ≡ word_at (⟦<MemWork<OFFSET_BITS, L> as Frozen<OFFSET_BITS>>⟧.records self.old) entry.entry i }
        ensures same { self.new ≡ self.old }
    {
        let _ = start;
        self.word(entry, i)
    }

    fn read_from(&mut self, entry: EntryRef<OFFSET_BITS>, start: u64, first: u32, into: &mut [u64])
        requires there { first + length into.old ≤ length (⟦<MemWork<OFFSET_BITS, L> as Frozen<OFFSET_BITS>>⟧.records self.old entry) }
        requires few { first + length into.old < 2 ^ 32 }
        requires start { start ≡ ⟦<MemWork<OFFSET_BITS, L> as Frozen<OFFSET_BITS>>⟧.begins self.old entry }
        ensures words { into.new ≡ take (length into.old) (drop first (⟦<MemWork<OFFSET_BITS, L> as Frozen<OFFSET_BITS>>⟧.records self.old entry.entry)) }
        ensures same { self.new ≡ self.old }
    {
        let _ = start;
        if !into.is_empty() {
            self.cells.read(entry, first, into);
        }
    }

    ghost references = { λ s. memory_references L.reaches s.shape s.cells.table.items s.cells.stamps.items
        OFFSET_BITS s.cells.buffers s.cells.words s.last s.root s.cells.few_words s.cells.offsets };
}

impl<const OFFSET_BITS: u32, L: Layout> Work<OFFSET_BITS> for MemWork<OFFSET_BITS, L> {
    ghost use Rattle.mem_work.specs.ProofsForMemory.{memory_limits, memory_queue, memory_order, memory_entries, memory_kept, memory_last};
    ghost use Rattle.mem_work.specs.ProofsForMemory.{memory_whole, memory_only, memory_stored, memory_held, memory_tags};

    type Layout = L;

    type Home = ();

    ghost knows = { λ s. with_marks (memory_view L.reaches s.shape s.cells.table.items s.cells.stamps.items
        OFFSET_BITS s.cells.buffers s.cells.words s.last s.root) s.cells.marks.items s.generation s.first };

    fn store(&mut self, entry: EntryRef<OFFSET_BITS>, i: u32, word: u64)
        requires { MayStore OFFSET_BITS (⟦<MemWork<OFFSET_BITS, L> as Work<OFFSET_BITS>>⟧.knows self.old) entry i }
        ensures knows { ⟦<MemWork<OFFSET_BITS, L> as Work<OFFSET_BITS>>⟧.knows self.new
            ≡ record (⟦<MemWork<OFFSET_BITS, L> as Work<OFFSET_BITS>>⟧.knows self.old) {
              stored = with_stored
                  (⟦<MemWork<OFFSET_BITS, L> as Work<OFFSET_BITS>>⟧.knows self.old).stored entry.entry i word;
            } }
        ensures others { (q : ℕ) → q ≢ entry.entry
            → ⟦<MemWork<OFFSET_BITS, L> as Frozen<OFFSET_BITS>>⟧.records self.new q
            ≡ ⟦<MemWork<OFFSET_BITS, L> as Frozen<OFFSET_BITS>>⟧.records self.old q }
        ensures shape { ⟦<MemWork<OFFSET_BITS, L> as Frozen<OFFSET_BITS>>⟧.shape self.new
            ≡ ⟦<MemWork<OFFSET_BITS, L> as Frozen<OFFSET_BITS>>⟧.shape self.old }
    {
        self.cells.store(entry, i, word, next_stamp(self.last));
    }

    fn put(&mut self, entry: EntryRef<OFFSET_BITS>, width: u32, words: &[u64])
        requires entry { IsEntry OFFSET_BITS (⟦<MemWork<OFFSET_BITS, L> as Work<OFFSET_BITS>>⟧.knows self.old).sizes.buffers
            (⟦<MemWork<OFFSET_BITS, L> as Work<OFFSET_BITS>>⟧.knows self.old).sizes.words width entry }
        requires width { active_width ((⟦<MemWork<OFFSET_BITS, L> as Work<OFFSET_BITS>>⟧.knows self.old).buffer
            (buffer_of OFFSET_BITS entry)) ≡ width }
        requires fits { length words.now ≤ width }
        requires unkept { InNoCommit (⟦<MemWork<OFFSET_BITS, L> as Work<OFFSET_BITS>>⟧.knows self.old).commits entry }
        ensures records { ⟦<MemWork<OFFSET_BITS, L> as Frozen<OFFSET_BITS>>⟧.records self.new
            ≡ with_words (⟦<MemWork<OFFSET_BITS, L> as Frozen<OFFSET_BITS>>⟧.records self.old) entry.entry (padded words.now width) }
        ensures knows { ⟦<MemWork<OFFSET_BITS, L> as Work<OFFSET_BITS>>⟧.knows self.new
            ≡ record (⟦<MemWork<OFFSET_BITS, L> as Work<OFFSET_BITS>>⟧.knows self.old) {
              stored = (⟦<MemWork<OFFSET_BITS, L> as Work<OFFSET_BITS>>⟧.knows self.new).stored;
            } }
        ensures apart { (q i : ℕ) → q ≢ entry.entry
            → (⟦<MemWork<OFFSET_BITS, L> as Work<OFFSET_BITS>>⟧.knows self.new).stored q i
            ≡ (⟦<MemWork<OFFSET_BITS, L> as Work<OFFSET_BITS>>⟧.knows self.old).stored q i }
        ensures shape { ⟦<MemWork<OFFSET_BITS, L> as Frozen<OFFSET_BITS>>⟧.shape self.new
            ≡ ⟦<MemWork<OFFSET_BITS, L> as Frozen<OFFSET_BITS>>⟧.shape self.old }
    {
        self.cells.put(entry, width, words, next_stamp(self.last));
    }

    fn hand_out(&mut self, width: u32) -> Option<u32> {
        self.cells.hand_out(width)
    }

    fn publish(&mut self, root: EntryRef<OFFSET_BITS>) -> u32
        requires lawful { L.lawful (⟦<MemWork<OFFSET_BITS, L> as Frozen<OFFSET_BITS>>⟧.shape self.old)
            (⟦<MemWork<OFFSET_BITS, L> as Frozen<OFFSET_BITS>>⟧.records self.old) root }
        requires room { (⟦<MemWork<OFFSET_BITS, L> as Work<OFFSET_BITS>>⟧.knows self.old).commits.last
            < (⟦<MemWork<OFFSET_BITS, L> as Work<OFFSET_BITS>>⟧.knows self.old).sizes.commits }
        ensures number { result ≡ (⟦<MemWork<OFFSET_BITS, L> as Work<OFFSET_BITS>>⟧.knows self.old).commits.last + 1 }
        ensures commit { AddsCommit (⟦<MemWork<OFFSET_BITS, L> as Work<OFFSET_BITS>>⟧.knows self.old).commits
            (⟦<MemWork<OFFSET_BITS, L> as Work<OFFSET_BITS>>⟧.knows self.new).commits
            (next_image L.reaches (⟦<MemWork<OFFSET_BITS, L> as Frozen<OFFSET_BITS>>⟧.shape self.old)
            (⟦<MemWork<OFFSET_BITS, L> as Frozen<OFFSET_BITS>>⟧.records self.old) root.entry) }
        ensures knows { ⟦<MemWork<OFFSET_BITS, L> as Work<OFFSET_BITS>>⟧.knows self.new
            ≡ published (⟦<MemWork<OFFSET_BITS, L> as Work<OFFSET_BITS>>⟧.knows self.old)
            (⟦<MemWork<OFFSET_BITS, L> as Work<OFFSET_BITS>>⟧.knows self.new).commits
            (next_image L.reaches (⟦<MemWork<OFFSET_BITS, L> as Frozen<OFFSET_BITS>>⟧.shape self.old)
            (⟦<MemWork<OFFSET_BITS, L> as Frozen<OFFSET_BITS>>⟧.records self.old) root.entry) }
        ensures records { ⟦<MemWork<OFFSET_BITS, L> as Frozen<OFFSET_BITS>>⟧.records self.new
            ≡ words_at (next_image L.reaches (⟦<MemWork<OFFSET_BITS, L> as Frozen<OFFSET_BITS>>⟧.shape self.old)
            (⟦<MemWork<OFFSET_BITS, L> as Frozen<OFFSET_BITS>>⟧.records self.old) root.entry) }
        ensures shape { ⟦<MemWork<OFFSET_BITS, L> as Frozen<OFFSET_BITS>>⟧.shape self.new
            ≡ ⟦<MemWork<OFFSET_BITS, L> as Frozen<OFFSET_BITS>>⟧.shape self.old }
    {
        self.root = root;
        self.last += 1;
        self.last
    }

    fn retire_buffer(&mut self, buffer: u32) {
        self.cells.retire(buffer, self.generation, self.last);
    }

    fn advance(&mut self) -> Advance {
        if self.generation == LAST_GENERATION {
            return Advance::Spent {
                generation: self.generation,
            };
        }
        self.generation += 1;
        self.first = self.last;
        Advance::To {
            generation: self.generation,
            hold: 0,
        }
    }

    fn reclaim(&mut self) -> Oldest {
        self.cells.free_below(self.generation);
        Oldest {
            generation: self.generation,
            hold: 0,
            found: 0,
            newest: true,
        }
    }

    fn free_buffers(&self) -> u32 {
        self.cells.free_buffers()
    }

    fn buffers(&self) -> u32 {
        self.cells.buffers
    }

    fn words(&self) -> u32 {
        self.cells.words
    }

    fn commits_left(&self) -> u32 {
        u32::MAX - self.last
    }

    ghost limits = { λ s. memory_limits OFFSET_BITS s.cells.buffers s.cells.words s.cells.some_buffers s.cells.few_buffers
        s.cells.some_words s.cells.few_words s.cells.offsets };

    ghost total_words = { λ s. s.cells.product };

    ghost queue = { λ s. memory_queue (memory_view L.reaches s.shape s.cells.table.items s.cells.stamps.items
        OFFSET_BITS s.cells.buffers s.cells.words s.last s.root) s.cells.marks.items s.generation s.first s.early s.generations };

    ghost order = { λ s. memory_order L.reaches s.shape s.cells.table.items s.cells.stamps.items
        OFFSET_BITS s.cells.buffers s.cells.words s.last s.root s.cells.marks.items s.generation s.first s.early s.limit };

    ghost entries = { λ s. memory_entries L.reaches s.shape s.cells.table.items s.cells.stamps.items
        OFFSET_BITS s.cells.buffers s.cells.words s.last s.root (sym s.cells.table.ok.0 ∙ s.cells.room) s.cells.marks.items };

    ghost kept = { λ s n r k. memory_kept L.reaches s.shape s.cells.table.items s.cells.stamps.items
        OFFSET_BITS s.cells.buffers s.cells.words s.last s.root (sym s.cells.table.ok.0 ∙ s.cells.room) s.cells.marks.items r };

    ghost last = { λ s. memory_last L.reaches s.shape s.cells.table.items s.cells.stamps.items
        OFFSET_BITS s.cells.buffers s.cells.words s.last s.root };

    ghost whole = { λ s. memory_whole L.reaches s.shape s.cells.table.items s.cells.stamps.items
        OFFSET_BITS s.cells.buffers s.cells.words s.last s.root (sym s.cells.table.ok.0 ∙ s.cells.room) s.cells.marks.items };

    ghost only = { λ s. memory_only L.reaches s.shape s.cells.table.items s.cells.stamps.items
        OFFSET_BITS s.cells.buffers s.cells.words s.last s.root (sym s.cells.stamps.ok.0 ∙ s.cells.stamped) };

    ghost stored = { λ s. memory_stored L.reaches s.shape s.cells.table.items s.cells.stamps.items
        OFFSET_BITS s.cells.buffers s.cells.words s.last s.root s.cells.marks.items s.generation s.first };

    ghost held = { λ s. memory_held L.reaches s.shape s.cells.table.items s.cells.stamps.items
        OFFSET_BITS s.cells.buffers s.cells.words s.last s.root s.cells.marks.items s.generation s.first s.marks };

    ghost tags = { λ s b t. memory_tags s.generation s.first s.last (width_in s.cells.table.items s.cells.words b)
        (mark_at s.cells.marks.items b) (s.marks b) t };
}

/// The greatest generation, of 48 bits.
const LAST_GENERATION: u64 = (1 << 48) - 1;

/// Returns the stamp of words stored after this commit.
fn next_stamp(last: u32) -> u64
    ensures { result ≡ last + 1 }
{
    u64::from(last) + 1
}
