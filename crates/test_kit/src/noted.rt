//! A memory with a copy of what was stored last at each reference.

ghost use Rattle.std.specs.Prelude.{◌≡◌, ◌≢◌, ◌<◌, ◌≤◌, ◌+◌, ◌^◌, ℕ, length, IfSome, take, drop};
ghost use Rattle.entry_ref.specs.References.{buffer_of};
ghost use Rattle.entry_ref.specs.Images.{words_at};
ghost use Rattle.entry_ref.specs.Places.{IsEntry};
ghost use Rattle.entry_ref.specs.Records.{HasWord, word_at, with_words};
ghost use Rattle.arena_api.specs.Works.{active_width};
ghost use Rattle.arena_api.specs.Calls.{MayStore, InNoCommit, AddsCommit, with_stored, padded, next_image, published};

use crate::notes::Notes;
use arena_api::{Advance, Frozen, Oldest, Work};
use entry_ref::EntryRef;
use std::alloc::Global;
use std::collections::BTreeMap;

/// A work, and a copy of what was last stored at each reference.
#[derive(Drop)]
pub struct NotedWork<const OFFSET_BITS: u32, W: Work<OFFSET_BITS>> {
    work: W,
    notes: Notes,
}

impl<const OFFSET_BITS: u32, W: Work<OFFSET_BITS>> NotedWork<OFFSET_BITS, W> {
    /// Returns a work that notes what is stored from now on, or one that does not.
    pub fn new(alloc: Global, work: W, noting: bool) -> Self
        ensures knows { ⟦<NotedWork<OFFSET_BITS, W> as Work<OFFSET_BITS>>⟧.knows result ≡ W.knows work }
        ensures records { ⟦<NotedWork<OFFSET_BITS, W> as Frozen<OFFSET_BITS>>⟧.records result ≡ W.records work }
        ensures shape { ⟦<NotedWork<OFFSET_BITS, W> as Frozen<OFFSET_BITS>>⟧.shape result ≡ W.shape work }
    {
        NotedWork {
            work,
            notes: Notes::new(alloc, noting),
        }
    }

    /// Returns the words last stored at each reference, if they were kept.
    pub fn records(&self) -> Option<&BTreeMap<u32, Vec<u64>>> {
        self.notes.records()
    }
}

impl<const OFFSET_BITS: u32, W: Work<OFFSET_BITS>> Frozen<OFFSET_BITS>
    for NotedWork<OFFSET_BITS, W> {
    ghost shape = { λ s. W.shape s.work };

    ghost records = { λ s. W.records s.work };

    ghost begins = { λ s. W.begins s.work };

    fn word(&mut self, entry: EntryRef<OFFSET_BITS>, i: u32) -> u64
        requires { HasWord (⟦<NotedWork<OFFSET_BITS, W> as Frozen<OFFSET_BITS>>⟧.records self.old) entry i }
        ensures value { result ≡ word_at (⟦<NotedWork<OFFSET_BITS, W> as Frozen<OFFSET_BITS>>⟧.records self.old) entry.entry i }
        ensures same { self.new ≡ self.old }
    {
        self.work.word(entry, i)
    }

    fn start_of(&mut self, entry: EntryRef<OFFSET_BITS>, width: Option<u32>) -> u64
        requires some { HasWord (⟦<NotedWork<OFFSET_BITS, W> as Frozen<OFFSET_BITS>>⟧.records self.old) entry 0 }
        requires width { IfSome width (λ w. length (⟦<NotedWork<OFFSET_BITS, W> as Frozen<OFFSET_BITS>>⟧.records self.old entry) ≡ w) }
        ensures start { result ≡ ⟦<NotedWork<OFFSET_BITS, W> as Frozen<OFFSET_BITS>>⟧.begins self.old entry.entry }
        ensures same { self.new ≡ self.old }
    {
        self.work.start_of(entry, width)
    }

    fn word_from(&mut self, entry: EntryRef<OFFSET_BITS>, start: u64, i: u32) -> u64
        requires there { HasWord (⟦<NotedWork<OFFSET_BITS, W> as Frozen<OFFSET_BITS>>⟧.records self.old) entry i }
        requires start { start ≡ ⟦<NotedWork<OFFSET_BITS, W> as Frozen<OFFSET_BITS>>⟧.begins self.old entry }
        ensures value { result ≡ word_at (⟦<NotedWork<OFFSET_BITS, W> as Frozen<OFFSET_BITS>>⟧.records self.old) entry.entry i }
        ensures same { self.new ≡ self.old }
    {
        self.work.word_from(entry, start, i)
    }

    fn read_from(&mut self, entry: EntryRef<OFFSET_BITS>, start: u64, first: u32, into: &mut [u64])
        requires there { first + length into.old ≤ length (⟦<NotedWork<OFFSET_BITS, W> as Frozen<OFFSET_BITS>>⟧.records self.old entry) }
        requires few { first + length into.old < 2 ^ 32 }
        requires start { start ≡ ⟦<NotedWork<OFFSET_BITS, W> as Frozen<OFFSET_BITS>>⟧.begins self.old entry }
        ensures words { into.new ≡ take (length into.old) (drop first (⟦<NotedWork<OFFSET_BITS, W> as Frozen<OFFSET_BITS>>⟧.records self.old entry.entry)) }
        ensures same { self.new ≡ self.old }
    {
        self.work.read_from(entry, start, first, into);
    }

    ghost references = { λ s. W.references s.work };
}

impl<const OFFSET_BITS: u32, W: Work<OFFSET_BITS>> Work<OFFSET_BITS> for NotedWork<OFFSET_BITS, W> {
    type Layout = W::Layout;

    type Home = W::Home;

    ghost knows = { λ s. W.knows s.work };

    fn store(&mut self, entry: EntryRef<OFFSET_BITS>, i: u32, word: u64)
        requires { MayStore OFFSET_BITS (⟦<NotedWork<OFFSET_BITS, W> as Work<OFFSET_BITS>>⟧.knows self.old) entry i }
        ensures knows { ⟦<NotedWork<OFFSET_BITS, W> as Work<OFFSET_BITS>>⟧.knows self.new
            ≡ record (⟦<NotedWork<OFFSET_BITS, W> as Work<OFFSET_BITS>>⟧.knows self.old) {
              stored = with_stored
                  (⟦<NotedWork<OFFSET_BITS, W> as Work<OFFSET_BITS>>⟧.knows self.old).stored entry.entry i word;
            } }
        ensures others { (q : ℕ) → q ≢ entry.entry
            → ⟦<NotedWork<OFFSET_BITS, W> as Frozen<OFFSET_BITS>>⟧.records self.new q
            ≡ ⟦<NotedWork<OFFSET_BITS, W> as Frozen<OFFSET_BITS>>⟧.records self.old q }
        ensures shape { ⟦<NotedWork<OFFSET_BITS, W> as Frozen<OFFSET_BITS>>⟧.shape self.new
            ≡ ⟦<NotedWork<OFFSET_BITS, W> as Frozen<OFFSET_BITS>>⟧.shape self.old }
    {
        self.notes.store(entry.raw(), i, word);
        self.work.store(entry, i, word);
    }

    fn put(&mut self, entry: EntryRef<OFFSET_BITS>, width: u32, words: &[u64])
        requires entry { IsEntry OFFSET_BITS (⟦<NotedWork<OFFSET_BITS, W> as Work<OFFSET_BITS>>⟧.knows self.old).sizes.buffers
            (⟦<NotedWork<OFFSET_BITS, W> as Work<OFFSET_BITS>>⟧.knows self.old).sizes.words width entry }
        requires width { active_width ((⟦<NotedWork<OFFSET_BITS, W> as Work<OFFSET_BITS>>⟧.knows self.old).buffer
            (buffer_of OFFSET_BITS entry)) ≡ width }
        requires fits { length words.now ≤ width }
        requires unkept { InNoCommit (⟦<NotedWork<OFFSET_BITS, W> as Work<OFFSET_BITS>>⟧.knows self.old).commits entry }
        ensures records { ⟦<NotedWork<OFFSET_BITS, W> as Frozen<OFFSET_BITS>>⟧.records self.new
            ≡ with_words (⟦<NotedWork<OFFSET_BITS, W> as Frozen<OFFSET_BITS>>⟧.records self.old) entry.entry (padded words.now width) }
        ensures knows { ⟦<NotedWork<OFFSET_BITS, W> as Work<OFFSET_BITS>>⟧.knows self.new
            ≡ record (⟦<NotedWork<OFFSET_BITS, W> as Work<OFFSET_BITS>>⟧.knows self.old) {
              stored = (⟦<NotedWork<OFFSET_BITS, W> as Work<OFFSET_BITS>>⟧.knows self.new).stored;
            } }
        ensures apart { (q i : ℕ) → q ≢ entry.entry
            → (⟦<NotedWork<OFFSET_BITS, W> as Work<OFFSET_BITS>>⟧.knows self.new).stored q i
            ≡ (⟦<NotedWork<OFFSET_BITS, W> as Work<OFFSET_BITS>>⟧.knows self.old).stored q i }
        ensures shape { ⟦<NotedWork<OFFSET_BITS, W> as Frozen<OFFSET_BITS>>⟧.shape self.new
            ≡ ⟦<NotedWork<OFFSET_BITS, W> as Frozen<OFFSET_BITS>>⟧.shape self.old }
    {
        self.notes.put(entry.raw(), words, width);
        self.work.put(entry, width, words);
    }

    fn hand_out(&mut self, width: u32) -> Option<u32> {
        self.work.hand_out(width)
    }

    fn publish(&mut self, root: EntryRef<OFFSET_BITS>) -> u32
        requires lawful { W.Layout.lawful (⟦<NotedWork<OFFSET_BITS, W> as Frozen<OFFSET_BITS>>⟧.shape self.old)
            (⟦<NotedWork<OFFSET_BITS, W> as Frozen<OFFSET_BITS>>⟧.records self.old) root }
        requires room { (⟦<NotedWork<OFFSET_BITS, W> as Work<OFFSET_BITS>>⟧.knows self.old).commits.last
            < (⟦<NotedWork<OFFSET_BITS, W> as Work<OFFSET_BITS>>⟧.knows self.old).sizes.commits }
        ensures number { result ≡ (⟦<NotedWork<OFFSET_BITS, W> as Work<OFFSET_BITS>>⟧.knows self.old).commits.last + 1 }
        ensures commit { AddsCommit (⟦<NotedWork<OFFSET_BITS, W> as Work<OFFSET_BITS>>⟧.knows self.old).commits
            (⟦<NotedWork<OFFSET_BITS, W> as Work<OFFSET_BITS>>⟧.knows self.new).commits
            (next_image W.Layout.reaches (⟦<NotedWork<OFFSET_BITS, W> as Frozen<OFFSET_BITS>>⟧.shape self.old)
            (⟦<NotedWork<OFFSET_BITS, W> as Frozen<OFFSET_BITS>>⟧.records self.old) root.entry) }
        ensures knows { ⟦<NotedWork<OFFSET_BITS, W> as Work<OFFSET_BITS>>⟧.knows self.new
            ≡ published (⟦<NotedWork<OFFSET_BITS, W> as Work<OFFSET_BITS>>⟧.knows self.old)
            (⟦<NotedWork<OFFSET_BITS, W> as Work<OFFSET_BITS>>⟧.knows self.new).commits
            (next_image W.Layout.reaches (⟦<NotedWork<OFFSET_BITS, W> as Frozen<OFFSET_BITS>>⟧.shape self.old)
            (⟦<NotedWork<OFFSET_BITS, W> as Frozen<OFFSET_BITS>>⟧.records self.old) root.entry) }
        ensures records { ⟦<NotedWork<OFFSET_BITS, W> as Frozen<OFFSET_BITS>>⟧.records self.new
            ≡ words_at (next_image W.Layout.reaches (⟦<NotedWork<OFFSET_BITS, W> as Frozen<OFFSET_BITS>>⟧.shape self.old)
            (⟦<NotedWork<OFFSET_BITS, W> as Frozen<OFFSET_BITS>>⟧.records self.old) root.entry) }
        ensures shape { ⟦<NotedWork<OFFSET_BITS, W> as Frozen<OFFSET_BITS>>⟧.shape self.new
            ≡ ⟦<NotedWork<OFFSET_BITS, W> as Frozen<OFFSET_BITS>>⟧.shape self.old }
    {
        self.work.publish(root)
    }

    fn retire_buffer(&mut self, buffer: u32) {
        self.work.retire_buffer(buffer);
    }

    fn advance(&mut self) -> Advance {
        self.work.advance()
    }

    fn reclaim(&mut self) -> Oldest {
        self.work.reclaim()
    }

    fn free_buffers(&self) -> u32 {
        self.work.free_buffers()
    }

    fn buffers(&self) -> u32 {
        self.work.buffers()
    }

    fn words(&self) -> u32 {
        self.work.words()
    }

    fn commits_left(&self) -> u32 {
        self.work.commits_left()
    }

    ghost limits = { λ s. W.limits s.work };

    ghost total_words = { λ s. W.total_words s.work };

    ghost queue = { λ s. W.queue s.work };

    ghost order = { λ s. W.order s.work };

    ghost entries = { λ s. W.entries s.work };

    ghost kept = { λ s. W.kept s.work };

    ghost last = { λ s. W.last s.work };

    ghost whole = { λ s. W.whole s.work };

    ghost only = { λ s. W.only s.work };

    ghost stored = { λ s. W.stored s.work };

    ghost held = { λ s. W.held s.work };

    ghost tags = { λ s. W.tags s.work };
}
