//! A work whose commits are watched as they are made.
ghost use Rattle.std.specs.Prelude.{◌≡◌, ◌≢◌, ◌<◌, ◌≤◌, ◌+◌, ◌^◌, ℕ, length, IfSome, take, drop};
ghost use Rattle.entry_ref.specs.References.{buffer_of};
ghost use Rattle.entry_ref.specs.Images.{words_at};
ghost use Rattle.entry_ref.specs.Places.{IsEntry};
ghost use Rattle.entry_ref.specs.Records.{HasWord, word_at, with_words};
ghost use Rattle.arena_api.specs.Works.{active_width};
ghost use Rattle.arena_api.specs.Calls.{MayStore, InNoCommit, AddsCommit, with_stored, padded, next_image, published};
ghost use Rattle.gen_core.specs.Work.{writer_records};
ghost use Rattle.word_arena.specs.Knows.{view_of};
ghost use Rattle.word_arena.specs.Ruled.{start_in, writer_of};

use crate::watch::Watch;
use arena_api::{Advance, Frozen, Oldest, Work};
use entry_ref::{EntryRef, Layout};
use image_format::AttrLayout;
use std::alloc::Global;
use test_kit::Notes;
use word_arena::{Home, Writer};

/// A work whose commits are watched, with a copy of what is stored in it.
#[derive(Drop)]
pub struct Watched {
    work: Writer<22, AttrLayout>,
    stored: Notes,
    watch: Watch,
}

impl Watched {
    /// Returns a work in which nothing was stored, with its watch.
    pub fn new(alloc: Global, work: Writer<22, AttrLayout>, watch: Watch) -> Self
        ensures knows { ⟦<Watched as Work<22>>⟧.knows result ≡ ⟦<Writer<22, AttrLayout> as Work<22>>⟧.knows work }
        ensures records { ⟦<Watched as Frozen<22>>⟧.records result ≡ ⟦<Writer<22, AttrLayout> as Frozen<22>>⟧.records work }
        ensures shape { ⟦<Watched as Frozen<22>>⟧.shape result ≡ ⟦<Writer<22, AttrLayout> as Frozen<22>>⟧.shape work }
    {
        Watched {
            work,
            stored: Notes::new(alloc, true),
            watch,
        }
    }

    /// Returns what was seen, after a last look at the last commit.
    pub fn into_watch(self, root: u64) -> Watch {
        let Watched {
            work: _,
            stored,
            mut watch,
        } = self;
        if let Some(records) = stored.records() {
            watch.look_again(records, root);
        }
        watch
    }
}

impl Frozen<22> for Watched {
    ghost use Rattle.word_arena.specs.ProofsForWork.{desk_bits, work_references};

    ghost shape = { λ s. (writer_of s.work.place.me.0).sizes.shape };

    ghost records = { λ s. writer_records (writer_of s.work.place.me.0) };

    ghost begins = { λ s. start_in 22 s.work.seats.arena.value.sizes (writer_records (writer_of s.work.place.me.0)) };

    fn word(&mut self, entry: EntryRef<22>, i: u32) -> u64
        requires { HasWord (⟦<Watched as Frozen<22>>⟧.records self.old) entry i }
        ensures value { result ≡ word_at (⟦<Watched as Frozen<22>>⟧.records self.old) entry i }
        ensures same { self.new ≡ self.old }
    {
        self.work.word(entry, i)
    }

    fn start_of(&mut self, entry: EntryRef<22>, width: Option<u32>) -> u64
        requires some { HasWord (⟦<Watched as Frozen<22>>⟧.records self.old) entry 0 }
        requires width { IfSome width (λ w. length (⟦<Watched as Frozen<22>>⟧.records self.old entry) ≡ w) }
        ensures start { result ≡ ⟦<Watched as Frozen<22>>⟧.begins self.old entry }
        ensures same { self.new ≡ self.old }
    {
        self.work.start_of(entry, width)
    }

    fn word_from(&mut self, entry: EntryRef<22>, start: u64, i: u32) -> u64
        requires there { HasWord (⟦<Watched as Frozen<22>>⟧.records self.old) entry i }
        requires start { start ≡ ⟦<Watched as Frozen<22>>⟧.begins self.old entry }
        ensures value { result ≡ word_at (⟦<Watched as Frozen<22>>⟧.records self.old) entry i }
        ensures same { self.new ≡ self.old }
    {
        self.work.word_from(entry, start, i)
    }

    fn read_from(&mut self, entry: EntryRef<22>, start: u64, first: u32, into: &mut [u64])
        requires there { first + length into.old ≤ length (⟦<Watched as Frozen<22>>⟧.records self.old entry) }
        requires few { first + length into.old < 2 ^ 32 }
        requires start { start ≡ ⟦<Watched as Frozen<22>>⟧.begins self.old entry }
        ensures words { into.new ≡ take (length into.old) (drop first (⟦<Watched as Frozen<22>>⟧.records self.old entry)) }
        ensures same { self.new ≡ self.old }
    {
        self.work.read_from(entry, start, first, into);
    }

    ghost references = { λ s. work_references (writer_of s.work.place.me.0) s.work.stands.good 22 (desk_bits s.work.stands) s.work.stands.limits };
}

impl Work<22> for Watched {
    ghost use Rattle.word_arena.specs.ProofsForWork.{desk_bits, work_queue, work_order, work_only, work_held, work_entries, work_kept};
    ghost use Rattle.word_arena.specs.ProofsForWork.{work_last, work_whole, work_stored, work_tags};

    type Layout = AttrLayout;

    type Home = Home;

    ghost knows = { λ s. view_of s.work.place.table_id (writer_of s.work.place.me.0) };

    fn store(&mut self, entry: EntryRef<22>, i: u32, word: u64)
        requires { MayStore 22 (⟦<Watched as Work<22>>⟧.knows self.old) entry i }
        ensures knows { ⟦<Watched as Work<22>>⟧.knows self.new
            ≡ record (⟦<Watched as Work<22>>⟧.knows self.old) {
              stored = with_stored
                  (⟦<Watched as Work<22>>⟧.knows self.old).stored entry i word;
            } }
        ensures others { (q : ℕ) → q ≢ entry
            → ⟦<Watched as Frozen<22>>⟧.records self.new q
            ≡ ⟦<Watched as Frozen<22>>⟧.records self.old q }
        ensures shape { ⟦<Watched as Frozen<22>>⟧.shape self.new
            ≡ ⟦<Watched as Frozen<22>>⟧.shape self.old }
    {
        self.stored.store(entry.raw(), i, word);
        self.work.store(entry, i, word);
    }

    fn put(&mut self, entry: EntryRef<22>, width: u32, words: &[u64])
        requires entry { IsEntry 22 (⟦<Watched as Work<22>>⟧.knows self.old).sizes.buffers
            (⟦<Watched as Work<22>>⟧.knows self.old).sizes.words width entry }
        requires width { active_width ((⟦<Watched as Work<22>>⟧.knows self.old).buffer
            (buffer_of 22 entry)) ≡ width }
        requires fits { length words.now ≤ width }
        requires unkept { InNoCommit (⟦<Watched as Work<22>>⟧.knows self.old).commits entry }
        ensures records { ⟦<Watched as Frozen<22>>⟧.records self.new
            ≡ with_words (⟦<Watched as Frozen<22>>⟧.records self.old) entry (padded words.now width) }
        ensures knows { ⟦<Watched as Work<22>>⟧.knows self.new
            ≡ record (⟦<Watched as Work<22>>⟧.knows self.old) {
              stored = (⟦<Watched as Work<22>>⟧.knows self.new).stored;
            } }
        ensures apart { (q i : ℕ) → q ≢ entry
            → (⟦<Watched as Work<22>>⟧.knows self.new).stored q i
            ≡ (⟦<Watched as Work<22>>⟧.knows self.old).stored q i }
        ensures shape { ⟦<Watched as Frozen<22>>⟧.shape self.new
            ≡ ⟦<Watched as Frozen<22>>⟧.shape self.old }
    {
        self.stored.put(entry.raw(), words, width);
        self.work.put(entry, width, words);
    }

    fn hand_out(&mut self, width: u32) -> Option<u32> {
        let found = self.work.hand_out(width);
        if let Some(buffer) = found {
            self.watch.handed_out(buffer, width);
        }
        found
    }

    fn publish(&mut self, root: EntryRef<22>) -> u32
        requires lawful { ⟦<AttrLayout as Layout>⟧.lawful (⟦<Watched as Frozen<22>>⟧.shape self.old)
            (⟦<Watched as Frozen<22>>⟧.records self.old) root }
        requires room { (⟦<Watched as Work<22>>⟧.knows self.old).commits.last
            < (⟦<Watched as Work<22>>⟧.knows self.old).sizes.commits }
        ensures number { result ≡ (⟦<Watched as Work<22>>⟧.knows self.old).commits.last + 1 }
        ensures commit { AddsCommit (⟦<Watched as Work<22>>⟧.knows self.old).commits
            (⟦<Watched as Work<22>>⟧.knows self.new).commits
            (next_image ⟦<AttrLayout as Layout>⟧.reaches (⟦<Watched as Frozen<22>>⟧.shape self.old)
            (⟦<Watched as Frozen<22>>⟧.records self.old) root) }
        ensures knows { ⟦<Watched as Work<22>>⟧.knows self.new
            ≡ published (⟦<Watched as Work<22>>⟧.knows self.old)
            (⟦<Watched as Work<22>>⟧.knows self.new).commits
            (next_image ⟦<AttrLayout as Layout>⟧.reaches (⟦<Watched as Frozen<22>>⟧.shape self.old)
            (⟦<Watched as Frozen<22>>⟧.records self.old) root) }
        ensures records { ⟦<Watched as Frozen<22>>⟧.records self.new
            ≡ words_at (next_image ⟦<AttrLayout as Layout>⟧.reaches (⟦<Watched as Frozen<22>>⟧.shape self.old)
            (⟦<Watched as Frozen<22>>⟧.records self.old) root) }
        ensures shape { ⟦<Watched as Frozen<22>>⟧.shape self.new
            ≡ ⟦<Watched as Frozen<22>>⟧.shape self.old }
    {
        let number = self.work.publish(root);
        if let Some(records) = self.stored.records() {
            self.watch.published(records, u64::from(root.raw()));
        }
        number
    }

    fn retire_buffer(&mut self, buffer: u32) {
        self.work.retire_buffer(buffer);
    }

    fn advance(&mut self) -> Advance {
        self.work.advance()
    }

    fn reclaim(&mut self) -> Oldest {
        self.work.reclaim()
    }

    fn free_buffers(&self) -> u32 {
        self.work.free_buffers()
    }

    fn buffers(&self) -> u32 {
        self.work.buffers()
    }

    fn words(&self) -> u32 {
        self.work.words()
    }

    fn commits_left(&self) -> u32 {
        self.work.commits_left()
    }

    ghost limits = { λ s. s.work.stands.limits };

    ghost total_words = { λ s. s.work.stands.product };

    ghost queue = { λ s. work_queue (writer_of s.work.place.me.0) s.work.stands.good 22 (desk_bits s.work.stands) s.work.place.table_id };

    ghost order = { λ s. work_order (writer_of s.work.place.me.0) s.work.stands.good 22 (desk_bits s.work.stands) s.work.place.table_id };

    ghost entries = { λ s. work_entries (writer_of s.work.place.me.0) s.work.stands.good 22 (desk_bits s.work.stands) };

    ghost kept = { λ s n r k. work_kept (writer_of s.work.place.me.0) s.work.stands.good 22 (desk_bits s.work.stands) n r k.from k.to };

    ghost last = { λ s. work_last (writer_of s.work.place.me.0) s.work.stands.good 22 (desk_bits s.work.stands) };

    ghost whole = { λ s. work_whole (writer_of s.work.place.me.0) s.work.stands.good 22 (desk_bits s.work.stands) };

    ghost only = { λ s. work_only (writer_of s.work.place.me.0) s.work.stands.good 22 (desk_bits s.work.stands) };

    ghost stored = { λ s. work_stored s.work.place.table_id (writer_of s.work.place.me.0) 22 (desk_bits s.work.stands) };

    ghost held = { λ s. work_held (writer_of s.work.place.me.0) s.work.stands.good 22 (desk_bits s.work.stands) s.work.place.table_id };

    ghost tags = { λ s. work_tags (writer_of s.work.place.me.0) s.work.stands.good 22 (desk_bits s.work.stands) };
}
