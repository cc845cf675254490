//! The writer as a `Work`.
ghost use Rattle.std.specs.Prelude.{◌≡◌, ◌≢◌, ◌↔◌, ◌<◌, ◌≤◌, ◌+◌, ◌*◌, ◌^◌, ℕ, length, Some, slice_index, true, IsNone, IfSome, IfNone};
ghost use Rattle.word_arena.specs.Ruled.{writer_of};
ghost use Rattle.entry_ref.specs.Images.{words_at};
ghost use Rattle.entry_ref.specs.Places.{IsEntry};
ghost use Rattle.entry_ref.specs.Records.{with_words};
ghost use Rattle.entry_ref.specs.References.{buffer_of};
ghost use Rattle.arena_api.specs.Calls.{MayStore, InNoCommit, AddsCommit, IsLowestFree, with_stored, padded, next_image, handed_out};
ghost use Rattle.arena_api.specs.Calls.{published, IsWordIn};
ghost use Rattle.arena_api.specs.Works.{is_free, active_width, free_count};
ghost use Rattle.gen_core.specs.Views.{last_tag_in};
ghost use Rattle.gen_core.specs.Work.{writer_records};
ghost use Rattle.word_arena.specs.Knows.{view_of, given, buffers_by, place_by, known_by, HasDesk, KeepsDesk};
ghost use Rattle.word_arena.specs.Released.{HandsOut};
ghost use Rattle.word_arena.specs.Runs.{KnowsCommits};
ghost use Rattle.word_arena.specs.WriterSteps.{IsTaggedBelow};

use crate::arena::Arena;
use crate::buffers::{count_free, last_of, lowest_free, width_of};
use crate::plays::{FindWord, HandOut, Publish, StoreWidth, StoreWord};
use crate::rule::ArenaSeat;
use crate::words::{ACTIVE, COMMIT_BASE, FIRST_STATE, ROOT, first_word};
use crate::writer::Writer;
use arena_api::{Advance, Frozen, Oldest, Work};
use entry_ref::{EntryRef, Layout, place_of};
use gen_core::Buffer;
use std::marker::Model;

/// The arena that a work belongs to, by the name of its table. It stands in clauses alone, and no value of it is made.
pub struct Home {
    nothing: u64,
}

impl Model for Home {
    ghost use Rattle.atomic_table.specs.Seated.{TableId};
    ghost use Rattle.word_arena.specs.Knows.{nowhere};

    ghost Value = { TableId };

    ghost view = { λ _. nowhere };
}

impl<const OFFSET_BITS: u32, L: Layout> Writer<OFFSET_BITS, L> {
    // Hands out a free buffer, and stores its width.
    fn take_buffer(&mut self, buffer: u32, width: u32)
        requires below { buffer < (writer_of self.old.place.me.0).sizes.buffers }
        requires free { is_free (buffers_by (writer_of self.old.place.me.0).buffers buffer) ≡ true }
        requires some { 0 < width }
        ensures table { self.new.place.table_id ≡ self.old.place.table_id }
        ensures hands { HandsOut L.reaches L.lawful (writer_of self.old.place.me.0).sizes
            self.old.place.me.0.seen self.new.place.me.0.seen buffer }
        ensures view { writer_of self.new.place.me.0 ≡ given (writer_of self.old.place.me.0) buffer width
            (last_tag_in (writer_of self.old.place.me.0).buffers buffer) }
    {
        let last = last_of(self.buffers.as_slice(), buffer);
        let at = buffer as usize;
        let arena = self.seats.arena();
        arena
            .table
            .shared
            .store::<HandOut<L>>(&mut self.place, FIRST_STATE + at, ACTIVE);
        let first = first_word(&arena.sizes, buffer);
        arena
            .table
            .shared
            .store::<StoreWidth<L>>(&mut self.place, first, u64::from(width));
        self.buffers[at] = Buffer::Active(u64::from(width), last);
    }

    /// Returns the place of a word of an entry, in a buffer of this width.
    fn place_in(&self, entry: EntryRef<OFFSET_BITS>, width: u32, i: u32) -> usize
        requires word { IsWordIn OFFSET_BITS (view_of self.now.place.table_id (writer_of self.now.place.me.0)) entry i }
        requires width { active_width ((view_of self.now.place.table_id (writer_of self.now.place.me.0)).buffer
            (buffer_of OFFSET_BITS entry)) ≡ width }
        ensures { result ≡ place_by OFFSET_BITS (view_of self.now.place.table_id (writer_of self.now.place.me.0)) entry.entry i }
    {
        let arena = self.seats.arena();
        place_of(
            arena.sizes.buffers as u32,
            arena.sizes.words as u32,
            width,
            entry,
            i,
        ) as usize
    }
}

/// Loads the word of an entry that is at this place. The word counts as stored from then on.
fn find_in<const OFFSET_BITS: u32, L: Layout>(
    arena: &Arena<OFFSET_BITS, L>,
    seat: &mut ArenaSeat,
    entry: EntryRef<OFFSET_BITS>,
    i: u32,
    at: usize,
) -> u64
    requires desk { HasDesk OFFSET_BITS arena.now.table.shared.table_id arena.now.sizes seat.old }
    requires may { MayStore OFFSET_BITS (known_by seat.old) entry i }
    requires place { at ≡ place_by OFFSET_BITS (known_by seat.old) entry i }
    ensures desk { KeepsDesk OFFSET_BITS arena.now.table.shared.table_id arena.now.sizes seat.old seat.new }
    ensures knows { known_by seat.new ≡ record (known_by seat.old) {
      stored = with_stored (known_by seat.old).stored entry.entry i result;
    } }
    ensures others { (q : ℕ) → q ≢ entry.entry
        → writer_records (writer_of seat.new.me.0) q ≡ writer_records (writer_of seat.old.me.0) q }
    ensures shape { (writer_of seat.new.me.0).sizes.shape ≡ (writer_of seat.old.me.0).sizes.shape }
{
    let _ = entry;
    let _ = i;
    arena.table.shared.load::<FindWord<L>>(seat, at)
}

/// Sets the word of an entry that is at this place. It loads the word first and stores only if that differs,
/// since a load is cheaper.
fn put_in<const OFFSET_BITS: u32, L: Layout>(
    arena: &Arena<OFFSET_BITS, L>,
    seat: &mut ArenaSeat,
    entry: EntryRef<OFFSET_BITS>,
    i: u32,
    at: usize,
    word: u64,
)
    requires desk { HasDesk OFFSET_BITS arena.now.table.shared.table_id arena.now.sizes seat.old }
    requires may { MayStore OFFSET_BITS (known_by seat.old) entry i }
    requires place { at ≡ place_by OFFSET_BITS (known_by seat.old) entry i }
    ensures desk { KeepsDesk OFFSET_BITS arena.now.table.shared.table_id arena.now.sizes seat.old seat.new }
    ensures knows { known_by seat.new ≡ record (known_by seat.old) {
      stored = with_stored (known_by seat.old).stored entry.entry i word;
    } }
    ensures others { (q : ℕ) → q ≢ entry.entry
        → writer_records (writer_of seat.new.me.0) q ≡ writer_records (writer_of seat.old.me.0) q }
    ensures shape { (writer_of seat.new.me.0).sizes.shape ≡ (writer_of seat.old.me.0).sizes.shape }
{
    if find_in(arena, seat, entry, i, at) != word {
        store_in(arena, seat, entry, i, at, word);
    }
}

/// Sets the first words of an entry, the first of which is at this place.
fn put_words<const OFFSET_BITS: u32, L: Layout>(
    arena: &Arena<OFFSET_BITS, L>,
    seat: &mut ArenaSeat,
    entry: EntryRef<OFFSET_BITS>,
    first: usize,
    words: &[u64],
)
    requires few { length words.now < 2 ^ 32 }
    requires desk { HasDesk OFFSET_BITS arena.now.table.shared.table_id arena.now.sizes seat.old }
    requires may { (i : ℕ) → i < length words.now → MayStore OFFSET_BITS (known_by seat.old) entry i }
    requires place { first ≡ place_by OFFSET_BITS (known_by seat.old) entry 0 }
    ensures desk { KeepsDesk OFFSET_BITS arena.now.table.shared.table_id arena.now.sizes seat.old seat.new }
    ensures knows { known_by seat.new ≡ record (known_by seat.old) { stored = (known_by seat.new).stored } }
    ensures filled { (i : ℕ) → i < length words.now
        → (known_by seat.new).stored entry.entry i ≡ Some (slice_index words.now i) }
    ensures apart { (q j : ℕ) → q ≢ entry.entry → (known_by seat.new).stored q j ≡ (known_by seat.old).stored q j }
    ensures others { (q : ℕ) → q ≢ entry.entry
        → writer_records (writer_of seat.new.me.0) q ≡ writer_records (writer_of seat.old.me.0) q }
    ensures shape { (writer_of seat.new.me.0).sizes.shape ≡ (writer_of seat.old.me.0).sizes.shape }
{
    for i in 0..words.len() {
        put_in(arena, seat, entry, i as u32, first + i, words[i]);
    }
}

/// Sets the words of an entry from word `start` on to 0; its first word is at this place.
fn put_zeros<const OFFSET_BITS: u32, L: Layout>(
    arena: &Arena<OFFSET_BITS, L>,
    seat: &mut ArenaSeat,
    entry: EntryRef<OFFSET_BITS>,
    first: usize,
    start: u32,
    width: u32,
)
    requires desk { HasDesk OFFSET_BITS arena.now.table.shared.table_id arena.now.sizes seat.old }
    requires may { (i : ℕ) → i < width → MayStore OFFSET_BITS (known_by seat.old) entry i }
    requires place { first ≡ place_by OFFSET_BITS (known_by seat.old) entry 0 }
    ensures desk { KeepsDesk OFFSET_BITS arena.now.table.shared.table_id arena.now.sizes seat.old seat.new }
    ensures knows { known_by seat.new ≡ record (known_by seat.old) { stored = (known_by seat.new).stored } }
    ensures filled { (i : ℕ) → start ≤ i → i < width → (known_by seat.new).stored entry.entry i ≡ Some 0 }
    ensures kept { (i : ℕ) → i < start
        → (known_by seat.new).stored entry.entry i ≡ (known_by seat.old).stored entry.entry i }
    ensures apart { (q j : ℕ) → q ≢ entry.entry → (known_by seat.new).stored q j ≡ (known_by seat.old).stored q j }
    ensures others { (q : ℕ) → q ≢ entry.entry
        → writer_records (writer_of seat.new.me.0) q ≡ writer_records (writer_of seat.old.me.0) q }
    ensures shape { (writer_of seat.new.me.0).sizes.shape ≡ (writer_of seat.old.me.0).sizes.shape }
{
    for i in start..width {
        put_in(arena, seat, entry, i, first + i as usize, 0);
    }
}

/// Stores the word of an entry that is at this place.
fn store_in<const OFFSET_BITS: u32, L: Layout>(
    arena: &Arena<OFFSET_BITS, L>,
    seat: &mut ArenaSeat,
    entry: EntryRef<OFFSET_BITS>,
    i: u32,
    at: usize,
    word: u64,
)
    requires desk { HasDesk OFFSET_BITS arena.now.table.shared.table_id arena.now.sizes seat.old }
    requires may { MayStore OFFSET_BITS (known_by seat.old) entry i }
    requires place { at ≡ place_by OFFSET_BITS (known_by seat.old) entry i }
    ensures desk { KeepsDesk OFFSET_BITS arena.now.table.shared.table_id arena.now.sizes seat.old seat.new }
    ensures knows { known_by seat.new ≡ record (known_by seat.old) {
      stored = with_stored (known_by seat.old).stored entry.entry i word;
    } }
    ensures others { (q : ℕ) → q ≢ entry.entry
        → writer_records (writer_of seat.new.me.0) q ≡ writer_records (writer_of seat.old.me.0) q }
    ensures shape { (writer_of seat.new.me.0).sizes.shape ≡ (writer_of seat.old.me.0).sizes.shape }
{
    let _ = entry;
    let _ = i;
    arena.table.shared.store::<StoreWord<L>>(seat, at, word);
}

impl<const OFFSET_BITS: u32, L: Layout> Work<OFFSET_BITS> for Writer<OFFSET_BITS, L> {
    ghost use Rattle.word_arena.specs.ProofsForWork.{desk_bits, work_queue, work_order, work_only, work_held, work_entries, work_kept};
    ghost use Rattle.word_arena.specs.ProofsForWork.{work_last, work_whole, work_stored, work_tags};

    type Layout = L;

    type Home = Home;

    ghost knows = { λ w. view_of w.place.table_id (writer_of w.place.me.0) };

    fn store(&mut self, entry: EntryRef<OFFSET_BITS>, i: u32, word: u64)
        requires { MayStore OFFSET_BITS (⟦<Writer<OFFSET_BITS, L> as Work<OFFSET_BITS>>⟧.knows self.old) entry i }
        ensures knows { ⟦<Writer<OFFSET_BITS, L> as Work<OFFSET_BITS>>⟧.knows self.new
            ≡ record (⟦<Writer<OFFSET_BITS, L> as Work<OFFSET_BITS>>⟧.knows self.old) {
              stored = with_stored
                  (⟦<Writer<OFFSET_BITS, L> as Work<OFFSET_BITS>>⟧.knows self.old).stored entry.entry i word;
            } }
        ensures others { (q : ℕ) → q ≢ entry.entry
            → ⟦<Writer<OFFSET_BITS, L> as Frozen<OFFSET_BITS>>⟧.records self.new q
            ≡ ⟦<Writer<OFFSET_BITS, L> as Frozen<OFFSET_BITS>>⟧.records self.old q }
        ensures shape { ⟦<Writer<OFFSET_BITS, L> as Frozen<OFFSET_BITS>>⟧.shape self.new
            ≡ ⟦<Writer<OFFSET_BITS, L> as Frozen<OFFSET_BITS>>⟧.shape self.old }
    {
        let width = width_of(self.buffers.as_slice(), entry.buffer()) as u32;
        let place = self.place_in(entry, width, i);
        let arena = self.seats.arena();
        store_in(arena, &mut self.place, entry, i, place, word);
    }

    fn put(&mut self, entry: EntryRef<OFFSET_BITS>, width: u32, words: &[u64])
        requires entry { IsEntry OFFSET_BITS (⟦<Writer<OFFSET_BITS, L> as Work<OFFSET_BITS>>⟧.knows self.old).sizes.buffers
            (⟦<Writer<OFFSET_BITS, L> as Work<OFFSET_BITS>>⟧.knows self.old).sizes.words width entry }
        requires width { active_width ((⟦<Writer<OFFSET_BITS, L> as Work<OFFSET_BITS>>⟧.knows self.old).buffer
            (buffer_of OFFSET_BITS entry)) ≡ width }
        requires fits { length words.now ≤ width }
        requires unkept { InNoCommit (⟦<Writer<OFFSET_BITS, L> as Work<OFFSET_BITS>>⟧.knows self.old).commits entry }
        ensures records { ⟦<Writer<OFFSET_BITS, L> as Frozen<OFFSET_BITS>>⟧.records self.new
            ≡ with_words (⟦<Writer<OFFSET_BITS, L> as Frozen<OFFSET_BITS>>⟧.records self.old) entry.entry (padded words.now width) }
        ensures knows { ⟦<Writer<OFFSET_BITS, L> as Work<OFFSET_BITS>>⟧.knows self.new
            ≡ record (⟦<Writer<OFFSET_BITS, L> as Work<OFFSET_BITS>>⟧.knows self.old) {
              stored = (⟦<Writer<OFFSET_BITS, L> as Work<OFFSET_BITS>>⟧.knows self.new).stored;
            } }
        ensures apart { (q i : ℕ) → q ≢ entry.entry
            → (⟦<Writer<OFFSET_BITS, L> as Work<OFFSET_BITS>>⟧.knows self.new).stored q i
            ≡ (⟦<Writer<OFFSET_BITS, L> as Work<OFFSET_BITS>>⟧.knows self.old).stored q i }
        ensures shape { ⟦<Writer<OFFSET_BITS, L> as Frozen<OFFSET_BITS>>⟧.shape self.new
            ≡ ⟦<Writer<OFFSET_BITS, L> as Frozen<OFFSET_BITS>>⟧.shape self.old }
    {
        let place = self.place_in(entry, width, 0);
        let arena = self.seats.arena();
        put_words(arena, &mut self.place, entry, place, words);
        put_zeros(
            arena,
            &mut self.place,
            entry,
            place,
            words.len() as u32,
            width,
        );
    }

    /// The last tag of the buffer, if it has one, is below every open generation; and each reader that had a guard
    /// when the buffer was put on hold has released it since.
    fn hand_out(&mut self, width: u32) -> Option<u32>
        requires { 0 < width }
        ensures none { IsNone result ↔ (free_count (⟦<Writer<OFFSET_BITS, L> as Work<OFFSET_BITS>>⟧.knows self.old).buffer
            (⟦<Writer<OFFSET_BITS, L> as Work<OFFSET_BITS>>⟧.knows self.old).sizes.buffers ≡ 0) }
        ensures lowest { IfSome result (IsLowestFree (⟦<Writer<OFFSET_BITS, L> as Work<OFFSET_BITS>>⟧.knows self.old).buffer
            (⟦<Writer<OFFSET_BITS, L> as Work<OFFSET_BITS>>⟧.knows self.old).sizes.buffers) }
        ensures tags { IfSome result (IsTaggedBelow (writer_of self.old.place.me.0)) }
        ensures hands { IfSome result (HandsOut L.reaches L.lawful (writer_of self.old.place.me.0).sizes
            self.old.place.me.0.seen self.new.place.me.0.seen) }
        ensures handed { IfSome result (λ b. ⟦<Writer<OFFSET_BITS, L> as Work<OFFSET_BITS>>⟧.knows self.new
            ≡ handed_out (⟦<Writer<OFFSET_BITS, L> as Work<OFFSET_BITS>>⟧.knows self.old) b width) }
        ensures refused { IfNone result (⟦<Writer<OFFSET_BITS, L> as Work<OFFSET_BITS>>⟧.knows self.new
            ≡ ⟦<Writer<OFFSET_BITS, L> as Work<OFFSET_BITS>>⟧.knows self.old) }
        ensures records { ⟦<Writer<OFFSET_BITS, L> as Frozen<OFFSET_BITS>>⟧.records self.new
            ≡ ⟦<Writer<OFFSET_BITS, L> as Frozen<OFFSET_BITS>>⟧.records self.old }
        ensures shape { ⟦<Writer<OFFSET_BITS, L> as Frozen<OFFSET_BITS>>⟧.shape self.new
            ≡ ⟦<Writer<OFFSET_BITS, L> as Frozen<OFFSET_BITS>>⟧.shape self.old }
    {
        let arena = self.seats.arena();
        let buffer = lowest_free(self.buffers.as_slice(), arena.sizes.buffers as u32)?;
        self.take_buffer(buffer, width);
        Some(buffer)
    }

    /// All commits of the writer, this one too, are then those of the run that it has seen.
    fn publish(&mut self, root: EntryRef<OFFSET_BITS>) -> u32
        requires lawful { L.lawful (⟦<Writer<OFFSET_BITS, L> as Frozen<OFFSET_BITS>>⟧.shape self.old)
            (⟦<Writer<OFFSET_BITS, L> as Frozen<OFFSET_BITS>>⟧.records self.old) root }
        requires room { (⟦<Writer<OFFSET_BITS, L> as Work<OFFSET_BITS>>⟧.knows self.old).commits.last
            < (⟦<Writer<OFFSET_BITS, L> as Work<OFFSET_BITS>>⟧.knows self.old).sizes.commits }
        ensures number { result ≡ (⟦<Writer<OFFSET_BITS, L> as Work<OFFSET_BITS>>⟧.knows self.old).commits.last + 1 }
        ensures commit { AddsCommit (⟦<Writer<OFFSET_BITS, L> as Work<OFFSET_BITS>>⟧.knows self.old).commits
            (⟦<Writer<OFFSET_BITS, L> as Work<OFFSET_BITS>>⟧.knows self.new).commits
            (next_image L.reaches (⟦<Writer<OFFSET_BITS, L> as Frozen<OFFSET_BITS>>⟧.shape self.old)
            (⟦<Writer<OFFSET_BITS, L> as Frozen<OFFSET_BITS>>⟧.records self.old) root.entry) }
        ensures knows { ⟦<Writer<OFFSET_BITS, L> as Work<OFFSET_BITS>>⟧.knows self.new
            ≡ published (⟦<Writer<OFFSET_BITS, L> as Work<OFFSET_BITS>>⟧.knows self.old)
            (⟦<Writer<OFFSET_BITS, L> as Work<OFFSET_BITS>>⟧.knows self.new).commits
            (next_image L.reaches (⟦<Writer<OFFSET_BITS, L> as Frozen<OFFSET_BITS>>⟧.shape self.old)
            (⟦<Writer<OFFSET_BITS, L> as Frozen<OFFSET_BITS>>⟧.records self.old) root.entry) }
        ensures in_run { KnowsCommits L.reaches L.lawful (writer_of self.old.place.me.0).sizes self.new.place.me.0 }
        ensures records { ⟦<Writer<OFFSET_BITS, L> as Frozen<OFFSET_BITS>>⟧.records self.new
            ≡ words_at (next_image L.reaches (⟦<Writer<OFFSET_BITS, L> as Frozen<OFFSET_BITS>>⟧.shape self.old)
            (⟦<Writer<OFFSET_BITS, L> as Frozen<OFFSET_BITS>>⟧.records self.old) root.entry) }
        ensures shape { ⟦<Writer<OFFSET_BITS, L> as Frozen<OFFSET_BITS>>⟧.shape self.new
            ≡ ⟦<Writer<OFFSET_BITS, L> as Frozen<OFFSET_BITS>>⟧.shape self.old }
    {
        let number = self.last + 1;
        let word = u64::from(number) * COMMIT_BASE + u64::from(root.raw());
        let arena = self.seats.arena();
        arena
            .table
            .shared
            .store::<Publish<L>>(&mut self.place, ROOT, word);
        self.last = number;
        number
    }

    fn retire_buffer(&mut self, buffer: u32) {
        self.put_on_hold(buffer);
    }

    fn advance(&mut self) -> Advance {
        self.advance_generation()
    }

    fn reclaim(&mut self) -> Oldest {
        let found = self.close_unused();
        self.free_unused();
        let oldest = self.holds.oldest();
        Oldest {
            generation: oldest.generation,
            hold: oldest.hold,
            found,
            newest: found == 0,
        }
    }

    fn free_buffers(&self) -> u32 {
        let arena = self.seats.arena();
        count_free(self.buffers.as_slice(), arena.sizes.buffers as u32)
    }

    fn buffers(&self) -> u32 {
        let arena = self.seats.arena();
        arena.sizes.buffers as u32
    }

    fn words(&self) -> u32 {
        let arena = self.seats.arena();
        arena.sizes.words as u32
    }

    fn commits_left(&self) -> u32 {
        let arena = self.seats.arena();
        arena.sizes.commit_limit as u32 - self.last
    }

    ghost limits = { λ w. w.stands.limits };

    ghost total_words = { λ w. w.stands.product };

    ghost queue = { λ w. work_queue (writer_of w.place.me.0) w.stands.good OFFSET_BITS (desk_bits w.stands) w.place.table_id };

    ghost order = { λ w. work_order (writer_of w.place.me.0) w.stands.good OFFSET_BITS (desk_bits w.stands) w.place.table_id };

    ghost entries = { λ w. work_entries (writer_of w.place.me.0) w.stands.good OFFSET_BITS (desk_bits w.stands) };

    ghost kept = { λ w n r k. work_kept (writer_of w.place.me.0) w.stands.good OFFSET_BITS (desk_bits w.stands) n r k.from k.to };

    ghost last = { λ w. work_last (writer_of w.place.me.0) w.stands.good OFFSET_BITS (desk_bits w.stands) };

    ghost whole = { λ w. work_whole (writer_of w.place.me.0) w.stands.good OFFSET_BITS (desk_bits w.stands) };

    ghost only = { λ w. work_only (writer_of w.place.me.0) w.stands.good OFFSET_BITS (desk_bits w.stands) };

    ghost held = { λ w. work_held (writer_of w.place.me.0) w.stands.good OFFSET_BITS (desk_bits w.stands) w.place.table_id };

    ghost stored = { λ w. work_stored w.place.table_id (writer_of w.place.me.0) OFFSET_BITS (desk_bits w.stands) };

    ghost tags = { λ w. work_tags (writer_of w.place.me.0) w.stands.good OFFSET_BITS (desk_bits w.stands) };
}
