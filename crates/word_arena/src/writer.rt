//! The one writer.
ghost use Rattle.std.specs.Prelude.{take, drop, ◌≡◌, ◌+◌, ◌*◌, ◌^◌, ◌<◌, ◌≤◌, ℕ, length, IfSome, [], ◌∷◌, IfOk, IfErr, slice_get, Some, All};
ghost use Rattle.entry_ref.specs.Images.{words_at};
ghost use Rattle.entry_ref.specs.Places.{place};
ghost use Rattle.gen_core.specs.declared.views.View.TheVariants.{Writer as WriterSees};
ghost use Rattle.gen_core.specs.Views.{IsCommit};
ghost use Rattle.gen_core.specs.Work.{writer_records};
ghost use Rattle.gen_core.specs.Events.{opening_view, with_reader, newcomer, joined};
ghost use Rattle.arena_api.specs.Calls.{IsFresh};
ghost use Rattle.word_arena.specs.Ruled.{bare, start_in, writer_of, reader_of};
ghost use Rattle.word_arena.specs.Released.{IsWholeRun};
ghost use Rattle.word_arena.specs.Runs.{LoadsRootOnce, TookReads, KnowsCommits};
ghost use Rattle.word_arena.specs.Knows.{view_of, IsDesk, HasDesk};
ghost use Rattle.entry_ref.specs.Records.{HasWord, word_at};

use crate::arena::{Arena, Token};
use crate::plays::{Cut, Glue, LoadOwn, MeetLoad};
use crate::reader::Reader;
use crate::rule::{ArenaSeat, Watched};
use crate::seats::{MOST_READERS, Owners};
use crate::words::{ROOT, first_word};
use arena_api::Frozen;
use atomic_table::Badge;
use entry_ref::{EntryRef, Layout, place_of};
use gen_core::Buffer;
use generation_handler::Holds;
use std::alloc::{AllocError, Global};
use thiserror::Error;

/// The one writer of an arena. It reads its own records (`Frozen`), makes records and commits them (`Work`), makes readers
/// and takes them in.
///
/// `Arena::writer` makes it. It belongs to one thread at a time; its calls wait for no reader. Between two commits its
/// records are those of the last commit and those stored whole since then. It keeps its own copy of the queue of holds and
/// of the buffers' states, since it alone changes them.
#[derive(Drop)]
pub struct Writer<const OFFSET_BITS: u32, L: Layout> {
    pub(crate) seats: Owners<OFFSET_BITS, L>,
    pub(crate) buffers: Vec<Buffer>,
    pub(crate) holds: Holds,
    pub(crate) last: u32,
    pub(crate) place: ArenaSeat,
    ghost stands: { IsDesk OFFSET_BITS seats.arena.value.table.shared.table_id seats.arena.value.sizes buffers.items holds last seats.made
        place.table_id (bare place.me) },
}

/// The highest number of readers, 64, was made. Joined readers count too, so this answer stays.
#[derive(Clone, Copy, PartialEq, Eq, Debug, Drop, Error)]
#[error("{made} readers were made, and there can be no more")]
pub struct NoSeat {
    pub made: u32,
}

impl<const OFFSET_BITS: u32, L: Layout> Arena<OFFSET_BITS, L> {
    /// Returns the writer of this arena, whose token is given. The arena is freed with the last of the writer and its
    /// readers.
    pub fn writer(
        self,
        alloc: Global,
        token: Token<OFFSET_BITS>,
    ) -> Result<Writer<OFFSET_BITS, L>, AllocError>
        requires { (token.place.table_id ≡ self.table.shared.table_id) × (token.sizes ≡ self.sizes) }
        ensures view { IfOk result (λ w. writer_of w.place.me.0 ≡ opening_view token.entry.sizes) }
        ensures table { IfOk result (λ w. w.place.table_id ≡ self.table.shared.table_id) }
        ensures fresh { IfOk result (λ w. IsFresh (view_of w.place.table_id (writer_of w.place.me.0))) }
    {
        let Token {
            sizes: _,
            buffers,
            place,
        } = token;
        let seats = Owners::new(alloc, self)?;
        Ok(Writer {
            seats,
            buffers,
            holds: Holds::new(),
            last: 0,
            place,
        })
    }
}

impl<const OFFSET_BITS: u32, L: Layout> Writer<OFFSET_BITS, L> {
    /// Makes a reader that has seen the last commit. Returns `NoSeat` if and only if 64 readers were made; joined
    /// readers count too.
    pub fn reader(&mut self) -> Result<Reader<OFFSET_BITS, L>, NoSeat>
        ensures ok { IfOk result (λ r. (r.place.table_id ≡ self.old.place.table_id)
            × (reader_of r.place.me.0 ≡ newcomer (writer_of self.old.place.me.0))
            × (writer_of self.new.place.me.0 ≡ with_reader (writer_of self.old.place.me.0))) }
        ensures seat { IfOk result (λ r. (writer_of self.old.place.me.0).made < 64) }
        ensures table { self.new.place.table_id ≡ self.old.place.table_id }
        ensures none { IfErr result (λ e. (e.made ≡ 64) × ((writer_of self.old.place.me.0).made ≡ 64) × (self.new ≡ self.old)) }
    {
        if self.seats.made >= MOST_READERS {
            return Err(NoSeat {
                made: self.seats.made,
            });
        }
        let held = self.seats.arena();
        let place = held.table.shared.split_seat::<Cut>(&mut self.place);
        let arena = self.seats.next();
        Ok(Reader { arena, place })
    }

    /// Joins a reader, and loads the root once. All that the reader saw is then known to be commits, and to be its own
    /// reads of the root; and what the writer has seen is then the whole run so far, in which no buffer was handed out
    /// while a reader had a guard from before its hold.
    pub fn take_in(&mut self, reader: Reader<OFFSET_BITS, L>)
        requires { reader.place.table_id ≡ self.old.place.table_id }
        ensures view { writer_of self.new.place.me.0 ≡ joined (writer_of self.old.place.me.0) (reader_of reader.place.me.0) }
        ensures table { self.new.place.table_id ≡ self.old.place.table_id }
        ensures commits { All (IsCommit (writer_of self.new.place.me.0).commits) (writer_of self.new.place.me.0).saw }
        ensures run { IsWholeRun L.reaches L.lawful (writer_of self.old.place.me.0).sizes self.new.place.me.0.seen }
        ensures meets { LoadsRootOnce self.old.place.me.0 self.new.place.me.0 }
        ensures reads { TookReads self.new.place.me.0 }
        ensures knows { KnowsCommits L.reaches L.lawful (writer_of self.old.place.me.0).sizes self.new.place.me.0 }
    {
        let Reader { arena: _, place } = reader;
        let arena = self.seats.arena();
        arena.table.shared.join_seat::<Glue>(&mut self.place, place);
        arena
            .table
            .shared
            .load::<MeetLoad<L>>(&mut self.place, ROOT);
    }

    /// Ends the writer and keeps its seat, which takes no bytes. A value that holds it shows in its clauses what the writer
    /// has seen of the run.
    pub fn into_seat(self) -> Badge<Watched>
        ensures table { result.table_id ≡ self.place.table_id }
        ensures view { result.views ≡ self.place.me.0 ∷ [] }
    {
        let Writer {
            seats: _,
            buffers: _,
            holds: _,
            last: _,
            place,
        } = self;
        place.into_badge()
    }

    // Returns the place of a word of a record, by the width that is stored in its buffer.
    fn place_of_word(&mut self, entry: EntryRef<OFFSET_BITS>, i: u32) -> u64
        requires { HasWord (writer_records (writer_of self.old.place.me.0)) entry i }
        ensures place { result ≡ place OFFSET_BITS self.old.seats.arena.value.sizes.buffers self.old.seats.arena.value.sizes.words
            (length (writer_records (writer_of self.old.place.me.0) entry.entry)) entry.entry i }
        ensures same { self.new ≡ self.old }
    {
        let arena = self.seats.arena();
        let (buffers, words) = (arena.sizes.buffers as u32, arena.sizes.words as u32);
        let first = first_word(&arena.sizes, entry.buffer());
        let width = arena
            .table
            .shared
            .load::<LoadOwn<L>>(&mut self.place, first) as u32;
        place_of(buffers, words, width, entry, i)
    }
}

/// Loads words of a record of the writer from place `at` on, where its word `first` is.
fn load_words<const OFFSET_BITS: u32, L: Layout>(
    arena: &Arena<OFFSET_BITS, L>,
    seat: &mut ArenaSeat,
    entry: EntryRef<OFFSET_BITS>,
    first: u32,
    at: u64,
    into: &mut [u64],
)
    requires desk { HasDesk OFFSET_BITS arena.now.table.shared.table_id arena.now.sizes seat.old }
    requires there { first + length into.old ≤ length (writer_records (writer_of seat.old.me.0) entry) }
    requires at { at ≡ place OFFSET_BITS arena.now.sizes.buffers arena.now.sizes.words
        (length (writer_records (writer_of seat.old.me.0) entry)) entry first }
    ensures words { into.new ≡ take (length into.old) (drop first (writer_records (writer_of seat.old.me.0) entry.entry)) }
    ensures same { seat.new ≡ seat.old }
{
    for i in 0..into.len() {
        into[i] = arena.table.shared.load::<LoadOwn<L>>(seat, at as usize + i);
    }
}

impl<const OFFSET_BITS: u32, L: Layout> Frozen<OFFSET_BITS> for Writer<OFFSET_BITS, L> {
    ghost use Rattle.word_arena.specs.ProofsForWork.{desk_bits, work_references};

    ghost shape = { λ w. (writer_of w.place.me.0).sizes.shape };

    ghost records = { λ w. writer_records (writer_of w.place.me.0) };

    ghost begins = { λ w. start_in OFFSET_BITS w.seats.arena.value.sizes (writer_records (writer_of w.place.me.0)) };

    fn word(&mut self, entry: EntryRef<OFFSET_BITS>, i: u32) -> u64
        requires { HasWord (⟦<Writer<OFFSET_BITS, L> as Frozen<OFFSET_BITS>>⟧.records self.old) entry i }
        ensures value { result ≡ word_at (⟦<Writer<OFFSET_BITS, L> as Frozen<OFFSET_BITS>>⟧.records self.old) entry.entry i }
        ensures same { self.new ≡ self.old }
    {
        let place = self.place_of_word(entry, i);
        let arena = self.seats.arena();
        arena
            .table
            .shared
            .load::<LoadOwn<L>>(&mut self.place, place as usize)
    }

    fn start_of(&mut self, entry: EntryRef<OFFSET_BITS>, width: Option<u32>) -> u64
        requires some { HasWord (⟦<Writer<OFFSET_BITS, L> as Frozen<OFFSET_BITS>>⟧.records self.old) entry 0 }
        requires width { IfSome width (λ w. length (⟦<Writer<OFFSET_BITS, L> as Frozen<OFFSET_BITS>>⟧.records self.old entry) ≡ w) }
        ensures start { result ≡ ⟦<Writer<OFFSET_BITS, L> as Frozen<OFFSET_BITS>>⟧.begins self.old entry.entry }
        ensures same { self.new ≡ self.old }
    {
        let Some(width) = width else {
            return self.place_of_word(entry, 0);
        };
        let sizes = &self.seats.arena().sizes;
        place_of(sizes.buffers as u32, sizes.words as u32, width, entry, 0)
    }

    fn word_from(&mut self, entry: EntryRef<OFFSET_BITS>, start: u64, i: u32) -> u64
        requires there { HasWord (⟦<Writer<OFFSET_BITS, L> as Frozen<OFFSET_BITS>>⟧.records self.old) entry i }
        requires start { start ≡ ⟦<Writer<OFFSET_BITS, L> as Frozen<OFFSET_BITS>>⟧.begins self.old entry }
        ensures value { result ≡ word_at (⟦<Writer<OFFSET_BITS, L> as Frozen<OFFSET_BITS>>⟧.records self.old) entry.entry i }
        ensures same { self.new ≡ self.old }
    {
        let _ = entry;
        let arena = self.seats.arena();
        arena
            .table
            .shared
            .load::<LoadOwn<L>>(&mut self.place, start as usize + i as usize)
    }

    fn read_from(&mut self, entry: EntryRef<OFFSET_BITS>, start: u64, first: u32, into: &mut [u64])
        requires there { first + length into.old ≤ length (⟦<Writer<OFFSET_BITS, L> as Frozen<OFFSET_BITS>>⟧.records self.old entry) }
        requires few { first + length into.old < 2 ^ 32 }
        requires start { start ≡ ⟦<Writer<OFFSET_BITS, L> as Frozen<OFFSET_BITS>>⟧.begins self.old entry }
        ensures words { into.new ≡ take (length into.old) (drop first (⟦<Writer<OFFSET_BITS, L> as Frozen<OFFSET_BITS>>⟧.records self.old entry.entry)) }
        ensures same { self.new ≡ self.old }
    {
        if into.is_empty() {
            return;
        }
        let arena = self.seats.arena();
        let at = start + u64::from(first);
        load_words(arena, &mut self.place, entry, first, at, into);
    }

    ghost references = { λ w. work_references (writer_of w.place.me.0) w.stands.good OFFSET_BITS (desk_bits w.stands) w.stands.limits };
}
