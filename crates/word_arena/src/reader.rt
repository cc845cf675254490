//! Readers and their guards: how a commit is read while the writer goes on, without a lock.
//!
//! # The story of a guard
//!
//! A reader takes three steps, and each is a type that the next one uses up.
//!
//! 1. `Reader::aim` loads the word of the newest hold. The reader aims at a generation and its hold (`Aimed`).
//! 2. `Aimed::try_raise` adds 2 to the count of that hold. If the count was even, the hold was open. It stays open from
//!    then on, since the writer closes a hold only by exchanging a count of 0 for 1.
//! 3. Only then it loads the root word. The reader has a guard of that commit (`Guarded`) until `release` subtracts 2
//!    again.
//!
//! If the count was odd, the hold is closed. The reader subtracts its 2 and is back (`Again`), with a later generation
//! to aim at. `Reader::guard` repeats the three steps until it has a guard.
//!
//! # Why a stale read is harmless
//!
//! Any number of commits may pass between these steps. A reader that aims too late finds its hold in one of two states.
//!
//! - The hold is open: still, or again for a later generation. The root is loaded *after* the raise, so it is at least
//!   the first commit that this hold keeps.
//! - The hold is closed. Then there is a later generation. So a miss means that the reader was passed, and it tries at
//!   most once for each generation from the one it aims at first to the last.
//!
//! The order matters. A root that is loaded before the raise may be of a commit that is gone when the raise is done.
//!
//! A guard may load the root again under its hold (`Guarded::again`): no count changes, and the commit that it finds is
//! at least the first of the hold, as after a raise.
//!
//! # Why nothing is taken from under a guard
//!
//! A hold keeps all commits from the one that was last when the hold became the newest. The writer writes no word of a
//! kept commit, and it hands out no buffer that was put on hold under a guard before that guard is released. `gen_core`
//! states this as laws on lists of steps, and the README of this crate says how they hold of the running words.
ghost use Rattle.std.specs.Prelude.{take, drop, ◌%◌, ◌≡◌, ◌+◌, ◌-◌, ◌*◌, ◌<◌, ◌≤◌, ◌^◌, ℕ, List, length, IfSome, Some, slice_index, IfOk, IfErr};
ghost use Rattle.entry_ref.specs.Images.{words_at};
ghost use Rattle.entry_ref.specs.Places.{place};
ghost use Rattle.gen_core.specs.Views.{stands_on};
ghost use Rattle.gen_core.specs.Events.{released, sees};
ghost use Rattle.word_arena.specs.Ruled.{bare, start_in, reader_of, seen_image, seen_number, IsAimOf, IsLater, IsHigher, Missed, Tries, IsWatch};
ghost use Rattle.word_arena.specs.Ruled.{IsAim, IsGuard};
ghost use Rattle.word_arena.specs.PlayEvents.{LoadsNewest, RaiseFinds, TryFinds};
ghost use Rattle.word_arena.specs.Runs.{GuardsCommit};
ghost use Rattle.entry_ref.specs.Records.{HasWord, word_at};

use crate::arena::Arena;
use crate::plays::{Bounce, LoadNewest, LoadRoot, LoadWord, Raise, Release};
use crate::rule::ArenaSeat;
use crate::steps::Steps;
use crate::words::{COMMIT_BASE, FIRST_COUNT, GENERATION_BASE, LAST, RAISED, ROOT, first_word};
use arena_api::Frozen;
use entry_ref::{EntryRef, Layout, place_of};
use std::sync::Arc;
use std::sync::ledger::Ledger;

/// A reader with no guard. It holds no commit, so it delays nothing.
///
/// `Writer::reader` makes it, up to 64 for each arena. It belongs to one thread at a time, and no call of it waits for
/// another seat. `aim`, `try_guard` and `guard` turn it into the next state; `Guarded::release` and a miss (`Again`) give
/// it back; `Writer::take_in` ends it. A reader that is dropped keeps its seat, and no other harm is done.
#[derive(Drop)]
pub struct Reader<const OFFSET_BITS: u32, L: Layout> {
    pub(crate) arena: Arc<Arena<OFFSET_BITS, L>>,
    pub(crate) place: ArenaSeat,
    ghost stands: { IsWatch OFFSET_BITS arena.value.table.shared.table_id arena.value.sizes place.table_id (bare place.me) },
}

/// A reader that guards a commit, with the root word that it loaded. It is `Frozen`: it reads the records of that one
/// image, which stay as they are until `release`.
///
/// `again` moves it on to the last commit, `release` gives the reader back. A guard that is dropped without `release`
/// keeps its hold open for good: the writer can then let go no commit from that hold's first one on.
#[derive(Drop)]
pub struct Guarded<const OFFSET_BITS: u32, L: Layout> {
    pub(crate) arena: Arc<Arena<OFFSET_BITS, L>>,
    pub(crate) hold: u64,
    pub(crate) found: u64,
    pub(crate) place: ArenaSeat,
    ghost stands: { IsGuard OFFSET_BITS arena.value.table.shared.table_id arena.value.sizes hold found place.table_id (bare place.me) },
}

/// A reader that has loaded the newest hold and aims at it. It holds no commit yet: the hold may be closed before the
/// raise. Its one call is `try_raise`.
#[derive(Drop)]
pub struct Aimed<const OFFSET_BITS: u32, L: Layout> {
    pub(crate) arena: Arc<Arena<OFFSET_BITS, L>>,
    pub(crate) hold: u64,
    pub(crate) place: ArenaSeat,
    ghost stands: { IsAim OFFSET_BITS arena.value.table.shared.table_id arena.value.sizes hold place.table_id (bare place.me) },
}

/// The hold was closed in the meantime: the reader, which can aim again, and the count that it found, which is odd.
#[derive(Drop)]
pub struct Again<const OFFSET_BITS: u32, L: Layout> {
    pub reader: Reader<OFFSET_BITS, L>,
    pub found: u64,
}

impl<const OFFSET_BITS: u32, L: Layout> Reader<OFFSET_BITS, L> {
    /// Aims at the newest hold.
    pub fn aim(self) -> Aimed<OFFSET_BITS, L>
        ensures loads { LoadsNewest L.reaches L.lawful self.place.me result.place.me }
        ensures aims { IsAimOf (reader_of self.place.me.0) (reader_of result.place.me.0) }
        ensures table { result.place.table_id ≡ self.place.table_id }
    {
        let Reader { arena, mut place } = self;
        let held = &*arena;
        let last = held.table.shared.load::<LoadNewest<L>>(&mut place, LAST);
        let hold = last % GENERATION_BASE;
        Aimed { arena, hold, place }
    }

    /// Aims at the newest hold and raises it. Returns a guard of the last commit if and only if the count found by
    /// the raise is even. Otherwise the hold was closed in the meantime, and the reader is returned.
    pub fn try_guard(self) -> Result<Guarded<OFFSET_BITS, L>, Again<OFFSET_BITS, L>>
        ensures ok { IfOk result (λ g. IsLater L.reaches L.lawful (reader_of self.place.me.0) (reader_of g.place.me.0)) }
        ensures again { IfErr result (λ a. IsHigher (reader_of self.place.me.0) (reader_of a.reader.place.me.0)) }
        ensures commit { IfOk result (λ g. GuardsCommit L.reaches L.lawful g.place.me.0) }
        ensures even { IfOk result (λ g. (n : ℕ) × TryFinds L.reaches L.lawful self.place.me n × (n % 2 ≡ 0)) }
        ensures odd { IfErr result (λ a. TryFinds L.reaches L.lawful self.place.me a.found × (a.found % 2 ≡ 1)) }
        ensures found { IfErr result (λ a. a.found ≡ (reader_of a.reader.place.me.0).misses.found) }
        ensures hit { IfOk result (λ g. Tries (reader_of self.place.me.0) (reader_of g.place.me.0) 0) }
        ensures miss { IfErr result (λ a. Tries (reader_of self.place.me.0) (reader_of a.reader.place.me.0) 1) }
        ensures table { IfOk result (λ g. g.place.table_id ≡ self.place.table_id) }
        ensures back { IfErr result (λ a. a.reader.place.table_id ≡ self.place.table_id) }
    {
        self.aim().try_raise()
    }

    /// Guards the last commit, with as many tries as it takes. Each failed try means that a generation has passed, so
    /// there is at most one try for each generation between the first aim and the last.
    pub fn guard<C: Ledger>(self, tries: &mut Steps<C>) -> Guarded<OFFSET_BITS, L>
        ensures later { IsLater L.reaches L.lawful (reader_of self.place.me.0) (reader_of result.place.me.0) }
        ensures commit { GuardsCommit L.reaches L.lawful result.place.me.0 }
        ensures some { tries.old + 1 ≤ tries.new }
        ensures tried { Tries (reader_of self.place.me.0) (reader_of result.place.me.0) (tries.new - (tries.old + 1)) }
        ensures few { tries.new + (reader_of result.place.me.0).first ≤ tries.old + 1 + (reader_of result.place.me.0).least }
        ensures table { result.place.table_id ≡ self.place.table_id }
        ensures limit { tries.new ≤ tries.old + 1 + (reader_of self.place.me.0).sizes.generation_limit }
    {
        let mut reader = self;
        loop {
            tries.tick();
            match reader.try_guard() {
                Ok(guard) => return guard,
                Err(again) => {
                    let Again {
                        reader: next,
                        found: _,
                    } = again;
                    reader = next;
                }
            }
        }
    }
}

impl<const OFFSET_BITS: u32, L: Layout> Aimed<OFFSET_BITS, L> {
    /// Raises the hold. Returns a guard of the last commit if and only if the count found is even. Otherwise takes
    /// the 2 off the count again and returns the reader.
    pub fn try_raise(self) -> Result<Guarded<OFFSET_BITS, L>, Again<OFFSET_BITS, L>>
        ensures ok { IfOk result (λ g. IsLater L.reaches L.lawful (reader_of self.place.me.0) (reader_of g.place.me.0)) }
        ensures again { IfErr result (λ a. IsHigher (reader_of self.place.me.0) (reader_of a.reader.place.me.0)) }
        ensures commit { IfOk result (λ g. GuardsCommit L.reaches L.lawful g.place.me.0) }
        ensures even { IfOk result (λ g. (n : ℕ) × RaiseFinds L.reaches L.lawful self.place.me n × (n % 2 ≡ 0)) }
        ensures odd { IfErr result (λ a. RaiseFinds L.reaches L.lawful self.place.me a.found × (a.found % 2 ≡ 1)) }
        ensures found { IfErr result (λ a. a.found ≡ (reader_of a.reader.place.me.0).misses.found) }
        ensures hit { IfOk result (λ g. Missed (reader_of self.place.me.0) (reader_of g.place.me.0) 0) }
        ensures miss { IfErr result (λ a. Missed (reader_of self.place.me.0) (reader_of a.reader.place.me.0) 1) }
        ensures table { IfOk result (λ g. g.place.table_id ≡ self.place.table_id) }
        ensures back { IfErr result (λ a. a.reader.place.table_id ≡ self.place.table_id) }
    {
        let Aimed {
            arena,
            hold,
            mut place,
        } = self;
        let held = &*arena;
        let word = FIRST_COUNT + hold as usize;
        let count = held
            .table
            .shared
            .fetch_add::<Raise<L>>(&mut place, word, RAISED);
        if count % 2 == 0 {
            let found = held.table.shared.load::<LoadRoot<L>>(&mut place, ROOT);
            return Ok(Guarded {
                arena,
                hold,
                found,
                place,
            });
        }
        held.table
            .shared
            .fetch_sub::<Bounce<L>>(&mut place, word, RAISED);
        let reader = Reader { arena, place };
        Err(Again {
            reader,
            found: count,
        })
    }
}

impl<const OFFSET_BITS: u32, L: Layout> Guarded<OFFSET_BITS, L> {
    /// Returns the number of the guarded commit.
    pub fn commit(&self) -> u32
        ensures { result ≡ seen_number (reader_of self.now.place.me.0) }
    {
        (self.found / COMMIT_BASE) as u32
    }

    /// Returns the root of the guarded commit, which is invalid in commit 0.
    pub fn root(&self) -> EntryRef<OFFSET_BITS>
        ensures { result ≡ (seen_image (reader_of self.now.place.me.0)).root }
    {
        EntryRef::from_raw((self.found % COMMIT_BASE) as u32)
    }

    /// Gives the guard up: subtracts what the raise added to the hold's count.
    pub fn release(self) -> Reader<OFFSET_BITS, L>
        ensures view { reader_of result.place.me.0 ≡ released (reader_of self.place.me.0) }
        ensures table { result.place.table_id ≡ self.place.table_id }
    {
        let Guarded {
            arena,
            hold,
            found: _,
            mut place,
        } = self;
        let held = &*arena;
        held.table
            .shared
            .fetch_sub::<Release<L>>(&mut place, FIRST_COUNT + hold as usize, RAISED);
        Reader { arena, place }
    }

    /// Loads the last commit again, under the same hold. No count changes.
    pub fn again(self) -> Guarded<OFFSET_BITS, L>
        ensures later { IsLater L.reaches L.lawful (reader_of self.place.me.0) (reader_of result.place.me.0) }
        ensures commit { GuardsCommit L.reaches L.lawful result.place.me.0 }
        ensures not_older { seen_number (reader_of self.place.me.0) ≤ seen_number (reader_of result.place.me.0) }
        ensures view { reader_of result.place.me.0 ≡ sees (reader_of self.place.me.0) self.hold
            (seen_number (reader_of result.place.me.0)) (seen_image (reader_of result.place.me.0)) }
        ensures stays { stands_on (reader_of result.place.me.0).state ≡ stands_on (reader_of self.place.me.0).state }
        ensures table { result.place.table_id ≡ self.place.table_id }
    {
        let Guarded {
            arena,
            hold,
            found: _,
            mut place,
        } = self;
        let held = &*arena;
        let now = held.table.shared.load::<LoadRoot<L>>(&mut place, ROOT);
        Guarded {
            arena,
            hold,
            found: now,
            place,
        }
    }

    // Returns the place of a word of a record, by the width that is stored in its buffer.
    fn place_of_word(&mut self, entry: EntryRef<OFFSET_BITS>, i: u32) -> u64
        requires { HasWord (words_at (seen_image (reader_of self.old.place.me.0))) entry i }
        ensures place { result ≡ place OFFSET_BITS self.old.arena.value.sizes.buffers self.old.arena.value.sizes.words
            (length (words_at (seen_image (reader_of self.old.place.me.0)) entry.entry)) entry.entry i }
        ensures same { self.new ≡ self.old }
    {
        let arena = &*self.arena;
        let (buffers, words) = (arena.sizes.buffers as u32, arena.sizes.words as u32);
        let first = first_word(&arena.sizes, entry.buffer());
        let width = arena
            .table
            .shared
            .load::<LoadWord<L>>(&mut self.place, first) as u32;
        place_of(buffers, words, width, entry, i)
    }
}

/// Loads words of a record of the guarded commit from place `at` on, where its word `first` is.
fn load_words<const OFFSET_BITS: u32, L: Layout>(
    arena: &Arena<OFFSET_BITS, L>,
    seat: &mut ArenaSeat,
    entry: EntryRef<OFFSET_BITS>,
    first: u32,
    at: u64,
    into: &mut [u64],
)
    requires guard { (hold : ℕ) × (found : ℕ)
        × IsGuard OFFSET_BITS arena.now.table.shared.table_id arena.now.sizes hold found seat.old.table_id (bare seat.old.me) }
    requires there { first + length into.old ≤ length (words_at (seen_image (reader_of seat.old.me.0)) entry) }
    requires at { at ≡ place OFFSET_BITS arena.now.sizes.buffers arena.now.sizes.words
        (length (words_at (seen_image (reader_of seat.old.me.0)) entry)) entry first }
    ensures words { into.new ≡ take (length into.old)
        (drop first (words_at (seen_image (reader_of seat.old.me.0)) entry.entry)) }
    ensures same { seat.new ≡ seat.old }
{
    for i in 0..into.len() {
        into[i] = arena
            .table
            .shared
            .load::<LoadWord<L>>(seat, at as usize + i);
    }
}

impl<const OFFSET_BITS: u32, L: Layout> Frozen<OFFSET_BITS> for Guarded<OFFSET_BITS, L> {
    ghost use Rattle.word_arena.specs.ProofsForGuards.{guard_references};

    ghost shape = { λ g. (reader_of g.place.me.0).sizes.shape };

    ghost records = { λ g. words_at (seen_image (reader_of g.place.me.0)) };

    ghost begins = { λ g. start_in OFFSET_BITS g.arena.value.sizes (words_at (seen_image (reader_of g.place.me.0))) };

    fn word(&mut self, entry: EntryRef<OFFSET_BITS>, i: u32) -> u64
        requires { HasWord (⟦<Guarded<OFFSET_BITS, L> as Frozen<OFFSET_BITS>>⟧.records self.old) entry i }
        ensures value { result ≡ word_at (⟦<Guarded<OFFSET_BITS, L> as Frozen<OFFSET_BITS>>⟧.records self.old) entry.entry i }
        ensures same { self.new ≡ self.old }
    {
        let place = self.place_of_word(entry, i);
        let arena = &*self.arena;
        arena
            .table
            .shared
            .load::<LoadWord<L>>(&mut self.place, place as usize)
    }

    fn start_of(&mut self, entry: EntryRef<OFFSET_BITS>, width: Option<u32>) -> u64
        requires some { HasWord (⟦<Guarded<OFFSET_BITS, L> as Frozen<OFFSET_BITS>>⟧.records self.old) entry 0 }
        requires width { IfSome width (λ w. length (⟦<Guarded<OFFSET_BITS, L> as Frozen<OFFSET_BITS>>⟧.records self.old entry) ≡ w) }
        ensures start { result ≡ ⟦<Guarded<OFFSET_BITS, L> as Frozen<OFFSET_BITS>>⟧.begins self.old entry.entry }
        ensures same { self.new ≡ self.old }
    {
        let Some(width) = width else {
            return self.place_of_word(entry, 0);
        };
        let sizes = &self.arena.sizes;
        place_of(sizes.buffers as u32, sizes.words as u32, width, entry, 0)
    }

    fn word_from(&mut self, entry: EntryRef<OFFSET_BITS>, start: u64, i: u32) -> u64
        requires there { HasWord (⟦<Guarded<OFFSET_BITS, L> as Frozen<OFFSET_BITS>>⟧.records self.old) entry i }
        requires start { start ≡ ⟦<Guarded<OFFSET_BITS, L> as Frozen<OFFSET_BITS>>⟧.begins self.old entry }
        ensures value { result ≡ word_at (⟦<Guarded<OFFSET_BITS, L> as Frozen<OFFSET_BITS>>⟧.records self.old) entry.entry i }
        ensures same { self.new ≡ self.old }
    {
        let _ = entry;
        let arena = &*self.arena;
        arena
            .table
            .shared
            .load::<LoadWord<L>>(&mut self.place, start as usize + i as usize)
    }

    fn read_from(&mut self, entry: EntryRef<OFFSET_BITS>, start: u64, first: u32, into: &mut [u64])
        requires there { first + length into.old ≤ length (⟦<Guarded<OFFSET_BITS, L> as Frozen<OFFSET_BITS>>⟧.records self.old entry) }
        requires few { first + length into.old < 2 ^ 32 }
        requires start { start ≡ ⟦<Guarded<OFFSET_BITS, L> as Frozen<OFFSET_BITS>>⟧.begins self.old entry }
        ensures words { into.new ≡ take (length into.old) (drop first (⟦<Guarded<OFFSET_BITS, L> as Frozen<OFFSET_BITS>>⟧.records self.old entry.entry)) }
        ensures same { self.new ≡ self.old }
    {
        if into.is_empty() {
            return;
        }
        let arena = &*self.arena;
        let at = start + u64::from(first);
        load_words(arena, &mut self.place, entry, first, at, into);
    }

    ghost references = { λ g. guard_references g.stands };
}
