//! A store over a memory with holds: `EntryStore`.

ghost use Rattle.std.specs.Prelude.{◌≡◌, ◌<◌, ◌≤◌, ◌+◌, ◌^◌, ℕ, Some, None, true, false, [], length, take, drop};
ghost use Rattle.std.specs.Prelude.{IfSome, IfNone, IfOk, IfErr, OnOk, OnErr};
ghost use Rattle.arena_api.specs.Works.{last_image};
ghost use Rattle.arena_api.specs.Generations.{MayRetire, current};
ghost use Rattle.arena_api.specs.Calls.{IsFresh, AddsCommit, next_image};
ghost use Rattle.store_api.specs.Ledgers.{is_width, is_this, IsNew};
ghost use Rattle.store_api.specs.Units.{MayDo};
ghost use Rattle.store_api.specs.Calls.{GivesBack, MayGiveBack, Makes, Refuses, ComesAfter, DropsEntry, IsWhole, StoresCommit};
ghost use Rattle.store_api.specs.Calls.{with_hold};
ghost use Rattle.store_api.specs.Statuses.{in_use};
ghost use Rattle.entry_ref.specs.Images.{words_at};
ghost use Rattle.entry_ref.specs.Records.{HasWord, word_at};
ghost use Rattle.entry_ref.specs.References.{buffer_of};
ghost use Rattle.entry_ledger.specs.Ledgers.{entries_of};
ghost use Rattle.entry_ledger.specs.Entries.{IsGood, is_settled_entry, is_dropped_since};
ghost use Rattle.entry_store.specs.Standing.{Stands, statuses, records_by_status, ledger_of};
ghost use Rattle.entry_store.specs.Steps.{TakesOne, OpensBuffer, MakesOpened, TellsOldest, FullAs, Publishes, EndsCommit, retired_by};
ghost use Rattle.entry_store.specs.Steps.{generation_by};

use arena_api::{Advance, Frozen, Oldest, Work};
use entry_ledger::EntryLedger;
use entry_ref::EntryRef;
use std::alloc::Global;
use store_api::{Store, StoreError, Stored, Usage};

/// A store over a work.
#[derive(Drop)]
pub struct EntryStore<const OFFSET_BITS: u32, W: Work<OFFSET_BITS>> {
    work: W,
    entries: EntryLedger<OFFSET_BITS>,
    unit: bool,
    // the store and the work agree
    ghost stands: { Stands OFFSET_BITS (W.knows work) (W.records work) (entries_of OFFSET_BITS entries) unit },
}

/// Out of memory: no store was made, and the work is returned.
#[derive(Drop)]
pub struct NoMemory<W> {
    pub work: W,
}

impl<const OFFSET_BITS: u32, W: Work<OFFSET_BITS>> EntryStore<OFFSET_BITS, W> {
    /// Creates a store over a work in which nothing is committed or handed out.
    pub fn create(alloc: Global, work: W) -> Result<Self, NoMemory<W>>
        requires { IsFresh (W.knows work) }
        ensures new { IfOk result (λ s. IsNew (⟦<EntryStore<OFFSET_BITS, W> as Store<OFFSET_BITS>>⟧.ledger s)) }
        ensures work { IfOk result (λ s. (⟦<EntryStore<OFFSET_BITS, W> as Store<OFFSET_BITS>>⟧.ledger s).work ≡ W.knows work) }
        ensures records { IfOk result (λ s. (r : ℕ) → ⟦<EntryStore<OFFSET_BITS, W> as Frozen<OFFSET_BITS>>⟧.records s r ≡ []) }
        ensures shape { IfOk result (λ s. ⟦<EntryStore<OFFSET_BITS, W> as Frozen<OFFSET_BITS>>⟧.shape s ≡ W.shape work) }
        ensures left { IfErr result (λ e. e.work ≡ work) }
    {
        match EntryLedger::create(alloc, work.buffers(), work.words()) {
            Ok(entries) => Ok(EntryStore {
                work,
                entries,
                unit: false,
            }),
            Err(_) => Err(NoMemory { work }),
        }
    }

    /// Returns the work, with all that was committed.
    pub fn into_work(self) -> W
        ensures knows { W.knows result ≡ (⟦<EntryStore<OFFSET_BITS, W> as Store<OFFSET_BITS>>⟧.ledger self).work }
        ensures records { (r : ℕ) → 0 < length (⟦<EntryStore<OFFSET_BITS, W> as Frozen<OFFSET_BITS>>⟧.records self r)
            → W.records result r ≡ ⟦<EntryStore<OFFSET_BITS, W> as Frozen<OFFSET_BITS>>⟧.records self r }
        ensures shape { W.shape result ≡ ⟦<EntryStore<OFFSET_BITS, W> as Frozen<OFFSET_BITS>>⟧.shape self }
    {
        self.work
    }

    /// Returns how often an entry of this width was made, at most the greatest 64-bit number.
    pub fn made(&self, width: u32) -> u64
        requires { is_width width ≡ true }
        ensures { result ≡ ((⟦<EntryStore<OFFSET_BITS, W> as Store<OFFSET_BITS>>⟧.ledger self.now).of_width width).made }
    {
        self.entries.made(width)
    }

    /// Reclaims what no reader can reach, and returns the oldest open hold.
    fn reclaim(&mut self) -> Oldest
        ensures tells { TellsOldest (W.knows self.old.work) (W.knows self.new.work) result }
        ensures gives { GivesBack (⟦<EntryStore<OFFSET_BITS, W> as Store<OFFSET_BITS>>⟧.ledger self.old)
            (⟦<EntryStore<OFFSET_BITS, W> as Store<OFFSET_BITS>>⟧.ledger self.new) }
        ensures records { ⟦<EntryStore<OFFSET_BITS, W> as Frozen<OFFSET_BITS>>⟧.records self.new
            ≡ ⟦<EntryStore<OFFSET_BITS, W> as Frozen<OFFSET_BITS>>⟧.records self.old }
    {
        let oldest = self.work.reclaim();
        self.entries.free_below(oldest.generation);
        oldest
    }

    /// Makes an entry where the width has one to spare, in place of the one of the reference `near`, 0 for none.
    fn make_spare(&mut self, width: u32, words: &[u64], near: u32) -> Option<EntryRef<OFFSET_BITS>>
        requires unit { self.old.unit ≡ true }
        requires width { is_width width ≡ true }
        requires fits { length words.now ≤ width }
        ensures none { IfNone result (((⟦<EntryStore<OFFSET_BITS, W> as Store<OFFSET_BITS>>⟧.ledger self.old).of_width width).spare ≡ 0) }
        ensures some { IfSome result (λ r. 0
            < ((⟦<EntryStore<OFFSET_BITS, W> as Store<OFFSET_BITS>>⟧.ledger self.old).of_width width).spare) }
        ensures left { IfNone result (self.new ≡ self.old) }
        ensures takes { IfSome result (TakesOne OFFSET_BITS (⟦<EntryStore<OFFSET_BITS, W> as Store<OFFSET_BITS>>⟧.ledger self.old)
            (⟦<EntryStore<OFFSET_BITS, W> as Store<OFFSET_BITS>>⟧.ledger self.new)
            (⟦<EntryStore<OFFSET_BITS, W> as Frozen<OFFSET_BITS>>⟧.records self.old)
            (⟦<EntryStore<OFFSET_BITS, W> as Frozen<OFFSET_BITS>>⟧.records self.new) width words.now) }
    {
        match self.entries.take(width, near) {
            Some(entry) => {
                self.work.put(entry, width, words);
                Some(entry)
            }
            None => None,
        }
    }

    /// Hands out a buffer for entries of a width that has no spare entry.
    fn open_buffer(&mut self, width: u32, oldest: Oldest) -> Result<(), StoreError>
        requires width { is_width width ≡ true }
        requires spare { ((⟦<EntryStore<OFFSET_BITS, W> as Store<OFFSET_BITS>>⟧.ledger self.old).of_width width).spare ≡ 0 }
        ensures opens { OnOk result (OpensBuffer (⟦<EntryStore<OFFSET_BITS, W> as Store<OFFSET_BITS>>⟧.ledger self.old)
            (⟦<EntryStore<OFFSET_BITS, W> as Store<OFFSET_BITS>>⟧.ledger self.new) width) }
        ensures full { IfErr result (FullAs (W.knows self.old.work) width oldest) }
        ensures left { OnErr result (⟦<EntryStore<OFFSET_BITS, W> as Store<OFFSET_BITS>>⟧.ledger self.new
            ≡ ⟦<EntryStore<OFFSET_BITS, W> as Store<OFFSET_BITS>>⟧.ledger self.old) }
        ensures records { ⟦<EntryStore<OFFSET_BITS, W> as Frozen<OFFSET_BITS>>⟧.records self.new
            ≡ ⟦<EntryStore<OFFSET_BITS, W> as Frozen<OFFSET_BITS>>⟧.records self.old }
        ensures unit { self.new.unit ≡ self.old.unit }
    {
        let Some(buffer) = self.entries.lowest_free() else {
            return Err(StoreError::Full {
                width,
                active: self.entries.active(),
                held: self.entries.on_hold(),
                oldest,
            });
        };
        match self.entries.open_buffer(buffer, width) {
            Ok(()) => {
                let _ = self.work.hand_out(width);
                Ok(())
            }
            Err(_) => Err(StoreError::Memory),
        }
    }

    /// Hands out a buffer, and makes an entry in it.
    fn make_opened(
        &mut self,
        width: u32,
        words: &[u64],
        oldest: Oldest,
    ) -> Result<EntryRef<OFFSET_BITS>, StoreError>
        requires unit { self.old.unit ≡ true }
        requires width { is_width width ≡ true }
        requires fits { length words.now ≤ width }
        requires spare { ((⟦<EntryStore<OFFSET_BITS, W> as Store<OFFSET_BITS>>⟧.ledger self.old).of_width width).spare ≡ 0 }
        ensures makes { IfOk result (MakesOpened OFFSET_BITS (⟦<EntryStore<OFFSET_BITS, W> as Store<OFFSET_BITS>>⟧.ledger self.old)
            (⟦<EntryStore<OFFSET_BITS, W> as Store<OFFSET_BITS>>⟧.ledger self.new)
            (⟦<EntryStore<OFFSET_BITS, W> as Frozen<OFFSET_BITS>>⟧.records self.old)
            (⟦<EntryStore<OFFSET_BITS, W> as Frozen<OFFSET_BITS>>⟧.records self.new) width words.now) }
        ensures full { IfErr result (FullAs (W.knows self.old.work) width oldest) }
        ensures refused { OnErr result
            (⟦<EntryStore<OFFSET_BITS, W> as Store<OFFSET_BITS>>⟧.ledger self.new
            ≡ ⟦<EntryStore<OFFSET_BITS, W> as Store<OFFSET_BITS>>⟧.ledger self.old) }
        ensures left { OnErr result
            (⟦<EntryStore<OFFSET_BITS, W> as Frozen<OFFSET_BITS>>⟧.records self.new
            ≡ ⟦<EntryStore<OFFSET_BITS, W> as Frozen<OFFSET_BITS>>⟧.records self.old) }
        ensures may { MayDo (⟦<EntryStore<OFFSET_BITS, W> as Store<OFFSET_BITS>>⟧.ledger self.old)
            (⟦<EntryStore<OFFSET_BITS, W> as Store<OFFSET_BITS>>⟧.ledger self.new) }
    {
        match self.open_buffer(width, oldest) {
            Ok(()) => match self.make_spare(width, words, 0) {
                Some(entry) => Ok(entry),
                None => unreachable!(),
            },
            Err(error) => Err(error),
        }
    }

    /// Makes an entry of a width that has no spare one: after a reclaim, or else in a new buffer.
    #[cold]
    #[inline(never)]
    fn make_again(&mut self, width: u32, words: &[u64]) -> Result<EntryRef<OFFSET_BITS>, StoreError>
        requires unit { self.old.unit ≡ true }
        requires width { is_width width ≡ true }
        requires fits { length words.now ≤ width }
        requires spare { ((⟦<EntryStore<OFFSET_BITS, W> as Store<OFFSET_BITS>>⟧.ledger self.old).of_width width).spare ≡ 0 }
        ensures makes { IfOk result (Makes OFFSET_BITS (⟦<EntryStore<OFFSET_BITS, W> as Store<OFFSET_BITS>>⟧.ledger self.old)
            (⟦<EntryStore<OFFSET_BITS, W> as Store<OFFSET_BITS>>⟧.ledger self.new)
            (⟦<EntryStore<OFFSET_BITS, W> as Frozen<OFFSET_BITS>>⟧.records self.old)
            (⟦<EntryStore<OFFSET_BITS, W> as Frozen<OFFSET_BITS>>⟧.records self.new) width words.now) }
        ensures refuses { IfErr result (Refuses (⟦<EntryStore<OFFSET_BITS, W> as Store<OFFSET_BITS>>⟧.ledger self.old)
            (⟦<EntryStore<OFFSET_BITS, W> as Store<OFFSET_BITS>>⟧.ledger self.new) width) }
        ensures refused { OnErr result (MayGiveBack (⟦<EntryStore<OFFSET_BITS, W> as Store<OFFSET_BITS>>⟧.ledger self.old)
            (⟦<EntryStore<OFFSET_BITS, W> as Store<OFFSET_BITS>>⟧.ledger self.new)) }
        ensures after { IfErr result (ComesAfter (⟦<EntryStore<OFFSET_BITS, W> as Store<OFFSET_BITS>>⟧.ledger self.old)
            (⟦<EntryStore<OFFSET_BITS, W> as Store<OFFSET_BITS>>⟧.ledger self.new) width) }
        ensures left { OnErr result
            (⟦<EntryStore<OFFSET_BITS, W> as Frozen<OFFSET_BITS>>⟧.records self.new
            ≡ ⟦<EntryStore<OFFSET_BITS, W> as Frozen<OFFSET_BITS>>⟧.records self.old) }
        ensures may { MayDo (⟦<EntryStore<OFFSET_BITS, W> as Store<OFFSET_BITS>>⟧.ledger self.old)
            (⟦<EntryStore<OFFSET_BITS, W> as Store<OFFSET_BITS>>⟧.ledger self.new) }
    {
        let oldest = self.reclaim();
        match self.make_spare(width, words, 0) {
            Some(entry) => Ok(entry),
            None => self.make_opened(width, words, oldest),
        }
    }

    /// Publishes the records that the root reaches, and records the commit.
    fn publish(&mut self, root: EntryRef<OFFSET_BITS>) -> u32
        requires unit { self.old.unit ≡ false }
        requires lawful { W.Layout.lawful (⟦<EntryStore<OFFSET_BITS, W> as Frozen<OFFSET_BITS>>⟧.shape self.old)
            (⟦<EntryStore<OFFSET_BITS, W> as Frozen<OFFSET_BITS>>⟧.records self.old) root }
        requires room { (W.knows self.old.work).commits.last < (W.knows self.old.work).sizes.commits }
        requires whole { IsWhole OFFSET_BITS (⟦<EntryStore<OFFSET_BITS, W> as Store<OFFSET_BITS>>⟧.ledger self.old)
            (W.Layout.reaches (⟦<EntryStore<OFFSET_BITS, W> as Frozen<OFFSET_BITS>>⟧.shape self.old)
            (⟦<EntryStore<OFFSET_BITS, W> as Frozen<OFFSET_BITS>>⟧.records self.old) root) }
        ensures publishes { Publishes (⟦<EntryStore<OFFSET_BITS, W> as Store<OFFSET_BITS>>⟧.ledger self.old)
            (⟦<EntryStore<OFFSET_BITS, W> as Store<OFFSET_BITS>>⟧.ledger self.new)
            (next_image W.Layout.reaches (⟦<EntryStore<OFFSET_BITS, W> as Frozen<OFFSET_BITS>>⟧.shape self.old)
            (⟦<EntryStore<OFFSET_BITS, W> as Frozen<OFFSET_BITS>>⟧.records self.old) root.entry) result }
        ensures records { ⟦<EntryStore<OFFSET_BITS, W> as Frozen<OFFSET_BITS>>⟧.records self.new ≡ words_at (last_image
            (W.knows self.new.work).commits) }
        ensures unit { self.new.unit ≡ false }
        ensures tagged { (r : ℕ)
            → is_dropped_since (entries_of OFFSET_BITS self.new.entries).last ((entries_of OFFSET_BITS self.new.entries).state r) ≡ false }
        ensures apart { (r : ℕ) → is_this (entries_of OFFSET_BITS self.new.entries).finished (buffer_of OFFSET_BITS r) ≡ true
            → words_at (last_image (W.knows self.new.work).commits) r ≡ [] }
    {
        let commit = self.work.publish(root);
        self.entries.commit(commit);
        commit
    }

    /// Puts the finished buffer on hold, advances the generation, and reclaims what no reader can reach.
    fn end_commit(&mut self, commit: u32) -> Stored
        requires unit { self.old.unit ≡ false }
        requires records { ⟦<EntryStore<OFFSET_BITS, W> as Frozen<OFFSET_BITS>>⟧.records self.old ≡ words_at (last_image
            (W.knows self.old.work).commits) }
        requires tagged { (r : ℕ)
            → is_dropped_since (entries_of OFFSET_BITS self.old.entries).last ((entries_of OFFSET_BITS self.old.entries).state r) ≡ false }
        requires apart { (r : ℕ) → is_this (entries_of OFFSET_BITS self.old.entries).finished (buffer_of OFFSET_BITS r) ≡ true
            → words_at (last_image (W.knows self.old.work).commits) r ≡ [] }
        requires unstored { (r i : ℕ) → (W.knows self.old.work).stored r i ≡ None }
        requires early { current (W.knows self.old.work) < (W.knows self.old.work).commits.last }
        ensures ends { EndsCommit OFFSET_BITS (⟦<EntryStore<OFFSET_BITS, W> as Store<OFFSET_BITS>>⟧.ledger self.old)
            (⟦<EntryStore<OFFSET_BITS, W> as Store<OFFSET_BITS>>⟧.ledger self.new) result }
        ensures number { result.commit ≡ commit }
        ensures records { ⟦<EntryStore<OFFSET_BITS, W> as Frozen<OFFSET_BITS>>⟧.records self.new
            ≡ ⟦<EntryStore<OFFSET_BITS, W> as Frozen<OFFSET_BITS>>⟧.records self.old }
    {
        retire_finished(&mut self.work, &mut self.entries);
        let advance = self.work.advance();
        follow(&mut self.entries, advance);
        let left = self.work.reclaim();
        self.entries.free_below(left.generation);
        Stored {
            commit,
            advance,
            oldest: left,
        }
    }
}

/// Puts the finished buffer on hold, if there is one.
fn retire_finished<const OFFSET_BITS: u32, W: Work<OFFSET_BITS>>(
    work: &mut W,
    entries: &mut EntryLedger<OFFSET_BITS>,
)
    requires good { IsGood OFFSET_BITS (entries_of OFFSET_BITS entries.old) }
    requires may { (b : ℕ) → (entries_of OFFSET_BITS entries.old).finished ≡ Some b → MayRetire OFFSET_BITS (W.knows work.old) b }
    requires settled { (r : ℕ) → is_settled_entry ((entries_of OFFSET_BITS entries.old).state r) ≡ true }
    requires tagged { (r : ℕ)
        → is_dropped_since (entries_of OFFSET_BITS entries.old).last ((entries_of OFFSET_BITS entries.old).state r) ≡ false }
    ensures knows { W.knows work.new ≡ with_hold (W.knows work.old) (entries_of OFFSET_BITS entries.old).finished }
    ensures retired { entries_of OFFSET_BITS entries.new
        ≡ retired_by OFFSET_BITS (entries_of OFFSET_BITS entries.old) (entries_of OFFSET_BITS entries.old).finished }
    ensures good { IsGood OFFSET_BITS (entries_of OFFSET_BITS entries.new) }
    ensures records { W.records work.new ≡ W.records work.old }
    ensures shape { W.shape work.new ≡ W.shape work.old }
{
    match entries.finished() {
        Some(buffer) => {
            work.retire_buffer(buffer);
            entries.retire(buffer);
        }
        None => {}
    }
}

/// Follows an advance of the generation.
fn follow<const OFFSET_BITS: u32>(entries: &mut EntryLedger<OFFSET_BITS>, advance: Advance)
    requires good { IsGood OFFSET_BITS (entries_of OFFSET_BITS entries.old) }
    requires rises { (entries_of OFFSET_BITS entries.old).generation
        ≤ generation_by advance (entries_of OFFSET_BITS entries.old).generation }
    requires tagged { (r : ℕ)
        → is_dropped_since (entries_of OFFSET_BITS entries.old).last ((entries_of OFFSET_BITS entries.old).state r) ≡ false }
    ensures advanced { entries_of OFFSET_BITS entries.new ≡ record (entries_of OFFSET_BITS entries.old) {
      generation = generation_by advance (entries_of OFFSET_BITS entries.old).generation;
    } }
    ensures good { IsGood OFFSET_BITS (entries_of OFFSET_BITS entries.new) }
{
    match advance {
        Advance::To { generation, .. } => entries.advance_to(generation),
        Advance::NoHold { .. } | Advance::Spent { .. } => {}
    }
}

impl<const OFFSET_BITS: u32, W: Work<OFFSET_BITS>> Frozen<OFFSET_BITS>
    for EntryStore<OFFSET_BITS, W> {
    ghost use Rattle.entry_store.specs.ProofsForStore.{store_references};

    ghost shape = { λ s. W.shape s.work };

    ghost records = { λ s. records_by_status (statuses (W.knows s.work).commits (entries_of OFFSET_BITS s.entries)) (W.records s.work) };

    ghost begins = { λ s. W.begins s.work };

    fn word(&mut self, entry: EntryRef<OFFSET_BITS>, i: u32) -> u64
        requires { HasWord (⟦<EntryStore<OFFSET_BITS, W> as Frozen<OFFSET_BITS>>⟧.records self.old) entry i }
        ensures value { result ≡ word_at (⟦<EntryStore<OFFSET_BITS, W> as Frozen<OFFSET_BITS>>⟧.records self.old) entry.entry i }
        ensures same { self.new ≡ self.old }
    {
        self.work.word(entry, i)
    }

    fn start_of(&mut self, entry: EntryRef<OFFSET_BITS>, width: Option<u32>) -> u64
        requires some { HasWord (⟦<EntryStore<OFFSET_BITS, W> as Frozen<OFFSET_BITS>>⟧.records self.old) entry 0 }
        requires width { IfSome width (λ w. length
            (⟦<EntryStore<OFFSET_BITS, W> as Frozen<OFFSET_BITS>>⟧.records self.old entry) ≡ w) }
        ensures start { result ≡ ⟦<EntryStore<OFFSET_BITS, W> as Frozen<OFFSET_BITS>>⟧.begins self.old entry.entry }
        ensures same { self.new ≡ self.old }
    {
        self.work.start_of(entry, width)
    }

    fn word_from(&mut self, entry: EntryRef<OFFSET_BITS>, start: u64, i: u32) -> u64
        requires there { HasWord (⟦<EntryStore<OFFSET_BITS, W> as Frozen<OFFSET_BITS>>⟧.records self.old) entry i }
        requires start { start ≡ ⟦<EntryStore<OFFSET_BITS, W> as Frozen<OFFSET_BITS>>⟧.begins self.old entry }
        ensures value { result ≡ word_at (⟦<EntryStore<OFFSET_BITS, W> as Frozen<OFFSET_BITS>>⟧.records self.old) entry.entry i }
        ensures same { self.new ≡ self.old }
    {
        self.work.word_from(entry, start, i)
    }

    fn read_from(&mut self, entry: EntryRef<OFFSET_BITS>, start: u64, first: u32, into: &mut [u64])
        requires there { first + length into.old
            ≤ length (⟦<EntryStore<OFFSET_BITS, W> as Frozen<OFFSET_BITS>>⟧.records self.old entry) }
        requires few { first + length into.old < 2 ^ 32 }
        requires start { start ≡ ⟦<EntryStore<OFFSET_BITS, W> as Frozen<OFFSET_BITS>>⟧.begins self.old entry }
        ensures words { into.new ≡ take (length into.old)
            (drop first (⟦<EntryStore<OFFSET_BITS, W> as Frozen<OFFSET_BITS>>⟧.records self.old entry.entry)) }
        ensures same { self.new ≡ self.old }
    {
        self.work.read_from(entry, start, first, into);
    }

    ghost references = { λ s. store_references OFFSET_BITS (W.knows s.work) (W.records s.work) (entries_of OFFSET_BITS s.entries)
        s.unit s.stands (W.references s.work) };
}

impl<const OFFSET_BITS: u32, W: Work<OFFSET_BITS>> Store<OFFSET_BITS>
    for EntryStore<OFFSET_BITS, W> {
    ghost use Rattle.std.specs.Prelude.{refl};
    ghost use Rattle.entry_store.specs.ProofsForStore.{store_recorded, store_placed, store_taken, store_filled, store_spares, store_unkept};
    ghost use Rattle.entry_store.specs.ProofsForStore.{store_held, store_last, store_settled, store_steady, store_left_out, store_left_stays, store_sealed, store_finished};
    ghost use Rattle.entry_store.specs.ProofsForStore.{store_counted};
    ghost use Rattle.entry_store.specs.ProofsForStore.{store_enough, store_few_buffers, store_few_records, store_few_nodes, store_unfilled};

    type Layout = W::Layout;

    type Home = W::Home;

    ghost ledger = { λ s. ledger_of OFFSET_BITS (W.knows s.work) (W.shape s.work) (W.records s.work)
        (entries_of OFFSET_BITS s.entries) s.unit };

    fn begin(&mut self) {
        self.unit = true;
    }

    fn make(&mut self, width: u32, words: &[u64]) -> Result<EntryRef<OFFSET_BITS>, StoreError> {
        self.make_near(width, words, EntryRef::from_raw(0))
    }

    fn make_near(
        &mut self,
        width: u32,
        words: &[u64],
        near: EntryRef<OFFSET_BITS>,
    ) -> Result<EntryRef<OFFSET_BITS>, StoreError>
        requires unit { (⟦<EntryStore<OFFSET_BITS, W> as Store<OFFSET_BITS>>⟧.ledger self.old).unit ≡ true }
        requires width { is_width width ≡ true }
        requires fits { length words.now ≤ width }
        ensures makes { IfOk result (Makes OFFSET_BITS (⟦<EntryStore<OFFSET_BITS, W> as Store<OFFSET_BITS>>⟧.ledger self.old)
            (⟦<EntryStore<OFFSET_BITS, W> as Store<OFFSET_BITS>>⟧.ledger self.new)
            (⟦<EntryStore<OFFSET_BITS, W> as Frozen<OFFSET_BITS>>⟧.records self.old)
            (⟦<EntryStore<OFFSET_BITS, W> as Frozen<OFFSET_BITS>>⟧.records self.new) width words.now) }
        ensures refuses { IfErr result (Refuses (⟦<EntryStore<OFFSET_BITS, W> as Store<OFFSET_BITS>>⟧.ledger self.old)
            (⟦<EntryStore<OFFSET_BITS, W> as Store<OFFSET_BITS>>⟧.ledger self.new) width) }
        ensures refused { OnErr result (MayGiveBack (⟦<EntryStore<OFFSET_BITS, W> as Store<OFFSET_BITS>>⟧.ledger self.old)
            (⟦<EntryStore<OFFSET_BITS, W> as Store<OFFSET_BITS>>⟧.ledger self.new)) }
        ensures after { IfErr result (ComesAfter (⟦<EntryStore<OFFSET_BITS, W> as Store<OFFSET_BITS>>⟧.ledger self.old)
            (⟦<EntryStore<OFFSET_BITS, W> as Store<OFFSET_BITS>>⟧.ledger self.new) width) }
        ensures left { OnErr result (⟦<EntryStore<OFFSET_BITS, W> as Frozen<OFFSET_BITS>>⟧.records self.new
            ≡ ⟦<EntryStore<OFFSET_BITS, W> as Frozen<OFFSET_BITS>>⟧.records self.old) }
        ensures may { MayDo (⟦<EntryStore<OFFSET_BITS, W> as Store<OFFSET_BITS>>⟧.ledger self.old)
            (⟦<EntryStore<OFFSET_BITS, W> as Store<OFFSET_BITS>>⟧.ledger self.new) }
    {
        match self.make_spare(width, words, near.raw()) {
            Some(entry) => Ok(entry),
            None => self.make_again(width, words),
        }
    }

    fn drop_entry(&mut self, entry: EntryRef<OFFSET_BITS>)
        requires unit { (⟦<EntryStore<OFFSET_BITS, W> as Store<OFFSET_BITS>>⟧.ledger self.old).unit ≡ true }
        requires used { in_use ((⟦<EntryStore<OFFSET_BITS, W> as Store<OFFSET_BITS>>⟧.ledger self.old).status entry) ≡ true }
        ensures drops { DropsEntry (⟦<EntryStore<OFFSET_BITS, W> as Store<OFFSET_BITS>>⟧.ledger self.old)
            (⟦<EntryStore<OFFSET_BITS, W> as Store<OFFSET_BITS>>⟧.ledger self.new)
            (⟦<EntryStore<OFFSET_BITS, W> as Frozen<OFFSET_BITS>>⟧.records self.old)
            (⟦<EntryStore<OFFSET_BITS, W> as Frozen<OFFSET_BITS>>⟧.records self.new) entry.entry }
        ensures may { MayDo (⟦<EntryStore<OFFSET_BITS, W> as Store<OFFSET_BITS>>⟧.ledger self.old)
            (⟦<EntryStore<OFFSET_BITS, W> as Store<OFFSET_BITS>>⟧.ledger self.new) }
    {
        self.entries.drop_entry(entry);
    }

    fn accept(&mut self) {
        self.entries.accept();
        self.unit = false;
    }

    fn undo(&mut self) {
        self.entries.undo();
        self.unit = false;
    }

    fn commit(&mut self, root: EntryRef<OFFSET_BITS>) -> Stored
        requires unit { (⟦<EntryStore<OFFSET_BITS, W> as Store<OFFSET_BITS>>⟧.ledger self.old).unit ≡ false }
        requires lawful { W.Layout.lawful (⟦<EntryStore<OFFSET_BITS, W> as Frozen<OFFSET_BITS>>⟧.shape self.old)
            (⟦<EntryStore<OFFSET_BITS, W> as Frozen<OFFSET_BITS>>⟧.records self.old) root }
        requires room { (⟦<EntryStore<OFFSET_BITS, W> as Store<OFFSET_BITS>>⟧.ledger self.old).work.commits.last <
            (⟦<EntryStore<OFFSET_BITS, W> as Store<OFFSET_BITS>>⟧.ledger self.old).work.sizes.commits }
        requires whole { IsWhole OFFSET_BITS (⟦<EntryStore<OFFSET_BITS, W> as Store<OFFSET_BITS>>⟧.ledger self.old)
            (W.Layout.reaches (⟦<EntryStore<OFFSET_BITS, W> as Frozen<OFFSET_BITS>>⟧.shape self.old)
            (⟦<EntryStore<OFFSET_BITS, W> as Frozen<OFFSET_BITS>>⟧.records self.old) root) }
        ensures commit { AddsCommit (⟦<EntryStore<OFFSET_BITS, W> as Store<OFFSET_BITS>>⟧.ledger self.old).work.commits
            (⟦<EntryStore<OFFSET_BITS, W> as Store<OFFSET_BITS>>⟧.ledger self.new).work.commits
            (next_image W.Layout.reaches (⟦<EntryStore<OFFSET_BITS, W> as Frozen<OFFSET_BITS>>⟧.shape self.old)
            (⟦<EntryStore<OFFSET_BITS, W> as Frozen<OFFSET_BITS>>⟧.records self.old) root.entry) }
        ensures stores { StoresCommit OFFSET_BITS (⟦<EntryStore<OFFSET_BITS, W> as Store<OFFSET_BITS>>⟧.ledger self.old)
            (⟦<EntryStore<OFFSET_BITS, W> as Store<OFFSET_BITS>>⟧.ledger self.new)
            (next_image W.Layout.reaches (⟦<EntryStore<OFFSET_BITS, W> as Frozen<OFFSET_BITS>>⟧.shape self.old)
            (⟦<EntryStore<OFFSET_BITS, W> as Frozen<OFFSET_BITS>>⟧.records self.old) root.entry) result }
        ensures records { ⟦<EntryStore<OFFSET_BITS, W> as Frozen<OFFSET_BITS>>⟧.records self.new
            ≡ words_at (next_image W.Layout.reaches (⟦<EntryStore<OFFSET_BITS, W> as Frozen<OFFSET_BITS>>⟧.shape self.old)
            (⟦<EntryStore<OFFSET_BITS, W> as Frozen<OFFSET_BITS>>⟧.records self.old) root.entry) }
    {
        let commit = self.publish(root);
        self.end_commit(commit)
    }

    fn seal(&mut self, buffer: u32) {
        self.entries.seal(buffer);
    }

    fn unseal(&mut self, buffer: u32) {
        self.entries.unseal(buffer);
    }

    fn finish(&mut self, buffer: u32) {
        self.entries.finish(buffer);
    }

    fn choose_victim(&self) -> Option<u32> {
        self.entries.choose_victim()
    }

    fn usage(&self) -> Usage {
        let words = self.entries.words();
        Usage {
            active: self.entries.active(),
            on_hold: self.entries.on_hold(),
            used: words.used,
            dead: words.dead,
            held: words.held,
        }
    }

    fn commits_left(&self) -> u32 {
        self.work.commits_left()
    }

    ghost shaped = { λ s. refl };

    ghost sized = { λ s. refl };

    ghost limits = { λ s. W.limits s.work };

    ghost order = { λ s. W.order s.work };

    ghost queue = { λ s. W.queue s.work };

    ghost timely = { λ s. s.stands.timely };

    ghost recorded = { λ s. store_recorded OFFSET_BITS (W.knows s.work) (W.records s.work) (entries_of OFFSET_BITS s.entries)
        s.unit s.stands };

    ghost placed = { λ s. store_placed OFFSET_BITS (W.knows s.work) (W.records s.work) (entries_of OFFSET_BITS s.entries)
        s.unit s.stands (W.entries s.work) };

    ghost taken = { λ s. store_taken OFFSET_BITS (W.knows s.work) (W.records s.work) (entries_of OFFSET_BITS s.entries)
        s.unit s.stands };

    ghost filled = { λ s. store_filled OFFSET_BITS (W.knows s.work) (W.records s.work) (entries_of OFFSET_BITS s.entries)
        s.unit s.stands };

    ghost spares = { λ s. store_spares OFFSET_BITS (W.knows s.work) (W.records s.work) (entries_of OFFSET_BITS s.entries)
        s.unit s.stands (W.shape s.work) };

    ghost unkept = { λ s. store_unkept OFFSET_BITS (W.knows s.work) (W.records s.work) (entries_of OFFSET_BITS s.entries)
        s.unit s.stands };

    ghost held = { λ s. store_held OFFSET_BITS (W.knows s.work) (W.records s.work) (entries_of OFFSET_BITS s.entries)
        s.unit s.stands (W.shape s.work) };

    ghost last = { λ s. store_last OFFSET_BITS (W.knows s.work) (W.records s.work) (entries_of OFFSET_BITS s.entries)
        s.unit s.stands };

    ghost settled = { λ s. store_settled OFFSET_BITS (W.knows s.work) (W.records s.work) (entries_of OFFSET_BITS s.entries)
        s.unit s.stands (W.shape s.work) };

    ghost steady = { λ s. store_steady OFFSET_BITS (W.knows s.work) (W.records s.work) (entries_of OFFSET_BITS s.entries)
        s.unit s.stands };

    ghost left_out = { λ s. store_left_out OFFSET_BITS (W.knows s.work) (W.records s.work) (entries_of OFFSET_BITS s.entries)
        s.unit s.stands };

    ghost left_stays = { λ s. store_left_stays OFFSET_BITS (W.knows s.work) (W.records s.work) (entries_of OFFSET_BITS s.entries)
        s.unit s.stands };

    ghost sealed = { λ s. store_sealed OFFSET_BITS (W.knows s.work) (W.records s.work) (entries_of OFFSET_BITS s.entries)
        s.unit s.stands (W.shape s.work) };

    ghost finished = { λ s. store_finished OFFSET_BITS (W.knows s.work) (W.records s.work) (entries_of OFFSET_BITS s.entries)
        s.unit s.stands };

    ghost unread = { λ s. s.stands.unread };

    ghost counted = { λ s. store_counted OFFSET_BITS (W.knows s.work) (W.records s.work) (entries_of OFFSET_BITS s.entries)
        s.unit s.stands };

    ghost few_buffers = { λ s. store_few_buffers OFFSET_BITS (W.knows s.work) (W.records s.work) (entries_of OFFSET_BITS s.entries)
        s.unit s.stands };

    ghost enough = { λ s. store_enough OFFSET_BITS (W.knows s.work) (W.records s.work) (entries_of OFFSET_BITS s.entries)
        s.unit s.stands };

    ghost unfilled = { λ s. store_unfilled OFFSET_BITS (W.knows s.work) (W.records s.work) (entries_of OFFSET_BITS s.entries)
        s.unit s.stands (W.shape s.work) };

    ghost few_records = { λ s. store_few_records OFFSET_BITS (W.knows s.work) (W.records s.work) (entries_of OFFSET_BITS s.entries)
        s.unit s.stands (W.entries s.work) };

    ghost few_nodes = { λ s. store_few_nodes OFFSET_BITS (W.knows s.work) (W.records s.work) (entries_of OFFSET_BITS s.entries)
        s.unit s.stands (W.entries s.work) (W.total_words s.work) };
}
