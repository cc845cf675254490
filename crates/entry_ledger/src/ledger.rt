//! The states of all entries of a store, with what a unit changed.

ghost use Rattle.std.specs.Prelude.{◌≡◌, ◌≢◌, ◌↔◌, ◌<◌, ◌≤◌, ◌+◌, ◌-◌, ◌*◌, ◌/◌, ◌^◌, if◌then◌else◌, ℕ, true, false};
ghost use Rattle.std.specs.Prelude.{length, slice_set, Some, None, IsNone, IfSome, IfNone, IfOk, OnOk, OnErr};
ghost use Rattle.entry_ref.specs.References.{buffer_limit, offset_limit, buffer_of};
ghost use Rattle.store_api.specs.Ledgers.{is_width};
ghost use Rattle.buffer_states.specs.Buffers.{buffer_at, is_state_free, is_state_active, is_on_hold};
ghost use Rattle.entry_ledger.specs.declared.state.State.{State};
ghost use Rattle.entry_ledger.specs.Shelves.{shelf_at};
ghost use Rattle.entry_ledger.specs.Ledgers.{entries_of, taken_buffer, dropped_buffer, settled_buffer};
ghost use Rattle.entry_ledger.specs.Ledgers.{is_dropped_now, is_dead_after, touched_total, held_after, CanRelease, Releases};

use crate::{Shelves, State};
use buffer_states::{Buffers, WordCounts};
use entry_ref::EntryRef;
use hold_lists::HoldList;
use std::alloc::{AllocError, Global};
use std::marker::Model;

/// The states of all entries. The end of a unit keeps its changes or takes them back. A commit holds what was dropped
/// before it, until no reader can reach it.
#[derive(Drop)]
pub struct EntryLedger<const OFFSET_BITS: u32> {
    shelves: Shelves,
    buffers: Buffers,
    held: HoldList<OFFSET_BITS>,
    unheld: u32,
    last: u32,
    generation: u64,
    oldest: u64,
    finished: Option<u32>,
}

impl<const OFFSET_BITS: u32> Model for EntryLedger<OFFSET_BITS> {
    ghost use Rattle.entry_ledger.specs.Ledgers.{LedgerView, AreEntries};

    ghost Value = { LedgerView };

    ghost view = { λ l. record {
      shelves = l.shelves;
      buffers = l.buffers;
      last = l.last;
      generation = l.generation;
      oldest = l.oldest;
      finished = l.finished;
    } };

    ghost invariant = { λ l. AreEntries OFFSET_BITS
        (record {
          shelves = l.shelves;
          buffers = l.buffers;
          last = l.last;
          generation = l.generation;
          oldest = l.oldest;
          finished = l.finished;
        })
        l.held.held l.held.room l.unheld };
}

impl<const OFFSET_BITS: u32> EntryLedger<OFFSET_BITS> {
    ghost use Rattle.entry_ledger.specs.Entries.{IsGood, width_of, is_used_entry, is_settled_entry, is_dropped_since, count_marks};
    ghost use Rattle.entry_ledger.specs.Calls.{new_entries, CanTake, made_at, opened_at, Drops, StepsEnd, IsEnded, Accepts, Undoes};
    ghost use Rattle.entry_ledger.specs.Calls.{Frees, Seals, Unseals, retired_at};
    ghost use Rattle.entry_ledger.specs.Calls.{IsCandidate, IsVictim, IsLowestFree, HasWords};

    /// Creates a ledger of `buffers` free buffers with `words` words each.
    #[tactic(none)]
    pub fn create(alloc: Global, buffers: u32, words: u32) -> Result<Self, AllocError>
        requires few_buffers { buffers < buffer_limit OFFSET_BITS }
        requires some_words { 8192 ≤ words }
        requires few_words { words ≤ 65536 }
        requires offsets { words ≤ offset_limit OFFSET_BITS }
        requires product { buffers * words ≤ 67108864 }
        ensures new { IfOk result (λ e. entries_of OFFSET_BITS e ≡ new_entries buffers words) }
        ensures good { IfOk result (λ e. IsGood OFFSET_BITS (entries_of OFFSET_BITS e)) }
    {
        let shelves = Shelves::create(alloc, buffers, words)?;
        let buffers = Buffers::create(alloc, buffers)?;
        let held = HoldList::create(alloc)?;
        Ok(EntryLedger {
            shelves,
            buffers,
            held,
            unheld: 0,
            last: 0,
            generation: 0,
            oldest: 0,
            finished: None,
        })
    }

    /// Returns the width of an active buffer's entries, or 0 for any other buffer.
    #[tactic(auto, unfolding(crate::specs::Ledgers::entries_of))]
    pub fn width(&self, buffer: u32) -> u32
        ensures { result ≡ width_of (entries_of OFFSET_BITS self.now) buffer }
    {
        self.shelves.width(buffer)
    }

    /// Returns the state of an entry, or `None` if it was not taken or does not exist.
    #[tactic(auto, unfolding(crate::specs::Ledgers::entries_of))]
    pub fn state(&self, entry: EntryRef<OFFSET_BITS>) -> Option<State>
        ensures { result ≡ (entries_of OFFSET_BITS self.now).state entry.entry }
    {
        if entry.offset() == 0 {
            return None;
        }
        self.shelves.state(entry.buffer(), entry.offset() - 1)
    }

    /// Returns how often an entry of this width was made, at most the greatest 64-bit number.
    #[tactic(auto, unfolding(crate::specs::Ledgers::entries_of))]
    pub fn made(&self, width: u32) -> u64
        requires { is_width width ≡ true }
        ensures { result ≡ ((entries_of OFFSET_BITS self.now).of_width width).made }
    {
        self.shelves.made(width)
    }

    /// Returns the sealed buffer that the next commit is to put on hold.
    #[tactic(auto, unfolding(crate::specs::Ledgers::entries_of))]
    pub fn finished(&self) -> Option<u32>
        ensures { result ≡ (entries_of OFFSET_BITS self.now).finished }
    {
        self.finished
    }

    /// Returns the free buffer with the lowest number.
    #[tactic(none)]
    pub fn lowest_free(&self) -> Option<u32>
        ensures none { IfNone result ((b : ℕ) → b < (entries_of OFFSET_BITS self.now).count
            → is_state_free ((entries_of OFFSET_BITS self.now).mark b).state ≡ false) }
        ensures lowest { IfSome result (IsLowestFree (entries_of OFFSET_BITS self.now)) }
    {
        self.buffers.lowest_free()
    }

    /// Returns the number of active buffers.
    #[tactic(none)]
    pub fn active(&self) -> u32
        ensures { result ≡ count_marks is_state_active (entries_of OFFSET_BITS self.now).mark (entries_of OFFSET_BITS self.now).count }
    {
        self.buffers.active()
    }

    /// Returns the number of buffers on hold.
    #[tactic(none)]
    pub fn on_hold(&self) -> u32
        ensures { result ≡ count_marks is_on_hold (entries_of OFFSET_BITS self.now).mark (entries_of OFFSET_BITS self.now).count }
    {
        self.buffers.on_hold()
    }

    /// Returns the used, dead and held words of all buffers.
    #[tactic(none)]
    pub fn words(&self) -> WordCounts
        ensures { HasWords OFFSET_BITS (entries_of OFFSET_BITS self.now) result }
    {
        self.buffers.words()
    }

    /// Returns the buffer from which a compaction gains most, if any is worth it.
    #[tactic(none)]
    pub fn choose_victim(&self) -> Option<u32>
        ensures none { IfNone result ((b : ℕ) → IsCandidate OFFSET_BITS (entries_of OFFSET_BITS self.now) b → ⊥) }
        ensures victim { IfSome result (IsVictim OFFSET_BITS (entries_of OFFSET_BITS self.now)) }
    {
        self.buffers.choose_victim()
    }

    /// Makes an entry: a free one of the width, else the next offset of the buffer that is filled. None where there is neither. It is
    /// to replace the entry of the reference `near`, 0 for none: where the one that this one replaced is free, that one is made.
    #[tactic(none)]
    pub fn take(&mut self, width: u32, near: u32) -> Option<EntryRef<OFFSET_BITS>>
        requires { is_width width ≡ true }
        ensures none { IsNone result ↔ (((entries_of OFFSET_BITS self.old).of_width width).spare ≡ 0) }
        ensures left { IfNone result (self.new ≡ self.old) }
        ensures open { IfSome result (CanTake OFFSET_BITS (entries_of OFFSET_BITS self.old) width) }
        ensures made { IfSome result (λ r. entries_of OFFSET_BITS self.new ≡ made_at (entries_of OFFSET_BITS self.old) width r) }
        ensures good { IsGood OFFSET_BITS (entries_of OFFSET_BITS self.new) }
    {
        let aim = replaced_by::<OFFSET_BITS>(&self.shelves, near);
        let taken = self.shelves.take(width, aim.buffer, aim.place, near)?;
        count_take(&mut self.buffers, taken.buffer, taken.again);
        Some(EntryRef::new(taken.place + 1, taken.buffer))
    }

    /// Drops an entry in use. An entry made by the unit is free at once. An entry made before the unit but since the
    /// last commit is free once the unit is accepted.
    #[tactic(none)]
    pub fn drop_entry(&mut self, entry: EntryRef<OFFSET_BITS>)
        requires used { is_used_entry ((entries_of OFFSET_BITS self.old).state entry) ≡ true }
        ensures drops { (s : State) → (entries_of OFFSET_BITS self.old).state entry.entry ≡ Some s
            → Drops (entries_of OFFSET_BITS self.old) (entries_of OFFSET_BITS self.new) entry.entry s }
        ensures good { IsGood OFFSET_BITS (entries_of OFFSET_BITS self.new) }
    {
        let buffer = entry.buffer();
        let now = self
            .shelves
            .drop_entry(buffer, entry.offset() - 1, self.last);
        count_drop(&mut self.buffers, buffer, now);
    }

    /// Ends the unit and keeps its changes.
    #[tactic(none)]
    pub fn accept(&mut self)
        ensures accepts { Accepts (entries_of OFFSET_BITS self.old) (entries_of OFFSET_BITS self.new) }
        ensures good { IsGood OFFSET_BITS (entries_of OFFSET_BITS self.new) }
    {
        while self.settle(true) {}
    }

    /// Ends the unit and takes its changes back. What it made is free.
    #[tactic(none)]
    pub fn undo(&mut self)
        ensures undoes { Undoes (entries_of OFFSET_BITS self.old) (entries_of OFFSET_BITS self.new) }
        ensures good { IsGood OFFSET_BITS (entries_of OFFSET_BITS self.new) }
    {
        while self.settle(false) {}
    }

    /// Ends the unit for one entry that it changed. Returns false if there is none left.
    #[inline(always)]
    #[tactic(none)]
    fn settle(&mut self, accepts: bool) -> bool
        ensures ended { result ≡ false → IsEnded (entries_of OFFSET_BITS self.old) }
        ensures left { result ≡ false → self.new ≡ self.old }
        ensures step { result ≡ true → StepsEnd accepts (entries_of OFFSET_BITS self.old) (entries_of OFFSET_BITS self.new) }
        ensures less { result ≡ true → touched_total self.new + 1 ≡ touched_total self.old }
        ensures good { IsGood OFFSET_BITS (entries_of OFFSET_BITS self.new) }
    {
        let Some(entry) = self.shelves.settle(accepts, self.last, self.generation) else {
            return false;
        };
        count_settled(&mut self.buffers, entry.buffer, accepts, entry.was);
        let reference = EntryRef::new(entry.place + 1, entry.buffer);
        let enters = accepts & is_dropped_now(entry.was);
        hold(&mut self.held, &mut self.unheld, reference, enters);
        true
    }

    /// Records the commit with this number: what was dropped is held, with its tag.
    #[tactic(none)]
    pub fn commit(&mut self, number: u32)
        requires next { (entries_of OFFSET_BITS self.old).last + 1 ≡ number }
        requires settled { (r : ℕ) → is_settled_entry ((entries_of OFFSET_BITS self.old).state r) ≡ true }
        ensures commit { entries_of OFFSET_BITS self.new ≡ record (entries_of OFFSET_BITS self.old) { last = number } }
        ensures good { IsGood OFFSET_BITS (entries_of OFFSET_BITS self.new) }
    {
        self.held.tag(self.generation, number);
        self.buffers.hold_dropped();
        self.last = number;
    }

    /// Makes `generation` the current generation.
    #[tactic(none)]
    pub fn advance_to(&mut self, generation: u64)
        requires rises { (entries_of OFFSET_BITS self.old).generation ≤ generation }
        requires tagged { (r : ℕ)
            → is_dropped_since (entries_of OFFSET_BITS self.old).last ((entries_of OFFSET_BITS self.old).state r) ≡ false }
        ensures advanced { entries_of OFFSET_BITS self.new ≡ record (entries_of OFFSET_BITS self.old) { generation = generation } }
        ensures good { IsGood OFFSET_BITS (entries_of OFFSET_BITS self.new) }
    {
        self.generation = generation;
    }

    /// Frees the entries and the buffers that are held with a generation below `oldest`.
    #[tactic(none)]
    pub fn free_below(&mut self, oldest: u64)
        requires rises { (entries_of OFFSET_BITS self.old).oldest ≤ oldest }
        requires current { oldest ≤ (entries_of OFFSET_BITS self.old).generation }
        ensures frees { Frees (entries_of OFFSET_BITS self.old) (entries_of OFFSET_BITS self.new) oldest }
        ensures good { IsGood OFFSET_BITS (entries_of OFFSET_BITS self.new) }
    {
        while let Some(entry) = self.held.pop_below(oldest) {
            self.unheld = release(&mut self.shelves, &mut self.buffers, self.unheld, entry);
        }
        self.buffers.free_below(oldest);
        self.oldest = oldest;
    }

    /// Opens a free buffer for entries of a width that has no spare entry. It becomes the buffer being filled.
    #[tactic(none)]
    pub fn open_buffer(&mut self, buffer: u32, width: u32) -> Result<(), AllocError>
        requires inside { buffer < (entries_of OFFSET_BITS self.old).count }
        requires free { is_state_free ((entries_of OFFSET_BITS self.old).mark buffer).state ≡ true }
        requires width { is_width width ≡ true }
        requires spare { ((entries_of OFFSET_BITS self.old).of_width width).spare ≡ 0 }
        ensures ok { OnOk result (entries_of OFFSET_BITS self.new ≡ opened_at (entries_of OFFSET_BITS self.old) buffer width) }
        ensures err { OnErr result (entries_of OFFSET_BITS self.new ≡ entries_of OFFSET_BITS self.old) }
        ensures good { IsGood OFFSET_BITS (entries_of OFFSET_BITS self.new) }
    {
        let room = self.shelves.words() / width - 1;
        self.held.reserve(self.unheld + room)?;
        self.shelves.open(buffer, width)?;
        self.unheld += room;
        self.buffers.activate(buffer, width);
        Ok(())
    }

    /// Seals an active buffer, which must not be the one of its width that is being filled. No entry of it is made
    /// any more.
    #[tactic(none)]
    pub fn seal(&mut self, buffer: u32)
        requires active { is_state_active ((entries_of OFFSET_BITS self.old).mark buffer).state ≡ true }
        requires unfilled { ((entries_of OFFSET_BITS self.old).of_width ((entries_of OFFSET_BITS self.old).mark buffer).width).filled
            ≢ Some buffer }
        ensures seals { Seals (entries_of OFFSET_BITS self.old) (entries_of OFFSET_BITS self.new) buffer }
        ensures good { IsGood OFFSET_BITS (entries_of OFFSET_BITS self.new) }
    {
        self.shelves.seal(buffer);
        self.buffers.seal(buffer);
    }

    /// Takes the seal of a buffer away that is not finished, while no unit is open. What is free in it can be made
    /// again.
    #[tactic(none)]
    pub fn unseal(&mut self, buffer: u32)
        requires sealed { ((entries_of OFFSET_BITS self.old).mark buffer).sealed ≡ true }
        requires unfinished { (entries_of OFFSET_BITS self.old).finished ≢ Some buffer }
        requires settled { (r : ℕ) → is_settled_entry ((entries_of OFFSET_BITS self.old).state r) ≡ true }
        ensures unseals { Unseals (entries_of OFFSET_BITS self.old) (entries_of OFFSET_BITS self.new) buffer }
        ensures good { IsGood OFFSET_BITS (entries_of OFFSET_BITS self.new) }
    {
        self.shelves.unseal(buffer);
        self.buffers.unseal(buffer);
    }

    /// Marks a sealed buffer, so that the next commit puts it on hold.
    #[tactic(none)]
    pub fn finish(&mut self, buffer: u32)
        requires sealed { ((entries_of OFFSET_BITS self.old).mark buffer).sealed ≡ true }
        requires none { (entries_of OFFSET_BITS self.old).finished ≡ None }
        ensures finished { entries_of OFFSET_BITS self.new ≡ record (entries_of OFFSET_BITS self.old) { finished = Some buffer } }
        ensures good { IsGood OFFSET_BITS (entries_of OFFSET_BITS self.new) }
    {
        self.finished = Some(buffer);
    }

    /// Puts the finished buffer on hold, with all its entries.
    #[tactic(none)]
    pub fn retire(&mut self, buffer: u32)
        requires finished { (entries_of OFFSET_BITS self.old).finished ≡ Some buffer }
        requires settled { (r : ℕ) → is_settled_entry ((entries_of OFFSET_BITS self.old).state r) ≡ true }
        requires tagged { (r : ℕ)
            → is_dropped_since (entries_of OFFSET_BITS self.old).last ((entries_of OFFSET_BITS self.old).state r) ≡ false }
        ensures retired { entries_of OFFSET_BITS self.new ≡ retired_at OFFSET_BITS (entries_of OFFSET_BITS self.old) buffer }
        ensures good { IsGood OFFSET_BITS (entries_of OFFSET_BITS self.new) }
    {
        self.unheld -= self.shelves.unheld(buffer);
        self.shelves.close(buffer);
        self.buffers.put_on_hold(buffer, self.generation);
        self.finished = None;
    }
}

/// A buffer, and a place in it.
#[derive(Clone, Copy)]
struct Aim {
    buffer: u32,
    place: u32,
}

/// The place of an offset, and none for the offset 0, which is kept back.
fn place_in(offset: u32) -> u32 {
    if offset == 0 { u32::MAX } else { offset - 1 }
}

/// Where the entry lies that another one replaced, as it is noted of this one.
fn replaced_by<const OFFSET_BITS: u32>(shelves: &Shelves, near: u32) -> Aim {
    let entry = EntryRef::<OFFSET_BITS>::from_raw(near);
    let link = shelves.link(entry.buffer(), place_in(entry.offset()));
    let aim = EntryRef::<OFFSET_BITS>::from_raw(link);
    Aim {
        buffer: aim.buffer(),
        place: place_in(aim.offset()),
    }
}

/// Counts an entry that is made, in a free place (`again`) or in the next one.
fn count_take(buffers: &mut Buffers, buffer: u32, again: bool)
    requires inside { buffer < length buffers.old }
    requires next { again ≡ false → (buffer_at buffers.old buffer).used + (buffer_at buffers.old buffer).width < 2 ^ 32 }
    requires free { again ≡ true → (buffer_at buffers.old buffer).width ≤ (buffer_at buffers.old buffer).dead }
    ensures { buffers.new ≡ slice_set buffers.old buffer (taken_buffer again (buffer_at buffers.old buffer)) }
{
    if again {
        buffers.take_free(buffer);
    } else {
        buffers.take_next(buffer);
    }
}

/// Counts an entry that a drop has given this state.
fn count_drop(buffers: &mut Buffers, buffer: u32, now: State)
    requires inside { buffer < length buffers.old }
    requires dead { (buffer_at buffers.old buffer).dead + (buffer_at buffers.old buffer).width < 2 ^ 32 }
    requires dropped { (buffer_at buffers.old buffer).dropped + (buffer_at buffers.old buffer).width < 2 ^ 32 }
    ensures { buffers.new ≡ slice_set buffers.old buffer (dropped_buffer now (buffer_at buffers.old buffer)) }
{
    match now {
        State::Returned => buffers.give_back(buffer),
        State::DroppedNow { .. } => buffers.drop_entry(buffer),
        State::Free | State::Made | State::InUse { .. } | State::LetGo | State::Dropped { .. } => {}
    }
}

/// Counts an entry that had this state and is settled.
fn count_settled(buffers: &mut Buffers, buffer: u32, accepts: bool, was: State)
    requires inside { buffer < length buffers.old }
    requires given { is_dead_after accepts was ≡ true
        → (buffer_at buffers.old buffer).dead + (buffer_at buffers.old buffer).width < 2 ^ 32 }
    requires dead { accepts ≡ false → is_dropped_now was ≡ true
        → (buffer_at buffers.old buffer).width ≤ (buffer_at buffers.old buffer).dead }
    requires dropped { accepts ≡ false → is_dropped_now was ≡ true
        → (buffer_at buffers.old buffer).width ≤ (buffer_at buffers.old buffer).dropped }
    ensures { buffers.new ≡ slice_set buffers.old buffer (settled_buffer accepts was (buffer_at buffers.old buffer)) }
{
    if accepts {
        match was {
            State::LetGo => buffers.give_back(buffer),
            State::Free
            | State::Returned
            | State::Made
            | State::InUse { .. }
            | State::DroppedNow { .. }
            | State::Dropped { .. } => {}
        }
    } else {
        match was {
            State::Made => buffers.give_back(buffer),
            State::DroppedNow { .. } => buffers.keep_entry(buffer),
            State::Free
            | State::Returned
            | State::InUse { .. }
            | State::LetGo
            | State::Dropped { .. } => {}
        }
    }
}

fn is_dropped_now(state: State) -> bool
    ensures { result ≡ is_dropped_now state }
{
    matches!(state, State::DroppedNow { .. })
}

/// Appends an entry to the list if `enters` says so, and counts the entries that are not in the list.
fn hold<const OFFSET_BITS: u32>(
    held: &mut HoldList<OFFSET_BITS>,
    unheld: &mut u32,
    entry: EntryRef<OFFSET_BITS>,
    enters: bool,
)
    requires room { enters ≡ true → 0 < held.old.room }
    requires some { enters ≡ true → 0 < unheld.old }
    ensures held { held.new ≡ held_after enters entry.entry held.old }
    ensures unheld { unheld.new ≡ (if enters then unheld.old - 1 else unheld.old) }
{
    if enters {
        held.push(entry);
        *unheld -= 1;
    }
}

/// Frees an entry that was in the list, if its buffer still has entries. Returns how many entries are then not in the
/// list.
fn release<const OFFSET_BITS: u32>(
    shelves: &mut Shelves,
    buffers: &mut Buffers,
    unheld: u32,
    entry: EntryRef<OFFSET_BITS>,
) -> u32
    requires { 0 < (shelf_at shelves.old.shelves (buffer_of OFFSET_BITS entry)).width
        → CanRelease OFFSET_BITS shelves.old buffers.old unheld entry }
    ensures free { 0 < (shelf_at shelves.old.shelves (buffer_of OFFSET_BITS entry.entry)).width
        → Releases OFFSET_BITS entry.entry shelves.old shelves.new buffers.old buffers.new unheld result }
    ensures gone { (shelf_at shelves.old.shelves (buffer_of OFFSET_BITS entry.entry)).width ≡ 0
        → (shelves.new ≡ shelves.old) × (buffers.new ≡ buffers.old) × (result ≡ unheld) }
{
    let buffer = entry.buffer();
    if shelves.width(buffer) == 0 {
        return unheld;
    }
    shelves.release(buffer, entry.offset() - 1);
    buffers.release(buffer);
    unheld + 1
}
