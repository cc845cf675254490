//! The trait `Store`: entries in the buffers of a memory, with a ledger of their states.

ghost use Rattle.std.specs.Prelude.{◌≡◌, ◌<◌, ◌≤◌, ◌+◌, ◌-◌, ◌*◌, ◌/◌, ◌↔◌, ℕ, List, None, Some, true, false, length, IfOk, IfErr, OnErr};
ghost use Rattle.std.specs.Prelude.{IfSome, IfNone};
ghost use Rattle.std.specs.List.{IsDistinct, All};
ghost use Rattle.std.specs.Prelude.{nat_eq};
ghost use Rattle.entry_ref.specs.References.{buffer_of};
ghost use Rattle.entry_ref.specs.Images.{words_at};
ghost use Rattle.entry_ref.specs.Records.{Records};
ghost use Rattle.arena_api.specs.Works.{WorkView, active_width, free_count, last_image};
ghost use Rattle.arena_api.specs.Calls.{IsWithinLimits, IsInOrder, AddsCommit, FitsEntry, InNoCommit, next_image};
ghost use Rattle.arena_api.specs.Generations.{IsQueue, current};
ghost use Rattle.store_api.specs.Statuses.{in_use, has_record, is_committed, is_uncommitted, is_taken, Status};
ghost use Rattle.store_api.specs.Ledgers.{Ledger, IsEntryOf, IsSpare, IsHeldEntry, IsUnfilled, IsSettled, buffers_in, capacity, is_held};
ghost use Rattle.store_api.specs.Ledgers.{is_width, widths};
ghost use Rattle.store_api.specs.Units.{MayDo};
ghost use Rattle.store_api.specs.Calls.{GivesBack, MayGiveBack, Makes, Refuses, ComesAfter, DropsEntry};
ghost use Rattle.store_api.specs.Calls.{Accepts, Undoes, IsWhole, StoresCommit, Seals, CanUnseal, Unseals};
ghost use Rattle.store_api.specs.Victims.{IsVictim, HasNoVictim};
ghost use Rattle.store_api.specs.Usages.{IsUsage};

use arena_api::{Advance, Frozen, Oldest};
use entry_ref::{EntryRef, Layout};
use thiserror::Error;

/// Why no entry was made.
#[derive(Clone, Copy, Debug, PartialEq, Eq, Drop, Error)]
pub enum StoreError {
    /// The width has no free entry and no space in the buffer being filled, and no buffer is free after a reclaim.
    #[error("no room for an entry of {width} words: {active} buffers are active, {held} on hold")]
    Full {
        width: u32,
        active: u32,
        held: u32,
        oldest: Oldest,
    },
    /// Memory ran out.
    #[error("memory ran out")]
    Memory,
}

/// The result of a commit: its number, and the results of the advance and the reclaim that follow it.
#[derive(Clone, Copy, Debug, PartialEq, Eq, Drop)]
pub struct Stored {
    pub commit: u32,
    pub advance: Advance,
    pub oldest: Oldest,
}

/// How many buffers of a store are in use, and how many words of the active ones.
#[derive(Clone, Copy, Debug, PartialEq, Eq, Drop)]
pub struct Usage {
    /// The number of active buffers, and of buffers on hold.
    pub active: u32,
    pub on_hold: u32,
    /// The words of all offsets taken so far, offset 0 of each buffer included.
    pub used: u64,
    /// Those of entries that are free, dropped or held.
    pub dead: u64,
    /// Those of held entries, which readers of earlier commits may have.
    pub held: u64,
}

/// Entries in the buffers of a work, with a ledger that holds the status of each entry.
///
/// Its records are those of the last commit, the pending ones and those let go. Changes are made in units: a unit is
/// opened by `begin`, and then accepted or undone.
pub trait Store<const OFFSET_BITS: u32>: Frozen<OFFSET_BITS> {
    type Layout: Layout;

    type Home;

    ghost ledger: { Self → Ledger Self.Home };

    /// Opens a unit.
    fn begin(&mut self)
        requires { (ledger self.old).unit ≡ false }
        ensures ledger { ledger self.new ≡ record (ledger self.old) { unit = true } }
        ensures records { Self.records self.new ≡ Self.records self.old };

    /// Makes an entry of `width` words: the given words, followed by zeros. It takes a free entry of the width, or
    /// else the next offset of the buffer being filled. If there is neither, it reclaims and tries again, and at last
    /// takes a new buffer. It takes nothing from sealed buffers.
    fn make(&mut self, width: u32, words: &[u64]) -> Result<EntryRef<OFFSET_BITS>, StoreError>
        requires unit { (ledger self.old).unit ≡ true }
        requires width { is_width width ≡ true }
        requires fits { length words.now ≤ width }
        ensures makes { IfOk result (Makes OFFSET_BITS (ledger self.old) (ledger self.new)
            (Self.records self.old) (Self.records self.new) width words.now) }
        ensures refuses { IfErr result (Refuses (ledger self.old) (ledger self.new) width) }
        ensures refused { OnErr result (MayGiveBack (ledger self.old) (ledger self.new)) }
        ensures after { IfErr result (ComesAfter (ledger self.old) (ledger self.new) width) }
        ensures left { OnErr result (Self.records self.new ≡ Self.records self.old) }
        ensures may { MayDo (ledger self.old) (ledger self.new) };

    /// Makes an entry as `make` does, for one that takes the place of `near`. A store may take the free entry whose words are
    /// most like those, so that fewer of them differ.
    fn make_near(
        &mut self,
        width: u32,
        words: &[u64],
        near: EntryRef<OFFSET_BITS>,
    ) -> Result<EntryRef<OFFSET_BITS>, StoreError>
        requires unit { (ledger self.old).unit ≡ true }
        requires width { is_width width ≡ true }
        requires fits { length words.now ≤ width }
        ensures makes { IfOk result (Makes OFFSET_BITS (ledger self.old) (ledger self.new)
            (Self.records self.old) (Self.records self.new) width words.now) }
        ensures refuses { IfErr result (Refuses (ledger self.old) (ledger self.new) width) }
        ensures refused { OnErr result (MayGiveBack (ledger self.old) (ledger self.new)) }
        ensures after { IfErr result (ComesAfter (ledger self.old) (ledger self.new) width) }
        ensures left { OnErr result (Self.records self.new ≡ Self.records self.old) }
        ensures may { MayDo (ledger self.old) (ledger self.new) }
    {
        let _ = near;
        self.make(width, words)
    }

    /// Drops an entry in use. An entry that the unit made is free at once. An entry that was pending before the unit
    /// is let go, and is free once the unit is accepted.
    fn drop_entry(&mut self, entry: EntryRef<OFFSET_BITS>)
        requires unit { (ledger self.old).unit ≡ true }
        requires used { in_use ((ledger self.old).status entry) ≡ true }
        ensures drops { DropsEntry (ledger self.old) (ledger self.new) (Self.records self.old) (Self.records self.new) entry.entry }
        ensures may { MayDo (ledger self.old) (ledger self.new) };

    /// Closes the unit. What it let go becomes free.
    fn accept(&mut self)
        requires { (ledger self.old).unit ≡ true }
        ensures { Accepts (ledger self.old) (ledger self.new) (Self.records self.old) (Self.records self.new) };

    /// Closes the unit and restores the entries that were in use or dropped at `begin`, with their words. What the
    /// unit made becomes free. A buffer that it took stays taken, and what was reclaimed stays reclaimed.
    fn undo(&mut self)
        requires { (ledger self.old).unit ≡ true }
        ensures { Undoes (ledger self.old) (ledger self.new) (Self.records self.new) };

    /// Commits the records that the root reaches. They must be all that is in use outside sealed buffers, and none of
    /// them in the finished buffer, which goes on hold.
    fn commit(&mut self, root: EntryRef<OFFSET_BITS>) -> Stored
        requires unit { (ledger self.old).unit ≡ false }
        requires lawful { Self.Layout.lawful (Self.shape self.old) (Self.records self.old) root }
        requires room { (ledger self.old).work.commits.last < (ledger self.old).work.sizes.commits }
        requires whole { IsWhole OFFSET_BITS (ledger self.old) (Self.Layout.reaches (Self.shape self.old) (Self.records self.old) root) }
        ensures commit { AddsCommit (ledger self.old).work.commits (ledger self.new).work.commits
            (next_image Self.Layout.reaches (Self.shape self.old) (Self.records self.old) root.entry) }
        ensures stores { StoresCommit OFFSET_BITS (ledger self.old) (ledger self.new)
            (next_image Self.Layout.reaches (Self.shape self.old) (Self.records self.old) root.entry) result }
        ensures records { Self.records self.new
            ≡ words_at (next_image Self.Layout.reaches (Self.shape self.old) (Self.records self.old) root.entry) };

    /// Seals a buffer, which a compaction empties: no entry is made in it any more.
    fn seal(&mut self, buffer: u32)
        requires { IsUnfilled (ledger self.old) buffer }
        ensures seals { Seals (ledger self.old) (ledger self.new) buffer }
        ensures records { Self.records self.new ≡ Self.records self.old };

    /// Takes the seal of a buffer away, which a compaction gives up: entries are made in it again.
    fn unseal(&mut self, buffer: u32)
        requires { CanUnseal OFFSET_BITS (ledger self.old) buffer }
        ensures unseals { Unseals (ledger self.old) (ledger self.new) buffer }
        ensures records { Self.records self.new ≡ Self.records self.old };

    /// Marks a sealed buffer, so that the next commit puts it on hold.
    fn finish(&mut self, buffer: u32)
        requires sealed { (ledger self.old).sealed buffer ≡ true }
        requires none { (ledger self.old).finished ≡ None }
        ensures ledger { ledger self.new ≡ record (ledger self.old) { finished = Some buffer } }
        ensures records { Self.records self.new ≡ Self.records self.old };

    /// Returns the buffer from which a compaction gains most, if any is worth it.
    fn choose_victim(&self) -> Option<u32>
        ensures some { IfSome result (IsVictim OFFSET_BITS (ledger self.now)) }
        ensures none { IfNone result (HasNoVictim OFFSET_BITS (ledger self.now)) };

    /// Returns how many buffers and words are in use. It goes over all buffers.
    fn usage(&self) -> Usage
        ensures { IsUsage OFFSET_BITS (ledger self.now) result };

    /// Returns how many more commits are possible.
    fn commits_left(&self) -> u32
        ensures { result ≡ (ledger self.now).work.sizes.commits - (ledger self.now).work.commits.last };

    ghost shaped: { (s : Self) → (ledger s).shape ≡ Self.shape s };

    ghost sized: { (s : Self) → (ledger s).bits ≡ OFFSET_BITS };

    ghost limits: { (s : Self) → IsWithinLimits OFFSET_BITS (ledger s).work.sizes };

    ghost order: { (s : Self) → IsInOrder (ledger s).work };

    ghost queue: { (s : Self) → IsQueue (ledger s).work };

    // the current generation is at most the number of the last commit
    ghost timely: { (s : Self) → current (ledger s).work ≤ (ledger s).work.commits.last };

    // an entry has a record if and only if its status says so
    ghost recorded: { (s : Self) (r : ℕ) → (has_record ((ledger s).status r) ≡ true) ↔ (0 < length (Self.records s r)) };

    // a record fills an entry of an active buffer
    ghost placed: { (s : Self) (r : ℕ) → 0 < length (Self.records s r)
        → FitsEntry OFFSET_BITS (ledger s).work.sizes (active_width ((ledger s).work.buffer (buffer_of OFFSET_BITS r))) r
        (length (Self.records s r)) };

    // a taken entry lies in an active buffer
    ghost taken: { (s : Self) (r : ℕ) → is_taken ((ledger s).status r) ≡ true → IsEntryOf OFFSET_BITS (ledger s).work r };

    // only the buffer being filled has unmade offsets
    ghost filled: { (s : Self) (r : ℕ) → IsEntryOf OFFSET_BITS (ledger s).work r → (ledger s).status r ≡ Status.unmade
        → ((ledger s).of_width (active_width ((ledger s).work.buffer (buffer_of OFFSET_BITS r)))).filled
        ≡ Some (buffer_of OFFSET_BITS r) };

    // distinct entries of a width that a make can take are at most the spare ones
    ghost spares: { (s : Self) (width : ℕ) (refs : List ℕ) → IsDistinct nat_eq refs
        → All (IsSpare OFFSET_BITS (ledger s) width) refs → length refs ≤ ((ledger s).of_width width).spare };

    // no kept commit has an entry of an active buffer that is unmade, free, pending or let go
    ghost unkept: { (s : Self) (r : ℕ) → IsEntryOf OFFSET_BITS (ledger s).work r → is_uncommitted ((ledger s).status r) ≡ true
        → InNoCommit (ledger s).work.commits r };

    // a held entry has a tag that is not below the oldest open generation, and no commit from the tag's on has the
    // entry
    ghost held: { (s : Self) (r : ℕ) (tag : _) → (ledger s).status r ≡ Status.held tag → IsHeldEntry (ledger s) r tag };

    // the last commit has exactly the live and the dropped entries
    ghost last: { (s : Self) (r : ℕ) → is_committed ((ledger s).status r) ≡ true
        → Self.records s r ≡ words_at (last_image (ledger s).work.commits) r };

    ghost settled: { (s : Self) → (ledger s).unit ≡ false → IsSettled (ledger s) (Self.records s) };

    // an entry that a commit left out lies in a sealed buffer
    ghost left_out: { (s : Self) (r : ℕ) → (ledger s).status r ≡ Status.left → (ledger s).sealed (buffer_of OFFSET_BITS r) ≡ true };

    // no unit leaves an entry out, or changes one that was left out
    ghost left_stays: { (s : Self) (r : ℕ) → ((ledger s).status r ≡ Status.left) ↔ ((ledger s).back r ≡ Status.left) };

    // what was in use before the open unit keeps its words until the unit ends
    ghost steady: { (s : Self) (r : ℕ) → in_use ((ledger s).back r) ≡ true → Self.records s r ≡ (ledger s).back_records r };

    // sealed buffers are active and not being filled; the finished one is sealed
    ghost sealed: { (s : Self) (b : ℕ) → (ledger s).sealed b ≡ true → IsUnfilled (ledger s) b };

    ghost finished: { (s : Self) (b : ℕ) → (ledger s).finished ≡ Some b → (ledger s).sealed b ≡ true };

    // if no reader was made and the generation is not the last, no buffer is on hold
    ghost unread: { (s : Self) (b : ℕ) → b < (ledger s).work.sizes.buffers → (ledger s).work.made ≡ 0
        → current (ledger s).work < (ledger s).work.sizes.generations → is_held ((ledger s).work.buffer b) ≡ false };

    // each buffer is free or has one width
    ghost counted: { (s : Self) → free_count (ledger s).work.buffer (ledger s).work.sizes.buffers + buffers_in (ledger s).of_width widths
        ≡ (ledger s).work.sizes.buffers };

    // a width has at most one buffer more than the entries made of it fill
    ghost few_buffers: { (s : Self) (width : ℕ) → is_width width ≡ true
        → ((ledger s).of_width width).buffers ≤ 1 + ((ledger s).of_width width).made / capacity (ledger s).work.sizes.words width };

    // the entries that fit in the buffers of a width were made or are spare
    ghost enough: { (s : Self) (width : ℕ) → is_width width ≡ true
        → ((ledger s).of_width width).buffers * capacity (ledger s).work.sizes.words width
        ≤ ((ledger s).of_width width).made + ((ledger s).of_width width).spare };

    // the entries that fit in an active buffer that is not being filled were made
    ghost unfilled: { (s : Self) (b : ℕ) → IsUnfilled (ledger s) b
        → capacity (ledger s).work.sizes.words (active_width ((ledger s).work.buffer b))
        ≤ ((ledger s).of_width (active_width ((ledger s).work.buffer b))).made };

    // distinct records of one width are at most its offsets in all buffers
    ghost few_records: { (s : Self) (width : ℕ) (refs : List ℕ) → 0 < width → IsDistinct nat_eq refs
        → All (λ r. length (Self.records s r) ≡ width) refs
        → length refs ≤ (ledger s).work.sizes.buffers * capacity (ledger s).work.sizes.words width };

    // so there are at most 1,973,790 distinct tree nodes
    ghost few_nodes: { (s : Self) (refs : List ℕ) → IsDistinct nat_eq refs
        → All (λ r. length (Self.records s r) ≡ 34) refs → length refs ≤ 1973790 };
}
