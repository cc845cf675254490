//! A memory with its writer: buffers of words, records, holds and commits.

ghost use Rattle.std.specs.Prelude.{◌≡◌, ◌≢◌, ◌<◌, ◌≤◌, ◌+◌, ◌-◌, ◌*◌, ◌↔◌, ◌⊎◌, ℕ, List, length, slice_index, Some, IsNone, IfSome};
ghost use Rattle.std.specs.Prelude.{IfNone};
ghost use Rattle.std.specs.List.{AllByRecursion};
ghost use Rattle.entry_ref.specs.References.{buffer_of};
ghost use Rattle.entry_ref.specs.Images.{words_at};
ghost use Rattle.entry_ref.specs.Places.{IsEntry};
ghost use Rattle.entry_ref.specs.Records.{Records, with_words};
ghost use Rattle.arena_api.specs.Works.{WorkView, Buffer, active_width, width_of, free_count, last_image};
ghost use Rattle.arena_api.specs.Generations.{IsQueue, IsHeldUnder, MayRetire, retired, Advances, advanced, LetsGo, Reclaims, reclaimed};
ghost use Rattle.arena_api.specs.Calls.{IsWithinLimits, IsInOrder, IsKept, InNoCommit, IsWordIn, MayStore, FitsEntry, IsLowestFree};
ghost use Rattle.arena_api.specs.Calls.{AddsCommit, with_stored, padded, handed_out, next_image, published};

use crate::Frozen;
use crate::answers::{Advance, Oldest};
use entry_ref::{EntryRef, Layout};

/// A memory with its writer: buffers of words, in which records are made and roots are published.
///
/// Its records are those of the last commit and those that were stored whole since then.
pub trait Work<const OFFSET_BITS: u32>: Frozen<OFFSET_BITS> {
    type Layout: Layout;

    type Home;

    ghost knows: { Self → WorkView Self.Home };

    /// Stores one word of an entry that is not a record of a kept commit. The entry is a record once each of its
    /// words was stored.
    fn store(&mut self, entry: EntryRef<OFFSET_BITS>, i: u32, word: u64)
        requires { MayStore OFFSET_BITS (knows self.old) entry i }
        ensures knows { knows self.new
            ≡ record (knows self.old) { stored = with_stored (knows self.old).stored entry.entry i word } }
        ensures others { (q : ℕ) → q ≢ entry.entry → Self.records self.new q ≡ Self.records self.old q }
        ensures shape { Self.shape self.new ≡ Self.shape self.old };

    /// Stores a whole record: the given words, followed by zeros. No word of another entry is stored.
    fn put(&mut self, entry: EntryRef<OFFSET_BITS>, width: u32, words: &[u64])
        requires entry { IsEntry OFFSET_BITS (knows self.old).sizes.buffers (knows self.old).sizes.words width entry }
        requires width { active_width ((knows self.old).buffer (buffer_of OFFSET_BITS entry)) ≡ width }
        requires fits { length words.now ≤ width }
        requires unkept { InNoCommit (knows self.old).commits entry }
        ensures records { Self.records self.new ≡ with_words (Self.records self.old) entry.entry (padded words.now width) }
        ensures knows { knows self.new ≡ record (knows self.old) { stored = (knows self.new).stored } }
        ensures apart { (q i : ℕ) → q ≢ entry.entry → (knows self.new).stored q i ≡ (knows self.old).stored q i }
        ensures shape { Self.shape self.new ≡ Self.shape self.old }
    {
        for i in 0..width {
            let at = i as usize;
            let word = if at < words.len() { words[at] } else { 0 };
            self.store(entry, i, word);
        }
    }

    /// Takes the free buffer with the lowest number for entries of `width` words. Returns `None` if no buffer is
    /// free.
    fn hand_out(&mut self, width: u32) -> Option<u32>
        requires { 0 < width }
        ensures none { IsNone result ↔ (free_count (knows self.old).buffer (knows self.old).sizes.buffers ≡ 0) }
        ensures lowest { IfSome result (IsLowestFree (knows self.old).buffer (knows self.old).sizes.buffers) }
        ensures handed { IfSome result (λ b. knows self.new ≡ handed_out (knows self.old) b width) }
        ensures refused { IfNone result (knows self.new ≡ knows self.old) }
        ensures records { Self.records self.new ≡ Self.records self.old }
        ensures shape { Self.shape self.new ≡ Self.shape self.old };

    /// Commits the records that the root reaches, and returns the number of the commit.
    fn publish(&mut self, root: EntryRef<OFFSET_BITS>) -> u32
        requires lawful { Self.Layout.lawful (Self.shape self.old) (Self.records self.old) root }
        requires room { (knows self.old).commits.last < (knows self.old).sizes.commits }
        ensures number { result ≡ (knows self.old).commits.last + 1 }
        ensures commit { AddsCommit (knows self.old).commits (knows self.new).commits
            (next_image Self.Layout.reaches (Self.shape self.old) (Self.records self.old) root.entry) }
        ensures knows { knows self.new ≡ published (knows self.old) (knows self.new).commits
            (next_image Self.Layout.reaches (Self.shape self.old) (Self.records self.old) root.entry) }
        ensures records { Self.records self.new
            ≡ words_at (next_image Self.Layout.reaches (Self.shape self.old) (Self.records self.old) root.entry) }
        ensures shape { Self.shape self.new ≡ Self.shape self.old };

    /// Puts an active buffer on hold, with the current generation and the last commit as its tag.
    fn retire_buffer(&mut self, buffer: u32)
        requires { MayRetire OFFSET_BITS (knows self.old) buffer }
        ensures knows { knows self.new ≡ retired (knows self.old) buffer }
        ensures records { Self.records self.new ≡ Self.records self.old }
        ensures shape { Self.shape self.new ≡ Self.shape self.old };

    /// Begins the next generation, so that later readers can be told from earlier ones.
    fn advance(&mut self) -> Advance
        ensures holds { Advances result (knows self.old) (knows self.new) }
        ensures commits { LetsGo (knows self.old).commits (knows self.new).commits }
        ensures knows { knows self.new ≡ advanced (knows self.old) (knows self.new) }
        ensures alone { (knows self.old).made ≡ 0 → (knows self.new).stops ≡ (knows self.old).stops }
        ensures records { Self.records self.new ≡ Self.records self.old }
        ensures shape { Self.shape self.new ≡ Self.shape self.old };

    /// Closes the oldest holds up to the first that is in use, and frees the held buffers that no reader can reach.
    fn reclaim(&mut self) -> Oldest
        ensures holds { Reclaims result (knows self.old) (knows self.new) }
        ensures commits { LetsGo (knows self.old).commits (knows self.new).commits }
        ensures knows { knows self.new ≡ reclaimed (knows self.old) (knows self.new) }
        ensures alone { (knows self.old).made ≡ 0 → (knows self.new).stops ≡ (knows self.old).stops }
        ensures records { Self.records self.new ≡ Self.records self.old }
        ensures shape { Self.shape self.new ≡ Self.shape self.old };

    /// Returns the number of free buffers.
    fn free_buffers(&self) -> u32
        ensures { result ≡ free_count (knows self.now).buffer (knows self.now).sizes.buffers };

    fn buffers(&self) -> u32
        ensures { result ≡ (knows self.now).sizes.buffers };

    /// Returns the number of words of each buffer.
    fn words(&self) -> u32
        ensures { result ≡ (knows self.now).sizes.words };

    /// Returns how many more commits are possible.
    fn commits_left(&self) -> u32
        ensures { result ≡ (knows self.now).sizes.commits - (knows self.now).commits.last };

    ghost limits: { (s : Self) → IsWithinLimits OFFSET_BITS (knows s).sizes };

    ghost total_words: { (s : Self) → (knows s).sizes.buffers * (knows s).sizes.words ≤ 67108864 };

    ghost queue: { (s : Self) → IsQueue (knows s) };

    ghost order: { (s : Self) → IsInOrder (knows s) };

    // a record fills an entry of an active buffer
    ghost entries: { (s : Self) (r : ℕ) → 0 < length (Self.records s r)
        → FitsEntry OFFSET_BITS (knows s).sizes (active_width ((knows s).buffer (buffer_of OFFSET_BITS r))) r (length (Self.records s r)) };

    // a record of a kept commit fills an entry of an active or held buffer
    ghost kept: { (s : Self) (n r : ℕ) → IsKept (knows s).commits n → 0 < length (words_at ((knows s).commits.image n) r)
        → FitsEntry OFFSET_BITS (knows s).sizes (width_of ((knows s).buffer (buffer_of OFFSET_BITS r))) r
        (length (words_at ((knows s).commits.image n) r)) };

    // the records of the last commit are records
    ghost last: { (s : Self) (r : ℕ) → 0 < length (words_at (last_image (knows s).commits) r)
        → Self.records s r ≡ words_at (last_image (knows s).commits) r };

    // what was stored whole since the last commit is a record
    ghost whole: { (s : Self) (r : ℕ) (ws : List ℕ) → 0 < length ws
        → length ws ≡ active_width ((knows s).buffer (buffer_of OFFSET_BITS r))
        → ((i : ℕ) → i < length ws → (knows s).stored r i ≡ Some (slice_index ws i)) → Self.records s r ≡ ws };

    // a record is in the last commit, or was stored whole since then
    ghost only: { (s : Self) (r : ℕ) → 0 < length (Self.records s r)
        → (Self.records s r ≡ words_at (last_image (knows s).commits) r)
        ⊎ ((i : ℕ) → i < length (Self.records s r) → (knows s).stored r i ≡ Some (slice_index (Self.records s r) i)) };

    // only words of active buffers were stored
    ghost stored: { (s : Self) (r i w : ℕ) → (knows s).stored r i ≡ Some w → IsWordIn OFFSET_BITS (knows s) r i };

    // a buffer on hold has a tag of the current generation and the last commit or earlier ones, and no commit since
    // then has anything in it
    ghost held: { (s : Self) (b w : ℕ) (t : _) → (knows s).buffer b ≡ Buffer.held w t → IsHeldUnder OFFSET_BITS (knows s) b t };

    // the last tag of a free buffer is below each open generation
    ghost tags: { (s : Self) (b : ℕ) (t : _) → (knows s).buffer b ≡ Buffer.free (Some t)
        → AllByRecursion (λ h. t.generation < h.generation) (knows s).queue };
}
