//! Dropped entries that readers may still read, in the order in which they were dropped.
//!
//! A commit tags the entries dropped since the previous commit with its generation. An entry tagged below the oldest
//! generation on which readers may stand is removed from the list and reused. The entries of one tag form a run,
//! which stores the tag once. As long as generations do not fall, only the first run has to be checked.
#![tactic(auto)]

ghost use Rattle.std.specs.Prelude.{◌≡◌, ◌+◌, ◌-◌, ◌<◌, ◌≤◌, ◌++◌, ◌∷◌, ◌^◌, [], ℕ, true, None, All, AllPairs, length, remove, slice_set};
ghost use Rattle.std.specs.Prelude.{take, sum_by, find, map, IfOk, IfSome, IfNone, OnOk, OnErr, OnSome, if◌then◌else◌, ◌==◌};
ghost use Rattle.std.specs.Option.{option_map};
ghost use Rattle.std.specs.VecDeque.{deque_len, deque_capacity};
ghost use Rattle.hold_lists.specs.Runs.{nth_run, tagged_count, IsRising, IsRunBelow, shortened};

use entry_ref::EntryRef;
use std::alloc::{AllocError, Global};
use std::collections::VecDeque;
use std::marker::Model;

/// The entries of one tag.
#[derive(Clone, Copy)]
struct Run {
    generation: u64,
    commit: u32,
    count: usize,
}

/// A run, and the number of entries before it.
#[derive(Clone, Copy)]
struct RunPlace {
    run: usize,
    before: usize,
}

/// Dropped entries in order. Each is untagged, or has the generation and the commit of its tag.
#[derive(Drop)]
pub struct HoldList<const OFFSET_BITS: u32> {
    entries: VecDeque<EntryRef<OFFSET_BITS>>,
    runs: VecDeque<Run>,
    tagged: usize,
    most: usize,
    rises: bool,
}

impl<const OFFSET_BITS: u32> Model for HoldList<OFFSET_BITS> {
    ghost use Rattle.std.specs.Prelude.{◌-◌, length};
    ghost use Rattle.std.specs.VecDeque.{deque_capacity};
    ghost use Rattle.hold_lists.specs.Held.{HeldList};
    ghost use Rattle.hold_lists.specs.Runs.{held_of, IsHoldList};

    ghost Value = { HeldList };

    ghost view = { λ list. record { held = held_of list.runs.items list.entries.items; room = list.most - length list.entries.items } };

    ghost invariant = { λ list. IsHoldList list.runs.items list.entries.items list.tagged list.most list.rises
        (deque_capacity list.entries) (deque_capacity list.runs) };
}

impl<const OFFSET_BITS: u32> HoldList<OFFSET_BITS> {
    ghost use Rattle.hold_lists.specs.Held.{untagged, tagged_by, is_below, without_first};

    /// Creates an empty list without reserved space.
    pub fn create(alloc: Global) -> Result<Self, AllocError>
        ensures { IfOk result (λ list. list ≡ record { held = []; room = 0 }) }
    {
        Ok(HoldList {
            entries: VecDeque::new(alloc),
            runs: VecDeque::new(alloc),
            tagged: 0,
            most: 0,
            rises: true,
        })
    }

    /// Reserves space for `n` pushes. The list stays the same.
    pub fn reserve(&mut self, n: u32) -> Result<(), AllocError>
        ensures held { self.new.held ≡ self.old.held }
        ensures room { self.old.room ≤ self.new.room }
        ensures ok { OnOk result (n ≤ self.new.room) }
        ensures err { OnErr result (self.new ≡ self.old) }
    {
        self.entries.reserve(n as usize)?;
        let most = self.entries.len() + n as usize;
        self.runs.reserve(most - self.runs.len())?;
        self.most = self.most.max(most);
        Ok(())
    }

    /// Appends an untagged entry.
    pub fn push(&mut self, entry: EntryRef<OFFSET_BITS>)
        requires { 0 < self.old.room }
        ensures { self.new ≡ record { held = self.old.held ++ untagged entry.entry ∷ []; room = self.old.room - 1 } }
    {
        self.entries.push_back_reserved(entry);
    }

    /// Tags every untagged entry.
    pub fn tag(&mut self, generation: u64, commit: u32)
        ensures { self.new ≡ record self.old { held = map (tagged_by generation commit) self.old.held } }
    {
        let count = self.entries.len() - self.tagged;
        if count == 0 {
            return;
        }
        self.rises &= follows(&self.runs, generation);
        self.runs.push_back_reserved(Run {
            generation,
            commit,
            count,
        });
        self.tagged += count;
    }

    /// Removes the first entry that is tagged with a generation below `oldest`, and returns it. Returns `None` if
    /// there is no such entry.
    pub fn pop_below(&mut self, oldest: u64) -> Option<EntryRef<OFFSET_BITS>>
        ensures first { result ≡ option_map (λ held. held.entry) (find (is_below oldest) self.old.held) }
        ensures left { IfNone result (self.new ≡ self.old) }
        ensures rest { OnSome result (self.new
            ≡ record { held = without_first (is_below oldest) self.old.held; room = self.old.room + 1 }) }
    {
        match first_below(&self.runs, self.rises, oldest) {
            None => None,
            Some(place) => {
                shorten(&mut self.runs, place.run);
                self.tagged -= 1;
                self.entries.remove(place.before)
            }
        }
    }
}

/// Returns whether the last run has no higher generation than `generation`, or there is no run.
fn follows(runs: &VecDeque<Run>, generation: u64) -> bool
    ensures { result ≡ true → 0 < length runs.now.items → (nth_run runs.now.items (length runs.now.items - 1)).generation ≤ generation }
{
    match runs.back() {
        None => true,
        Some(run) => run.generation <= generation,
    }
}

/// Returns the first run below a generation. If the runs rise, it checks only the first run.
fn first_below(runs: &VecDeque<Run>, rises: bool, oldest: u64) -> Option<RunPlace>
    requires rising { rises ≡ true → IsRising runs.now.items }
    requires small { tagged_count runs.now.items < 2 ^ 64 }
    ensures some { IfSome result (IsRunBelow runs.now.items oldest) }
    ensures none { IfNone result (All (λ run. oldest ≤ run.generation) runs.now.items) }
{
    let mut before = 0;
    for i in 0..runs.len() {
        let run = runs[i];
        if run.generation < oldest {
            return Some(RunPlace { run: i, before });
        }
        if rises {
            return None;
        }
        before += run.count;
    }
    None
}

/// Removes one entry from a run, and the run if the entry was its last.
fn shorten(runs: &mut VecDeque<Run>, i: usize)
    requires inside { i < length runs.old.items }
    requires filled { 0 < (nth_run runs.old.items i).count }
    ensures runs { runs.new.items ≡ shortened runs.old.items i }
    ensures capacity { deque_capacity runs.new ≡ deque_capacity runs.old }
{
    let run = runs[i];
    if run.count == 1 {
        let _ = runs.remove(i);
    } else {
        runs[i] = Run {
            generation: run.generation,
            commit: run.commit,
            count: run.count - 1,
        };
    }
}
