//! The open generation holds of an arena: a queue of at most 16, from the oldest to the newest.
//!
//! Readers raise the newest hold. To begin a generation, the writer opens a closed hold and appends it. It closes
//! holds from the oldest on. No reader stands on a generation older than that of the oldest open hold.
#![tactic(auto)]

ghost use Rattle.std.specs.Prelude.{◌≡◌, ◌↔◌, ◌<◌, ◌++◌, ◌∷◌, [], ℕ, List, false, length, IsNone, IfSome};
ghost use Rattle.generation_handler.specs.Queues.{has_hold, oldest_of, newest_of, renewed};
ghost use Rattle.generation_handler.specs.declared.HoldEntry.{HoldEntry};

use arrayvec::ArrayVec;
use std::marker::Model;

/// The number of holds of an arena.
pub const HOLDS: u32 = 16;

/// An open hold: the generation that it serves, its number, and the last commit when that generation began.
#[derive(Clone, Copy, Debug, Default, PartialEq, Eq)]
pub struct HoldEntry {
    pub generation: u64,
    pub hold: u32,
    pub first_commit: u32,
}

/// The open holds. There is at least one, and no hold occurs twice.
#[derive(Drop)]
pub struct Holds {
    queue: ArrayVec<HoldEntry, 16>,
}

impl Model for Holds {
    ghost use Rattle.std.specs.Prelude.{List};
    ghost use Rattle.generation_handler.specs.declared.HoldEntry.{HoldEntry};

    ghost Value = { List HoldEntry };

    ghost use Rattle.generation_handler.specs.Queues.{IsQueue};

    ghost view = { λ holds. holds.queue.items };

    ghost invariant = { λ holds. IsQueue holds.queue.items };
}

impl Holds {
    ghost use Rattle.generation_handler.specs.Queues.{first_entry, has_hold, oldest_of, newest_of, renewed, IsQueue, IsLeastClosed};

    /// Returns the queue of a new arena: generation 0 on hold 0, with first commit 0.
    pub fn new() -> Self
        ensures { result ≡ first_entry ∷ [] }
    {
        let mut queue = ArrayVec::new();
        queue.push(HoldEntry {
            generation: 0,
            hold: 0,
            first_commit: 0,
        });
        Holds { queue }
    }

    /// Returns the number of open holds.
    pub fn len(&self) -> u32
        ensures value { result ≡ length self.now }
        ensures queue { IsQueue self.now }
    {
        self.queue.len() as u32
    }

    pub fn oldest(&self) -> HoldEntry
        ensures { result ≡ oldest_of self.now }
    {
        self.queue[0]
    }

    pub fn newest(&self) -> HoldEntry
        ensures { result ≡ newest_of self.now }
    {
        self.queue[self.queue.len() - 1]
    }

    /// Returns the closed hold with the lowest number, or `None` if all 16 are open.
    pub fn open_next(&self) -> Option<u32>
        ensures none { IsNone result ↔ (length self.now ≡ HOLDS) }
        ensures least { IfSome result (IsLeastClosed self.now) }
    {
        for hold in 0..HOLDS {
            if !is_open(&self.queue, hold) {
                return Some(hold);
            }
        }
        None
    }

    /// Appends a closed hold as the newest.
    pub fn append(&mut self, generation: u64, hold: u32, first_commit: u32)
        requires hold { hold < HOLDS }
        requires closed { has_hold self.old hold ≡ false }
        ensures { self.new ≡ self.old ++ record { generation = generation; hold = hold; first_commit = first_commit } ∷ [] }
    {
        self.queue.push(HoldEntry {
            generation,
            hold,
            first_commit,
        });
    }

    /// Removes the oldest hold, which must not be the newest, and returns it.
    pub fn pop_oldest(&mut self) -> HoldEntry
        requires { 1 < length self.old }
        ensures { self.old ≡ result ∷ self.new }
    {
        self.queue.remove(0)
    }

    /// Gives the newest hold another generation and first commit.
    pub fn renew(&mut self, generation: u64, first_commit: u32)
        ensures { self.new ≡ renewed self.old generation first_commit }
    {
        if let Some(newest) = self.queue.pop() {
            self.queue.push(HoldEntry {
                generation,
                hold: newest.hold,
                first_commit,
            });
        }
    }
}

/// The model of a queue: its oldest hold, its newest hold, and the queue after the newest is renewed.
pub fn queue_law()
    ensures oldest { (oldest : HoldEntry) (newer : List HoldEntry) → oldest_of (oldest ∷ newer) ≡ oldest }
    ensures newest { (older : List HoldEntry) (newest : HoldEntry) → newest_of (older ++ newest ∷ []) ≡ newest }
    ensures renewed { (older : List HoldEntry) (newest : HoldEntry) (g c : ℕ) → renewed (older ++ newest ∷ []) g c
        ≡ older ++ record newest { generation = g; first_commit = c } ∷ [] }
{}

fn is_open(queue: &[HoldEntry], hold: u32) -> bool
    ensures { result ≡ has_hold queue.now hold }
{
    queue.iter().any(|entry| entry.hold == hold)
}
