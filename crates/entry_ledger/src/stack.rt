//! A stack of numbers with reserved space.

ghost use Rattle.std.specs.Prelude.{◌≡◌, ◌≢◌, ◌<◌, ◌-◌, ◌^◌, ◌++◌, ◌∷◌, [], ℕ, true, length, take, remove, slice_index, IfOk, IfNone};
ghost use Rattle.std.specs.Prelude.{IfSome, Some, if◌then◌else◌};

use std::alloc::{AllocError, Global};
use std::marker::Model;

/// A stack of numbers that allocates no memory after its creation.
#[derive(Drop)]
pub struct Stack {
    list: Vec<u32>,
    room: u32,
}

impl Model for Stack {
    ghost use Rattle.std.specs.Prelude.{◌≤◌, vec_capacity};
    ghost use Rattle.entry_ledger.specs.ShelvesKept.{StackView};

    ghost Value = { StackView };

    ghost view = { λ s. record { list = s.list.items; room = s.room } };

    ghost invariant = { λ s. s.room ≤ vec_capacity s.list };
}

impl Stack {
    /// Creates an empty stack with space for `room` numbers.
    pub fn create(alloc: Global, room: u32) -> Result<Self, AllocError>
        ensures { IfOk result (λ s. s ≡ record { list = []; room = room }) }
    {
        let mut list = Vec::new(alloc);
        list.reserve(room as usize)?;
        Ok(Stack { list, room })
    }

    /// Returns the number that was pushed last.
    pub fn last(&self) -> Option<u32>
        ensures none { IfNone result (self.now.list ≡ []) }
        ensures last { (x : ℕ) → result ≡ Some x → (0 < length self.now.list) × (slice_index self.now.list (length self.now.list - 1) ≡ x) }
    {
        self.list.last().copied()
    }

    /// The place of one of the numbers but the lowest, each in its turn, or of the lowest where there is no other.
    pub fn place_in_turn(&self, turn: u64) -> Option<u32>
        ensures none { IfNone result (self.now.list ≡ []) }
        ensures some { IfSome result (λ i. (i < length self.now.list) × (i ≡ 0 → length self.now.list ≡ 1)) }
    {
        let count = self.list.len();
        if count == 0 {
            return None;
        }
        if count == 1 {
            return Some(0);
        }
        let others = u32::try_from(count - 1).unwrap_or(u32::MAX);
        Some(1 + (turn % u64::from(others)) as u32)
    }

    /// The number at a place.
    pub fn number_at(&self, place: u32) -> u32
        requires { place < length self.now.list }
        ensures { result ≡ slice_index self.now.list place }
    {
        self.list[place as usize]
    }

    /// Takes the number at a place out, where that is to be.
    pub fn leave_at(&mut self, place: u32, leaves: bool)
        requires { place < length self.old.list }
        ensures { self.new ≡ (if leaves then record self.old { list = remove self.old.list place } else self.old) }
    {
        if leaves {
            let _ = self.list.remove(place as usize);
        }
    }

    /// Removes the last number if `leaves` is true.
    pub fn leave(&mut self, leaves: bool)
        requires { leaves ≡ true → 0 < length self.old.list }
        ensures { self.new ≡ (if leaves then record self.old { list = take (length self.old.list - 1) self.old.list } else self.old) }
    {
        if leaves {
            let _ = self.list.take_last();
        }
    }

    /// Pushes a number if `enters` is true.
    pub fn enter(&mut self, number: u32, enters: bool)
        requires { enters ≡ true → length self.old.list < self.old.room }
        ensures { self.new ≡ (if enters then record self.old { list = self.old.list ++ number ∷ [] } else self.old) }
    {
        if enters {
            self.list.push_reserved(number);
        }
    }

    /// Returns the position of a number.
    pub fn position(&self, number: u32) -> Option<u32>
        requires { length self.now.list < 2 ^ 32 }
        ensures none { IfNone result ((i : ℕ) → i < length self.now.list → slice_index self.now.list i ≢ number) }
        ensures there { IfSome result (λ i. i < length self.now.list) }
        ensures is { (i : ℕ) → result ≡ Some i → slice_index self.now.list i ≡ number }
    {
        for place in 0..self.list.len() {
            if self.list[place] == number {
                return Some(place as u32);
            }
        }
        None
    }

    /// Removes the number at a position.
    pub fn remove(&mut self, place: u32)
        requires { place < length self.old.list }
        ensures { self.new ≡ record self.old { list = remove self.old.list place } }
    {
        let _ = self.list.remove(place as usize);
    }
}
