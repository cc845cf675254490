//! The state of a taken entry.

ghost use Rattle.std.specs.Prelude.{◌≡◌, true};

/// The state of a taken entry.
#[derive(Clone, Copy, Debug, PartialEq, Eq)]
pub enum State {
    Free,
    /// Made and dropped by the open unit.
    Returned,
    /// Made by the open unit.
    Made,
    /// In use, and made while commit `after` was the last.
    InUse { after: u32 },
    /// Made since the last commit, and dropped by the open unit.
    LetGo,
    /// In the last commit, and dropped by the open unit.
    DroppedNow { after: u32 },
    /// Dropped after commit `after`, in this generation.
    Dropped { after: u32, generation: u64 },
}

impl State {
    ghost use Rattle.entry_ledger.specs.States.{is_free_state, is_touched, is_used, is_freed, is_dropped, dropped, accepted, undone};
    ghost use Rattle.entry_ledger.specs.States.{settled_state};

    pub fn is_free(self) -> bool
        ensures { result ≡ is_free_state self }
    {
        matches!(self, State::Free | State::Returned)
    }

    /// Returns whether the end of the unit frees an entry that was not free.
    pub fn is_freed(self, accepts: bool) -> bool
        ensures { result ≡ is_freed accepts self }
    {
        if accepts {
            matches!(self, State::LetGo)
        } else {
            matches!(self, State::Made)
        }
    }

    /// Returns whether the unit changed a free entry.
    pub(crate) fn is_returned(self) -> bool
        requires { is_free_state self ≡ true }
        ensures { result ≡ is_touched self }
    {
        matches!(self, State::Returned)
    }

    /// Returns whether the unit made an entry in use.
    pub(crate) fn is_made(self) -> bool
        requires { is_used self ≡ true }
        ensures { result ≡ is_touched self }
    {
        matches!(self, State::Made)
    }

    /// Returns whether an accepted unit dropped the entry.
    pub fn is_dropped(self) -> bool
        ensures { result ≡ is_dropped self }
    {
        matches!(self, State::Dropped { .. })
    }

    /// Returns the state of an entry in use after it is dropped.
    pub(crate) fn dropped(self, last: u32) -> State
        requires { is_used self ≡ true }
        ensures { result ≡ dropped last self }
    {
        match self {
            State::Made => State::Returned,
            State::InUse { after } if after == last => State::LetGo,
            State::InUse { after } => State::DroppedNow { after },
            State::Free
            | State::Returned
            | State::LetGo
            | State::DroppedNow { .. }
            | State::Dropped { .. } => unreachable!(),
        }
    }

    /// Returns the state after the unit is accepted.
    fn accepted(self, last: u32, generation: u64) -> State
        ensures { result ≡ accepted last generation self }
    {
        match self {
            State::Returned | State::LetGo => State::Free,
            State::Made => State::InUse { after: last },
            State::DroppedNow { .. } => State::Dropped {
                after: last,
                generation,
            },
            other => other,
        }
    }

    /// Returns the state after the unit is undone.
    fn undone(self, last: u32) -> State
        ensures { result ≡ undone last self }
    {
        match self {
            State::Returned | State::Made => State::Free,
            State::LetGo => State::InUse { after: last },
            State::DroppedNow { after } => State::InUse { after },
            other => other,
        }
    }

    pub fn settled(self, accepts: bool, last: u32, generation: u64) -> State
        ensures { result ≡ settled_state accepts last generation self }
    {
        if accepts {
            self.accepted(last, generation)
        } else {
            self.undone(last)
        }
    }
}
