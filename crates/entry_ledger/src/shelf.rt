//! The entries of one buffer.

ghost use Rattle.std.specs.Prelude.{◌≡◌, ◌↔◌, ◌<◌, ◌≤◌, ◌+◌, ◌^◌, ℕ, [], true, false, nat_lt, length, slice_set, vec_len, vec_capacity};
ghost use Rattle.std.specs.Prelude.{◌-◌, count_by};
ghost use Rattle.std.specs.List.{SwappedAt};
ghost use Rattle.std.specs.Prelude.{IsNone, IfSome, IfNone, OnOk, OnErr, if◌then◌else◌, ◌∷◌, ◌++◌};
ghost use Rattle.entry_ledger.specs.States.{is_free_state, is_touched};
ghost use Rattle.entry_ledger.specs.Stacks.{IsStack};

use crate::state::State;
use std::alloc::{AllocError, Global};
use std::marker::Model;

/// The entries of one buffer, by place.
#[derive(Drop)]
pub struct Shelf {
    width: u32,
    sealed: bool,
    states: Vec<State>,
    free: Vec<u32>,
    touched: Vec<u32>,
    room: u32,
    // Hints, of which nothing is kept: of a free entry its place in `free`, of one in use the reference that it replaced;
    // and where the next entry to be made stands in `free`.
    links: Vec<u32>,
    turn: usize,
}

impl Model for Shelf {
    ghost use Rattle.std.specs.Prelude.{vec_capacity};
    ghost use Rattle.entry_ledger.specs.States.{ShelfView};
    ghost use Rattle.entry_ledger.specs.ShelfKept.{IsShelf};

    ghost Value = { ShelfView };

    ghost view = { λ s. record { width = s.width; sealed = s.sealed; room = s.room; states = s.states.items } };

    ghost invariant = { λ s. IsShelf s.states.items s.free.items s.touched.items s.room
        (vec_capacity s.states) (vec_capacity s.free) (vec_capacity s.touched) };
}

/// An entry that the unit changed, with its state before and after the end of the unit.
#[derive(Clone, Copy, Debug, PartialEq, Eq)]
pub struct Settled {
    pub place: u32,
    pub was: State,
    pub now: State,
}

impl Shelf {
    ghost use Rattle.std.specs.List.{slice_get};
    ghost use Rattle.entry_ledger.specs.States.{empty_shelf, state_at, is_used, is_dropped, spare_of, can_make, has_one_spare, has_touched};
    ghost use Rattle.entry_ledger.specs.States.{has_one_touched, has_free_and_more, IsOpen, Settles, with_made, with_state_at, dropped};
    ghost use Rattle.entry_ledger.specs.declared.state.State.TheVariants.{Free};

    /// Returns a shelf without entries and without reserved space.
    pub fn new(alloc: Global) -> Self
        ensures { result ≡ empty_shelf }
    {
        Shelf {
            width: 0,
            sealed: false,
            states: Vec::new(alloc),
            free: Vec::new(alloc),
            touched: Vec::new(alloc),
            room: 0,
            links: Vec::new(alloc),
            turn: 0,
        }
    }

    /// Gives an empty shelf space for `room` entries.
    pub fn open(&mut self, width: u32, room: u32) -> Result<(), AllocError>
        requires { self.old ≡ empty_shelf }
        ensures ok { OnOk result (self.new ≡ record empty_shelf { width = width; room = room }) }
        ensures err { OnErr result (self.new ≡ self.old) }
    {
        let most = room as usize;
        self.states.reserve(most - self.states.len())?;
        self.free.reserve(most - self.free.len())?;
        self.touched.reserve(most - self.touched.len())?;
        make_links(&mut self.links, most)?;
        self.width = width;
        self.room = room;
        Ok(())
    }

    /// Removes all entries.
    pub fn close(&mut self)
        ensures { self.new ≡ empty_shelf }
    {
        self.width = 0;
        self.sealed = false;
        self.states.clear();
        self.free.clear();
        self.touched.clear();
        self.room = 0;
    }

    pub fn seal(&mut self)
        ensures { self.new ≡ record self.old { sealed = true } }
    {
        self.sealed = true;
    }

    pub fn unseal(&mut self)
        ensures { self.new ≡ record self.old { sealed = false } }
    {
        self.sealed = false;
    }

    /// Returns the number of words of each entry, or 0 if the shelf has no space for entries.
    pub fn width(&self) -> u32
        ensures { result ≡ self.now.width }
    {
        self.width
    }

    pub fn is_sealed(&self) -> bool
        ensures { result ≡ self.now.sealed }
    {
        self.sealed
    }

    /// Returns the number of entries taken so far.
    pub fn taken(&self) -> u32
        ensures taken { result ≡ length self.now.states }
        ensures within { result ≤ self.now.room }
    {
        self.states.len() as u32
    }

    /// Returns the number of entries, taken or not.
    pub fn room(&self) -> u32
        ensures room { result ≡ self.now.room }
        ensures taken { length self.now.states ≤ result }
    {
        self.room
    }

    /// Returns the state of an entry, if it was taken.
    pub fn get(&self, place: u32) -> Option<State>
        ensures { result ≡ slice_get self.now.states place }
    {
        self.states.get(place as usize).copied()
    }

    /// Returns the number of entries that can be made if the shelf is not sealed.
    pub fn spare(&self) -> u32
        ensures { result ≡ spare_of self.now }
    {
        self.free.len() as u32 + (self.room - self.states.len() as u32)
    }

    /// Returns whether an entry may be made.
    pub fn can_make(&self) -> bool
        ensures { result ≡ can_make self.now }
    {
        !self.sealed & (self.spare() > 0)
    }

    /// Returns whether an entry can be made if the shelf is not sealed.
    pub fn has_spare(&self) -> bool
        ensures { result ≡ nat_lt 0 (spare_of self.now) }
    {
        self.free.len() > 0 || (self.states.len() as u32) < self.room
    }

    /// Returns whether exactly one entry may be made.
    pub fn has_one_spare(&self) -> bool
        ensures { result ≡ has_one_spare self.now }
    {
        self.free.len() <= 1 && self.spare() == 1 && !self.sealed
    }

    /// Whether a free entry may be made, and another entry after it.
    pub fn has_free_and_more(&self) -> bool
        ensures { result ≡ has_free_and_more self.now }
    {
        !self.sealed & (self.free.len() > 0) & (self.spare() > 1)
    }

    /// Returns the number of entries that accepted units dropped and that are not free.
    pub fn dropped(&self) -> u32
        ensures value { result ≡ count_by is_dropped self.now.states }
        ensures few { result ≤ length self.now.states }
    {
        self.states
            .iter()
            .filter(|state| state.is_dropped())
            .count() as u32
    }

    /// Returns whether the unit changed an entry.
    pub fn has_touched(&self) -> bool
        ensures { result ≡ has_touched self.now }
    {
        self.touched.len() > 0
    }

    /// Returns whether the unit changed exactly one entry.
    pub fn has_one_touched(&self) -> bool
        ensures { result ≡ has_one_touched self.now }
    {
        self.touched.len() == 1
    }

    /// What is noted of an entry: where it stands among the free ones, or the reference that it replaced.
    pub fn link(&self, entry: u32) -> u32 {
        match self.links.get(entry as usize) {
            Some(link) => *link,
            None => 0,
        }
    }

    /// Notes the reference that an entry replaced.
    pub fn set_link(&mut self, entry: u32, link: u32)
        ensures { self.new ≡ self.old }
    {
        set_link(&mut self.links, entry, link);
    }

    /// Lets an entry be the next that is made, where it is free by its link; whether it is.
    pub fn call(&mut self, entry: u32) -> bool
        ensures { self.new ≡ self.old }
    {
        let place = self.link(entry) as usize;
        if place < self.free.len() && self.free[place] == entry {
            put_last(&mut self.free, &mut self.links, place);
            return true;
        }
        false
    }

    /// Lets one that is free for long be the next that is made.
    pub fn call_next(&mut self)
        ensures { self.new ≡ self.old }
    {
        let place = if self.turn < self.free.len() {
            self.turn
        } else {
            0
        };
        self.turn = place + 1;
        put_last(&mut self.free, &mut self.links, place);
    }

    /// Makes an entry: a free one, or else the next that was not taken. Returns `None` if no place is left.
    pub fn take(&mut self) -> Option<u32>
        ensures none { IsNone result ↔ (spare_of self.old ≡ 0) }
        ensures left { IfNone result (self.new ≡ self.old) }
        ensures open { IfSome result (IsOpen self.old) }
        ensures made { IfSome result (λ x. self.new ≡ with_made self.old x) }
    {
        if let Some(entry) = self.free.pop() {
            let state = self.states[entry as usize];
            enter(&mut self.touched, entry, !state.is_returned());
            self.states[entry as usize] = State::Made;
            return Some(entry);
        }
        let entry = self.states.len() as u32;
        if entry == self.room {
            return None;
        }
        put(&mut self.states, State::Made);
        put(&mut self.touched, entry);
        Some(entry)
    }

    /// Drops an entry in use and returns its state. `last` is the number of the last commit.
    pub fn drop_entry(&mut self, entry: u32, last: u32) -> State
        requires there { entry < length self.old.states }
        requires used { is_used (state_at self.old.states entry) ≡ true }
        ensures now { result ≡ dropped last (state_at self.old.states entry) }
        ensures dropped { self.new ≡ with_state_at self.old entry (dropped last (state_at self.old.states entry)) }
    {
        let state = self.states[entry as usize];
        if state.is_made() {
            put_free(&mut self.free, &mut self.links, entry);
            self.states[entry as usize] = State::Returned;
            return State::Returned;
        }
        put(&mut self.touched, entry);
        let after = state.dropped(last);
        self.states[entry as usize] = after;
        after
    }

    /// Frees a dropped entry.
    pub fn release(&mut self, entry: u32)
        requires there { entry < length self.old.states }
        requires dropped { is_dropped (state_at self.old.states entry) ≡ true }
        ensures { self.new ≡ with_state_at self.old entry Free }
    {
        put_free(&mut self.free, &mut self.links, entry);
        self.states[entry as usize] = State::Free;
    }

    /// Ends the unit for one entry that it changed: keeps the change, or takes it back. Returns `None` if no changed
    /// entry is left.
    pub fn settle(&mut self, accepts: bool, last: u32, generation: u64) -> Option<Settled>
        ensures none { IfNone result (count_by is_touched self.old.states ≡ 0) }
        ensures left { IfNone result (self.new ≡ self.old) }
        ensures settled { IfSome result (Settles accepts last generation self.old self.new) }
    {
        let place = self.touched.pop()?;
        let was = self.states[place as usize];
        enter_free(
            &mut self.free,
            &mut self.links,
            place,
            was.is_freed(accepts),
        );
        let now = was.settled(accepts, last, generation);
        self.states[place as usize] = now;
        Some(Settled { place, was, now })
    }
}

/// Appends a value, for which the list has reserved space.
fn put<T: Drop>(list: &mut Vec<T>, value: T)
    requires { vec_len list.old < vec_capacity list.old }
    ensures items { list.new.items ≡ list.old.items ++ value ∷ [] }
    ensures capacity { vec_capacity list.old ≤ vec_capacity list.new }
{
    list.push_reserved(value);
}

/// Pushes an entry onto a stack if `enters` is true.
fn enter(stack: &mut Vec<u32>, entry: u32, enters: bool)
    requires { enters ≡ true → vec_len stack.old < vec_capacity stack.old }
    ensures stack { stack.new.items ≡ (if enters then stack.old.items ++ entry ∷ [] else stack.old.items) }
    ensures capacity { vec_capacity stack.old ≤ vec_capacity stack.new }
{
    if enters {
        put(stack, entry);
    }
}

/// Makes room for a link of each entry.
fn make_links(links: &mut Vec<u32>, most: usize) -> Result<(), AllocError> {
    for made in links.len()..most {
        links.push(0)?;
    }
    Ok(())
}

/// Sets a link, where there is room for it.
fn set_link(links: &mut Vec<u32>, entry: u32, link: u32) {
    if (entry as usize) < links.len() {
        links[entry as usize] = link;
    }
}

/// Appends a free entry, and links it to its place.
fn put_free(free: &mut Vec<u32>, links: &mut Vec<u32>, entry: u32)
    requires { vec_len free.old < vec_capacity free.old }
    ensures items { free.new.items ≡ free.old.items ++ entry ∷ [] }
    ensures capacity { vec_capacity free.old ≤ vec_capacity free.new }
{
    set_link(links, entry, u32::try_from(free.len()).unwrap_or(0));
    put(free, entry);
}

/// The same where the entry enters, else nothing.
fn enter_free(free: &mut Vec<u32>, links: &mut Vec<u32>, entry: u32, enters: bool)
    requires { enters ≡ true → vec_len free.old < vec_capacity free.old }
    ensures stack { free.new.items ≡ (if enters then free.old.items ++ entry ∷ [] else free.old.items) }
    ensures capacity { vec_capacity free.old ≤ vec_capacity free.new }
{
    if enters {
        put_free(free, links, entry);
    }
}

/// Lets the free entry at a place and the last one change places.
fn put_last(free: &mut Vec<u32>, links: &mut Vec<u32>, place: usize)
    ensures stays { length free.old.items ≤ place → free.new.items ≡ free.old.items }
    ensures swapped { place < length free.old.items → SwappedAt free.old.items free.new.items place (length free.old.items - 1) }
    ensures length { length free.new.items ≡ length free.old.items }
    ensures capacity { vec_capacity free.old ≤ vec_capacity free.new }
{
    let count = free.len();
    if place < count {
        free.swap(place, count - 1);
        set_link(links, free[place], u32::try_from(place).unwrap_or(0));
    }
}
