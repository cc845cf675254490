//! A shelf for each buffer, and the buffers of each width that have space.

ghost use Rattle.std.specs.Prelude.{◌≡◌, ◌≢◌, ◌↔◌, ◌<◌, ◌≤◌, ◌+◌, ◌-◌, ◌/◌, ◌^◌, ◌++◌, ◌∷◌, if◌then◌else◌, ℕ, [], true, false, length};
ghost use Rattle.std.specs.Prelude.{replicate, slice_set, count_by, Some, None, IsNone, IfSome, IfNone, IfOk, OnOk, OnErr};
ghost use Rattle.store_api.specs.Ledgers.{is_width, capacity};
ghost use Rattle.entry_ledger.specs.States.{empty_shelf, has_free_and_more, is_used, is_dropped, is_touched};
ghost use Rattle.entry_ledger.specs.States.{state_at, dropped, with_state_at};
ghost use Rattle.entry_ledger.specs.ShelvesKept.{stack_at};
ghost use Rattle.entry_ledger.specs.Shelves.{shelf_at, made_in, filled_at, row_of, spare_of_width, with_shelf, Takes, SettlesOne};

use crate::stack::Stack;
use crate::width::{WIDTHS, place_of};
use crate::{Shelf, State};
use std::alloc::{AllocError, Global};
use std::marker::Model;

/// A shelf for each buffer, by number.
#[derive(Drop)]
pub struct Shelves {
    words: u32,
    shelves: Vec<Shelf>,
    made: Vec<u64>,
    filled: Vec<Option<u32>>,
    stacks: Vec<Stack>,
    touched: Stack,
}

impl Model for Shelves {
    ghost use Rattle.entry_ledger.specs.Shelves.{ShelvesView};
    ghost use Rattle.entry_ledger.specs.ShelvesKept.{AreShelves};

    ghost Value = { ShelvesView };

    ghost view = { λ s. record { words = s.words; shelves = s.shelves.items; made = s.made.items; filled = s.filled.items } };

    ghost invariant = { λ s. AreShelves s.words s.shelves.items s.made.items s.filled.items s.stacks.items s.touched };
}

/// An entry that was made, in a free place or in the next one.
#[derive(Clone, Copy, Debug, PartialEq, Eq)]
pub struct Taken {
    pub buffer: u32,
    pub place: u32,
    pub again: bool,
}

/// An entry that a unit changed, with its state before and after the end of the unit.
#[derive(Clone, Copy, Debug, PartialEq, Eq)]
pub struct Changed {
    pub buffer: u32,
    pub place: u32,
    pub was: State,
    pub now: State,
}

impl Shelves {
    ghost use Rattle.std.specs.List.{slice_get};
    ghost use Rattle.entry_ledger.specs.declared.state.State.TheVariants.{Free};

    /// Creates `buffers` empty shelves, for buffers of `words` words.
    pub fn create(alloc: Global, buffers: u32, words: u32) -> Result<Self, AllocError>
        ensures { IfOk result (λ s. s ≡ record {
          words = words;
          shelves = replicate buffers empty_shelf;
          made = replicate 11 0;
          filled = replicate 11 None;
        }) }
    {
        let shelves = new_shelves(alloc, buffers)?;
        let made = new_counts(alloc)?;
        let filled = new_filled(alloc)?;
        let stacks = new_stacks(alloc, buffers)?;
        let touched = Stack::create(alloc, buffers)?;
        Ok(Shelves {
            words,
            shelves,
            made,
            filled,
            stacks,
            touched,
        })
    }

    /// Returns the width of a buffer's entries, or 0 if it has none.
    pub fn width(&self, buffer: u32) -> u32
        ensures { result ≡ (shelf_at self.now.shelves buffer).width }
    {
        match self.shelves.get(buffer as usize) {
            Some(shelf) => shelf.width(),
            None => 0,
        }
    }

    /// Returns the state of an entry, if it was taken.
    pub fn state(&self, buffer: u32, place: u32) -> Option<State>
        ensures { result ≡ slice_get (shelf_at self.now.shelves buffer).states place }
    {
        match self.shelves.get(buffer as usize) {
            Some(shelf) => shelf.get(place),
            None => None,
        }
    }

    /// Returns how many entries of a buffer are neither held nor dropped by an accepted unit.
    pub fn unheld(&self, buffer: u32) -> u32
        requires { buffer < length self.now.shelves }
        ensures { result ≡ (shelf_at self.now.shelves buffer).room - count_by is_dropped (shelf_at self.now.shelves buffer).states }
    {
        let shelf = &self.shelves[buffer as usize];
        shelf.room() - shelf.dropped()
    }

    /// Returns the number of words of each buffer.
    pub fn words(&self) -> u32
        ensures { result ≡ self.now.words }
    {
        self.words
    }

    /// Returns how often an entry of a width was made, at most the greatest 64-bit number.
    pub fn made(&self, width: u32) -> u64
        requires { is_width width ≡ true }
        ensures { result ≡ made_in self.now.made width }
    {
        self.made[place_of(width)]
    }

    /// Returns the buffer of a width that was opened last.
    pub fn filled(&self, width: u32) -> Option<u32>
        requires { is_width width ≡ true }
        ensures { result ≡ filled_at self.now.filled width }
    {
        self.filled[place_of(width)]
    }

    /// What is noted of an entry.
    pub fn link(&self, buffer: u32, place: u32) -> u32 {
        match self.shelves.get(buffer as usize) {
            Some(shelf) => shelf.link(place),
            None => 0,
        }
    }

    /// Notes the reference that an entry replaced.
    fn set_link(&mut self, buffer: u32, place: u32, link: u32)
        ensures { self.new ≡ self.old }
    {
        if (buffer as usize) < self.shelves.len() {
            self.shelves[buffer as usize].set_link(place, link);
        }
    }

    /// Whether a shelf is of the width, and has a free entry and another one to spare.
    fn suits(&self, width: u32, buffer: u32) -> bool
        ensures { result ≡ true → (buffer < length self.now.shelves) × (((shelf_at self.now.shelves buffer).width ≡ width)
            × (has_free_and_more (shelf_at self.now.shelves buffer) ≡ true)) }
    {
        match self.shelves.get(buffer as usize) {
            Some(shelf) => shelf.width() == width && shelf.has_free_and_more(),
            None => false,
        }
    }

    /// Lets an entry be the next that is made in its shelf, where it is free; whether it is.
    fn call(&mut self, buffer: u32, place: u32) -> bool
        ensures { self.new ≡ self.old }
    {
        if (buffer as usize) < self.shelves.len() {
            return self.shelves[buffer as usize].call(place);
        }
        false
    }

    /// The same, where its shelf is of the width and has another one to spare.
    fn calls(&mut self, width: u32, buffer: u32, place: u32) -> bool
        ensures same { self.new ≡ self.old }
        ensures can { result ≡ true → (buffer < length self.old.shelves) × (((shelf_at self.old.shelves buffer).width ≡ width)
            × (has_free_and_more (shelf_at self.old.shelves buffer) ≡ true)) }
    {
        if !self.suits(width, buffer) {
            return false;
        }
        self.call(buffer, place)
    }

    /// Makes a free entry of a shelf that has more than it to spare.
    fn take_free(&mut self, width: u32, buffer: u32) -> Taken
        requires width { is_width width ≡ true }
        requires inside { buffer < length self.old.shelves }
        requires of { (shelf_at self.old.shelves buffer).width ≡ width }
        requires more { has_free_and_more (shelf_at self.old.shelves buffer) ≡ true }
        ensures some { 0 < spare_of_width self.old.shelves width }
        ensures takes { Takes self.old self.new width result }
    {
        let row = place_of(width);
        self.made[row] = self.made[row].saturating_add(1);
        let shelf = &mut self.shelves[buffer as usize];
        let had_touched = shelf.has_touched();
        let Some(place) = shelf.take() else {
            unreachable!()
        };
        self.touched.enter(buffer, !had_touched);
        Taken {
            buffer,
            place,
            again: true,
        }
    }

    /// Makes an entry of a width, of those that are free for long. None where no shelf of the width has one to spare.
    fn take_oldest(&mut self, width: u32) -> Option<Taken>
        requires { is_width width ≡ true }
        ensures none { IsNone result ↔ (spare_of_width self.old.shelves width ≡ 0) }
        ensures left { IfNone result (self.new ≡ self.old) }
        ensures takes { IfSome result (Takes self.old self.new width) }
    {
        let row = place_of(width);
        let turn = self.made[row];
        let at = self.stacks[row].place_in_turn(turn)?;
        let buffer = self.stacks[row].number_at(at);
        self.made[row] = self.made[row].saturating_add(1);
        let shelf = &mut self.shelves[buffer as usize];
        shelf.call_next();
        let next = shelf.taken();
        let had_touched = shelf.has_touched();
        let Some(place) = shelf.take() else {
            unreachable!()
        };
        self.touched.enter(buffer, !had_touched);
        self.stacks[row].leave_at(at, !shelf.has_spare());
        Some(Taken {
            buffer,
            place,
            again: place != next,
        })
    }

    /// Makes an entry of a width: the free one at a place where there is one, else one that is free for long. `link` is noted of it.
    /// None where no shelf of the width has one to spare.
    pub fn take(&mut self, width: u32, buffer: u32, place: u32, link: u32) -> Option<Taken>
        requires { is_width width ≡ true }
        ensures none { IsNone result ↔ (spare_of_width self.old.shelves width ≡ 0) }
        ensures left { IfNone result (self.new ≡ self.old) }
        ensures takes { IfSome result (Takes self.old self.new width) }
    {
        if self.calls(width, buffer, place) {
            let taken = self.take_free(width, buffer);
            self.set_link(taken.buffer, taken.place, link);
            return Some(taken);
        }
        let taken = self.take_oldest(width)?;
        self.set_link(taken.buffer, taken.place, link);
        Some(taken)
    }

    /// Drops an entry in use and returns its state. `last` is the number of the last commit.
    pub fn drop_entry(&mut self, buffer: u32, place: u32, last: u32) -> State
        requires inside { buffer < length self.old.shelves }
        requires there { place < length (shelf_at self.old.shelves buffer).states }
        requires used { is_used (state_at (shelf_at self.old.shelves buffer).states place) ≡ true }
        ensures now { result ≡ dropped last (state_at (shelf_at self.old.shelves buffer).states place) }
        ensures dropped { self.new ≡ with_shelf self.old buffer (with_state_at (shelf_at self.old.shelves buffer) place
            (dropped last (state_at (shelf_at self.old.shelves buffer).states place))) }
    {
        let shelf = &mut self.shelves[buffer as usize];
        let had_touched = shelf.has_touched();
        let now = shelf.drop_entry(place, last);
        self.touched.enter(buffer, !had_touched);
        let enters = now.is_free() && shelf.has_one_spare();
        let width = shelf.width();
        enter_row(&mut self.stacks, width, buffer, enters);
        now
    }

    /// Frees a dropped entry.
    pub fn release(&mut self, buffer: u32, place: u32)
        requires inside { buffer < length self.old.shelves }
        requires there { place < length (shelf_at self.old.shelves buffer).states }
        requires dropped { is_dropped (state_at (shelf_at self.old.shelves buffer).states place) ≡ true }
        ensures { self.new ≡ with_shelf self.old buffer (with_state_at (shelf_at self.old.shelves buffer) place Free) }
    {
        let shelf = &mut self.shelves[buffer as usize];
        let could = shelf.can_make();
        shelf.release(place);
        let enters = shelf.can_make() & !could;
        let row = place_of(shelf.width());
        self.stacks[row].enter(buffer, enters);
    }

    /// Ends the unit for one entry that it changed: keeps the change, or takes it back. Returns `None` if no changed
    /// entry is left.
    #[inline(always)]
    pub fn settle(&mut self, accepts: bool, last: u32, generation: u64) -> Option<Changed>
        ensures none { IfNone result ((b : ℕ) → count_by is_touched (shelf_at self.old.shelves b).states ≡ 0) }
        ensures left { IfNone result (self.new ≡ self.old) }
        ensures settled { IfSome result (SettlesOne accepts last generation self.old self.new) }
    {
        let buffer = self.touched.last()?;
        let shelf = &mut self.shelves[buffer as usize];
        self.touched.leave(shelf.has_one_touched());
        let Some(step) = shelf.settle(accepts, last, generation) else {
            unreachable!()
        };
        let frees = step.was.is_freed(accepts);
        let enters = frees && shelf.has_one_spare();
        let width = shelf.width();
        enter_row(&mut self.stacks, width, buffer, enters);
        Some(Changed {
            buffer,
            place: step.place,
            was: step.was,
            now: step.now,
        })
    }

    /// Opens an empty shelf for entries of a width that has no spare entry. It becomes the shelf being filled.
    pub fn open(&mut self, buffer: u32, width: u32) -> Result<(), AllocError>
        requires inside { buffer < length self.old.shelves }
        requires empty { shelf_at self.old.shelves buffer ≡ empty_shelf }
        requires width { is_width width ≡ true }
        requires words { 8192 ≤ self.old.words }
        requires spare { spare_of_width self.old.shelves width ≡ 0 }
        ensures ok { OnOk result (self.new
            ≡ record (with_shelf self.old buffer (record empty_shelf { width = width; room = capacity self.old.words width }))
            { filled = slice_set self.old.filled (row_of width) (Some buffer) }) }
        ensures err { OnErr result (self.new ≡ self.old) }
    {
        let row = place_of(width);
        self.shelves[buffer as usize].open(width, self.words / width - 1)?;
        self.filled[row] = Some(buffer);
        self.stacks[row].enter(buffer, true);
        Ok(())
    }

    /// Seals a shelf, which must not be the one of its width that is being filled. No entry of it is made any more.
    pub fn seal(&mut self, buffer: u32)
        requires inside { buffer < length self.old.shelves }
        requires opened { 0 < (shelf_at self.old.shelves buffer).width }
        requires unfilled { filled_at self.old.filled (shelf_at self.old.shelves buffer).width ≢ Some buffer }
        ensures { self.new ≡ with_shelf self.old buffer (record (shelf_at self.old.shelves buffer) { sealed = true }) }
    {
        let shelf = &mut self.shelves[buffer as usize];
        let row = place_of(shelf.width());
        shelf.seal();
        let stack = &mut self.stacks[row];
        if let Some(place) = stack.position(buffer) {
            stack.remove(place);
        }
    }

    /// Takes the seal of a shelf away. What is free in it can be made again.
    pub fn unseal(&mut self, buffer: u32)
        requires inside { buffer < length self.old.shelves }
        requires opened { 0 < (shelf_at self.old.shelves buffer).width }
        requires sealed { (shelf_at self.old.shelves buffer).sealed ≡ true }
        ensures { self.new ≡ with_shelf self.old buffer (record (shelf_at self.old.shelves buffer) { sealed = false }) }
    {
        let shelf = &mut self.shelves[buffer as usize];
        shelf.unseal();
        let enters = shelf.can_make();
        let row = place_of(shelf.width());
        self.stacks[row].enter(buffer, enters);
    }

    /// Removes all entries of a sealed shelf in which the unit changed nothing.
    pub fn close(&mut self, buffer: u32)
        requires inside { buffer < length self.old.shelves }
        requires sealed { (shelf_at self.old.shelves buffer).sealed ≡ true }
        requires settled { count_by is_touched (shelf_at self.old.shelves buffer).states ≡ 0 }
        ensures { self.new ≡ with_shelf self.old buffer empty_shelf }
    {
        self.shelves[buffer as usize].close();
    }
}

/// Pushes a buffer onto the stack of a width if `enters` is true.
fn enter_row(stacks: &mut Vec<Stack>, width: u32, buffer: u32, enters: bool)
    requires rows { length stacks.old.items ≡ 11 }
    requires width { enters ≡ true → is_width width ≡ true }
    requires room { enters ≡ true → length (stack_at stacks.old.items width).list < (stack_at stacks.old.items width).room }
    ensures { stacks.new.items ≡ (if enters then slice_set stacks.old.items (row_of width)
        (record (stack_at stacks.old.items width) { list = (stack_at stacks.old.items width).list ++ buffer ∷ [] }) else stacks.old.items) }
{
    if enters {
        stacks[place_of(width)].enter(buffer, true);
    }
}

fn new_shelves(alloc: Global, buffers: u32) -> Result<Vec<Shelf>, AllocError>
    ensures { IfOk result (λ shelves. shelves.items ≡ replicate buffers empty_shelf) }
{
    let mut shelves = Vec::new(alloc);
    for made in 0..buffers {
        shelves.push(Shelf::new(alloc))?;
    }
    Ok(shelves)
}

fn new_counts(alloc: Global) -> Result<Vec<u64>, AllocError>
    ensures { IfOk result (λ made. made.items ≡ replicate 11 0) }
{
    vec![in alloc; 0; WIDTHS]
}

fn new_filled(alloc: Global) -> Result<Vec<Option<u32>>, AllocError>
    ensures { IfOk result (λ filled. filled.items ≡ replicate 11 None) }
{
    vec![in alloc; None; WIDTHS]
}

fn new_stacks(alloc: Global, room: u32) -> Result<Vec<Stack>, AllocError>
    ensures { IfOk result (λ stacks. stacks.items ≡ replicate 11 (record { list = []; room = room })) }
{
    let mut stacks = Vec::new(alloc);
    for made in 0..WIDTHS {
        stacks.push(Stack::create(alloc, room)?)?;
    }
    Ok(stacks)
}
