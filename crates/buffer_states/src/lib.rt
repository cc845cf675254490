//! The states of buffers (free, active or on hold), with the words that are used, dead and held.
#![tactic(auto)]

ghost use Rattle.std.specs.Prelude.{◌≡◌, ◌<◌, ◌≤◌, ◌+◌, ◌^◌, ℕ, true, false, length, map, replicate, count_by, IfSome, IfNone, IfOk};

use std::alloc::{AllocError, Global};
use std::marker::Model;

#[derive(Clone, Copy, Debug, PartialEq, Eq)]
pub enum BufferState {
    Free,
    Active,
    OnHold,
}

impl BufferState {
    ghost use Rattle.buffer_states.specs.Buffers.{is_state_free, is_state_active, is_on_hold};

    pub fn is_free(self) -> bool
        ensures { result ≡ is_state_free self }
    {
        matches!(self, BufferState::Free)
    }

    pub fn is_active(self) -> bool
        ensures { result ≡ is_state_active self }
    {
        matches!(self, BufferState::Active)
    }

    pub fn is_on_hold(self) -> bool
        ensures { result ≡ is_on_hold self }
    {
        matches!(self, BufferState::OnHold)
    }
}

/// One buffer. The counts are in words: `dead` counts the entries that are free, dropped or held, and `dropped` those
/// that the next commit holds. `generation` is the tag of a buffer on hold.
#[derive(Clone, Copy, Debug, PartialEq, Eq)]
pub struct Buffer {
    pub state: BufferState,
    pub width: u32,
    pub used: u32,
    pub dead: u32,
    pub dropped: u32,
    pub held: u32,
    pub generation: u64,
    /// New entries of its width are made in it.
    pub filled: bool,
    /// A compaction empties it.
    pub sealed: bool,
}

/// The words of all buffers together.
#[derive(Clone, Copy, Debug, PartialEq, Eq, Drop)]
pub struct WordCounts {
    pub used: u64,
    pub dead: u64,
    pub held: u64,
}

const NEW_BUFFER: Buffer = Buffer {
    state: BufferState::Free,
    width: 0,
    used: 0,
    dead: 0,
    dropped: 0,
    held: 0,
    generation: 0,
    filled: false,
    sealed: false,
};

/// All buffers of a store, by number.
#[derive(Drop)]
pub struct Buffers {
    buffers: Vec<Buffer>,
}

impl Model for Buffers {
    ghost use Rattle.std.specs.Prelude.{List};
    ghost use Rattle.buffer_states.specs.declared.Buffer.{Buffer};

    ghost Value = { List Buffer };

    ghost view = { λ b. b.buffers.items };
}

impl Buffers {
    ghost use Rattle.buffer_states.specs.Buffers.{new_buffer, buffer_at, activated, with_counts, with_next, with_taken, with_given};
    ghost use Rattle.buffer_states.specs.Buffers.{with_dropped, with_kept, with_dropped_held, with_released, sealed_at, unsealed_at};
    ghost use Rattle.buffer_states.specs.Buffers.{on_hold_at, freed_at, freed_below, is_state_free, is_state_active, is_on_hold};
    ghost use Rattle.buffer_states.specs.Buffers.{is_candidate, IsVictim, IsLowestFree, words_of};
    ghost use Rattle.std.specs.Prelude.{All};
    ghost use Rattle.buffer_states.specs.declared.BufferState.TheVariants.{Free, Active, OnHold};

    /// Creates `count` free buffers.
    pub fn create(alloc: Global, count: u32) -> Result<Self, AllocError>
        ensures { IfOk result (λ b. b ≡ replicate count new_buffer) }
    {
        Ok(Buffers {
            buffers: vec![in alloc; NEW_BUFFER; count as usize]?,
        })
    }

    pub fn state(&self, buffer: u32) -> BufferState
        requires { buffer < length self.now }
        ensures { result ≡ (buffer_at self.now buffer).state }
    {
        self.buffers[buffer as usize].state
    }

    /// Returns the number of words of each entry.
    pub fn width(&self, buffer: u32) -> u32
        requires { buffer < length self.now }
        ensures { result ≡ (buffer_at self.now buffer).width }
    {
        self.buffers[buffer as usize].width
    }

    /// Returns the words of all offsets taken so far, offset 0 included.
    pub fn used(&self, buffer: u32) -> u32
        requires { buffer < length self.now }
        ensures { result ≡ (buffer_at self.now buffer).used }
    {
        self.buffers[buffer as usize].used
    }

    /// Returns the words of entries that are free, dropped or held.
    pub fn dead(&self, buffer: u32) -> u32
        requires { buffer < length self.now }
        ensures { result ≡ (buffer_at self.now buffer).dead }
    {
        self.buffers[buffer as usize].dead
    }

    /// Returns the words of held entries.
    pub fn held(&self, buffer: u32) -> u32
        requires { buffer < length self.now }
        ensures { result ≡ (buffer_at self.now buffer).held }
    {
        self.buffers[buffer as usize].held
    }

    /// Makes a free buffer active for entries of `width` words. It becomes the buffer of its width that is being
    /// filled.
    pub fn activate(&mut self, buffer: u32, width: u32)
        requires inside { buffer < length self.old }
        requires free { (buffer_at self.old buffer).state ≡ Free }
        requires some { 1 ≤ width }
        ensures { self.new ≡ activated self.old buffer width }
    {
        for other in self.buffers.iter_mut() {
            other.filled &= other.width != width;
        }
        self.buffers[buffer as usize] = Buffer {
            state: BufferState::Active,
            width,
            used: width,
            dead: 0,
            dropped: 0,
            held: 0,
            generation: 0,
            filled: true,
            sealed: false,
        };
    }

    pub fn set_counts(&mut self, buffer: u32, used: u32, dead: u32, held: u32)
        requires inside { buffer < length self.old }
        requires active { (buffer_at self.old buffer).state ≡ Active }
        ensures { self.new ≡ with_counts self.old buffer used dead held }
    {
        let buffer = &mut self.buffers[buffer as usize];
        buffer.used = used;
        buffer.dead = dead;
        buffer.dropped = 0;
        buffer.held = held;
    }

    /// Counts an entry made at the next offset.
    pub fn take_next(&mut self, buffer: u32)
        requires inside { buffer < length self.old }
        requires fits { (buffer_at self.old buffer).used + (buffer_at self.old buffer).width < 2 ^ 32 }
        ensures { self.new ≡ with_next self.old buffer }
    {
        let buffer = &mut self.buffers[buffer as usize];
        buffer.used += buffer.width;
    }

    /// Counts an entry made in a free place.
    pub fn take_free(&mut self, buffer: u32)
        requires inside { buffer < length self.old }
        requires fits { (buffer_at self.old buffer).width ≤ (buffer_at self.old buffer).dead }
        ensures { self.new ≡ with_taken self.old buffer }
    {
        let buffer = &mut self.buffers[buffer as usize];
        buffer.dead -= buffer.width;
    }

    /// Counts an entry that becomes free.
    pub fn give_back(&mut self, buffer: u32)
        requires inside { buffer < length self.old }
        requires fits { (buffer_at self.old buffer).dead + (buffer_at self.old buffer).width < 2 ^ 32 }
        ensures { self.new ≡ with_given self.old buffer }
    {
        let buffer = &mut self.buffers[buffer as usize];
        buffer.dead += buffer.width;
    }

    /// Counts a drop of an entry of the last commit.
    pub fn drop_entry(&mut self, buffer: u32)
        requires inside { buffer < length self.old }
        requires dead { (buffer_at self.old buffer).dead + (buffer_at self.old buffer).width < 2 ^ 32 }
        requires dropped { (buffer_at self.old buffer).dropped + (buffer_at self.old buffer).width < 2 ^ 32 }
        ensures { self.new ≡ with_dropped self.old buffer }
    {
        let buffer = &mut self.buffers[buffer as usize];
        buffer.dead += buffer.width;
        buffer.dropped += buffer.width;
    }

    /// Counts an entry whose drop is undone.
    pub fn keep_entry(&mut self, buffer: u32)
        requires inside { buffer < length self.old }
        requires dead { (buffer_at self.old buffer).width ≤ (buffer_at self.old buffer).dead }
        requires dropped { (buffer_at self.old buffer).width ≤ (buffer_at self.old buffer).dropped }
        ensures { self.new ≡ with_kept self.old buffer }
    {
        let buffer = &mut self.buffers[buffer as usize];
        buffer.dead -= buffer.width;
        buffer.dropped -= buffer.width;
    }

    /// Counts the dropped entries of each buffer as held.
    pub fn hold_dropped(&mut self)
        requires { All (λ b. b.held + b.dropped < 2 ^ 32) self.old }
        ensures { self.new ≡ map with_dropped_held self.old }
    {
        for buffer in self.buffers.iter_mut() {
            buffer.held += buffer.dropped;
            buffer.dropped = 0;
        }
    }

    /// Counts a held entry that becomes free.
    pub fn release(&mut self, buffer: u32)
        requires inside { buffer < length self.old }
        requires fits { (buffer_at self.old buffer).width ≤ (buffer_at self.old buffer).held }
        ensures { self.new ≡ with_released self.old buffer }
    {
        let buffer = &mut self.buffers[buffer as usize];
        buffer.held -= buffer.width;
    }

    /// Marks the buffer that a compaction empties.
    pub fn seal(&mut self, buffer: u32)
        requires inside { buffer < length self.old }
        requires active { (buffer_at self.old buffer).state ≡ Active }
        requires unfilled { (buffer_at self.old buffer).filled ≡ false }
        ensures { self.new ≡ sealed_at self.old buffer }
    {
        self.buffers[buffer as usize].sealed = true;
    }

    /// Takes the mark of a buffer away that a compaction gives up.
    pub fn unseal(&mut self, buffer: u32)
        requires { buffer < length self.old }
        ensures { self.new ≡ unsealed_at self.old buffer }
    {
        self.buffers[buffer as usize].sealed = false;
    }

    /// Puts an active buffer on hold with a generation. It has no entries any more.
    pub fn put_on_hold(&mut self, buffer: u32, generation: u64)
        requires inside { buffer < length self.old }
        requires active { (buffer_at self.old buffer).state ≡ Active }
        requires unfilled { (buffer_at self.old buffer).filled ≡ false }
        ensures { self.new ≡ on_hold_at self.old buffer generation }
    {
        let width = self.buffers[buffer as usize].width;
        self.buffers[buffer as usize] = Buffer {
            state: BufferState::OnHold,
            width,
            used: 0,
            dead: 0,
            dropped: 0,
            held: 0,
            generation,
            filled: false,
            sealed: false,
        };
    }

    pub fn free(&mut self, buffer: u32)
        requires inside { buffer < length self.old }
        requires held { (buffer_at self.old buffer).state ≡ OnHold }
        ensures { self.new ≡ freed_at self.old buffer }
    {
        self.buffers[buffer as usize] = NEW_BUFFER;
    }

    /// Frees each buffer that is on hold with a generation below `oldest`.
    pub fn free_below(&mut self, oldest: u64)
        ensures { self.new ≡ map (freed_below oldest) self.old }
    {
        for buffer in self.buffers.iter_mut() {
            *buffer = buffer.after_reclaim(oldest);
        }
    }

    /// Returns the free buffer with the lowest number.
    pub fn lowest_free(&self) -> Option<u32>
        requires { length self.now < 2 ^ 32 }
        ensures none { IfNone result ((b : ℕ) → b < length self.now → is_state_free (buffer_at self.now b).state ≡ false) }
        ensures lowest { IfSome result (IsLowestFree self.now) }
    {
        for buffer in 0..self.buffers.len() {
            if self.buffers[buffer].state.is_free() {
                return Some(buffer as u32);
            }
        }
        None
    }

    /// Returns the number of active buffers.
    pub fn active(&self) -> u32
        requires { length self.now < 2 ^ 32 }
        ensures { result ≡ count_by (λ b. is_state_active b.state) self.now }
    {
        self.buffers
            .iter()
            .filter(|buffer| buffer.state.is_active())
            .count() as u32
    }

    /// Returns the number of buffers on hold.
    pub fn on_hold(&self) -> u32
        requires { length self.now < 2 ^ 32 }
        ensures { result ≡ count_by (λ b. is_on_hold b.state) self.now }
    {
        self.buffers
            .iter()
            .filter(|buffer| buffer.state.is_on_hold())
            .count() as u32
    }

    /// Returns the used, dead and held words of all buffers.
    pub fn words(&self) -> WordCounts
        requires { length self.now < 2 ^ 32 }
        ensures { result ≡ words_of self.now }
    {
        let mut words = WordCounts {
            used: 0,
            dead: 0,
            held: 0,
        };
        for number in 0..self.buffers.len() {
            words.used += u64::from(self.used(number as u32));
            words.dead += u64::from(self.dead(number as u32));
            words.held += u64::from(self.held(number as u32));
        }
        words
    }

    /// Returns the buffer that a compaction should empty: the candidate with the most dead words, and the first among
    /// equals. Returns `None` if no buffer is a candidate.
    pub fn choose_victim(&self) -> Option<u32>
        requires { length self.now < 2 ^ 32 }
        ensures none { IfNone result ((b : ℕ) → b < length self.now → is_candidate (buffer_at self.now b) ≡ false) }
        ensures victim { IfSome result (IsVictim self.now) }
    {
        let mut victim = None;
        let mut most = 0;
        for number in 0..self.buffers.len() {
            let gain = self.buffers[number].gain();
            if gain > most {
                victim = Some(number as u32);
                most = gain;
            }
        }
        victim
    }
}

impl Buffer {
    ghost use Rattle.buffer_states.specs.Buffers.{gain_of, freed_below};

    /// Returns the dead words of a candidate, or 0 for any other buffer.
    fn gain(&self) -> u32
        ensures { result ≡ gain_of self.now }
    {
        if !self.state.is_active() {
            return 0;
        }
        if self.filled {
            return 0;
        }
        if self.sealed {
            return 0;
        }
        if u64::from(self.dead) * 20 <= u64::from(self.used) {
            return 0;
        }
        self.dead
    }

    fn after_reclaim(&self, oldest: u64) -> Buffer
        ensures { result ≡ freed_below oldest self.now }
    {
        if !self.state.is_on_hold() {
            return *self;
        }
        if self.generation >= oldest {
            return *self;
        }
        NEW_BUFFER
    }
}
