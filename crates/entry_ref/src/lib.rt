//! References to entries. A reference has 32 bits: the high bits are an offset in a buffer, the low bits the number
//! of the buffer.
#![tactic(auto)]

mod images;
mod maps;

ghost use Rattle.std.specs.Prelude.{◌≡◌, ◌↔◌, ◌<◌, ℕ, IsTrue};
ghost use Rattle.entry_ref.specs.References.{offset_limit, buffer_limit, packed, offset_of, buffer_of};

pub use images::{Image, Layout, images_law, place_of, places_law};
pub use maps::{word_in, words_at};
use std::marker::Model;

/// A reference to an entry of a buffer. The offset is in the high `OFFSET_BITS` bits and the buffer in the others.
/// Contracts see the packed number. 0 refers to no entry.
#[derive(Clone, Copy, PartialEq, Eq, Debug, Drop)]
pub struct EntryRef<const OFFSET_BITS: u32> {
    raw: u32,
}

impl<const OFFSET_BITS: u32> Model for EntryRef<OFFSET_BITS> {
    ghost Value = { ℕ };

    ghost view = { λ entry. entry.raw };

    ghost inverse = { λ raw. record { raw = raw } };
}

impl<const OFFSET_BITS: u32> EntryRef<OFFSET_BITS> {
    pub fn new(offset: u32, buffer: u32) -> Self
        requires offset { offset < offset_limit OFFSET_BITS }
        requires buffer { buffer < buffer_limit OFFSET_BITS }
        ensures { result ≡ packed OFFSET_BITS offset buffer }
    {
        let raw = offset as u64 * buffers(OFFSET_BITS) + buffer as u64;
        EntryRef { raw: raw as u32 }
    }

    pub fn from_raw(raw: u32) -> Self
        ensures { result ≡ raw }
    {
        EntryRef { raw }
    }

    pub fn raw(self) -> u32
        ensures { result ≡ self.entry }
    {
        self.raw
    }

    pub fn offset(self) -> u32
        ensures value { result ≡ offset_of OFFSET_BITS self.entry }
        ensures limit { result < offset_limit OFFSET_BITS }
    {
        (self.raw as u64 / buffers(OFFSET_BITS)) as u32
    }

    pub fn buffer(self) -> u32
        ensures value { result ≡ buffer_of OFFSET_BITS self.entry }
        ensures limit { result < buffer_limit OFFSET_BITS }
    {
        (self.raw as u64 % buffers(OFFSET_BITS)) as u32
    }

    /// Returns whether the reference names an entry, that is, whether it is not 0.
    pub fn valid(self) -> bool
        ensures { IsTrue result ↔ (0 < self.entry) }
    {
        self.raw != 0
    }
}

/// Returns the number of buffers that a reference can name if `offset_bits` of its 32 bits hold the offset.
fn buffers(offset_bits: u32) -> u64
    ensures { result ≡ buffer_limit offset_bits }
{
    1 << (32 - offset_bits.min(32))
}

/// Packing and unpacking are inverse.
pub fn packing_law()
    ensures offset { (bits o b : ℕ) → b < buffer_limit bits → offset_of bits (packed bits o b) ≡ o }
    ensures buffer { (bits o b : ℕ) → b < buffer_limit bits → buffer_of bits (packed bits o b) ≡ b }
    ensures packed { (bits r : ℕ) → packed bits (offset_of bits r) (buffer_of bits r) ≡ r }
{}
