//! The bits of a block.
ghost use Rattle.std.specs.Prelude.{◌≡◌, ◌<◌, ◌≤◌, ◌||◌, ◌&&◌, ◌/◌, ℕ, not, nat_eq, length, true, false};
ghost use Rattle.index_model.specs.Sets.{in_words};
ghost use Rattle.bit_vector.specs.Blocks.{HasBit, IsNextBit};

use arena_api::Frozen;
use entry_ref::EntryRef;
use image_format::{BLOCK_DOCUMENTS, BLOCK_WORDS};

/// Returns whether bit `i` is 1.
pub fn has_bit(words: &[u64], i: u32) -> bool
    requires { i / 64 < length words.now }
    ensures { result ≡ in_words words.now i }
{
    (words[(i / 64) as usize] >> (i % 64)) & 1 == 1
}

/// Sets bit `i`.
pub fn set_bit(words: &mut [u64], i: u32)
    requires { i / 64 < length words.old }
    ensures size { length words.new ≡ length words.old }
    ensures bits { (j : ℕ) → in_words words.new j ≡ (in_words words.old j || nat_eq j i) }
{
    words[(i / 64) as usize] |= 1 << (i % 64);
}

/// Clears bit `i`.
pub fn clear_bit(words: &mut [u64], i: u32)
    requires { i / 64 < length words.old }
    ensures size { length words.new ≡ length words.old }
    ensures bits { (j : ℕ) → in_words words.new j ≡ (in_words words.old j && not (nat_eq j i)) }
{
    words[(i / 64) as usize] &= !(1 << (i % 64));
}

/// Returns whether no bit is 1.
pub fn is_empty(words: &[u64]) -> bool
    ensures none { result ≡ true → (i : ℕ) → in_words words.now i ≡ false }
    ensures some { result ≡ false → HasBit words.now }
{
    for i in 0..words.len() {
        if words[i] != 0 {
            return false;
        }
    }
    true
}

/// Returns the first bit from `from` on that is 1, or the number of bits.
pub fn next_bit<const OFFSET_BITS: u32, F: Frozen<OFFSET_BITS>>(
    frozen: &mut F,
    block: EntryRef<OFFSET_BITS>,
    from: u32,
) -> u32
    requires size { length (F.records frozen.old block) ≡ BLOCK_WORDS }
    requires within { from ≤ BLOCK_DOCUMENTS }
    ensures next { IsNextBit (F.records frozen.old block.entry) from result }
    ensures same { frozen.new ≡ frozen.old }
{
    let mut i = from;
    while i < BLOCK_DOCUMENTS as u32 {
        let left = frozen.word(block, i / 64) >> (i % 64);
        if left != 0 {
            return i + left.trailing_zeros();
        }
        i = (i / 64 + 1) * 64;
    }
    BLOCK_DOCUMENTS as u32
}
