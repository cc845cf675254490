//! `And` and `Or` of words, several at once.
ghost use Rattle.std.specs.Prelude.{◌≡◌, ◌+◌, ◌≤◌, length, bit_and};
ghost use Rattle.std.specs.Int.RustNames.{bit_or};
ghost use Rattle.std.specs.Simd.Lanes.{chunk, put_chunk, zip2};
ghost use Rattle.bit_vector.specs.Kernels.{joined_from};

use std::simd::prelude::*;

/// The number of words that are combined at once.
const LANES: usize = 8;

fn and_lanes(into: &mut [u64], other: &[u64], at: usize)
    requires into { at + 8 ≤ length into.old }
    requires other { at + 8 ≤ length other.now }
    ensures { into.new ≡ put_chunk at into.old (zip2 bit_and (chunk at 8 into.old) (chunk at 8 other.now)) }
{
    let both = u64x8::from_slice(&into[at..]) & u64x8::from_slice(&other[at..]);
    both.copy_to_slice(&mut into[at..]);
}

/// Combines words as long as there are enough for the lanes. Returns how many it combined.
fn and_most(into: &mut [u64], other: &[u64]) -> usize
    requires { length into.old ≡ length other.now }
    ensures size { length into.new ≡ length into.old }
    ensures within { result ≤ length into.old }
    ensures whole { joined_from bit_and result into.new other.now ≡ zip2 bit_and into.old other.now }
{
    let mut at = 0;
    while into.len() - at >= LANES {
        and_lanes(into, other, at);
        at += LANES;
    }
    at
}

/// Combines the words from a place on.
fn and_rest(into: &mut [u64], other: &[u64], from: usize)
    requires size { length into.old ≡ length other.now }
    requires within { from ≤ length into.old }
    ensures { into.new ≡ joined_from bit_and from into.old other.now }
{
    for at in from..into.len() {
        into[at] &= other[at];
    }
}

/// Keeps the bits that the other words have too.
pub fn block_and(into: &mut [u64], other: &[u64])
    requires { length into.old ≡ length other.now }
    ensures { into.new ≡ zip2 bit_and into.old other.now }
{
    let at = and_most(into, other);
    and_rest(into, other, at);
}

fn or_lanes(into: &mut [u64], other: &[u64], at: usize)
    requires into { at + 8 ≤ length into.old }
    requires other { at + 8 ≤ length other.now }
    ensures { into.new ≡ put_chunk at into.old (zip2 bit_or (chunk at 8 into.old) (chunk at 8 other.now)) }
{
    let both = u64x8::from_slice(&into[at..]) | u64x8::from_slice(&other[at..]);
    both.copy_to_slice(&mut into[at..]);
}

/// Combines words as long as there are enough for the lanes. Returns how many it combined.
fn or_most(into: &mut [u64], other: &[u64]) -> usize
    requires { length into.old ≡ length other.now }
    ensures size { length into.new ≡ length into.old }
    ensures within { result ≤ length into.old }
    ensures whole { joined_from bit_or result into.new other.now ≡ zip2 bit_or into.old other.now }
{
    let mut at = 0;
    while into.len() - at >= LANES {
        or_lanes(into, other, at);
        at += LANES;
    }
    at
}

/// Combines the words from a place on.
fn or_rest(into: &mut [u64], other: &[u64], from: usize)
    requires size { length into.old ≡ length other.now }
    requires within { from ≤ length into.old }
    ensures { into.new ≡ joined_from bit_or from into.old other.now }
{
    for at in from..into.len() {
        into[at] |= other[at];
    }
}

/// Adds the bits of the other words.
pub fn block_or(into: &mut [u64], other: &[u64])
    requires { length into.old ≡ length other.now }
    ensures { into.new ≡ zip2 bit_or into.old other.now }
{
    let at = or_most(into, other);
    or_rest(into, other, at);
}
