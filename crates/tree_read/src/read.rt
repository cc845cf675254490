//! Reads the words of a node. Their places are those of `docs/FORMATS.md`.

ghost use Rattle.std.specs.Prelude.{◌≡◌, ◌<◌, ◌≤◌, length};
ghost use Rattle.entry_ref.specs.Records.{HasWord};
ghost use Rattle.tree_read.specs.Nodes.{level_of, used_of, node_keys, node_values};

use crate::slots::{Slots, append};
use crate::{FIRST_KEY, FIRST_VALUE, LEVEL_BASE, MOST_SLOTS, NODE_WORDS};
use arena_api::{Frozen, read_of};
use arrayvec::ArrayVec;
use entry_ref::EntryRef;

/// Reads all words of a node.
pub fn read_words<const OFFSET_BITS: u32, F: Frozen<OFFSET_BITS>>(
    frozen: &mut F,
    node: EntryRef<OFFSET_BITS>,
    into: &mut [u64; NODE_WORDS],
)
    requires { length (F.records frozen.old node) ≡ NODE_WORDS }
    ensures words { into.new ≡ F.records frozen.old node.entry }
    ensures same { frozen.new ≡ frozen.old }
{
    read_of(frozen, node, NODE_WORDS as u32, 0, into);
}

/// The contents of word 0 of a node.
#[derive(Clone, Copy, Debug)]
pub struct Head {
    pub level: u64,
    pub used: u32,
}

/// Reads word 0 of a node.
pub fn read_head<const OFFSET_BITS: u32, F: Frozen<OFFSET_BITS>>(
    frozen: &mut F,
    node: EntryRef<OFFSET_BITS>,
) -> Head
    requires { HasWord (F.records frozen.old) node 0 }
    ensures level { result.level ≡ level_of (F.records frozen.old node.entry) }
    ensures used { result.used ≡ used_of (F.records frozen.old node.entry) }
    ensures same { frozen.new ≡ frozen.old }
{
    let word = frozen.word(node, 0);
    Head {
        level: word / LEVEL_BASE,
        used: (word % LEVEL_BASE) as u32,
    }
}

/// Reads the number of used slots of a node whose words begin at `start`.
pub fn read_used<const OFFSET_BITS: u32, F: Frozen<OFFSET_BITS>>(
    frozen: &mut F,
    node: EntryRef<OFFSET_BITS>,
    start: u64,
) -> u32
    requires size { length (F.records frozen.old node) ≡ NODE_WORDS }
    requires start { start ≡ F.begins frozen.old node }
    ensures used { result ≡ used_of (F.records frozen.old node.entry) }
    ensures same { frozen.new ≡ frozen.old }
{
    (frozen.word_from(node, start, 0) % LEVEL_BASE) as u32
}

/// Returns the number of used slots of a node with these words.
pub fn used_in(words: &[u64]) -> usize
    requires { 0 < length words.now }
    ensures { result ≡ used_of words.now }
{
    (words[0] % LEVEL_BASE) as usize
}

/// Returns the keys of the used slots.
pub fn keys_in(words: &[u64]) -> &[u64]
    requires size { length words.now ≡ NODE_WORDS }
    requires room { used_of words.now ≤ MOST_SLOTS }
    ensures { result.now ≡ node_keys words.now }
{
    &words[FIRST_KEY..FIRST_KEY + used_in(words)]
}

/// Returns the values of the used slots.
fn values_in(words: &[u64]) -> &[u64]
    requires size { length words.now ≡ NODE_WORDS }
    requires room { used_of words.now ≤ MOST_SLOTS }
    ensures { result.now ≡ node_values words.now }
{
    &words[FIRST_VALUE..FIRST_VALUE + used_in(words)]
}

/// Returns the slots of a node with these words.
pub fn slots_of(words: &[u64]) -> Slots
    requires size { length words.now ≡ NODE_WORDS }
    requires room { used_of words.now ≤ MOST_SLOTS }
    ensures level { result.level ≡ level_of words.now }
    ensures keys { result.keys.items ≡ node_keys words.now }
    ensures values { result.values.items ≡ node_values words.now }
{
    let mut slots = Slots {
        level: words[0] / LEVEL_BASE,
        keys: ArrayVec::new(),
        values: ArrayVec::new(),
    };
    append(&mut slots.keys, keys_in(words));
    append(&mut slots.values, values_in(words));
    slots
}

/// Reads a node by one call.
pub fn read_node<const OFFSET_BITS: u32, F: Frozen<OFFSET_BITS>>(
    frozen: &mut F,
    node: EntryRef<OFFSET_BITS>,
) -> Slots
    requires size { length (F.records frozen.old node) ≡ NODE_WORDS }
    requires room { used_of (F.records frozen.old node) ≤ MOST_SLOTS }
    ensures level { result.level ≡ level_of (F.records frozen.old node.entry) }
    ensures keys { result.keys.items ≡ node_keys (F.records frozen.old node.entry) }
    ensures values { result.values.items ≡ node_values (F.records frozen.old node.entry) }
    ensures same { frozen.new ≡ frozen.old }
{
    let mut words = [0; NODE_WORDS];
    read_words(frozen, node, &mut words);
    slots_of(&words)
}
