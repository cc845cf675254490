//! Removes one slot from the words of a node.

ghost use Rattle.std.specs.Prelude.{◌≡◌, ◌<◌, ◌≤◌, ◌++◌, ◌∷◌, [], ℕ, List, length, take, drop, suc, slice_index};
ghost use Rattle.std.specs.List.{remove};
ghost use Rattle.tree_read.specs.Nodes.{slot_words};
ghost use Rattle.frozen_nodes.specs.Words.{AreWords};

use tree_read::{FIRST_KEY, LEVEL_BASE, MOST_SLOTS, NODE_WORDS, Slots};

/// Removes one of 16 words, and puts a zero at the end.
fn take_between(words: &mut [u64], slot: usize)
    requires size { length words.old ≡ MOST_SLOTS }
    requires slot { slot < MOST_SLOTS }
    ensures { words.new ≡ take slot words.old ++ (drop (suc slot) words.old ++ (0 ∷ [])) }
{
    words.copy_within(slot + 1..MOST_SLOTS, slot);
    words[MOST_SLOTS - 1] = 0;
}

/// Removes a word from the first 16 of 32 words, and the one at the same place from the other 16.
fn take_both(words: &mut [u64], slot: usize)
    requires size { length words.old ≡ 32 }
    requires slot { slot < MOST_SLOTS }
    ensures { words.new ≡ (take slot (take MOST_SLOTS words.old) ++ (drop (suc slot) (take MOST_SLOTS words.old) ++ (0 ∷ [])))
        ++ (take slot (drop MOST_SLOTS words.old) ++ (drop (suc slot) (drop MOST_SLOTS words.old) ++ (0 ∷ []))) }
{
    let (keys, values) = words.split_at_mut(MOST_SLOTS);
    take_between(keys, slot);
    take_between(values, slot);
}

/// Removes a slot from the words of a node, and sets the count of pairs.
pub fn take_slot(words: &mut [u64; NODE_WORDS], pairs: u64, slot: usize)
    requires slot { slot < MOST_SLOTS }
    requires head { 0 < slice_index words.old 0 }
    ensures { (level count : ℕ) (keys values : List ℕ) → AreWords level count keys values words.old → slot < length keys
        → AreWords level pairs (remove keys slot) (remove values slot) words.new }
{
    words[0] -= 1;
    words[1] = pairs;
    take_both(&mut words[FIRST_KEY..], slot);
}

/// Writes 16 words: the given ones, followed by zeros.
fn write_part(words: &mut [u64], slots: &[u64])
    requires size { length words.old ≡ MOST_SLOTS }
    requires few { length slots.now ≤ MOST_SLOTS }
    ensures { words.new ≡ slot_words slots.now }
{
    let (used, rest) = words.split_at_mut(slots.len());
    used.copy_from_slice(slots);
    rest.fill(0);
}

/// Writes 32 words: those of the keys, and those of the values.
fn write_both(words: &mut [u64], keys: &[u64], values: &[u64])
    requires size { length words.old ≡ 32 }
    requires few { length keys.now ≤ MOST_SLOTS }
    requires few_values { length values.now ≤ MOST_SLOTS }
    ensures { words.new ≡ slot_words keys.now ++ slot_words values.now }
{
    let (first, second) = words.split_at_mut(MOST_SLOTS);
    write_part(first, keys);
    write_part(second, values);
}

/// Writes the words of a node with these slots and this count of pairs.
pub fn write_slots(words: &mut [u64; NODE_WORDS], pairs: u64, slots: &Slots)
    requires low { slots.now.level ≤ 7 }
    requires even { length slots.now.keys.items ≡ length slots.now.values.items }
    requires few { length slots.now.keys.items ≤ MOST_SLOTS }
    ensures { AreWords slots.now.level pairs slots.now.keys.items slots.now.values.items words.new }
{
    words[0] = slots.level * LEVEL_BASE + slots.keys.len() as u64;
    words[1] = pairs;
    write_both(&mut words[FIRST_KEY..], &slots.keys, &slots.values);
}
