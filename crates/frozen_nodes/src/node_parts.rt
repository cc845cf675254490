//! Changes one slot in the words of a node.

ghost use Rattle.std.specs.Prelude.{◌≡◌, ◌<◌, ◌≤◌, ◌+◌, ◌-◌, ◌^◌, ◌++◌, ◌∷◌, ℕ, List, length, take, drop, insert, suc, slice_index};
ghost use Rattle.frozen_nodes.specs.Words.{AreWords};

use tree_read::{FIRST_KEY, FIRST_VALUE, MOST_SLOTS, NODE_WORDS};

/// Sets the words of a slot, and the count of pairs.
pub fn set_slot(words: &mut [u64; NODE_WORDS], pairs: u64, slot: usize, key: u64, value: u64)
    requires { slot < MOST_SLOTS }
    ensures { (level count : ℕ) (keys values : List ℕ) → AreWords level count keys values words.old → slot < length keys
        → AreWords level pairs (take slot keys ++ (key ∷ drop (suc slot) keys))
        (take slot values ++ (value ∷ drop (suc slot) values)) words.new }
{
    words[1] = pairs;
    words[FIRST_KEY + slot] = key;
    words[FIRST_VALUE + slot] = value;
}

/// Inserts a word among 16 words; the last word is lost.
fn put_between(words: &mut [u64], slot: usize, word: u64)
    requires size { length words.old ≡ MOST_SLOTS }
    requires slot { slot < MOST_SLOTS }
    ensures { words.new ≡ take slot words.old ++ (word ∷ take (15 - slot) (drop slot words.old)) }
{
    words.copy_within(slot..MOST_SLOTS - 1, slot + 1);
    words[slot] = word;
}

/// Inserts a word among the first 16 of 32 words, and another at the same place among the other 16.
fn put_both(words: &mut [u64], slot: usize, key: u64, value: u64)
    requires size { length words.old ≡ 32 }
    requires slot { slot < MOST_SLOTS }
    ensures { words.new ≡ (take slot (take MOST_SLOTS words.old) ++ (key ∷ take (15 - slot) (drop slot (take MOST_SLOTS words.old))))
        ++ (take slot (drop MOST_SLOTS words.old) ++ (value ∷ take (15 - slot) (drop slot (drop MOST_SLOTS words.old)))) }
{
    let (keys, values) = words.split_at_mut(MOST_SLOTS);
    put_between(keys, slot, key);
    put_between(values, slot, value);
}

/// Inserts a slot before another or at the end, if it fits, and sets the count of pairs.
pub fn add_slot(words: &mut [u64; NODE_WORDS], pairs: u64, slot: usize, key: u64, value: u64)
    requires slot { slot < MOST_SLOTS }
    requires head { slice_index words.old 0 + 1 < 2 ^ 64 }
    ensures { (level count : ℕ) (keys values : List ℕ) → AreWords level count keys values words.old → slot ≤ length keys
        → length keys < MOST_SLOTS
        → AreWords level pairs (insert keys slot key) (insert values slot value) words.new }
{
    words[0] += 1;
    words[1] = pairs;
    put_both(&mut words[FIRST_KEY..], slot, key, value);
}
