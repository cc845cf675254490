//! Checks the form of a node.

ghost use Rattle.std.specs.Prelude.{◌≡◌, ◌↔◌, length, IsTrue};
ghost use Rattle.tree_read.specs.Nodes.{used_of, IsNodeForm};
ghost use Rattle.check_images.specs.Slots.{AreZero};

use tree_read::{FIRST_KEY, FIRST_VALUE, MOST_SLOTS, NODE_WORDS};

/// Returns whether the unused slots are 0.
fn are_zero(words: &[u64], used: usize) -> bool
    requires size { length words.now ≡ NODE_WORDS }
    ensures { IsTrue result ↔ AreZero words.now used MOST_SLOTS }
{
    for i in used..MOST_SLOTS {
        if words[FIRST_KEY + i] != 0 || words[FIRST_VALUE + i] != 0 {
            return false;
        }
    }
    true
}

/// Returns whether words are those of a node of this level with at least `least` used slots. Its children are not
/// checked.
pub fn is_node_form(words: &[u64], level: u32, least: u32) -> bool
    ensures { IsTrue result ↔ IsNodeForm level least words.now }
{
    if words.len() != NODE_WORDS || words[0] / 256 != u64::from(level) {
        return false;
    }
    let used = words[0] % 256;
    if used < u64::from(least) || used > MOST_SLOTS as u64 || words[1] > u64::from(u32::MAX) {
        return false;
    }
    are_zero(words, used as usize)
}
