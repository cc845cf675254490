//! The layout whose root is one node.

ghost use Rattle.std.specs.Prelude.{◌≡◌, length};

use entry_ref::Layout;

/// The number of words of a node.
pub const NODE: u32 = 34;

/// The layout whose root is one record of `NODE` words.
pub struct OneNode;

impl Layout for OneNode {
    ghost use Rattle.std.specs.Prelude.{refl};
    ghost use Rattle.test_kit.specs.OneNode.{node_reaches, IsNodeRecord};
    ghost use Rattle.test_kit.specs.ProofsForOneNode.{node_empty, node_present, node_stays};

    ghost reaches = { node_reaches };

    ghost lawful = { IsNodeRecord };

    ghost empty_reaches = { λ shape m. refl };

    ghost empty_lawful = { node_empty };

    ghost present = { node_present };

    ghost stays = { node_stays };
}

/// Returns the words of the node of a commit. Each depends on the commit and on its place.
pub fn words_of(number: u32) -> [u64; 34]
    ensures { length result ≡ 34 }
{
    let mut words = [0; 34];
    for i in 0..34 {
        words[i] = u64::from(number) * 4294967296 + i as u64;
    }
    words
}

/// Returns whether these are the words of the node of a commit.
pub fn are_of(words: &[u64], number: u32) -> bool {
    for i in 0..words.len() {
        if words[i] / 4294967296 != u64::from(number) || words[i] % 4294967296 != i as u64 {
            return false;
        }
    }
    true
}
