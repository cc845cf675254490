//! The format of nodes. The specs define the pairs below a root, and when a root is a tree.
#![tactic(auto)]

/// The number of words of a node: two, then the keys of its slots, then their values.
pub const NODE_WORDS: usize = 34;

/// The factor for the level in word 0 of a node. The low part of the word is the number of used slots.
pub const LEVEL_BASE: u64 = 256;

/// The number of slots of a node.
pub const MOST_SLOTS: usize = 16;

/// The least number of used slots of a node that is not the root.
pub const LEAST_SLOTS: usize = 8;

/// The index of the word of the first key.
pub const FIRST_KEY: usize = 2;

/// The index of the word of the first value.
pub const FIRST_VALUE: usize = 18;
