//! A frozen B+tree of 64-bit keys and values: its nodes are records that are never written again.
//!
//! A change copies the nodes on one path and returns a new root. An old root stays readable, without a lock, as long
//! as its records exist. A tree is a root: 0 if it is empty, otherwise the reference of its top node. Its pairs
//! ascend by key, in an order that a `KeyOrder` gives.
//!
//! The modules insert and remove pairs, build a whole tree from a list, drop a tree, and copy the path to a key out of
//! a sealed buffer (`touch`), which compaction uses. `frozen_nodes` makes the nodes, each by itself.
//!
//! The laws say that each node is on the way to each key below it.
#![tactic(auto)]

mod build_drops;
mod copies;
mod insert_below;
mod insert_leaf;
mod insert_tree;
mod laws;
mod levels;
mod make_drops;
mod neighbours;
mod parent;
mod remove_below;
mod remove_tree;
mod root;
mod rows;
mod touch_below;
mod touch_tree;
mod whole_leaf;

pub use build_drops::drop_tree;
pub use frozen_nodes::{MadeNode, add_slot, make_part, make_words, set_slot};
pub use insert_tree::insert;
pub use laws::way_law;
pub use levels::{build, build_over};
pub use make_drops::drop_nodes;
pub use remove_tree::remove;
pub use root::{make_leaf, make_root};
pub use rows::{Row, add_group, make_row, push_word};
pub use touch_tree::touch;
pub use tree_read::{Cursor, KeyOrder, NumberKey, find, total};
pub use whole_leaf::build_leaf;
