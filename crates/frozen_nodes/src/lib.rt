//! Nodes of a frozen B+tree, each by itself: made of slots or of words, edited as words in memory, and split in two.
//!
//! A node is a record of 34 words that is never written again. It is made in a unit of a store, with the reference of
//! the node that it replaces, if there is one.
//!
//! A change edits the words of a copy in memory: it sets, inserts or removes a slot. Then it makes the node, or two
//! nodes if it would have 17 slots. The parent holds each as a `MadeNode`: its last key and its reference.
#![tactic(auto)]

mod make;
mod node_parts;
mod parts;
mod remove_words;

pub use make::{MadeNode, make_part, make_words};
pub use node_parts::{add_slot, set_slot};
pub use parts::{Parts, count_parts, make_one, put_parts, put_slot};
pub use remove_words::{take_slot, write_slots};
