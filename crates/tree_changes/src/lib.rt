//! A sorted list of changes of a frozen B+tree, made at once.
//!
//! Each change puts a pair or takes one out, by its key. The pairs after the changes are the merge of the old pairs with
//! the list, which is what the changes give one by one.
#![tactic(auto)]

mod change_below;
mod change_tree;
mod laws;
mod layers;

pub use change_below::Change;
pub use change_tree::change_all;
pub use laws::merge_law;
