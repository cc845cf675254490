//! A map of numbers: a frozen tree by number in a store of its own. It is an example of how other programs can use
//! the library.
#![tactic(auto)]

mod layout;
mod number_tree;
mod unit;
mod walk;

pub use layout::TreeLayout;
pub use number_tree::NumberTree;
