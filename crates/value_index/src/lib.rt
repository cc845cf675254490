//! An index in a store: a map from each value to the documents that have it, with their weights.
//!
//! When the items of a document change, two walks update the index of an attribute: the document is added to the
//! lists of its new values, and removed from the lists of its old ones.
#![tactic(auto)]

mod adding;
mod finding;
mod laws;
mod removing;
mod walks_adding;
mod walks_removing;

pub use adding::{Added, add, add_with_key};
pub use finding::key;
pub use laws::{index_law, key_law};
pub use removing::remove;
pub use walks_adding::add_all;
pub use walks_removing::remove_all;
