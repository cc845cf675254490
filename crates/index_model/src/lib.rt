//! The index of an attribute, from each value to the documents that have it, and how it changes when the items of one
//! document change, as laws.
//!
//! Sets of documents: a list for a few, a bit vector for many. They are gathered in any order and listed in ascending
//! order.
//!
//! The indexes of a table's attributes determine the hits of a query.
#![tactic(auto)]

mod bits;
mod gathered;
mod index_laws;
mod laws;
mod leaf;
mod weights;

pub use bits::DocSet;
pub use gathered::{Gathered, are_many, sorted_list};
pub use index_laws::query_law;
pub use laws::{bound_law, column_law, index_law, middle_law, value_law, walk_law};
pub use leaf::{is_before, is_beyond};
pub use weights::weights_of;
