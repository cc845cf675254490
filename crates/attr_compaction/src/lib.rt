//! The plan of a compaction: which keys of which attribute were visited, in the order of places.
//!
//! The phases of a compaction: their keys, and which key is the next after a place.
//!
//! Counts of keys between two places of a compaction.
#![tactic(auto)]

mod counts_laws;
mod documents;
mod keys_laws;
mod laws;
mod lists;
mod next;
mod numbers;
mod pairs;
mod plan;
mod values;
mod vectors;

pub use counts_laws::count_law;
pub use keys_laws::keys_law;
pub use laws::place_law;
pub use next::next_key;
pub use plan::{DOCUMENTS, KEYS, LISTS, NODES, PHASES, Plan, PlanKey};
pub use vectors::is_vector;
