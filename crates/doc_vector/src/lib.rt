//! A map by document: a frozen tree whose keys are documents, each with the reference of its items.
#![tactic(auto)]

mod changing;
mod laws;
mod reading;

pub use changing::{remove, set};
pub use laws::{document_law, map_law};
pub use reading::{get, walk_from};
