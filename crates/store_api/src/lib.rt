//! The contract of a store: entries in the buffers of a work are made, dropped, committed and reused.
#![tactic(auto)]

mod laws;
mod parts;
mod store;

pub use laws::{counting_law, may_do_law, parts_law};
pub use parts::{drop_one, make_entry};
pub use store::{Store, StoreError, Stored, Usage};
