//! The state of each entry of a store (not taken, free, in use, dropped or held), with the open unit and the buffers.
//!
//! A shelf holds the entries of one buffer: which are free, which the open unit changed, and how the unit ends for
//! each.
//!
//! The shelves of all buffers choose where an entry is made, and end a unit entry by entry.
#![tactic(auto)]

mod ledger;
mod shelf;
mod shelves;
mod stack;
mod state;
mod width;

pub use ledger::EntryLedger;
pub use shelf::{Settled, Shelf};
pub use shelves::{Changed, Shelves, Taken};
pub use state::State;
