//! A store of entries over any work: the status of each entry, and its words.
#![tactic(auto)]

mod entry_store;

pub use entry_store::{EntryStore, NoMemory};
