//! A map ordered by value: a frozen tree whose keys are the records of values, each with the word of its posting
//! list.
#![tactic(auto)]

mod changing;
mod cursors;
mod finding;
mod keys;
mod laws;

pub use changing::{remove, set};
pub use cursors::{lower, upper};
pub use finding::{DictEntry, find};
pub use keys::{LongKey, TextKey};
pub use laws::{dictionary_law, found_law};
