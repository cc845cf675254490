//! Records of words in a store, each of the least class that holds it: arrays, whose first word is their count, and
//! root records, each made in place of the one before.
#![tactic(auto)]

mod array;
mod class;
mod laws;
mod record;
mod root;

pub use array::{add, count, get};
pub use class::class_of;
pub use laws::{array_law, class_law};
pub use record::make_record;
pub use root::turn_root;

/// The greatest number of words of a record.
pub const MOST_WORDS: usize = 1024;

/// The greatest number of items of an array: its record has a word for each item, and one for their count.
pub const MOST_ITEMS: usize = 1023;
