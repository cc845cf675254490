//! What tests share: counts of rows, pseudorandom numbers and texts, a work that keeps what is stored in it, commits of
//! one node and guards of it.
#![tactic(auto)]

mod commits;
mod held;
mod node;
mod noted;
mod notes;
mod random;
mod rows;
mod tables;
mod tally;
mod texts;
mod told;

pub use commits::{Committed, Placed, claim, commit, pass, turn};
pub use held::{Held, Look, guarded, raised, tried};
pub use node::{NODE, OneNode, are_of, words_of};
pub use noted::NotedWork;
pub use notes::Notes;
pub use random::Random;
pub use rows::{fields_in, kind_in, number_at, type_in};
pub use tables::is_same_table;
pub use tally::Tally;
pub use texts::{text_at, text_of};
pub use told::{push_item, push_number, push_value};
