//! The rounds of a reader over the running memory. In each round the reader has a guard of the last commit, at which
//! it answers the asks. It keeps its hold between rounds, and releases it after every 64 rounds.
//!
//! The asks of a run are answered at an image as lines of the report.
//!
//! A reader saves a commit, and the documents of an attribute of an image are read with their items.
#![tactic(auto)]

mod asked;
mod counting;
mod first;
mod job;
mod lines;
mod question;
mod reading;
mod rounds;
mod saving;
mod taking;

pub use asked::{Asked, Told};
pub use first::first_documents;
pub use job::Job;
pub use question::Question;
pub use reading::documents_in;
pub use rounds::{ROUNDS_ON_A_HOLD, Reading, Round, go_round};
pub use saving::{Saver, Saving, saved_image};
pub use taking::take_in;
