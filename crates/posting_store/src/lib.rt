//! Posting lists, which are documents with weights, in a store. A short list is a record, a longer one a tree by
//! document or a bit vector.
#![tactic(auto)]

mod adding;
mod copying;
mod cursor;
mod dropping;
mod forming;
mod items;
mod laws;
mod making;
mod moving;
mod posting;
mod removing;
mod replacing;

pub use adding::add;
pub use cursor::{PostingCursor, walk};
pub use laws::list_law;
pub use moving::move_posting;
pub use posting::Posting;
pub use removing::remove;
