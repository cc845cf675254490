//! Attributes of a document collection in one store: operations are applied to them, and their table is committed.
#![tactic(auto)]

mod answers;
mod attribute;

pub use answers::{AttrError, CommitInfo, Compacted, Published};
pub use attribute::{Attribute, committed_work};
