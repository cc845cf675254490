//! How one operation and one commit change the attributes in their store, each in a unit of its own.
#![tactic(auto)]

mod commit;
mod document;
mod operation;
mod root;
mod unit;

pub use commit::commit_attributes;
pub use operation::step;
