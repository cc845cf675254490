//! A requested run of `attr`, what it writes, and its history.
#![tactic(auto)]

mod answers;
mod laws;
mod report;
mod request;

pub use answers::{push_count, push_documents, push_scores};
pub use laws::history_law;
pub use report::{push_documents_line, push_done_line, push_final_line, push_made_line};
pub use request::{Make, Request};
