//! Reads the operations of a feed: lines of JSON in Vespa's document format.
//! <https://docs.vespa.ai/en/reference/document-json-format.html>
#![tactic(auto)]

mod element;
mod error;
mod feed;
mod fields;
mod id;
mod items;
mod laws;
mod line;
mod numeral;
mod operation;
mod operator;
mod refusal;
mod split;
mod update;
mod value;

pub use error::FeedError;
pub use feed::{parse_feed, read_feed};
pub use laws::{first_fault_law, rows_law};
