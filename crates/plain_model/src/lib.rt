//! The plain program: a table in an ordered map, and queries by a scan. It is slow and obvious, and other
//! implementations are compared with it.
#![tactic(auto)]

mod matching;
mod table;

pub use attr_types::Applied;
pub use table::PlainTable;
