//! A memory without readers, which keeps only the last commit.
#![tactic(auto)]

mod cells;
mod entries;
mod marks;
mod memory;
mod one_record;
mod reach;

pub use memory::MemWork;
pub use one_record::OneRecord;
pub use reach::Reach;
