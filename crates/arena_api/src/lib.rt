//! The traits of a memory. A work stores words, hands out buffers, publishes roots, and reuses buffers that no reader
//! can reach any more.
#![tactic(auto)]

mod answers;
mod frozen;
mod work;

pub use answers::{Advance, Oldest};
pub use frozen::{Frozen, read, read_of, word_of};
pub use work::Work;
