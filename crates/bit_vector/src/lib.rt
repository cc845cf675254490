//! A set of documents in a store as a bit vector: a tree of blocks by number. Block k is a record of 64 words with one bit for each of the
//! documents from 4096 * k to 4096 * k + 4095. A block is there only if it has a document.
#![tactic(auto)]

mod bits;
mod blocks;
mod changing;
mod converting;
mod counting;
mod cursor;
mod dropping;
mod filling;
mod kernels;
mod laws;
mod moving;
mod reading;

pub use changing::{insert, remove};
pub use converting::{from_tree, to_tree};
pub use counting::has_at_least;
pub use cursor::VectorCursor;
pub use dropping::drop_vector;
pub use kernels::{block_and, block_or};
pub use laws::vector_law;
pub use moving::move_block;
pub use reading::contains;

/// The greatest number of blocks of a bit vector.
pub const MOST_BLOCKS: usize = 256;
