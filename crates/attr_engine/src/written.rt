//! What a run writes, with its progress.

use atomic_table::Badge;
use attr_loader::NoRoom;
use attr_types::RoundList;
use word_arena::Watched;

/// The progress of a run, and what it writes.
#[derive(Drop)]
pub struct Written {
    /// The number of operations that were loaded.
    pub loaded: u32,
    /// The operation that ran out of space, if any.
    pub full: Option<NoRoom>,
    /// How many operations each round saw, by reader.
    pub rounds: RoundList,
    /// At how many operations the table was saved, if it was.
    pub saved: Option<u32>,
    pub text: Vec<u8>,
    /// What the writer's seat knew at the end. It has no bytes.
    pub writer: Badge<Watched>,
}
