//! What a run comes to: what was loaded, the rounds of each reader, and the saves.

use atomic_table::Badge;
use attr_loader::Loaded;
use attr_rounds::{Round, Told};
use word_arena::Watched;

/// A save of the table after a number of operations.
#[derive(Drop)]
pub struct Save {
    pub operations: u32,
    pub bytes: Vec<u8>,
}

/// The progress of a run: what was loaded, the rounds of each reader, and the answers at everything loaded.
#[derive(Drop)]
pub struct RunResult {
    pub loaded: Loaded,
    pub rounds: Vec<Vec<Round<Told>>>,
    pub last: Told,
    /// The save, where the table is saved.
    pub saved: Option<Save>,
    /// What the writer's seat knew at the end. It has no bytes.
    pub writer: Badge<Watched>,
}
