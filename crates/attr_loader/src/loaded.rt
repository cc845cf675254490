//! The result of a loading, and of one that ran out of space.

/// The operation that ran out of space, numbered from 1, with the number of buffers in use and of buffers that wait
/// for readers.
#[derive(Clone, Copy, Drop)]
pub struct NoRoom {
    pub operation: u32,
    pub active: u32,
    pub held: u32,
}

/// The result of a loading: how many operations are committed, how many of these were skipped, and which operation
/// ran out of space, if any.
#[derive(Clone, Copy, Drop)]
pub struct Loaded {
    pub operations: u32,
    pub skipped: u32,
    pub full: Option<NoRoom>,
}
