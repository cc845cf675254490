//! What a memory answers its writer: an advance of the generation, and the oldest open hold.

/// The outcome of an advance of the generation.
#[derive(Clone, Copy, PartialEq, Eq, Debug, Drop)]
pub enum Advance {
    /// This generation is now current, on this hold.
    To { generation: u64, hold: u32 },
    /// All holds are open and the newest is in use, with this count. The generation does not change.
    NoHold { holds: u32, found: u64 },
    /// The current generation is the last possible one.
    Spent { generation: u64 },
}

/// The oldest open hold after a reclaim.
#[derive(Clone, Copy, PartialEq, Eq, Debug, Drop)]
pub struct Oldest {
    pub generation: u64,
    pub hold: u32,
    /// The count with which it was found in use. It is 0 and has no meaning if the hold is the newest.
    pub found: u64,
    pub newest: bool,
}
