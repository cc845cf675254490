//! The results of calls beside their codes.

/// The sizes of a new engine.
#[repr(C)]
#[derive(Clone, Copy, Drop)]
pub struct Sizes {
    /// The number of buffers.
    pub buffers: u32,
    /// The number of words of a buffer.
    pub words: u32,
    /// The number of readers, at most 64.
    pub readers: u32,
    /// 1 for references of 19 and 13 bits instead of 22 and 10.
    pub wide: u32,
    /// 1 to keep the documents of a frequent value as a bit vector, except in weighted sets.
    pub dense: u32,
}

/// The results of the writer's calls.
#[repr(C)]
#[derive(Clone, Copy, Drop)]
pub struct Told {
    /// The number of the refused line, from 1, where it begins, and where the next line begins.
    pub line: u64,
    pub place: u64,
    pub next: u64,
    /// The number of operations that the call applied, including skipped ones.
    pub operations: u32,
    /// The number of these operations that changed nothing.
    pub skipped: u32,
    /// The number of the last commit.
    pub commit: u32,
    /// For a full store: the width, and how many buffers are in use and how many wait for readers.
    pub width: u32,
    pub active: u32,
    pub held: u32,
    /// The earliest commit on which the oldest reader may stand, and whether there is such a reader.
    pub oldest: u32,
    pub is_held: u32,
    /// For a step of a compaction: how many keys it visited (0 if it emptied a buffer), whether it emptied a buffer, and which.
    pub keys: u32,
    pub finished: u32,
    pub buffer: u32,
}

/// The results of a reader's calls.
#[repr(C)]
#[derive(Clone, Copy, Drop)]
pub struct Answered {
    /// The commit that answered.
    pub commit: u32,
    /// The number of operations in the commit.
    pub operations: u32,
    /// The number of documents, items, groups or bytes of the answer.
    pub count: u64,
    /// The place from which on a text asks for nothing.
    pub place: u64,
}

/// A document with its score.
#[repr(C)]
#[derive(Clone, Copy, Drop)]
pub struct Scored {
    /// The score, or the nearest number of 64 bits if it does not fit.
    pub score: i64,
    pub doc: u32,
    /// 1 if the score is exact.
    pub exact: u32,
}

/// The totals of numbers.
#[repr(C)]
#[derive(Clone, Copy, Drop)]
pub struct TotalsTold {
    /// The number of numbers.
    pub count: u64,
    /// Their sum is `high` * 2^64 + `low`.
    pub low: u64,
    pub high: i64,
    pub least: i64,
    pub greatest: i64,
}

/// An item of a document.
#[repr(C)]
#[derive(Clone, Copy, Drop)]
pub struct ItemTold {
    /// The value, if it is a number.
    pub number: i64,
    /// The number of bytes of the value, if it is a text.
    pub length: u64,
    pub weight: i32,
    pub is_text: u32,
}

/// A group of documents with the same value.
#[repr(C)]
#[derive(Clone, Copy, Drop)]
pub struct GroupTold {
    /// The value, if it is a number.
    pub number: i64,
    /// The number of bytes of the value, if it is a text.
    pub length: u64,
    /// The number of documents.
    pub documents: u64,
    pub is_text: u32,
    /// Always 0.
    pub zero: u32,
}

/// Numbers for a monitor.
#[repr(C)]
#[derive(Clone, Copy, Drop)]
pub struct CountsTold {
    /// The number of operations that changed nothing.
    pub skipped: u64,
    /// The words of active buffers that were given out, the reserved ones at the head of each buffer included.
    pub used_words: u64,
    /// Those of free, dropped and held entries.
    pub dead_words: u64,
    /// Those of held entries, which readers may have.
    pub held_words: u64,
    /// The number of operations that were applied, including these.
    pub operations: u32,
    /// The last commit, and its number of operations.
    pub commit: u32,
    pub committed: u32,
    /// The earliest commit on which the oldest reader may stand, and whether there is such a reader, at the last
    /// commit or refusal.
    pub oldest: u32,
    pub is_held: u32,
    /// How many buffers are in use, and how many wait for readers. The others are free.
    pub active: u32,
    pub held: u32,
    pub buffers: u32,
    pub words: u32,
    /// The number of readers that are still to be handed out.
    pub readers: u32,
}
