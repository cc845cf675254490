//! What each seat knows, as plain data that a seat of the table can carry.

use entry_ref::Image;
use std::collections::LinkedList;

/// The number of bits of a reference that hold its offset, the number of buffers, the words of each, the shape of the
/// images, and the limits of commit numbers and generations.
#[derive(Clone, Copy)]
pub struct Sizes {
    pub offset_bits: u64,
    pub buffers: u64,
    pub words: u64,
    pub shape: u64,
    pub commit_limit: u64,
    pub generation_limit: u64,
}

/// An open hold of the queue: its generation, its number, and the first commit that it protects.
#[derive(Clone, Copy)]
pub struct OpenHold {
    pub generation: u64,
    pub hold: u64,
    pub first_commit: u64,
}

/// An unfinished change of the queue: none, a hold that is reopened but not in the queue, or the newest hold found
/// unused.
#[derive(Clone, Copy)]
pub enum Pending {
    Nothing,
    Next(u64),
    Probed,
}

/// The open holds in ascending order, with the newest apart, and the unfinished change.
pub struct Queue {
    pub older: LinkedList<OpenHold>,
    pub newest: OpenHold,
    pub pending: Pending,
}

/// The generation and the last commit at the time when a buffer was put on hold.
#[derive(Clone, Copy)]
pub struct Tag {
    pub generation: u64,
    pub commit: u64,
}

/// A buffer is free, with its last tag; active, with its width (0 until the width is stored) and its last tag; or on
/// hold, with its width and its tag.
#[derive(Clone, Copy)]
pub enum Buffer {
    Free(Option<Tag>),
    Active(u64, Option<Tag>),
    Held(u64, Tag),
}

/// How often the writer found a hold in use, and the last count that it found.
#[derive(Clone, Copy)]
pub struct Stops {
    pub count: u64,
    pub found: u64,
}

/// The commits (the first is empty), the queue of open holds, the buffers, the words stored since the last commit
/// (the newest first), what joined readers saw and their last views (the last joined first), and the number of readers
/// made.
pub struct WriterView {
    pub sizes: Sizes,
    pub commits: LinkedList<Image>,
    pub queue: Queue,
    pub buffers: LinkedList<Buffer>,
    pub work: LinkedList<(u64, u64)>,
    pub saw: LinkedList<(u64, Image)>,
    pub taken: LinkedList<ReaderView>,
    pub made: u64,
    pub stops: Stops,
}

/// The state of a reader: idle; aimed at a generation and its hold; raised on an open hold; on its way back from a
/// closed hold; guarding a commit by a hold; or joined.
#[derive(Clone, Copy)]
pub enum ReaderState {
    Idle,
    Aimed(u64, u64),
    Raised(u64),
    Bounced(u64),
    Guarded(u64, u64),
    Spent,
}

/// How many raises of a reader found a closed hold since its last release, and the last count found.
#[derive(Clone, Copy)]
pub struct Misses {
    pub count: u64,
    pub found: u64,
}

/// The reader's place among the readers made; the last commit seen; the least generation to aim at; the generation at which the reader aimed first since its
/// last release, and the misses since then; and each commit seen, the newest first.
pub struct ReaderView {
    pub sizes: Sizes,
    pub number: u64,
    pub seen: u64,
    pub least: u64,
    pub first: u64,
    pub misses: Misses,
    pub state: ReaderState,
    pub saw: LinkedList<(u64, Image)>,
}

/// What one seat knows.
pub enum View {
    Writer(WriterView),
    Reader(ReaderView),
}

/// The events. Each is one step of one seat on one word. A reader is named by its place among the readers made. The
/// writer's loads, of the root after a join (`MeetLoad`) and of a buffer's word (`LoadOwn`), and a reader's load of a
/// word of its image (`LoadWord`) change nothing. The root is loaded by a reader that keeps a hold open, for a guard
/// or again under one.
#[derive(Clone, Copy)]
pub enum Event {
    /// A buffer and its width.
    StoreWidth(u64, u64),
    /// A place and a word.
    StoreWord(u64, u64),
    /// A place, whose word counts as stored.
    FindWord(u64),
    HandOut(u64),
    /// A root.
    Publish(u64),
    PutOnHold(u64),
    FreeBuffer(u64),
    Reopen(u64),
    StoreNewest,
    Close,
    StopAtOldest,
    Probe,
    StopAtNewest,
    Morph,
    Split,
    /// The reader that is joined.
    Join(u64),
    MeetLoad,
    LoadOwn(u64),
    LoadNewest(u64),
    Raise(u64),
    Bounce(u64),
    LoadRoot(u64),
    /// A reader and a place.
    LoadWord(u64, u64),
    Release(u64),
}
