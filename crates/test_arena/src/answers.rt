//! The results of a row's calls, and how a row writes them.
use arena_api::{Advance, Oldest};
use std::alloc::AllocError;
use store_api::StoreError;
use test_kit::{Committed, Look};

#[derive(Clone, Copy, Drop)]
pub enum Answer {
    Buffer(u32),
    NoBuffer,
    /// A buffer, and the commit of its node.
    Placed(u32, Committed),
    /// A buffer, and an empty commit after it.
    Claimed(u32, u32),
    Committed(Committed),
    NoCommit,
    /// The reference of a new entry, or none if the entry was made before.
    Entry(Option<u32>),
    /// The same for a node, with its commit.
    Turned(Option<u32>, Committed),
    Refused(StoreError),
    /// How many entries a unit made, how many of them are new, and why no more were made.
    Made(u32, u32, Option<StoreError>),
    Advanced(Advance),
    Reclaimed(Oldest),
    Count(u32),
    Seat,
    NoSeat(u32),
    Aimed,
    Guards(Look),
    Closed(u64),
    Done,
    /// The seat is not in a state for the task.
    Unfit,
}

fn push_advance(text: &mut String, advance: Advance) -> Result<(), AllocError> {
    match advance {
        Advance::To { generation, hold } => write!(text, "to {generation} on {hold}"),
        Advance::NoHold { holds, found } => write!(text, "no hold of {holds}, found {found}"),
        Advance::Spent { generation } => write!(text, "spent at {generation}"),
    }
}

fn push_oldest(text: &mut String, oldest: Oldest) -> Result<(), AllocError> {
    write!(text, "oldest {} on {}", oldest.generation, oldest.hold)?;
    if oldest.newest {
        return Ok(());
    }
    write!(text, " in use {}", oldest.found)
}

fn push_commit(text: &mut String, committed: Committed) -> Result<(), AllocError> {
    write!(text, "commit {}, ", committed.number)?;
    push_advance(text, committed.advance)?;
    write!(text, ", ")?;
    push_oldest(text, committed.oldest)
}

fn push_entry(text: &mut String, made: Option<u32>) -> Result<(), AllocError> {
    match made {
        Some(reference) => write!(text, "new {reference}"),
        None => write!(text, "again"),
    }
}

fn push_error(text: &mut String, error: StoreError) -> Result<(), AllocError> {
    match error {
        StoreError::Full {
            width,
            active,
            held,
            oldest,
        } => {
            write!(text, "full for {width}, {active} active, {held} held, ")?;
            push_oldest(text, oldest)
        }
        StoreError::Memory => write!(text, "no memory"),
    }
}

fn push_made(
    text: &mut String,
    made: u32,
    fresh: u32,
    error: Option<StoreError>,
) -> Result<(), AllocError> {
    write!(text, "{made} made, {fresh} new")?;
    match error {
        Some(error) => {
            write!(text, ", ")?;
            push_error(text, error)
        }
        None => Ok(()),
    }
}

fn push_look(text: &mut String, look: Look) -> Result<(), AllocError> {
    let Look { commit, whole } = look;
    match whole {
        None => write!(text, "commit {commit} empty"),
        Some(true) => write!(text, "commit {commit} whole"),
        Some(false) => write!(text, "commit {commit} with words of another"),
    }
}

/// Writes how a row says an answer.
pub fn push_answer(text: &mut String, answer: Answer) -> Result<(), AllocError> {
    match answer {
        Answer::Buffer(buffer) => write!(text, "buffer {buffer}"),
        Answer::NoBuffer => write!(text, "no buffer"),
        Answer::Placed(buffer, committed) => {
            write!(text, "buffer {buffer}, ")?;
            push_commit(text, committed)
        }
        Answer::Claimed(buffer, number) => write!(text, "buffer {buffer}, commit {number}"),
        Answer::Committed(committed) => push_commit(text, committed),
        Answer::NoCommit => write!(text, "no commit"),
        Answer::Entry(made) => push_entry(text, made),
        Answer::Turned(made, committed) => {
            push_entry(text, made)?;
            write!(text, ", ")?;
            push_commit(text, committed)
        }
        Answer::Refused(error) => push_error(text, error),
        Answer::Made(made, fresh, error) => push_made(text, made, fresh, error),
        Answer::Advanced(advance) => push_advance(text, advance),
        Answer::Reclaimed(oldest) => push_oldest(text, oldest),
        Answer::Count(count) => write!(text, "{count}"),
        Answer::Seat => write!(text, "seat"),
        Answer::NoSeat(made) => write!(text, "no seat after {made}"),
        Answer::Aimed => write!(text, "aimed"),
        Answer::Guards(look) => push_look(text, look),
        Answer::Closed(found) => write!(text, "closed {found}"),
        Answer::Done => write!(text, "done"),
        Answer::Unfit => write!(text, "unfit"),
    }
}
