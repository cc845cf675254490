//! What the calls of a collection of attributes answer.

ghost use Rattle.std.specs.Prelude.{◌≡◌};
ghost use Rattle.std.specs.Option.{option_map};
ghost use Rattle.attribute_kinds.specs.Refusals.{has_finished, refusal_of_store, told_of};

use arena_api::{Advance, Oldest};
use compaction_steps::Step;
use entry_ref::EntryRef;
use store_api::StoreError;
use thiserror::Error;

/// Why an operation or a commit was refused. Everything is as it was, and the call may be repeated.
#[derive(Clone, Copy, Debug, PartialEq, Eq, Drop, Error)]
pub enum AttrError {
    /// The store has no space for an entry of this width: no buffer is free.
    #[error("no room for an entry of {width} words: {active} buffers are active, {held} on hold")]
    Full {
        width: u32,
        active: u32,
        held: u32,
        oldest: Oldest,
    },
    /// This commit is the last possible one.
    #[error("commit {commit} is the last that there can be")]
    CommitsSpent {
        commit: u32,
    },
    /// Memory ran out.
    #[error("memory ran out")]
    Memory,
}

/// The result of a commit.
#[derive(Clone, Copy, Drop)]
pub struct CommitInfo {
    pub commit: u32,
    /// The number of operations in the commit.
    pub operations: u32,
    pub advance: Advance,
    pub oldest: Oldest,
}

/// The last commit: its root record (0 before the first), its number, and its number of operations.
#[derive(Clone, Copy, Drop)]
pub struct Published<const OFFSET_BITS: u32> {
    pub root: EntryRef<OFFSET_BITS>,
    pub commit: u32,
    pub operations: u32,
}

/// The result of a step of a compaction.
#[derive(Clone, Copy, Drop)]
pub enum Compacted {
    /// No compaction is in progress, and none was begun: an emptied buffer waits for its commit, or no buffer is
    /// worth it.
    Idle,
    /// This many keys were visited. If `stop` is set, the next key was refused for that reason.
    Moved { keys: u32, stop: Option<AttrError> },
    /// The attributes no longer use anything in this buffer. It goes on hold with the next commit.
    Finished(u32),
}

/// Converts a refusal of the store.
pub fn refusal(error: StoreError) -> AttrError
    ensures { result ≡ refusal_of_store error }
{
    match error {
        StoreError::Full {
            width,
            active,
            held,
            oldest,
        } => AttrError::Full {
            width,
            active,
            held,
            oldest,
        },
        StoreError::Memory => AttrError::Memory,
    }
}

/// Converts a refusal of the store, if there is one.
fn stop_of(stop: Option<StoreError>) -> Option<AttrError>
    ensures { result ≡ option_map refusal_of_store stop }
{
    match stop {
        Some(error) => Some(refusal(error)),
        None => None,
    }
}

/// Converts the result of a step.
pub fn told(step: Result<Step, StoreError>) -> Result<Compacted, AttrError>
    ensures { result ≡ told_of step }
{
    match step {
        Ok(Step::Idle) => Ok(Compacted::Idle),
        Ok(Step::Moved { keys, stop }) => Ok(Compacted::Moved {
            keys,
            stop: stop_of(stop),
        }),
        Ok(Step::Finished(buffer)) => Ok(Compacted::Finished(buffer)),
        Err(error) => Err(refusal(error)),
    }
}

/// Returns whether an emptied buffer waits for its commit after this step.
pub fn has_finished(step: &Result<Step, StoreError>) -> bool
    ensures { result ≡ has_finished step.now }
{
    match step {
        Ok(Step::Idle) => false,
        Ok(Step::Moved { .. }) => false,
        Ok(Step::Finished(_)) => true,
        Err(_) => false,
    }
}
