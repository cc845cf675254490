//! One operation, one commit and one step of a compaction of attributes in a store.
ghost use Rattle.std.specs.Prelude.{◌≡◌};

use attr_types::{Applied, Fields, Op, fits};
use attribute_kinds::{AttrError, Attribute, Compacted};
use image_format::AttrLayout;
use std::alloc::{AllocError, Global};
use store_api::Store;

/// The result of a call.
#[derive(Clone, Copy)]
pub enum Answer {
    Done,
    Full,
    /// A result that cannot occur.
    Odd,
}

/// The result of a step of a compaction.
#[derive(Clone, Copy)]
pub enum Stepped {
    Idle,
    /// This many keys were visited.
    Moved(u32),
    /// This many keys were visited, and there was no space for the next.
    Stopped(u32),
    Finished(u32),
    /// There was no space for the first.
    Full,
    /// There was no memory for the first.
    Short,
    /// This many keys were visited, and there was no memory for the next.
    Cut(u32),
    /// A result that cannot occur.
    Odd,
}

fn refusal_of(error: AttrError) -> Result<Answer, AllocError> {
    match error {
        AttrError::Full { .. } => Ok(Answer::Full),
        AttrError::CommitsSpent { .. } => Ok(Answer::Odd),
        AttrError::Memory => Err(AllocError),
    }
}

/// Applies an operation that changes the table.
pub fn apply_one<const OFFSET_BITS: u32, S: Store<OFFSET_BITS, Layout = AttrLayout>>(
    alloc: Global,
    attribute: &mut Attribute<OFFSET_BITS, S>,
    fields: &Fields,
    op: &Op,
) -> Result<Answer, AllocError>
    requires same { attribute.old.fields ≡ fields.now }
    ensures same { attribute.new.fields ≡ fields.now }
{
    if !fits(fields, op) {
        return Ok(Answer::Odd);
    }
    if attribute.operations() == u32::MAX {
        return Ok(Answer::Odd);
    }
    match attribute.apply(alloc, op) {
        Ok(Applied::Changed) => Ok(Answer::Done),
        Ok(Applied::Skipped) => Ok(Answer::Odd),
        Err(error) => refusal_of(error),
    }
}

/// Makes a commit.
pub fn commit_one<const OFFSET_BITS: u32, S: Store<OFFSET_BITS, Layout = AttrLayout>>(
    attribute: &mut Attribute<OFFSET_BITS, S>,
    fields: &Fields,
) -> Result<Answer, AllocError>
    requires same { attribute.old.fields ≡ fields.now }
    ensures same { attribute.new.fields ≡ fields.now }
{
    match attribute.commit() {
        Ok(_) => Ok(Answer::Done),
        Err(error) => refusal_of(error),
    }
}

fn stop_of(keys: u32, error: AttrError) -> Stepped {
    match error {
        AttrError::Full { .. } => Stepped::Stopped(keys),
        AttrError::CommitsSpent { .. } => Stepped::Odd,
        AttrError::Memory => Stepped::Cut(keys),
    }
}

/// Makes one step of a compaction.
pub fn step_one<const OFFSET_BITS: u32, S: Store<OFFSET_BITS, Layout = AttrLayout>>(
    alloc: Global,
    attribute: &mut Attribute<OFFSET_BITS, S>,
    fields: &Fields,
    keys: u32,
) -> Stepped
    requires same { attribute.old.fields ≡ fields.now }
    ensures same { attribute.new.fields ≡ fields.now }
{
    if keys == 0 {
        return Stepped::Odd;
    }
    match attribute.compact_step(alloc, keys) {
        Ok(Compacted::Idle) => Stepped::Idle,
        Ok(Compacted::Finished(buffer)) => Stepped::Finished(buffer),
        Ok(Compacted::Moved { keys: done, stop }) => match stop {
            Some(error) => stop_of(done, error),
            None => Stepped::Moved(done),
        },
        Err(AttrError::Full { .. }) => Stepped::Full,
        Err(AttrError::CommitsSpent { .. }) => Stepped::Odd,
        Err(AttrError::Memory) => Stepped::Short,
    }
}
