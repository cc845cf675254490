//! The operations before the first compaction, the steps of compactions, and what comes between them.
ghost use Rattle.std.specs.Prelude.{◌≡◌};

use crate::course::{Course, Next};
use crate::script::{lowest, op_at};
use crate::turn::{Answer, Stepped, apply_one, commit_one, step_one};
use attr_types::Fields;
use attribute_kinds::Attribute;
use image_format::AttrLayout;
use std::alloc::{AllocError, Global};
use store_api::Store;

/// Makes a commit. Returns whether the run continues.
pub fn commit_now<const OFFSET_BITS: u32, S: Store<OFFSET_BITS, Layout = AttrLayout>>(
    attribute: &mut Attribute<OFFSET_BITS, S>,
    fields: &Fields,
    course: &mut Course,
) -> Result<bool, AllocError>
    requires same { attribute.old.fields ≡ fields.now }
    ensures same { attribute.new.fields ≡ fields.now }
{
    let answer = commit_one(attribute, fields)?;
    Ok(course.note_commit(answer))
}

/// Applies the next operation of the row to the attributes.
fn apply_next<const OFFSET_BITS: u32, S: Store<OFFSET_BITS, Layout = AttrLayout>>(
    alloc: Global,
    attribute: &mut Attribute<OFFSET_BITS, S>,
    fields: &Fields,
    course: &Course,
) -> Result<Answer, AllocError>
    requires same { attribute.old.fields ≡ fields.now }
    ensures same { attribute.new.fields ≡ fields.now }
{
    let number = course.told.operations;
    let op = op_at(
        alloc,
        fields.as_slice(),
        course.load.script,
        number,
        &course.plain,
    )?;
    apply_one(alloc, attribute, fields, &op)
}

/// Makes the next operation of the row. Returns whether the run continues.
fn turn_now<const OFFSET_BITS: u32, S: Store<OFFSET_BITS, Layout = AttrLayout>>(
    alloc: Global,
    attribute: &mut Attribute<OFFSET_BITS, S>,
    fields: &Fields,
    course: &mut Course,
) -> Result<bool, AllocError>
    requires same { attribute.old.fields ≡ fields.now }
    ensures same { attribute.new.fields ≡ fields.now }
{
    let answer = apply_next(alloc, attribute, fields, course)?;
    course.note_turn(alloc, answer)
}

/// Makes an operation before the first compaction, and a commit if it is due. Returns whether the run continues.
fn load_one<const OFFSET_BITS: u32, S: Store<OFFSET_BITS, Layout = AttrLayout>>(
    alloc: Global,
    attribute: &mut Attribute<OFFSET_BITS, S>,
    fields: &Fields,
    course: &mut Course,
    number: u32,
) -> Result<bool, AllocError>
    requires same { attribute.old.fields ≡ fields.now }
    ensures same { attribute.new.fields ≡ fields.now }
{
    let goes_on = turn_now(alloc, attribute, fields, course)?;
    if goes_on && course.is_due(number) {
        return commit_now(attribute, fields, course);
    }
    Ok(goes_on)
}

/// Makes the operations before the first compaction, with commits between them and at the end. Returns whether the
/// run continues.
pub fn load_all<const OFFSET_BITS: u32, S: Store<OFFSET_BITS, Layout = AttrLayout>>(
    alloc: Global,
    attribute: &mut Attribute<OFFSET_BITS, S>,
    fields: &Fields,
    course: &mut Course,
) -> Result<bool, AllocError>
    requires same { attribute.old.fields ≡ fields.now }
    ensures same { attribute.new.fields ≡ fields.now }
{
    for number in 0..course.load.script.load() {
        if !load_one(alloc, attribute, fields, course, number)? {
            return Ok(false);
        }
    }
    Ok(true)
}

/// Removes the lowest document, followed by a commit. Returns whether the run continues.
fn remove_lowest<const OFFSET_BITS: u32, S: Store<OFFSET_BITS, Layout = AttrLayout>>(
    alloc: Global,
    attribute: &mut Attribute<OFFSET_BITS, S>,
    fields: &Fields,
    course: &mut Course,
) -> Result<bool, AllocError>
    requires same { attribute.old.fields ≡ fields.now }
    ensures same { attribute.new.fields ≡ fields.now }
{
    if lowest(&course.plain).is_none() {
        return Ok(false);
    }
    course.told.quiet = false;
    if !turn_now(alloc, attribute, fields, course)? {
        return Ok(false);
    }
    commit_now(attribute, fields, course)
}

/// Makes a commit; then removes the lowest document, followed by a commit. Returns whether the run continues.
fn commit_and_remove<const OFFSET_BITS: u32, S: Store<OFFSET_BITS, Layout = AttrLayout>>(
    alloc: Global,
    attribute: &mut Attribute<OFFSET_BITS, S>,
    fields: &Fields,
    course: &mut Course,
) -> Result<bool, AllocError>
    requires same { attribute.old.fields ≡ fields.now }
    ensures same { attribute.new.fields ≡ fields.now }
{
    if !commit_now(attribute, fields, course)? {
        return Ok(false);
    }
    remove_lowest(alloc, attribute, fields, course)
}

/// Notes that a compaction ended. None is begun until its buffer goes on hold with a commit.
fn end_one<const OFFSET_BITS: u32, S: Store<OFFSET_BITS, Layout = AttrLayout>>(
    alloc: Global,
    attribute: &mut Attribute<OFFSET_BITS, S>,
    fields: &Fields,
    course: &mut Course,
    buffer: u32,
) -> Result<bool, AllocError>
    requires same { attribute.old.fields ≡ fields.now }
    ensures same { attribute.new.fields ≡ fields.now }
{
    if !matches!(step_one(alloc, attribute, fields, 1), Stepped::Idle) {
        course.told.differs = true;
        return Ok(false);
    }
    if !commit_now(attribute, fields, course)? {
        return Ok(false);
    }
    course.end_one(buffer)?;
    Ok(true)
}

/// Makes one step, and what follows it. Returns whether the run continues.
fn step_now<const OFFSET_BITS: u32, S: Store<OFFSET_BITS, Layout = AttrLayout>>(
    alloc: Global,
    attribute: &mut Attribute<OFFSET_BITS, S>,
    fields: &Fields,
    course: &mut Course,
) -> Result<bool, AllocError>
    requires same { attribute.old.fields ≡ fields.now }
    ensures same { attribute.new.fields ≡ fields.now }
{
    let keys = course.next_keys();
    let stepped = step_one(alloc, attribute, fields, keys);
    match course.note_step(keys, stepped) {
        Next::End => Ok(false),
        Next::Step => Ok(true),
        Next::Commit => commit_now(attribute, fields, course),
        Next::Remove => remove_lowest(alloc, attribute, fields, course),
        Next::CommitRemove => commit_and_remove(alloc, attribute, fields, course),
        Next::Finish(buffer) => end_one(alloc, attribute, fields, course, buffer),
    }
}

/// Makes steps until the required number of compactions ended.
pub fn take_steps<const OFFSET_BITS: u32, S: Store<OFFSET_BITS, Layout = AttrLayout>>(
    alloc: Global,
    attribute: &mut Attribute<OFFSET_BITS, S>,
    fields: &Fields,
    course: &mut Course,
    finishes: u32,
) -> Result<(), AllocError>
    requires same { attribute.old.fields ≡ fields.now }
    ensures same { attribute.new.fields ≡ fields.now }
{
    course.begin_steps();
    for _ in 0..20_000u32 {
        if course.told.finished >= finishes {
            return Ok(());
        }
        if !step_now(alloc, attribute, fields, course)? {
            return Ok(());
        }
    }
    course.told.differs = true;
    Ok(())
}
