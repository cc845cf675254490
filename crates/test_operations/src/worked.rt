//! Operations of a feed on attributes without documents, in the order of a row's lines, and the forms of the lists then.
ghost use Rattle.std.specs.Prelude.{◌≡◌, ◌<◌, ◌≤◌, length};
ghost use Rattle.attr_types.specs.declared.field.TheConstants.{MOST_FIELDS};

use crate::forms::push_forms;
use crate::turn::{Answer, Noted, apply_one, close, commit_one, new_attribute};
use attr_io::SliceSource;
use attr_types::{Applied, Fields, Op, Ops};
use attribute_kinds::{Attribute, Published};
use feed_reader::{FeedError, read_feed};
use image_format::AttrLayout;
use std::alloc::{AllocError, Global};
use store_api::Store;

/// A row: its buffers, whether frequent values have bit vectors, and its operations and commits.
#[derive(Clone, Copy)]
pub struct Worked<'a> {
    pub buffers: u32,
    pub dense: bool,
    pub lines: &'a str,
}

/// Reads a line. It has no contract, so that the proofs of its callers stay small.
fn read(alloc: Global, line: &str, fields: &Fields) -> Result<Ops, FeedError> {
    read_feed(alloc, &mut SliceSource::new(line.as_bytes()), fields)
}

/// Applies the only operation of a line.
fn apply_only<const OFFSET_BITS: u32, S: Store<OFFSET_BITS, Layout = AttrLayout>>(
    alloc: Global,
    attribute: &mut Attribute<OFFSET_BITS, S>,
    fields: &Fields,
    ops: &[Op],
    changed: &mut u32,
) -> Result<(), AllocError>
    requires same { attribute.old.fields ≡ fields.now }
    ensures same { attribute.new.fields ≡ fields.now }
{
    if let [op] = ops {
        let answer = apply_one(alloc, attribute, fields, op)?;
        if matches!(answer, Answer::Applied(Applied::Changed)) {
            *changed = changed.saturating_add(1);
        }
    }
    Ok(())
}

/// Applies the operation of a line.
fn apply_line<const OFFSET_BITS: u32, S: Store<OFFSET_BITS, Layout = AttrLayout>>(
    alloc: Global,
    attribute: &mut Attribute<OFFSET_BITS, S>,
    fields: &Fields,
    line: &str,
    changed: &mut u32,
) -> Result<(), AllocError>
    requires same { attribute.old.fields ≡ fields.now }
    ensures same { attribute.new.fields ≡ fields.now }
{
    match read(alloc, line, fields) {
        Ok(ops) => apply_only(alloc, attribute, fields, ops.as_slice(), changed),
        Err(_) => Ok(()),
    }
}

/// Makes a commit, or applies an operation.
fn take_line<const OFFSET_BITS: u32, S: Store<OFFSET_BITS, Layout = AttrLayout>>(
    alloc: Global,
    attribute: &mut Attribute<OFFSET_BITS, S>,
    fields: &Fields,
    line: &str,
    changed: &mut u32,
) -> Result<(), AllocError>
    requires same { attribute.old.fields ≡ fields.now }
    ensures same { attribute.new.fields ≡ fields.now }
{
    if line == "commit" {
        let _ = commit_one(attribute, fields)?;
        return Ok(());
    }
    apply_line(alloc, attribute, fields, line, changed)
}

fn take_lines<const OFFSET_BITS: u32, S: Store<OFFSET_BITS, Layout = AttrLayout>>(
    alloc: Global,
    attribute: &mut Attribute<OFFSET_BITS, S>,
    fields: &Fields,
    lines: &str,
    changed: &mut u32,
) -> Result<(), AllocError>
    requires same { attribute.old.fields ≡ fields.now }
    ensures same { attribute.new.fields ≡ fields.now }
{
    for line in lines.lines() {
        take_line(alloc, attribute, fields, line, changed)?;
    }
    Ok(())
}

/// Writes how many operations changed something, and the forms of the lists of the last commit, if all lines were taken.
fn tell_last<const OFFSET_BITS: u32, W: Noted>(
    alloc: Global,
    work: &W,
    last: Published<OFFSET_BITS>,
    fields: &Fields,
    changed: u32,
    told: &mut String,
) -> Result<(), AllocError> {
    write!(told, " {changed} changed")?;
    match work.notes() {
        Some(records) => push_forms(
            alloc,
            fields.as_slice(),
            records,
            u64::from(last.root.raw()),
            told,
        ),
        None => Err(AllocError),
    }
}

/// The attributes are closed also if a line is not taken, so that nothing drops them.
fn tell_all(
    alloc: Global,
    fields: &Fields,
    row: Worked<'_>,
    told: &mut String,
) -> Result<(), AllocError>
    requires some { 0 < length fields.now }
    requires few { length fields.now ≤ MOST_FIELDS }
{
    let buffers = row.buffers.max(1).min(1000);
    let mut attribute = new_attribute(alloc, fields, buffers, true, row.dense)?;
    let mut changed = 0;
    let taken = take_lines(alloc, &mut attribute, fields, row.lines, &mut changed);
    let (work, last) = close(attribute, fields);
    taken?;
    tell_last(alloc, &work, last, fields, changed, told)
}

/// Returns what is told of a row.
pub fn told_of(alloc: Global, fields: &Fields, row: Worked<'_>) -> Result<String, AllocError>
    requires some { 0 < length fields.now }
    requires few { length fields.now ≤ MOST_FIELDS }
{
    let mut told = String::new(alloc);
    tell_all(alloc, fields, row, &mut told)?;
    Ok(told)
}
