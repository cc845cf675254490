//! Episodes of operations. Each begins without documents, and at its end the last commit is compared.
ghost use Rattle.std.specs.Prelude.{◌≡◌, ◌<◌, ◌≤◌, length};
ghost use Rattle.attr_types.specs.declared.field.TheConstants.{MOST_FIELDS};

use crate::counts::Told;
use crate::image::check_notes;
use crate::make::{Sizes, op_of};
use crate::turn::{
    Answer, Committed, Noted, apply_one, apply_plain, close, commit_one, new_attribute, new_plain,
};
use attr_types::{Applied, Fields, Op};
use attribute_kinds::{Attribute, Published};
use image_format::AttrLayout;
use plain_model::PlainTable;
use std::alloc::{AllocError, Global};
use store_api::Store;
use test_kit::Random;

/// The parameters of a run.
#[derive(Clone, Copy)]
pub struct Load {
    pub seed: u32,
    pub episodes: u32,
    /// The greatest number of operations of an episode.
    pub operations: u32,
    pub sizes: Sizes,
    /// The number of operations between commits.
    pub commits: u32,
    pub buffers: u32,
    /// Whether the slow checker reads the image at the end of each episode.
    pub checks: bool,
    /// Whether frequent values have bit vectors.
    pub dense: bool,
}

/// Makes a commit. Returns whether the episode continues.
fn commit_now<const OFFSET_BITS: u32, S: Store<OFFSET_BITS, Layout = AttrLayout>>(
    attribute: &mut Attribute<OFFSET_BITS, S>,
    fields: &Fields,
    operations: u32,
    told: &mut Told,
) -> Result<bool, AllocError>
    requires same { attribute.old.fields ≡ fields.now }
    ensures same { attribute.new.fields ≡ fields.now }
{
    match commit_one(attribute, fields)? {
        Committed::At { operations: count } => {
            told.commits = told.commits.saturating_add(1);
            told.committed = operations;
            if count != operations {
                told.differs = true;
            }
            Ok(count == operations)
        }
        Committed::Full => {
            told.full = told.full.saturating_add(1);
            Ok(false)
        }
        Committed::Odd => {
            told.differs = true;
            Ok(false)
        }
    }
}

/// Applies a refused operation again, after a commit. Returns `None` if the episode ends.
fn apply_again<const OFFSET_BITS: u32, S: Store<OFFSET_BITS, Layout = AttrLayout>>(
    alloc: Global,
    attribute: &mut Attribute<OFFSET_BITS, S>,
    fields: &Fields,
    op: &Op,
    told: &mut Told,
) -> Result<Option<Applied>, AllocError>
    requires same { attribute.old.fields ≡ fields.now }
    ensures same { attribute.new.fields ≡ fields.now }
{
    match apply_one(alloc, attribute, fields, op)? {
        Answer::Applied(applied) => {
            told.again = told.again.saturating_add(1);
            Ok(Some(applied))
        }
        Answer::Full => {
            told.twice = told.twice.saturating_add(1);
            Ok(None)
        }
        Answer::Odd => {
            told.differs = true;
            Ok(None)
        }
    }
}

/// Continues after a refusal: one episode in eight ends at once, one in eight after a commit, and the others
/// continue.
fn apply_refused<const OFFSET_BITS: u32, S: Store<OFFSET_BITS, Layout = AttrLayout>>(
    alloc: Global,
    attribute: &mut Attribute<OFFSET_BITS, S>,
    fields: &Fields,
    op: &Op,
    operations: u32,
    told: &mut Told,
) -> Result<Option<Applied>, AllocError>
    requires same { attribute.old.fields ≡ fields.now }
    ensures same { attribute.new.fields ≡ fields.now }
{
    told.refused = told.refused.saturating_add(1);
    if told.refused % 8 == 4 {
        return Ok(None);
    }
    if !commit_now(attribute, fields, operations, told)? {
        return Ok(None);
    }
    if told.refused % 8 == 0 {
        return Ok(None);
    }
    apply_again(alloc, attribute, fields, op, told)
}

/// Applies an operation to attributes. Returns `None` if the episode ends.
fn apply<const OFFSET_BITS: u32, S: Store<OFFSET_BITS, Layout = AttrLayout>>(
    alloc: Global,
    attribute: &mut Attribute<OFFSET_BITS, S>,
    fields: &Fields,
    op: &Op,
    operations: u32,
    told: &mut Told,
) -> Result<Option<Applied>, AllocError>
    requires same { attribute.old.fields ≡ fields.now }
    ensures same { attribute.new.fields ≡ fields.now }
{
    match apply_one(alloc, attribute, fields, op)? {
        Answer::Applied(applied) => Ok(Some(applied)),
        Answer::Full => apply_refused(alloc, attribute, fields, op, operations, told),
        Answer::Odd => {
            told.differs = true;
            Ok(None)
        }
    }
}

fn count(told: &mut Told, applied: Applied) {
    match applied {
        Applied::Changed => told.changed = told.changed.saturating_add(1),
        Applied::Skipped => told.skipped = told.skipped.saturating_add(1),
    }
}

/// Applies the same operation to the plain table. Returns whether the result is the same.
fn follow(
    alloc: Global,
    plain: &mut PlainTable,
    fields: &Fields,
    op: Op,
    applied: Applied,
    told: &mut Told,
) -> Result<bool, AllocError>
    requires beside { plain.old.fields ≡ fields.now }
    ensures beside { plain.new.fields ≡ fields.now }
{
    if apply_plain(alloc, plain, fields, op)? == Some(applied) {
        count(told, applied);
        return Ok(true);
    }
    told.differs = true;
    Ok(false)
}

/// Applies one operation to both. Returns whether the episode continues.
fn apply_both<const OFFSET_BITS: u32, S: Store<OFFSET_BITS, Layout = AttrLayout>>(
    alloc: Global,
    attribute: &mut Attribute<OFFSET_BITS, S>,
    plain: &mut PlainTable,
    fields: &Fields,
    op: Op,
    operations: u32,
    told: &mut Told,
) -> Result<bool, AllocError>
    requires same { attribute.old.fields ≡ fields.now }
    requires beside { plain.old.fields ≡ fields.now }
    ensures same { attribute.new.fields ≡ fields.now }
    ensures beside { plain.new.fields ≡ fields.now }
{
    match apply(alloc, attribute, fields, &op, operations, told)? {
        Some(applied) => follow(alloc, plain, fields, op, applied, told),
        None => Ok(false),
    }
}

/// Makes a turn: an operation, and a commit if it is due. Returns whether the episode continues.
fn take_turn<const OFFSET_BITS: u32, S: Store<OFFSET_BITS, Layout = AttrLayout>>(
    alloc: Global,
    attribute: &mut Attribute<OFFSET_BITS, S>,
    plain: &mut PlainTable,
    fields: &Fields,
    load: Load,
    turn: u32,
    random: &mut Random,
    told: &mut Told,
) -> Result<bool, AllocError>
    requires same { attribute.old.fields ≡ fields.now }
    requires beside { plain.old.fields ≡ fields.now }
    ensures same { attribute.new.fields ≡ fields.now }
    ensures beside { plain.new.fields ≡ fields.now }
{
    let op = op_of(alloc, fields.as_slice(), load.sizes, turn, random)?;
    if !apply_both(alloc, attribute, plain, fields, op, turn, told)? {
        return Ok(false);
    }
    let operations = turn.saturating_add(1);
    if operations % load.commits.max(1) == 0 {
        return commit_now(attribute, fields, operations, told);
    }
    Ok(true)
}

/// Makes the turns of an episode, until something is finally refused.
fn take_turns<const OFFSET_BITS: u32, S: Store<OFFSET_BITS, Layout = AttrLayout>>(
    alloc: Global,
    attribute: &mut Attribute<OFFSET_BITS, S>,
    plain: &mut PlainTable,
    fields: &Fields,
    load: Load,
    random: &mut Random,
    told: &mut Told,
) -> Result<(), AllocError>
    requires same { attribute.old.fields ≡ fields.now }
    requires beside { plain.old.fields ≡ fields.now }
    ensures same { attribute.new.fields ≡ fields.now }
{
    for turn in 0..load.operations {
        if !take_turn(alloc, attribute, plain, fields, load, turn, random, told)? {
            return Ok(());
        }
    }
    Ok(())
}

/// Returns the plain table after a number of operations of an episode.
fn plain_after(
    alloc: Global,
    fields: &Fields,
    sizes: Sizes,
    start: Random,
    operations: u32,
) -> Result<PlainTable, AllocError> {
    let mut random = start;
    let mut plain = new_plain(alloc, fields)?;
    for turn in 0..operations {
        let op = op_of(alloc, fields.as_slice(), sizes, turn, &mut random)?;
        let _ = apply_plain(alloc, &mut plain, fields, op)?;
    }
    Ok(plain)
}

/// Makes the turns of an episode on both, beginning without documents.
fn play<const OFFSET_BITS: u32, S: Store<OFFSET_BITS, Layout = AttrLayout>>(
    alloc: Global,
    attribute: &mut Attribute<OFFSET_BITS, S>,
    fields: &Fields,
    load: Load,
    random: &mut Random,
    told: &mut Told,
) -> Result<(), AllocError>
    requires same { attribute.old.fields ≡ fields.now }
    ensures same { attribute.new.fields ≡ fields.now }
{
    let mut plain = new_plain(alloc, fields)?;
    told.committed = 0;
    take_turns(alloc, attribute, &mut plain, fields, load, random, told)
}

/// Compares the last commit with the plain table after its operations, by the slow checker if the records were noted.
fn check_last<const OFFSET_BITS: u32, W: Noted>(
    alloc: Global,
    work: &W,
    last: Published<OFFSET_BITS>,
    fields: &Fields,
    load: Load,
    start: Random,
    told: &mut Told,
) -> Result<(), AllocError>
    requires few { length fields.now ≤ MOST_FIELDS }
{
    told.episodes = told.episodes.saturating_add(1);
    if last.operations != told.committed {
        told.differs = true;
    }
    let root = u64::from(last.root.raw());
    let wanted = plain_after(alloc, fields, load.sizes, start, told.committed)?;
    check_notes(alloc, fields, work, root, &wanted, told)
}

/// Plays an episode. The attributes are closed also if a turn is not made, so that nothing drops them.
fn episode(
    alloc: Global,
    fields: &Fields,
    load: Load,
    random: &mut Random,
    told: &mut Told,
) -> Result<(), AllocError>
    requires some { 0 < length fields.now }
    requires few { length fields.now ≤ MOST_FIELDS }
{
    let start = *random;
    let buffers = load.buffers.max(1).min(1000);
    let mut attribute = new_attribute(alloc, fields, buffers, load.checks, load.dense)?;
    let played = play(alloc, &mut attribute, fields, load, random, told);
    let (work, last) = close(attribute, fields);
    played?;
    check_last(alloc, &work, last, fields, load, start, told)
}

/// Makes the episodes of a run, one after another, until something differs.
pub fn run(alloc: Global, fields: &Fields, load: Load) -> Result<Told, AllocError>
    requires some { 0 < length fields.now }
    requires few { length fields.now ≤ MOST_FIELDS }
{
    let mut random = Random::new(load.seed);
    let mut told = Told::default();
    for _ in 0..load.episodes {
        episode(alloc, fields, load, &mut random, &mut told)?;
        if told.differs {
            return Ok(told);
        }
    }
    Ok(told)
}
