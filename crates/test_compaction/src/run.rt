//! A run: operations with commits between them, followed by compactions.
ghost use Rattle.std.specs.Prelude.{◌≡◌, ◌<◌, ◌≤◌, length, IfOk};
ghost use Rattle.arena_api.specs.Calls.{IsFresh};
ghost use Rattle.image_format.specs.Shapes.{shape_of, types_of};
ghost use Rattle.attr_types.specs.declared.field.TheConstants.{MOST_FIELDS};
ghost use Rattle.word_arena.specs.Knows.{view_of};
ghost use Rattle.word_arena.specs.Ruled.{writer_of};

use crate::course::{Course, Load};
use crate::outcome::{Outcome, outcome_of};
use crate::steps::{load_all, take_steps};
use crate::watch::Watch;
use crate::watched::Watched;
use arena_api::Work;
use attr_types::Fields;
use attribute_kinds::Attribute;
use entry_store::EntryStore;
use image_format::AttrLayout;
use std::alloc::{AllocError, Global};
use store_api::Store;
use word_arena::Writer;

/// Creates attributes without documents over a work whose commits are watched.
pub fn open(
    alloc: Global,
    work: Writer<22, AttrLayout>,
    fields: &Fields,
    load: Load,
) -> Result<Attribute<22, EntryStore<22, Watched>>, AllocError>
    requires some { 0 < length fields.now }
    requires few { length fields.now ≤ MOST_FIELDS }
    requires shape { (writer_of work.place.me.0).sizes.shape ≡ shape_of (types_of fields.now) }
    requires fresh { IsFresh (view_of work.place.table_id (writer_of work.place.me.0)) }
    ensures fields { IfOk result (λ a. a.fields ≡ fields.now) }
{
    let watch = Watch::new(alloc, fields, load)?;
    match Attribute::create(alloc, Watched::new(alloc, work, watch), fields, load.dense) {
        Ok(attribute) => Ok(attribute),
        Err(_) => Err(AllocError),
    }
}

/// Makes the operations of a row, and the compactions after them.
fn play<const OFFSET_BITS: u32, S: Store<OFFSET_BITS, Layout = AttrLayout>>(
    alloc: Global,
    attribute: &mut Attribute<OFFSET_BITS, S>,
    fields: &Fields,
    course: &mut Course,
) -> Result<(), AllocError>
    requires few { length fields.now ≤ MOST_FIELDS }
    requires same { attribute.old.fields ≡ fields.now }
    ensures same { attribute.new.fields ≡ fields.now }
{
    if !load_all(alloc, attribute, fields, course)? {
        return Ok(());
    }
    take_steps(alloc, attribute, fields, course, course.load.finishes)
}

/// How a run ended: whether it had enough memory, and its last commit, by its root and its number.
#[derive(Drop)]
pub struct Ending {
    played: Result<(), AllocError>,
    pub root: u64,
    commits: u32,
}

/// Makes a run on attributes without documents. They are closed also if memory was exhausted, since dropping them is
/// more expensive to prove.
pub fn play_out<const OFFSET_BITS: u32, S: Store<OFFSET_BITS, Layout = AttrLayout>>(
    alloc: Global,
    attribute: Attribute<OFFSET_BITS, S>,
    fields: &Fields,
    course: &mut Course,
) -> (S, Ending)
    requires few { length fields.now ≤ MOST_FIELDS }
    requires same { attribute.fields ≡ fields.now }
{
    let mut attribute = attribute;
    let played = play(alloc, &mut attribute, fields, course);
    let (store, published) = attribute.into_store();
    let ending = Ending {
        played,
        root: u64::from(published.root.raw()),
        commits: published.commit,
    };
    (store, ending)
}

/// Returns the work of a store.
pub fn work_of<const OFFSET_BITS: u32, W: Work<OFFSET_BITS>>(
    store: EntryStore<OFFSET_BITS, W>,
) -> W {
    store.into_work()
}

/// Returns the result of a run that ended in this way, if it had enough memory.
pub fn finish(course: &Course, ending: Ending, watch: &Watch) -> Result<Outcome, AllocError> {
    ending.played?;
    Ok(outcome_of(course, ending.commits, watch))
}
