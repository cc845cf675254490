//! The memory of a run: the one that may have readers, without a reader.
ghost use Rattle.std.specs.Prelude.{◌≡◌, ◌<◌, ◌≤◌, length};
ghost use Rattle.arena_api.specs.Calls.{IsFresh};
ghost use Rattle.image_format.specs.Shapes.{shape_of, types_of};
ghost use Rattle.attr_types.specs.declared.field.TheConstants.{MOST_FIELDS};
ghost use Rattle.word_arena.specs.Knows.{view_of};
ghost use Rattle.word_arena.specs.Ruled.{writer_of};

use crate::course::{Course, Load};
use crate::outcome::Outcome;
use crate::run::{finish, open, play_out, work_of};
use attr_types::Fields;
use image_format::{AttrLayout, shape_of};
use std::alloc::{AllocError, Global};
use word_arena::{Arena, Config, Limits, Writer};

/// Makes a run over a writer that has committed nothing.
fn run_on(
    alloc: Global,
    writer: Writer<22, AttrLayout>,
    fields: &Fields,
    course: &mut Course,
) -> Result<Outcome, AllocError>
    requires some { 0 < length fields.now }
    requires few { length fields.now ≤ MOST_FIELDS }
    requires shape { (writer_of writer.place.me.0).sizes.shape ≡ shape_of (types_of fields.now) }
    requires fresh { IsFresh (view_of writer.place.table_id (writer_of writer.place.me.0)) }
{
    let attribute = open(alloc, writer, fields, course.load)?;
    let (store, ending) = play_out(alloc, attribute, fields, course);
    let watch = work_of(store).into_watch(ending.root);
    finish(course, ending, &watch)
}

/// Makes a run over a memory of this many buffers of 8,192 words.
fn run_over(
    alloc: Global,
    fields: &Fields,
    buffers: u32,
    course: &mut Course,
) -> Result<Outcome, AllocError>
    requires some { 0 < length fields.now }
    requires few { length fields.now ≤ MOST_FIELDS }
    requires buffers { 1 ≤ buffers }
    requires fit { buffers ≤ 1000 }
{
    let config = Config {
        buffers,
        words: 8192,
        shape: shape_of(fields),
        limits: Limits {
            commits: 4_294_967_295,
            generations: 281_474_976_710_655,
        },
    };
    let (arena, token) = Arena::<22, AttrLayout>::create(alloc, config)?;
    let writer = arena.writer(alloc, token)?;
    run_on(alloc, writer, fields, course)
}

/// Makes a run, beginning with attributes without documents.
pub fn run(alloc: Global, fields: &Fields, load: Load) -> Result<Outcome, AllocError>
    requires some { 0 < length fields.now }
    requires few { length fields.now ≤ MOST_FIELDS }
{
    let mut course = Course::new(alloc, fields, load)?;
    let buffers = load.buffers.max(1).min(1000);
    run_over(alloc, fields, buffers, &mut course)
}
