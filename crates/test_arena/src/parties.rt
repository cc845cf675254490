//! The parties of a row, each in a thread of its own. The parties take their steps in the order of the row, and each
//! waits for its own.
ghost use Rattle.arena_api.specs.Calls.{IsFresh};
ghost use Rattle.word_arena.specs.Knows.{view_of};
ghost use Rattle.word_arena.specs.Ruled.{writer_of};

use crate::keeping::keeper_of;
use crate::playing::{Told, comes, take_steps};
use crate::reading::Stand;
use crate::steps::{Setting, Step};
use crate::writing::{Past, write_on};
use entry_store::EntryStore;
use std::alloc::{AllocError, Global};
use std::sync::atomic::{AtomicU64, Ordering};
use std::thread::{Threads, map_vec};
use test_kit::OneNode;
use word_arena::{Arena, Config, Limits, Reader, Writer};

/// The writer's seat of a new memory.
#[derive(Drop)]
struct Fresh {
    writer: Writer<22, OneNode>,
    ghost fresh: { IsFresh (view_of writer.place.table_id (writer_of writer.place.me.0)) },
}

/// The seat of a thread: the writer's, the writer's for a store, or a reader's.
#[derive(Drop)]
enum Post {
    Write(Writer<22, OneNode>),
    Keep(Fresh),
    Read(Reader<22, OneNode>),
}

/// The task of one thread.
#[derive(Drop)]
struct Party<'a> {
    alloc: Global,
    post: Post,
    number: u32,
    steps: &'a [Step],
    done: &'a AtomicU64,
}

/// Returns the results of the writer's steps.
fn write_all(
    alloc: Global,
    writer: Writer<22, OneNode>,
    steps: &[Step],
    done: &AtomicU64,
) -> Result<Vec<Told>, AllocError> {
    let mut told = Vec::new(alloc);
    let mut writer = writer;
    let mut past = Past::of(0);
    for step in 0..steps.len() {
        if steps[step].party != 0 {
            continue;
        }
        if !comes(done, step) {
            break;
        }
        let (next, answer) = write_on(&mut writer, past, steps[step].task);
        past = next;
        told.push(Told { step, answer })?;
        done.fetch_add(1, Ordering::SeqCst);
    }
    Ok(told)
}

/// Takes the steps of a store's keeper over the writer's seat.
fn keep_all(
    alloc: Global,
    fresh: Fresh,
    steps: &[Step],
    done: &AtomicU64,
) -> Result<Vec<Told>, AllocError> {
    let Fresh { writer } = fresh;
    match EntryStore::create(alloc, writer) {
        Ok(store) => take_steps(alloc, keeper_of(store), 0, steps, done),
        Err(_) => Err(AllocError),
    }
}

fn play(party: Party<'_>) -> Result<Vec<Told>, AllocError> {
    let Party {
        alloc,
        post,
        number,
        steps,
        done,
    } = party;
    match post {
        Post::Write(writer) => write_all(alloc, writer, steps, done),
        Post::Keep(fresh) => keep_all(alloc, fresh, steps, done),
        Post::Read(reader) => take_steps(alloc, Stand::Idle(reader), number, steps, done),
    }
}

/// Makes a reader, if there is a seat.
fn seat(writer: &mut Writer<22, OneNode>) -> Option<Reader<22, OneNode>>
    requires { IsFresh (view_of writer.old.place.table_id (writer_of writer.old.place.me.0)) }
    ensures { IsFresh (view_of writer.new.place.table_id (writer_of writer.new.place.me.0)) }
{
    match writer.reader() {
        Ok(reader) => Some(reader),
        Err(_) => None,
    }
}

/// Makes the readers of the row.
fn readers_of<'a>(
    alloc: Global,
    writer: &mut Writer<22, OneNode>,
    readers: u32,
    steps: &'a [Step],
    done: &'a AtomicU64,
) -> Result<Vec<Party<'a>>, AllocError>
    requires { IsFresh (view_of writer.old.place.table_id (writer_of writer.old.place.me.0)) }
    ensures { IsFresh (view_of writer.new.place.table_id (writer_of writer.new.place.me.0)) }
{
    let mut parties = Vec::new(alloc);
    for number in 0..readers {
        if let Some(reader) = seat(writer) {
            let party = Party {
                alloc,
                post: Post::Read(reader),
                number: number.saturating_add(1),
                steps,
                done,
            };
            if parties.push(party).is_err() {
                return Err(AllocError);
            }
        }
    }
    Ok(parties)
}

/// Returns the writer's seat, for a store or not.
fn post_of(writer: Writer<22, OneNode>, store: bool) -> Post
    requires { IsFresh (view_of writer.place.table_id (writer_of writer.place.me.0)) }
{
    if store {
        Post::Keep(Fresh { writer })
    } else {
        Post::Write(writer)
    }
}

/// Returns the readers and the writer.
fn parties<'a>(
    alloc: Global,
    writer: Writer<22, OneNode>,
    setting: Setting,
    steps: &'a [Step],
    done: &'a AtomicU64,
) -> Result<Vec<Party<'a>>, AllocError>
    requires { IsFresh (view_of writer.place.table_id (writer_of writer.place.me.0)) }
{
    let mut writer = writer;
    let mut parties = readers_of(alloc, &mut writer, setting.readers, steps, done)?;
    let party = Party {
        alloc,
        post: post_of(writer, setting.store),
        number: 0,
        steps,
        done,
    };
    if parties.push(party).is_err() {
        return Err(AllocError);
    }
    Ok(parties)
}

fn play_all<'a, R: Threads + Sync>(
    rt: &R,
    parties: Vec<Party<'a>>,
) -> Result<Vec<Result<Vec<Told>, AllocError>>, AllocError> {
    map_vec(
        rt,
        parties,
        &|party| -> Result<Vec<Told>, AllocError>
            ensures { Unit {0} }
        { play(party) },
    )
}

/// Returns the result of each step of a row, by the parties.
pub fn answers<R: Threads + Sync>(
    rt: &R,
    alloc: Global,
    setting: Setting,
    steps: &[Step],
) -> Result<Vec<Result<Vec<Told>, AllocError>>, AllocError> {
    let config = Config {
        buffers: setting.buffers.max(1).min(8),
        words: 8192,
        shape: 1,
        limits: Limits {
            commits: setting.commits,
            generations: setting.generations.min(281_474_976_710_655),
        },
    };
    let (arena, token) = Arena::<22, OneNode>::create(alloc, config)?;
    let done = AtomicU64::new(0);
    play_all(
        rt,
        parties(alloc, arena.writer(alloc, token)?, setting, steps, &done)?,
    )
}
