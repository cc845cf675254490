//! Many readers beside a writer that reuses its buffers in turn.
ghost use Rattle.std.specs.Prelude.{IfSome};
ghost use Rattle.test_kit.specs.Turns.{IsActive};

use arena_api::Work;
use std::alloc::{AllocError, Global};
use std::sync::atomic::{AtomicU64, Ordering};
use std::thread::{Threads, map_vec, yield_now};
use test_kit::{Look, OneNode, pass, raised, turn};
use word_arena::{Again, Aimed, Arena, Config, Limits, Reader, Writer};

pub const READERS: u32 = 8;

const BUFFERS: u32 = 8;

/// How often a writer that finds no free buffer tries again.
const WAITS: u32 = 1_000_000_000;

/// The greatest number of looks of a reader.
const LOOKS: u64 = 1_000_000_000_000;

/// What a reader saw.
#[derive(Clone, Copy, Debug, Default, Drop)]
pub struct Sight {
    /// Looks at a commit: two under each hold.
    pub guards: u64,
    /// Holds that were closed when the reader raised them.
    pub bounces: u64,
    /// Guards under which some word did not belong to the guard's commit.
    pub wrong: u64,
    /// Guards of a commit older than one seen before.
    pub falls: u64,
    pub last: u32,
}

/// What the writer did.
#[derive(Clone, Copy, Debug, Default, Drop)]
pub struct Turns {
    pub commits: u32,
    /// Buffers handed out that had been handed out before.
    pub again: u64,
    /// The greatest number of tries for one commit that found no free buffer.
    pub longest: u32,
}

/// The result of all threads.
#[derive(Clone, Copy, Debug, Default, Drop)]
pub struct Tally {
    pub turns: Turns,
    pub sights: Sight,
}

impl Sight {
    fn note(&mut self, look: Look) {
        let Look { commit, whole } = look;
        self.guards = self.guards.saturating_add(1);
        if !whole.unwrap_or(commit == 0) {
            self.wrong = self.wrong.saturating_add(1);
        }
        if commit < self.last {
            self.falls = self.falls.saturating_add(1);
        }
        self.last = commit;
    }

    fn plus(self, other: Sight) -> Sight {
        Sight {
            guards: self.guards.saturating_add(other.guards),
            bounces: self.bounces.saturating_add(other.bounces),
            wrong: self.wrong.saturating_add(other.wrong),
            falls: self.falls.saturating_add(other.falls),
            last: self.last.min(other.last),
        }
    }
}

/// Makes one look: takes a guard, reads its words, loads the root again under the same hold, reads that commit's words and
/// releases the hold; or finds the hold closed.
fn look(aimed: Aimed<22, OneNode>, sight: &mut Sight) -> Reader<22, OneNode> {
    match raised(aimed) {
        Ok(held) => {
            let mut held = held;
            sight.note(held.look());
            let mut held = held.again();
            sight.note(held.look());
            held.release()
        }
        Err(again) => {
            let Again { reader, found: _ } = again;
            sight.bounces = sight.bounces.saturating_add(1);
            reader
        }
    }
}

/// Lets some time pass between a reader's aim and its raise, different each time, so that the reader has no guard
/// most of the time. If the system stops a reader that has a guard, the writer has to wait too.
fn linger(ticks: &AtomicU64, look: u64) {
    for _ in 0..look % 64 * 16 {
        ticks.fetch_add(1, Ordering::SeqCst);
    }
}

/// Looks until the last commit is seen.
fn watch(reader: Reader<22, OneNode>, commits: u32) -> Sight {
    let mut reader = reader;
    let mut sight = Sight::default();
    let ticks = AtomicU64::new(0);
    for number in 0..LOOKS {
        let aimed = reader.aim();
        linger(&ticks, number);
        reader = look(aimed, &mut sight);
        if sight.last >= commits {
            break;
        }
    }
    sight
}

/// Makes the next commit, as soon as a buffer is free.
fn place<W: Work<22, Layout = OneNode>>(
    work: &mut W,
    before: Option<u32>,
    number: u32,
    turns: &mut Turns,
) -> Option<u32>
    requires { IfSome before (IsActive (W.knows work.old)) }
    ensures { IfSome result (IsActive (W.knows work.new)) }
{
    for wait in 0..WAITS {
        if let Some(placed) = turn(work, before, number) {
            return Some(placed.buffer);
        }
        turns.longest = turns.longest.max(wait);
        let _ = pass(work, before);
        if wait % 1024 == 1023 {
            yield_now();
        }
    }
    None
}

/// Commits one node after another, each in a buffer of its own.
pub fn write<W: Work<22, Layout = OneNode>>(work: &mut W, commits: u32) -> Turns {
    let mut turns = Turns::default();
    let mut seen = [false; 8];
    let mut before = None;
    for number in 0..commits {
        match place(work, before, number.saturating_add(1), &mut turns) {
            None => break,
            Some(buffer) => {
                let _ = pass(work, Some(buffer));
                turns.commits = turns.commits.saturating_add(1);
                if let Some(known) = seen.get_mut(buffer as usize) {
                    if *known {
                        turns.again = turns.again.saturating_add(1);
                    }
                    *known = true;
                }
                before = Some(buffer);
            }
        }
    }
    turns
}

/// The seat of a thread.
#[derive(Drop)]
enum Post {
    Write(Writer<22, OneNode>),
    Watch(Reader<22, OneNode>),
}

/// The task of one thread.
#[derive(Drop)]
struct Job {
    post: Post,
    commits: u32,
}

fn work_on(job: Job) -> Tally {
    let Job { post, commits } = job;
    let mut tally = Tally::default();
    tally.sights.last = commits;
    match post {
        Post::Write(writer) => {
            let mut writer = writer;
            tally.turns = write(&mut writer, commits);
        }
        Post::Watch(reader) => tally.sights = watch(reader, commits),
    }
    tally
}

/// Returns the tasks of the writer and the readers.
fn jobs_of(
    alloc: Global,
    writer: Writer<22, OneNode>,
    readers: u32,
    commits: u32,
) -> Result<Vec<Job>, AllocError> {
    let mut writer = writer;
    let mut jobs = Vec::new(alloc);
    for _ in 0..readers {
        if let Ok(reader) = writer.reader() {
            let post = Post::Watch(reader);
            if jobs.push(Job { post, commits }).is_err() {
                return Err(AllocError);
            }
        }
    }
    let post = Post::Write(writer);
    if jobs.push(Job { post, commits }).is_err() {
        return Err(AllocError);
    }
    Ok(jobs)
}

fn work_all<R: Threads + Sync>(rt: &R, jobs: Vec<Job>) -> Result<Vec<Tally>, AllocError> {
    map_vec(
        rt,
        jobs,
        &|job| -> Tally
            ensures { Unit {0} }
        { work_on(job) },
    )
}

fn tally_of(parts: &[Tally], commits: u32) -> Tally {
    let mut tally = Tally::default();
    tally.sights.last = commits;
    for part in parts {
        if part.turns.commits > 0 {
            tally.turns = part.turns;
        }
        tally.sights = tally.sights.plus(part.sights);
    }
    tally
}

/// Runs readers beside a writer of a number of commits, each in a thread of its own.
pub fn torture<R: Threads + Sync>(
    rt: &R,
    alloc: Global,
    commits: u32,
) -> Result<Tally, AllocError> {
    let config = Config {
        buffers: BUFFERS,
        words: 8192,
        shape: 1,
        limits: Limits {
            commits,
            generations: 281_474_976_710_655,
        },
    };
    let (arena, token) = Arena::<22, OneNode>::create(alloc, config)?;
    let writer = arena.writer(alloc, token)?;
    let parts = work_all(rt, jobs_of(alloc, writer, READERS, commits)?)?;
    Ok(tally_of(parts.as_slice(), commits))
}
