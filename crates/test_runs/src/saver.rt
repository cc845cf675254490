//! A save beside a loading that goes on: the saver has its guard, and is held until all is committed. So it is of an older commit than the
//! last, and is the save of just its operations.
use crate::run::run_line;
use crate::turns::{in_vain, wait};
use attr_io::{Gate, NoGate, Point, VecSink};
use attr_run::Outcome;
use std::alloc::{AllocError, Global};
use std::io;
use std::sync::atomic::{AtomicU64, Ordering};
use std::thread::Threads;
use test_kit::Tally;

const BESIDE: &str = "--kind single --value long --batch 1 --readers 0 --save";

const AFTER: &str = "--kind single --value long --batch 1 --readers 0 --after --save";

/// How far a run came, and how often a thread gave up.
#[derive(Drop)]
struct Held {
    /// The saver waits for this commit before it takes its guard.
    at: u64,
    /// With its guard it waits for this one before it writes, and the loading waits for the guard: 0 where none waits.
    until: u64,
    committed: AtomicU64,
    guarded: AtomicU64,
    gave_up: AtomicU64,
}

impl Held {
    fn new(at: u64, until: u64) -> Held {
        Held {
            at,
            until,
            committed: AtomicU64::new(0),
            guarded: AtomicU64::new(0),
            gave_up: AtomicU64::new(0),
        }
    }

    fn commit(&self, commit: u32) {
        self.committed.store(commit as u64, Ordering::SeqCst);
        if self.until > 0 && commit as u64 == self.at {
            wait(&self.guarded, 1, &self.gave_up);
        }
    }

    fn start(&self, round: u32) {
        if round == 1 {
            wait(&self.committed, self.at, &self.gave_up);
        } else {
            self.guarded.store(1, Ordering::SeqCst);
            wait(&self.committed, self.until, &self.gave_up);
        }
    }
}

impl Gate for Held {
    fn pass(&self, point: Point) {
        match point {
            Point::Committed { commit, .. } => self.commit(commit),
            Point::RoundStart { round, .. } => self.start(round),
            Point::RoundEnd { .. } => {}
        }
    }
}

/// Returns a feed that puts this number of documents.
fn feed_of(alloc: Global, documents: u64) -> Result<String, AllocError> {
    let mut feed = String::new(alloc);
    for doc in 1..documents.saturating_add(1) {
        write!(
            feed,
            "{{\"put\":\"id:n:t::{doc}\",\"fields\":{{\"f\":{doc}}}}}\n"
        )?;
    }
    Ok(feed)
}

/// Makes a run that puts this number of documents.
fn run<R: Threads + Sync, G: Gate + Sync + 'static>(
    threads: &R,
    alloc: Global,
    words: &str,
    documents: u64,
    gate: &G,
    sink: &mut VecSink,
) -> Result<Outcome, AllocError> {
    let feed = feed_of(alloc, documents)?;
    run_line(threads, alloc, words, &feed, sink, gate)
}

/// Returns the bytes of a save of this number of documents.
fn wanted<R: Threads + Sync>(
    threads: &R,
    alloc: Global,
    documents: u64,
) -> Result<VecSink, AllocError> {
    let mut sink = VecSink::create(alloc, 65536)?;
    let _outcome = run(threads, alloc, AFTER, documents, &NoGate, &mut sink)?;
    Ok(sink)
}

/// Returns whether these bytes are the save of this number of documents.
fn is_save<R: Threads + Sync>(
    threads: &R,
    alloc: Global,
    documents: u32,
    bytes: &[u8],
) -> Result<bool, AllocError> {
    let wanted = wanted(threads, alloc, u64::from(documents))?;
    Ok(wanted.taken() == bytes)
}

/// Makes a save beside the loading of this number of documents. Returns how many operations it has, if all were loaded.
fn save_beside<R: Threads + Sync>(
    threads: &R,
    alloc: Global,
    documents: u64,
    held: &Held,
    sink: &mut VecSink,
) -> Result<Option<u32>, AllocError> {
    let outcome = run(threads, alloc, BESIDE, documents, held, sink)?;
    if u64::from(outcome.loaded) != documents {
        return Ok(None);
    }
    Ok(outcome.saved)
}

/// Returns the number of operations in a save that was made beside the loading, if its bytes are the save of these.
fn saved_at<R: Threads + Sync>(
    threads: &R,
    alloc: Global,
    documents: u64,
    held: &Held,
) -> Result<Option<u32>, AllocError> {
    let mut sink = VecSink::create(alloc, 65536)?;
    let Some(saved) = save_beside(threads, alloc, documents, held, &mut sink)? else {
        return Ok(None);
    };
    if is_save(threads, alloc, saved, sink.taken())? {
        return Ok(Some(saved));
    }
    Ok(None)
}

/// The saver has the guard of commit 2 and is held until all six are made.
fn compare_held<R: Threads + Sync>(
    rt: &HostRuntime,
    threads: &R,
    tally: &mut Tally,
) -> io::Result<()> {
    let held = Held::new(2, 6);
    let found = saved_at(threads, rt.alloc(), 6, &held)?;
    tally.judge(rt, "a save beside the loading is at 2", found == Some(2))?;
    let found = in_vain(&held.gave_up);
    tally.note(rt, "threads that waited in vain", found, "none")
}

/// Returns whether a save beside the loading is right, and counts it if it is older than the last commit.
fn is_right<R: Threads + Sync>(
    threads: &R,
    alloc: Global,
    least: u64,
    commits: u64,
    older: &mut u64,
) -> Result<bool, AllocError> {
    let held = Held::new(least, 0);
    let Some(saved) = saved_at(threads, alloc, commits, &held)? else {
        return Ok(false);
    };
    let saved = u64::from(saved);
    if saved < commits {
        *older = older.saturating_add(1);
    }
    Ok(saved >= least && in_vain(&held.gave_up) == "none")
}

/// Saves beside loadings that wait for none, each from another commit on. How many are older than the last commit is the
/// threads' own affair, so it is told only where that is asked for.
pub fn torture<R: Threads + Sync>(
    rt: &HostRuntime,
    threads: &R,
    runs: u64,
    commits: u64,
    tells: bool,
) -> io::Result<()> {
    let mut tally = Tally::default();
    let mut older: u64 = 0;
    for run in 0..runs {
        let least = run.saturating_mul(37) % commits.max(1);
        let is_right = is_right(threads, rt.alloc(), least, commits, &mut older)?;
        tally.judge(rt, "a save beside the loading", is_right)?;
    }
    tally.print(rt, "saves beside loadings")?;
    if tells {
        println!(rt; "older than the last commit: {older}")?;
    }
    Ok(())
}

pub fn compare<R: Threads + Sync>(rt: &HostRuntime, threads: &R) -> io::Result<()> {
    let mut tally = Tally::default();
    compare_held(rt, threads, &mut tally)?;
    tally.print(rt, "saves beside a loading that goes on")
}
