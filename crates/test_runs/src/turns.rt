//! Runs of two readers beside the loading in a fixed order: the gate holds each thread until the others have arrived.
//! Readers on the loader's thread, or one after another, would not arrive, and a round at an older commit would have
//! other lines.
use crate::run::{run_line, told};
use attr_io::{Gate, Point, VecSink};
use attr_run::Outcome;
use std::alloc::{AllocError, Global};
use std::sync::atomic::{AtomicU64, Ordering};
use std::thread::Threads;
use std::{io, thread};
use test_kit::Tally;

/// How often a thread checks whether the others have arrived.
const TURNS: u64 = 50_000_000;

const WORDS: &str = "--kind single --value long --batch 1 --readers 2 --rounds 2 5";

const TWO: &str =
    "{\"put\":\"id:n:t::1\",\"fields\":{\"f\":5}}\n{\"put\":\"id:n:t::2\",\"fields\":{\"f\":5}}\n";

const AT_ONE_AND_TWO: &str =
    "0 reader 1 round 1 at 1/1: 1/reader 1 round 2 at 2/1: 1 2/reader 2 round 1 at 1/1: 1/reader 2 round 2 at 2/1: 1 2/\
                              final at 2/1: 1 2/done 2 operations 0 skipped/";

const THREE: &str =
    "{\"put\":\"id:n:t::1\",\"fields\":{\"f\":5}}\n{\"put\":\"id:n:t::2\",\"fields\":{\"f\":5}}\n\
                     {\"put\":\"id:n:t::3\",\"fields\":{\"f\":5}}\n";

const AT_TWO_AND_THREE: &str =
    "0 reader 1 round 1 at 2/1: 1 2/reader 1 round 2 at 3/1: 1 2 3/reader 2 round 1 at 2/1: 1 2/reader 2 round 2 at 3/1: 1 2 3/\
                                final at 3/1: 1 2 3/done 3 operations 0 skipped/";

/// Waits until a count is at least this great, or a thread gave up.
pub fn wait(count: &AtomicU64, least: u64, gave_up: &AtomicU64) {
    for _ in 0..TURNS {
        if count.load(Ordering::SeqCst) >= least || gave_up.load(Ordering::SeqCst) > 0 {
            return;
        }
        thread::yield_now();
    }
    gave_up.fetch_add(1, Ordering::SeqCst);
}

/// Returns whether threads waited in vain.
pub fn in_vain(gave_up: &AtomicU64) -> &'static str {
    if gave_up.load(Ordering::SeqCst) == 0 {
        "none"
    } else {
        "some"
    }
}

/// The progress of a run, and how often a thread gave up.
#[derive(Drop)]
struct Turns {
    /// How many commits come before that of the first round.
    before: u64,
    /// The last commit.
    committed: AtomicU64,
    /// The number of rounds at which the readers have arrived.
    come: AtomicU64,
    gave_up: AtomicU64,
}

impl Turns {
    fn new(before: u64) -> Turns {
        Turns {
            before,
            committed: AtomicU64::new(0),
            come: AtomicU64::new(0),
            gave_up: AtomicU64::new(0),
        }
    }

    /// Holds a round until its commit is made, and the first round also until the other reader arrives.
    fn start(&self, round: u32) {
        self.come.fetch_add(1, Ordering::SeqCst);
        if round == 1 {
            wait(&self.come, 2, &self.gave_up);
        }
        let least = self.before.saturating_add(round as u64);
        wait(&self.committed, least, &self.gave_up);
    }

    /// Holds the loader until both readers have arrived at the round of its next commit: everything that they did
    /// before was at this commit.
    fn commit(&self, commit: u32) {
        self.committed.store(commit as u64, Ordering::SeqCst);
        let rounds = (commit as u64)
            .saturating_add(1)
            .saturating_sub(self.before);
        if rounds <= 2 {
            wait(&self.come, rounds.saturating_mul(2), &self.gave_up);
        }
    }
}

impl Gate for Turns {
    fn pass(&self, point: Point) {
        match point {
            Point::Committed { commit, .. } => self.commit(commit),
            Point::RoundStart { reader: 0, .. } => {}
            Point::RoundStart { round, .. } => self.start(round),
            Point::RoundEnd { .. } => {}
        }
    }
}

/// Compares what a run tells, and whether its threads waited in vain.
fn note(
    rt: &HostRuntime,
    tally: &mut Tally,
    turns: &Turns,
    case: &str,
    found: &str,
    wanted: &str,
) -> io::Result<()> {
    tally.note(rt, case, found, wanted)?;
    let found = in_vain(&turns.gave_up);
    tally.note(rt, "threads that waited in vain", found, "none")
}

/// Makes a run with this many commits before that of the first round, and compares what it writes.
fn compare_turns<R: Threads + Sync>(
    rt: &HostRuntime,
    threads: &R,
    tally: &mut Tally,
    before: u64,
    feed: &str,
    wanted: &str,
) -> io::Result<()> {
    let turns = Turns::new(before);
    let found = told(threads, rt.alloc(), WORDS, feed, 4096, &turns)?;
    note(
        rt,
        tally,
        &turns,
        "two readers, held at the gate",
        &found,
        wanted,
    )
}

/// Writes how many operations each round of a reader saw.
fn push_counts(text: &mut String, counts: &[u32]) -> Result<(), AllocError> {
    for count in counts {
        write!(text, "{count} ")?;
    }
    text.push_str("/")
}

/// How many operations the rounds of each reader saw.
fn rounds_in(alloc: Global, outcome: &Outcome) -> Result<String, AllocError> {
    let mut text = String::new(alloc);
    for counts in outcome.rounds.as_slice() {
        push_counts(&mut text, counts.as_slice())?;
    }
    Ok(text)
}

/// Returns the rounds of a run.
fn rounds_of<R: Threads + Sync>(
    threads: &R,
    alloc: Global,
    turns: &Turns,
    words: &str,
    feed: &str,
) -> Result<String, AllocError> {
    let mut sink = VecSink::create(alloc, 4096)?;
    let outcome = run_line(threads, alloc, words, feed, &mut sink, turns)?;
    rounds_in(alloc, &outcome)
}

/// Tests the same order in a run that writes no rounds, whose readers run all the same.
fn compare_rounds<R: Threads + Sync>(
    rt: &HostRuntime,
    threads: &R,
    tally: &mut Tally,
    before: u64,
    words: &str,
    feed: &str,
    wanted: &str,
) -> io::Result<()> {
    let turns = Turns::new(before);
    let found = rounds_of(threads, rt.alloc(), &turns, words, feed)?;
    note(rt, tally, &turns, words, &found, wanted)
}

/// Tests both orders, with made operations and with a saved table.
fn compare_modes<R: Threads + Sync>(
    rt: &HostRuntime,
    threads: &R,
    tally: &mut Tally,
) -> io::Result<()> {
    let two = "--kind single --value long --batch 1 --readers 2 --rounds 2 --make 2 5";
    compare_rounds(rt, threads, tally, 0, two, "", "1 2 /1 2 /")?;
    let three = "--kind single --value long --batch 1 --readers 2 --rounds 2 --make 3 5";
    compare_rounds(rt, threads, tally, 1, three, "", "2 3 /2 3 /")?;
    let save = "--kind single --value long --batch 1 --readers 2 --rounds 2 --save 5";
    compare_rounds(rt, threads, tally, 0, save, TWO, "1 2 /1 2 /")?;
    compare_rounds(rt, threads, tally, 1, save, THREE, "2 3 /2 3 /")
}

pub fn compare<R: Threads + Sync>(rt: &HostRuntime, threads: &R) -> io::Result<()> {
    let mut tally = Tally::default();
    compare_turns(rt, threads, &mut tally, 0, TWO, AT_ONE_AND_TWO)?;
    compare_turns(rt, threads, &mut tally, 1, THREE, AT_TWO_AND_THREE)?;
    tally.print(rt, "rounds held at the gate")?;
    let mut modes = Tally::default();
    compare_modes(rt, threads, &mut modes)?;
    modes.print(rt, "rounds that are not written")
}
