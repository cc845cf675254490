//! One put and one query over devices that fail: a feed of 37 bytes and a report of 44.
use crate::run::{line_of, outcome_of, told, words_in};
use attr_io::{FakeSink, FakeSource, NoGate};
use attr_run::Outcome;
use std::alloc::{AllocError, Global};
use std::io;
use std::thread::Threads;
use test_kit::Tally;

const WORDS: &str = "--kind single --value long --readers 0 --buffers 8 --words 8192 5";

const FEED: &str = "{\"put\":\"id:n:t::1\",\"fields\":{\"f\":5}}\n";

const REPORT: &str = "final at 1/1: 1/done 1 operations 0 skipped/";

/// What a run over devices that do not fail answers and writes, and its counts.
const DONE: &str = "0 final at 1/1: 1/done 1 operations 0 skipped/ 1 0 0";

const READ_FAULT: &str = "4 attr: read fault/ 0 1 0";

/// A call that no device comes to.
const NONE: u64 = u64::MAX;

/// The words of a run that saves its table.
const SAVE: &str =
    "--kind single --value long --readers 0 --buffers 8 --words 8192 --after --save 5";

/// Returns what a run answers and writes: then at how many operations it was saved, or else how many it loaded and the
/// faults of its source and its sink.
fn told_of(
    alloc: Global,
    outcome: &Outcome,
    reads: u64,
    sink: &FakeSink,
) -> Result<String, AllocError> {
    let mut line = line_of(alloc, outcome.status.exit_code(), sink.taken())?;
    if let Some(saved) = outcome.saved {
        write!(line, " {saved}")?;
        return Ok(line);
    }
    for count in [u64::from(outcome.loaded), reads, sink.faults()] {
        write!(line, " {count}")?;
    }
    Ok(line)
}

fn told_by<R: Threads + Sync>(
    threads: &R,
    alloc: Global,
    words: &str,
    source: &mut FakeSource,
    sink: &mut FakeSink,
) -> Result<String, AllocError> {
    let words = words_in(alloc, words)?;
    let outcome = outcome_of(threads, alloc, &words, source, sink);
    told_of(alloc, &outcome, source.faults(), sink)
}

/// Makes a run over a source and a sink, each with the most bytes of a call and the call that fails.
fn told_over<R: Threads + Sync>(
    threads: &R,
    alloc: Global,
    words: &str,
    feed: &str,
    read: (usize, u64),
    written: (usize, u64),
) -> Result<String, AllocError> {
    let mut source = FakeSource::create(alloc, feed.as_bytes(), read.0.max(1), &[read.1])?;
    let mut sink = FakeSink::create(alloc, 100, written.0.max(1), &[written.1])?;
    told_by(threads, alloc, words, &mut source, &mut sink)
}

fn note_call(
    rt: &HostRuntime,
    tally: &mut Tally,
    device: &str,
    call: u64,
    found: &str,
    wanted: &str,
) -> io::Result<()> {
    let case = format!(in rt.alloc(); "{device} at call {call}")?;
    tally.note(rt, &case, found, wanted)
}

fn compare_source<R: Threads + Sync>(
    rt: &HostRuntime,
    threads: &R,
    tally: &mut Tally,
    call: u64,
) -> io::Result<()> {
    let found = told_over(threads, rt.alloc(), WORDS, FEED, (1, call), (7, NONE))?;
    let wanted = if call < 39 { READ_FAULT } else { DONE };
    note_call(rt, tally, "source", call, &found, wanted)
}

/// Tests sources of one byte in a call that fail in one call; call 38 would report the end of the feed.
fn compare_sources<R: Threads + Sync>(
    rt: &HostRuntime,
    threads: &R,
    tally: &mut Tally,
) -> io::Result<()> {
    for call in 1..40 {
        compare_source(rt, threads, tally, call)?;
    }
    Ok(())
}

/// Tests a sink that has taken this front of the report when it fails.
fn compare_sink<R: Threads + Sync>(
    rt: &HostRuntime,
    threads: &R,
    tally: &mut Tally,
    call: u64,
    front: &str,
) -> io::Result<()> {
    let found = told_over(threads, rt.alloc(), WORDS, FEED, (5, NONE), (1, call))?;
    let wanted = format!(in rt.alloc(); "5 {front} 1 0 1")?;
    note_call(rt, tally, "sink", call, &found, &wanted)
}

/// Tests sinks of one byte in a call that fail in one call; the bytes before it were taken.
fn compare_sinks<R: Threads + Sync>(
    rt: &HostRuntime,
    threads: &R,
    tally: &mut Tally,
) -> io::Result<()> {
    let mut front = String::new(rt.alloc());
    let mut call: u64 = 1;
    for next in REPORT.chars() {
        compare_sink(rt, threads, tally, call, &front)?;
        front.push(next)?;
        call = call.saturating_add(1);
    }
    compare_step(rt, threads, tally, FEED, (5, NONE), (1, call), DONE)
}

/// Tests a run over devices.
fn compare_step<R: Threads + Sync>(
    rt: &HostRuntime,
    threads: &R,
    tally: &mut Tally,
    feed: &str,
    read: (usize, u64),
    written: (usize, u64),
    wanted: &str,
) -> io::Result<()> {
    let found = told_over(threads, rt.alloc(), WORDS, feed, read, written)?;
    tally.note(rt, "devices", &found, wanted)
}

/// Tests two bytes a read, seven bytes a write, and a sink in memory with too little space.
fn compare_steps<R: Threads + Sync>(
    rt: &HostRuntime,
    threads: &R,
    tally: &mut Tally,
) -> io::Result<()> {
    compare_step(rt, threads, tally, FEED, (2, 2), (100, NONE), READ_FAULT)?;
    compare_step(rt, threads, tally, "", (2, NONE), (7, 2), "5 final a 0 0 1")?;
    let taken = told(threads, rt.alloc(), WORDS, "", 7, &NoGate)?;
    tally.note(rt, "seven bytes of room", &taken, "5 final a")
}

/// Tests a save over a sink that fails: the front of its bytes, and at how many operations it was made.
fn compare_save<R: Threads + Sync>(
    rt: &HostRuntime,
    threads: &R,
    tally: &mut Tally,
    call: u64,
    wanted: &str,
) -> io::Result<()> {
    let found = told_over(threads, rt.alloc(), SAVE, FEED, (5, NONE), (4, call))?;
    note_call(rt, tally, "a save", call, &found, wanted)
}

pub fn compare<R: Threads + Sync>(rt: &HostRuntime, threads: &R) -> io::Result<()> {
    let mut sources = Tally::default();
    compare_sources(rt, threads, &mut sources)?;
    sources.print(rt, "sources that fail")?;
    let mut sinks = Tally::default();
    compare_sinks(rt, threads, &mut sinks)?;
    sinks.print(rt, "sinks that fail")?;
    let mut steps = Tally::default();
    compare_steps(rt, threads, &mut steps)?;
    steps.print(rt, "steps of devices")?;
    let mut saves = Tally::default();
    compare_save(rt, threads, &mut saves, 1, "5  1")?;
    compare_save(rt, threads, &mut saves, 2, "5 ATS1 1")?;
    saves.print(rt, "saves over devices that fail")
}
