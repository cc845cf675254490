//! Runs of `attr_main` with the words of a line, a feed and a sink in memory, and what they answer.
use attr_io::{Gate, NoGate, Sink, SliceSource, Source, VecSink};
use attr_run::{Outcome, Status, UsageCause, Words, attr_main};
use std::alloc::{AllocError, Global};
use std::thread::Threads;

/// Returns the words of a line, separated by single spaces; a space at the end is followed by an empty word.
pub fn words_in(alloc: Global, line: &str) -> Result<Words, AllocError> {
    let mut words = Words::create(alloc);
    for word in line.split(' ') {
        words.push(word)?;
    }
    Ok(words)
}

/// Returns an exit status and, after a space, bytes with a slash for each line feed.
pub fn line_of(alloc: Global, code: u8, bytes: &[u8]) -> Result<String, AllocError> {
    let mut line = format!(in alloc; "{code} ")?;
    for part in String::from_utf8_lossy(alloc, bytes)?.split('\n') {
        line.push_str(part)?;
        line.push('/')?;
    }
    let _end = line.pop();
    Ok(line)
}

/// Makes a run. It has no contract, so that the proofs of its callers stay small.
pub fn outcome_at<R: Threads + Sync, S: Source, K: Sink, G: Gate + Sync + 'static>(
    rt: &R,
    alloc: Global,
    words: &Words,
    source: &mut S,
    sink: &mut K,
    gate: &G,
) -> Outcome {
    attr_main(rt, alloc, words, source, sink, gate)
}

/// Makes a run with the gate of the program.
pub fn outcome_of<R: Threads + Sync, S: Source, K: Sink>(
    rt: &R,
    alloc: Global,
    words: &Words,
    source: &mut S,
    sink: &mut K,
) -> Outcome {
    outcome_at(rt, alloc, words, source, sink, &NoGate)
}

/// Makes a run of the words of a line over a feed, with a sink in memory.
pub fn run_line<R: Threads + Sync, G: Gate + Sync + 'static>(
    rt: &R,
    alloc: Global,
    words: &str,
    feed: &str,
    sink: &mut VecSink,
    gate: &G,
) -> Result<Outcome, AllocError> {
    let words = words_in(alloc, words)?;
    let mut source = SliceSource::new(feed.as_bytes());
    Ok(outcome_at(rt, alloc, &words, &mut source, sink, gate))
}

/// Returns what a run of the words of a line answers and writes, into limited space.
pub fn told<R: Threads + Sync, G: Gate + Sync + 'static>(
    rt: &R,
    alloc: Global,
    words: &str,
    feed: &str,
    room: usize,
    gate: &G,
) -> Result<String, AllocError> {
    let mut sink = VecSink::create(alloc, room)?;
    let outcome = run_line(rt, alloc, words, feed, &mut sink, gate)?;
    line_of(alloc, outcome.status.exit_code(), sink.taken())
}

fn answer_of(alloc: Global, status: &Status) -> Result<String, AllocError> {
    match status {
        Status::Full {
            operation,
            active,
            held,
        } => format!(in alloc; "full at {operation}, {active} in use, {held} held"),
        Status::Usage(UsageCause::Size { buffers, words }) => {
            format!(in alloc; "size {buffers} {words}")
        }
        Status::Usage(UsageCause::Also { place }) => format!(in alloc; "also at {place}"),
        status => {
            let code = status.exit_code();
            format!(in alloc; "exit {code}")
        }
    }
}

/// Returns what a run answers that the program does not write: the operation that ran out of space with the buffers in
/// use and held, a refused size, the place of a refused attribute; otherwise its exit status.
pub fn answer<R: Threads + Sync>(
    rt: &R,
    alloc: Global,
    words: &str,
    feed: &str,
) -> Result<String, AllocError> {
    let mut sink = VecSink::create(alloc, 65_536)?;
    let outcome = run_line(rt, alloc, words, feed, &mut sink, &NoGate)?;
    answer_of(alloc, &outcome.status)
}
