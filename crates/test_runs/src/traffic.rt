//! Sources and sinks: those that fail on request, those in memory, and standard input and output.
use attr_io::{
    FakeSink, FakeSource, Gate, NoGate, Point, ReadError, Sink, SliceSource, Source, StdSink,
    StdSource, VecSink, read_all, write_all, write_and_flush,
};
use std::alloc::{AllocError, Global};
use std::io;
use std::io::{ErrorKind, Write};
use test_kit::Tally;

/// Returns whether a source that gives a limited number of bytes in a call gives all five, or reports its fault in
/// this call or the ninth.
fn is_read(alloc: Global, step: usize, call: u64, all: bool) -> Result<bool, AllocError> {
    let mut source = FakeSource::create(alloc, b"bytes", step.max(1), &[9, call])?;
    let is_right = match read_all(alloc, &mut source, 5) {
        Ok(bytes) => all && bytes.as_slice() == b"bytes".as_slice(),
        Err(e) => !all && e == ReadError::Fault,
    };
    Ok(is_right && source.faults() == u64::from(!all))
}

fn compare_source(
    rt: &HostRuntime,
    tally: &mut Tally,
    step: usize,
    call: u64,
    all: bool,
) -> io::Result<()> {
    let is_right = is_read(rt.alloc(), step, call, all)?;
    let case = format!(in rt.alloc(); "a source of {step} bytes a call that fails at call {call}")?;
    tally.judge(rt, &case, is_right)
}

fn compare_sources(rt: &HostRuntime, tally: &mut Tally) -> io::Result<()> {
    // the most that a call gives, the call that fails, whether all five bytes are read
    let rows = [
        (1, 1, false),
        (1, 5, false),
        (1, 6, false),
        (1, 7, true),
        (2, 2, false),
        (2, 4, false),
        (2, 5, true),
        (9, 2, false),
        (9, 3, true),
    ];
    for (step, call, all) in rows {
        compare_source(rt, tally, step, call, all)?;
    }
    Ok(())
}

/// Returns whether a sink with limited space takes these bytes of a line, with a limit in each call, until it is full
/// or fails in a call.
fn is_taken(
    alloc: Global,
    room: usize,
    step: usize,
    call: u64,
    taken: &str,
) -> Result<bool, AllocError> {
    let line = b"final at\n";
    let mut sink = FakeSink::create(alloc, room, step.max(1), &[call])?;
    let failed = write_all(&mut sink, line).is_err();
    let is_right = sink.taken() == taken.as_bytes() && sink.faults() == u64::from(failed);
    Ok(is_right && failed == (taken.len() < line.len()))
}

fn compare_sink(
    rt: &HostRuntime,
    tally: &mut Tally,
    room: usize,
    step: usize,
    call: u64,
    taken: &str,
) -> io::Result<()> {
    let is_right = is_taken(rt.alloc(), room, step, call, taken)?;
    let case = format!(in rt.alloc();
        "a sink of {room} bytes, {step} a call, that fails at call {call}"
    )?;
    tally.judge(rt, &case, is_right)
}

fn compare_sinks(rt: &HostRuntime, tally: &mut Tally) -> io::Result<()> {
    // its space, the most that a call takes, the call that fails, what is taken
    let rows = [
        (9, 1, 1, ""),
        (9, 1, 5, "fina"),
        (9, 1, 9, "final at"),
        (9, 1, 10, "final at\n"),
        (9, 7, 2, "final a"),
        (9, 7, 3, "final at\n"),
        (7, 9, 9, "final a"),
        (0, 9, 9, ""),
    ];
    for (room, step, call, taken) in rows {
        compare_sink(rt, tally, room, step, call, taken)?;
    }
    Ok(())
}

/// Returns whether a sink takes the expected number of bytes of a piece, or fails if none is expected.
fn takes(sink: &mut VecSink, piece: &[u8], wanted: Option<usize>) -> bool {
    !piece.is_empty() && sink.faults() == 0 && sink.write(piece).ok() == wanted
}

/// Returns whether a sink in memory takes what fits, and then fails.
fn is_filled(alloc: Global) -> Result<bool, AllocError> {
    let mut sink = VecSink::create(alloc, 7)?;
    let first = takes(&mut sink, b"final", Some(5));
    let second = takes(&mut sink, b" at", Some(2));
    let third = takes(&mut sink, b"t", None);
    let is_right = first && second && third;
    Ok(is_right && sink.taken() == b"final a".as_slice() && sink.faults() == 1)
}

/// Returns whether bytes are read completely, or refused as more than the limit.
fn is_read_or_refused(alloc: Global, bytes: &[u8], limit: usize, fits: bool) -> bool {
    let mut source = SliceSource::new(bytes);
    match read_all(alloc, &mut source, limit) {
        Ok(read) => fits && read.as_slice() == bytes,
        Err(e) => !fits && e == ReadError::TooLong,
    }
}

fn compare_limits(rt: &HostRuntime, tally: &mut Tally) -> io::Result<()> {
    // more than three of the pieces in which a source is read
    let bytes = vec![in rt.alloc(); 7u8; 200_000]?;
    for (limit, fits) in [
        (200_000, true),
        (199_999, false),
        (0, false),
        (usize::MAX, true),
    ] {
        let is_right = is_read_or_refused(rt.alloc(), &bytes, limit, fits);
        tally.judge(
            rt,
            "a source is read to its end, or refused past the limit",
            is_right,
        )?;
    }
    Ok(())
}

/// A writer that takes at most `most` bytes, and whose flush may fail.
#[derive(Drop)]
struct Pipe {
    most: usize,
    can_flush: bool,
}

impl Write for Pipe {
    fn write(&mut self, piece: &[u8]) -> io::Result<usize> {
        Ok(self.most.min(piece.len()))
    }

    fn flush(&mut self) -> io::Result<()> {
        if self.can_flush {
            return Ok(());
        }
        Err(ErrorKind::BrokenPipe.into())
    }
}

fn compare_pipes(rt: &HostRuntime, tally: &mut Tally) -> io::Result<()> {
    for (most, can_flush, want) in [(2, true, Some(2)), (0, true, None), (2, false, None)] {
        let answer = write_and_flush(&mut Pipe { most, can_flush }, b"line");
        let is_right = answer.ok() == want;
        tally.judge(
            rt,
            "a write that takes nothing or is not flushed fails",
            is_right,
        )?;
    }
    Ok(())
}

/// Checks that standard input is at its end, and that standard output takes a line.
fn compare_standard(rt: &HostRuntime, tally: &mut Tally) -> io::Result<()> {
    let mut piece = [7u8; 4];
    let at_end = StdSource::new(rt).read(&mut piece) == Ok(0);
    tally.judge(rt, "standard input is at its end", at_end)?;
    let line = b"a short line\n";
    let is_right = StdSink::new(rt).write(line) == Ok(line.len());
    tally.judge(rt, "standard output takes a short line", is_right)
}

pub fn compare(rt: &HostRuntime) -> io::Result<()> {
    let mut tally = Tally::default();
    compare_sources(rt, &mut tally)?;
    compare_sinks(rt, &mut tally)?;
    let filled = is_filled(rt.alloc())?;
    tally.judge(rt, "a sink in memory takes what fits", filled)?;
    compare_limits(rt, &mut tally)?;
    compare_pipes(rt, &mut tally)?;
    compare_standard(rt, &mut tally)?;
    // it does nothing, and returns
    NoGate.pass(Point::Committed {
        commit: 1,
        operations: 1,
    });
    tally.print(rt, "sources and sinks")
}
