//! A save of one document, read from a source that fails at each of its calls.
use attr_io::FakeSource;
use attr_saver::{LoadError, read_saved};
use std::alloc::{AllocError, Global};
use std::io;
use test_kit::Tally;

const BYTES: [u8; 28] = [
    0x41, 0x54, 0x53, 0x31, 0, 0, 0, 0, 0, 1, 0, 0, 0, 1, 0, 0, 0, 1, 0, 1, 0, 0, 0, 0, 0, 0, 0, 5,
];

/// Reads over a source, and returns the error, if there is one.
fn error_over(alloc: Global, source: &mut FakeSource) -> Option<LoadError> {
    read_saved(alloc, source).err()
}

/// Returns whether a source that gives at most `step` bytes in a call and fails in one call is read so: the fault is
/// told, and counted once; or none came.
fn is_read(alloc: Global, step: usize, call: u64, fails: bool) -> Result<bool, AllocError> {
    let mut source = FakeSource::create(alloc, &BYTES, step.max(1), &[call])?;
    let is_right = match error_over(alloc, &mut source) {
        None => !fails,
        Some(error) => fails && matches!(error, LoadError::ReadFault),
    };
    Ok(is_right && source.faults() == u64::from(fails))
}

pub fn compare(rt: &HostRuntime) -> io::Result<()> {
    let mut tally = Tally::default();
    let is_right = is_read(rt.alloc(), 28, 2, true)?;
    tally.judge(rt, "a save in one call, whose end fails", is_right)?;
    for call in 1..31 {
        // call 29 finds the end
        let is_right = is_read(rt.alloc(), 1, call, call < 30)?;
        tally.judge(rt, "a save by bytes, of which one fails", is_right)?;
    }
    tally.print(rt, "saves from sources that fail")
}
