//! The words of a running program that has not even a name.
use crate::run::{line_of, outcome_of};
use attr_io::{SliceSource, VecSink};
use attr_run::Words;
use std::alloc::{AllocError, Global};
use std::env::FillError;
use std::io;
use std::rt::Env;
use std::thread::Threads;
use test_kit::Tally;

/// A program without words and variables.
#[derive(Clone, Copy)]
struct Nameless;

impl Env for Nameless {
    fn arg(&self, _i: usize, _buf: &mut [u8]) -> Result<usize, FillError> {
        Err(FillError::NotPresent)
    }

    fn var(&self, _name: &str, _buf: &mut [u8]) -> Result<usize, FillError> {
        Err(FillError::NotPresent)
    }

    fn var_at(&self, _i: usize, _buf: &mut [u8]) -> Result<usize, FillError> {
        Err(FillError::NotPresent)
    }
}

/// Returns what a run with the words of this program answers and writes.
fn told<R: Threads + Sync>(threads: &R, alloc: Global) -> Result<String, AllocError> {
    let words = Words::of_program(&(Nameless, alloc))?;
    let mut source = SliceSource::new(&[]);
    let mut sink = VecSink::create(alloc, 4096)?;
    let outcome = outcome_of(threads, alloc, &words, &mut source, &mut sink);
    line_of(alloc, outcome.status.exit_code(), sink.taken())
}

pub fn compare<R: Threads + Sync>(rt: &HostRuntime, threads: &R) -> io::Result<()> {
    let mut tally = Tally::default();
    let found = told(threads, rt.alloc())?;
    tally.note(rt, "no name", &found, "2 attr: usage: words/")?;
    tally.print(rt, "words of a program")
}
