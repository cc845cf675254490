//! Standard input and output as a source and a sink.

ghost use Rattle.std.specs.Prelude.{◌≡◌, ◌↔◌, IsErr, IfOk, OnOk, OnErr, Ok};
ghost use Rattle.attr_io.specs.Bytes.{TakesSome};
ghost use Rattle.attr_io.specs.Faults.{CountsFaults, counted_up};

use crate::traffic::{Failed, Sink, Source};
use std::io;
use std::io::{ErrorKind, Read, Write};
use std::marker::Model;

/// Standard input. Contracts do not see its bytes, only the number of reads that failed.
#[derive(Drop)]
pub struct StdSource<'a, R: Input> {
    rt: &'a R,
    faults: u64,
}

impl<'a, R: Input> Model for StdSource<'a, R> {
    ghost use Rattle.std.specs.Prelude.{ℕ};

    ghost Value = { ℕ };

    ghost view = { λ s. s.faults };
}

impl<'a, R: Input> StdSource<'a, R> {
    pub fn new(rt: &'a R) -> StdSource<'a, R>
        ensures { result ≡ 0 }
    {
        StdSource { rt, faults: 0 }
    }
}

impl<R: Input> Source for StdSource<'_, R> {
    ghost use Rattle.std.specs.Prelude.{None};

    ghost left = { λ _. None };

    ghost faults = { λ s. s };

    fn read(&mut self, into: &mut [u8]) -> Result<usize, Failed> {
        let answer = self.rt.reader().read(into);
        note_fault(&mut self.faults, answer)
    }
}

/// Standard output. Contracts do not see its bytes, only the number of writes that failed, took nothing, or could not
/// be flushed.
#[derive(Drop)]
pub struct StdSink<'a, R: Print> {
    rt: &'a R,
    faults: u64,
}

impl<'a, R: Print> Model for StdSink<'a, R> {
    ghost use Rattle.std.specs.Prelude.{ℕ};

    ghost Value = { ℕ };

    ghost view = { λ s. s.faults };
}

impl<'a, R: Print> StdSink<'a, R> {
    pub fn new(rt: &'a R) -> StdSink<'a, R>
        ensures { result ≡ 0 }
    {
        StdSink { rt, faults: 0 }
    }
}

impl<R: Print> Sink for StdSink<'_, R> {
    ghost use Rattle.std.specs.Prelude.{None};

    ghost taken = { λ _. None };

    ghost faults = { λ s. s };

    fn write(&mut self, piece: &[u8]) -> Result<usize, Failed> {
        let answer = write_and_flush(&mut io::writer(self.rt), piece);
        note_fault(&mut self.faults, answer)
    }
}

/// Writes some of a piece, and then flushes. A write that takes nothing is an error, and so is a flush that fails.
pub fn write_and_flush<W: Write>(to: &mut W, piece: &[u8]) -> io::Result<usize>
    ensures { TakesSome result piece.now }
{
    let count = to.write(piece)?;
    if count == 0 {
        return Err(ErrorKind::WriteZero.into());
    }
    to.flush()?;
    Ok(count)
}

/// Passes a result on, and counts an error.
fn note_fault(faults: &mut u64, answer: io::Result<usize>) -> Result<usize, Failed>
    ensures same { IfOk result (λ n. answer ≡ Ok n) }
    ensures kept { OnOk result (faults.new ≡ faults.old) }
    ensures failed { IsErr result ↔ IsErr answer }
    ensures counts { OnErr result (faults.new ≡ counted_up faults.old) }
    ensures cause { CountsFaults faults.old faults.new result }
{
    match answer {
        Ok(count) => Ok(count),
        Err(_) => {
            *faults = faults.saturating_add(1);
            Err(Failed)
        }
    }
}
