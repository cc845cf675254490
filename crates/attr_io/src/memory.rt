//! A source and a sink in memory.

ghost use Rattle.std.specs.Prelude.{◌≡◌, ◌<◌, ◌↔◌, [], length, take, min, IfOk, IsErr, OnErr};
ghost use Rattle.std.specs.Io.KnownBytes.{WriteAppends};
ghost use Rattle.attr_io.specs.Bytes.{TakesSome};
ghost use Rattle.attr_io.specs.Faults.{CountsFaults};

use crate::traffic::{Failed, Sink, Source};
use std::alloc::{AllocError, Global};
use std::marker::Model;

/// A source that gives the bytes of a slice and never fails. Contracts see the bytes left.
#[derive(Drop)]
pub struct SliceSource<'a> {
    rest: &'a [u8],
}

impl<'a> Model for SliceSource<'a> {
    ghost use Rattle.std.specs.Prelude.{ℕ, List};

    ghost Value = { List ℕ };

    ghost view = { λ s. s.rest.now };
}

impl<'a> SliceSource<'a> {
    pub fn new(bytes: &'a [u8]) -> SliceSource<'a>
        ensures { result ≡ bytes.entry.now }
    {
        SliceSource { rest: bytes }
    }
}

impl Source for SliceSource<'_> {
    ghost use Rattle.std.specs.Prelude.{Some};

    ghost left = { λ s. Some s };

    ghost faults = { λ _. 0 };

    fn read(&mut self, into: &mut [u8]) -> Result<usize, Failed> {
        let count = copy_front(self.rest, into);
        self.rest = &self.rest[count..];
        Ok(count)
    }
}

/// Copies as many bytes as exist and fit, and returns their number.
pub(crate) fn copy_front(from: &[u8], into: &mut [u8]) -> usize
    ensures count { result ≡ min (length into.old) (length from.now) }
    ensures front { take result into.new ≡ take result from.now }
{
    let count = into.len().min(from.len());
    into[..count].copy_from_slice(&from[..count]);
    count
}

/// A sink in memory with space for a number of bytes.
#[derive(Drop)]
pub struct VecSink {
    bytes: Vec<u8>,
    room: usize,
    faults: u64,
}

impl Model for VecSink {
    ghost use Rattle.std.specs.Prelude.{◌≤◌, vec_len, vec_capacity};
    ghost use Rattle.attr_io.specs.VecSink.{VecSinkState};

    ghost Value = { VecSinkState };

    ghost view = { λ s. record { taken = s.bytes.items; room = s.room; faults = s.faults } };

    ghost invariant = { λ s. (vec_len s.bytes ≤ s.room) × (s.room ≤ vec_capacity s.bytes) };
}

impl VecSink {
    ghost use Rattle.attr_io.specs.VecSink.{after_fault};

    /// Creates an empty sink with space for `room` bytes.
    pub fn create(alloc: Global, room: usize) -> Result<VecSink, AllocError>
        ensures { IfOk result (λ s. s ≡ record { taken = []; room = room; faults = 0 }) }
    {
        Ok(VecSink {
            bytes: Vec::with_capacity(alloc, room)?,
            room,
            faults: 0,
        })
    }

    pub fn taken(&self) -> &[u8]
        ensures { result.now ≡ self.now.taken }
    {
        self.bytes.as_slice()
    }

    pub fn faults(&self) -> u64
        ensures { result ≡ self.now.faults }
    {
        self.faults
    }

    /// Counts a fault, and takes nothing.
    pub(crate) fn fail(&mut self) -> Result<usize, Failed>
        ensures failed { IsErr result }
        ensures cause { CountsFaults self.old.faults self.new.faults result }
        ensures counts { self.new ≡ after_fault self.old }
    {
        self.faults = self.faults.saturating_add(1);
        Err(Failed)
    }
}

impl Sink for VecSink {
    ghost use Rattle.std.specs.Prelude.{Some};
    ghost use Rattle.attr_io.specs.VecSink.{IsSinkFull, after_fault, after_write, fitting_count};

    ghost taken = { λ s. Some s.taken };

    ghost faults = { λ s. s.faults };

    /// Takes what fits, and fails if and only if no space is left.
    fn write(&mut self, piece: &[u8]) -> Result<usize, Failed>
        requires { 0 < length piece.now }
        ensures bound { TakesSome result piece.now }
        ensures bytes { WriteAppends (Some self.old.taken) (Some self.new.taken) result piece.now }
        ensures cause { CountsFaults self.old.faults self.new.faults result }

        ensures full { IsErr result ↔ IsSinkFull self.old }
        ensures fits { IfOk result (λ n. n ≡ fitting_count self.old piece.now) }
        ensures ok { IfOk result (λ n. self.new ≡ after_write self.old piece.now n) }
        ensures err { OnErr result (self.new ≡ after_fault self.old) }
    {
        let count = piece.len().min(self.room - self.bytes.len());
        if count == 0 {
            return self.fail();
        }
        match self.bytes.extend_from_slice(&piece[..count]) {
            Ok(()) => Ok(count),
            Err(_) => unreachable!(),
        }
    }
}
