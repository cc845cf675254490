//! A source and a sink for tests, which move few bytes in a call, or none.

ghost use Rattle.std.specs.Prelude.{◌≡◌, ◌+◌, ◌<◌, ◌≤◌, ◌↔◌, [], length, IsTrue, IfOk, IsErr, OnErr};
ghost use Rattle.std.specs.Io.{ReadsAtMost};
ghost use Rattle.std.specs.Io.KnownBytes.{ReadConsumes, WriteAppends};
ghost use Rattle.attr_io.specs.Bytes.{TakesSome};
ghost use Rattle.attr_io.specs.Faults.{CountsFaults, counted_up};
ghost use Rattle.attr_io.specs.FakeSource.{IsListed};

use crate::memory::{VecSink, copy_front};
use crate::traffic::{Failed, Sink, Source};
use std::alloc::{AllocError, Global};
use std::marker::Model;

/// How a fake moves bytes: at most `step` in a call, and none in the calls whose numbers are listed.
#[derive(Drop)]
struct Schedule {
    step: usize,
    fails: Vec<u64>,
    calls: u64,
}

impl Schedule {
    fn create(alloc: Global, step: usize, fails: &[u64]) -> Result<Schedule, AllocError>
        ensures step { IfOk result (λ s. s.step ≡ step) }
        ensures fails { IfOk result (λ s. s.fails.items ≡ fails.now) }
        ensures calls { IfOk result (λ s. s.calls ≡ 0) }
    {
        let fails = Vec::from_slice(alloc, fails)?;
        Ok(Schedule {
            step,
            fails,
            calls: 0,
        })
    }

    /// Counts a call, and returns whether it is one that fails.
    fn is_next_listed(&mut self) -> bool
        ensures listed { IsTrue result ↔ IsListed self.old.fails.items self.old.calls }
        ensures calls { self.new.calls ≡ counted_up self.old.calls }
        ensures step { self.new.step ≡ self.old.step }
        ensures fails { self.new.fails.items ≡ self.old.fails.items }
    {
        let number = u128::from(self.calls) + 1;
        self.calls = self.calls.saturating_add(1);
        self.fails
            .iter()
            .any(|listed| u128::from(*listed) == number)
    }
}

/// A source for tests. It gives at most `step` bytes in a call, and fails in the calls whose numbers are listed.
/// Calls are numbered from 1, including those that fail.
#[derive(Drop)]
pub struct FakeSource {
    bytes: Vec<u8>,
    at: usize,
    schedule: Schedule,
    faults: u64,
}

impl Model for FakeSource {
    ghost use Rattle.std.specs.Prelude.{◌<◌, ◌≤◌, drop, vec_len};
    ghost use Rattle.attr_io.specs.FakeSource.{FakeSourceState};

    ghost Value = { FakeSourceState };

    ghost view = { λ s. record {
      left = drop s.at s.bytes.items;
      step = s.schedule.step;
      fails = s.schedule.fails.items;
      calls = s.schedule.calls;
      faults = s.faults;
    } };

    ghost invariant = { λ s. (s.at ≤ vec_len s.bytes) × (0 < s.schedule.step) };
}

impl FakeSource {
    /// Creates a source with a copy of these bytes.
    pub fn create(
        alloc: Global,
        bytes: &[u8],
        step: usize,
        fails: &[u64],
    ) -> Result<FakeSource, AllocError>
        requires { 0 < step }
        ensures { IfOk result (λ s. s ≡ record {
          left = bytes.now;
          step = step;
          fails = fails.now;
          calls = 0;
          faults = 0;
        }) }
    {
        Ok(FakeSource {
            bytes: Vec::from_slice(alloc, bytes)?,
            at: 0,
            schedule: Schedule::create(alloc, step, fails)?,
            faults: 0,
        })
    }

    pub fn faults(&self) -> u64
        ensures { result ≡ self.now.faults }
    {
        self.faults
    }
}

impl Source for FakeSource {
    ghost use Rattle.std.specs.Prelude.{Some};
    ghost use Rattle.attr_io.specs.FakeSource.{after_fault, after_read, given_count};

    ghost left = { λ s. Some s.left };

    ghost faults = { λ s. s.faults };

    ghost reads = { λ s. s.calls };

    /// Fails in exactly the listed calls, and otherwise gives as many bytes as it may.
    fn read(&mut self, into: &mut [u8]) -> Result<usize, Failed>
        requires { 0 < length into.old }
        ensures bound { ReadsAtMost result into.new }
        ensures bytes { ReadConsumes (Some self.old.left) (Some self.new.left) result into.new }
        ensures cause { CountsFaults self.old.faults self.new.faults result }
        ensures one { self.new.calls ≤ self.old.calls + 1 }

        ensures fails { IsErr result ↔ IsListed self.old.fails self.old.calls }
        ensures moves { IfOk result (λ n. n ≡ given_count self.old (length into.old)) }
        ensures ok { IfOk result (λ n. self.new ≡ after_read self.old n) }
        ensures err { OnErr result (self.new ≡ after_fault self.old) }
    {
        if self.schedule.is_next_listed() {
            self.faults = self.faults.saturating_add(1);
            return Err(Failed);
        }
        let rest = &self.bytes[self.at..];
        let most = rest.len().min(self.schedule.step);
        let count = copy_front(&rest[..most], into);
        self.at += count;
        Ok(count)
    }
}

/// A sink for tests, with space for a number of bytes. It takes at most `step` bytes in a call, and fails in the
/// calls whose numbers are listed and when no space is left. Calls are numbered from 1, including those that fail.
#[derive(Drop)]
pub struct FakeSink {
    sink: VecSink,
    schedule: Schedule,
}

impl Model for FakeSink {
    ghost use Rattle.std.specs.Prelude.{◌<◌};
    ghost use Rattle.attr_io.specs.FakeSink.{FakeSinkState};

    ghost Value = { FakeSinkState };

    ghost view = { λ s. record {
      taken = s.sink.taken;
      room = s.sink.room;
      step = s.schedule.step;
      fails = s.schedule.fails.items;
      calls = s.schedule.calls;
      faults = s.sink.faults;
    } };

    ghost invariant = { λ s. 0 < s.schedule.step };
}

impl FakeSink {
    /// Creates an empty sink with space for `room` bytes.
    pub fn create(
        alloc: Global,
        room: usize,
        step: usize,
        fails: &[u64],
    ) -> Result<FakeSink, AllocError>
        requires { 0 < step }
        ensures { IfOk result (λ s. s ≡ record {
          taken = [];
          room = room;
          step = step;
          fails = fails.now;
          calls = 0;
          faults = 0;
        }) }
    {
        Ok(FakeSink {
            sink: VecSink::create(alloc, room)?,
            schedule: Schedule::create(alloc, step, fails)?,
        })
    }

    pub fn taken(&self) -> &[u8]
        ensures { result.now ≡ self.now.taken }
    {
        self.sink.taken()
    }

    pub fn faults(&self) -> u64
        ensures { result ≡ self.now.faults }
    {
        self.sink.faults()
    }
}

impl Sink for FakeSink {
    ghost use Rattle.std.specs.Prelude.{Some};
    ghost use Rattle.attr_io.specs.FakeSink.{FailsNext, after_fault, after_write, taken_count};

    ghost taken = { λ s. Some s.taken };

    ghost faults = { λ s. s.faults };

    /// Fails in exactly the listed calls and when no space is left, and otherwise takes as many bytes as it may.
    fn write(&mut self, piece: &[u8]) -> Result<usize, Failed>
        requires { 0 < length piece.now }
        ensures bound { TakesSome result piece.now }
        ensures bytes { WriteAppends (Some self.old.taken) (Some self.new.taken) result piece.now }
        ensures cause { CountsFaults self.old.faults self.new.faults result }

        ensures fails { IsErr result ↔ FailsNext self.old }
        ensures moves { IfOk result (λ n. n ≡ taken_count self.old piece.now) }
        ensures ok { IfOk result (λ n. self.new ≡ after_write self.old piece.now n) }
        ensures err { OnErr result (self.new ≡ after_fault self.old) }
    {
        if self.schedule.is_next_listed() {
            return self.sink.fail();
        }
        let most = piece.len().min(self.schedule.step);
        self.sink.write(&piece[..most])
    }
}
