//! Sources and sinks: where bytes come from, and where they go.

ghost use Rattle.std.specs.Prelude.{ℕ, ◌+◌, ◌<◌, ◌≤◌, List, length};
ghost use Rattle.std.specs.declared.option.Option.{Option};
ghost use Rattle.std.specs.Io.{ReadsAtMost};
ghost use Rattle.std.specs.Io.KnownBytes.{ReadConsumes, WriteAppends};
ghost use Rattle.attr_io.specs.Bytes.{TakesSome};
ghost use Rattle.attr_io.specs.Faults.{CountsFaults};

use thiserror::Error;

/// A read or a write failed, and was counted.
#[derive(Clone, Copy, Debug, PartialEq, Eq, Error)]
#[error("a read or a write failed")]
pub struct Failed;

/// Bytes to read.
pub trait Source {
    // The bytes that later reads give, if the source knows them.
    ghost left: { Self → Option (List ℕ) };

    // The number of reads that failed. The count has 64 bits and stops at its greatest value.
    ghost faults: { Self → ℕ };

    // A count that each read raises by at most one.
    ghost reads: { Self → ℕ } = { λ _. 0 };

    /// Reads the next bytes into the front of a piece. `Ok(0)` is the end.
    fn read(&mut self, into: &mut [u8]) -> Result<usize, Failed>
        requires { 0 < length into.old }
        ensures bound { ReadsAtMost result into.new }
        ensures bytes { ReadConsumes (left self.old) (left self.new) result into.new }
        ensures cause { CountsFaults (faults self.old) (faults self.new) result }
        ensures one { reads self.new ≤ reads self.old + 1 };
}

/// A place to write bytes to.
pub trait Sink {
    // The bytes taken so far, if the sink knows them.
    ghost taken: { Self → Option (List ℕ) };

    // The number of writes that failed. The count has 64 bits and stops at its greatest value.
    ghost faults: { Self → ℕ };

    /// Takes the front of a piece. A call that fails does not change the known bytes.
    fn write(&mut self, piece: &[u8]) -> Result<usize, Failed>
        requires { 0 < length piece.now }
        ensures bound { TakesSome result piece.now }
        ensures bytes { WriteAppends (taken self.old) (taken self.new) result piece.now }
        ensures cause { CountsFaults (faults self.old) (faults self.new) result };
}
