//! Sources and sinks of bytes, gates that hold up a run in tests, and tasks in threads.
//!
//! In contracts, a source has the bytes that it has left, and a sink those that it took, if they are known. Both
//! count their faults. Sources and sinks in memory know their bytes; standard input and output do not.
//!
//! A task can run in a thread of its own, beside other tasks of the same kind.
#![tactic(auto)]

mod beside;
mod fake;
mod gate;
mod memory;
mod reading;
mod standard;
mod task;
mod traffic;
mod writing;

pub use beside::{run_beside, run_both, run_each};
pub use fake::{FakeSink, FakeSource};
pub use gate::{Gate, NoGate, Point};
pub use memory::{SliceSource, VecSink};
pub use reading::{ReadError, read_all};
pub use standard::{StdSink, StdSource, write_and_flush};
pub use task::Task;
pub use traffic::{Failed, Sink, Source};
pub use writing::write_all;
