//! The outcome of `attr`: its status, its progress, and the exit status of the process.

ghost use Rattle.std.specs.Prelude.{◌≡◌};
ghost use Rattle.std.specs.Process.{exit_status};
ghost use Rattle.attr_run.specs.Answers.{progress_of, HasNoRun};
ghost use Rattle.attr_run.specs.Texts.{exit_code};
ghost use Rattle.attr_run.specs.declared.outcome.Status.TheVariants.{Memory};

use atomic_table::Badge;
use attr_engine::Watched;
use attr_types::{QueryError, RoundList};
use std::alloc::Global;
use std::process::ExitCode;

/// Why the words of a command line request no run. The checks run in this order.
#[derive(Debug, Drop)]
pub enum UsageCause {
    /// The command refuses the words.
    Words,
    /// The name is not that of a kind.
    KindName,
    /// The name is not that of a value type.
    ValueName,
    /// There are more than 1,023 buffers without `--wide`, or more than 67,108,864 words in all with it.
    Size { buffers: u32, words: u32 },
    /// The text of `--also` does not consist of one to seven fields `name:kind:value` with distinct names. `place` is
    /// the offset of the first wrong part.
    Also { place: u64 },
    /// The first bad query, numbered from 1. `error` is never `Memory`.
    Query { number: u64, error: QueryError },
}

/// Why a feed is refused.
#[derive(Debug, Drop)]
pub enum FeedFault {
    /// The first faulty line, from 1, and the number of its first refusal: 1 NotJson, 2 NoOperation, 3 BadId, 4
    /// BadValue, 5 Unsupported, 6 TooManyItems.
    Line { line: u32, number: u32 },
    /// It has more than 16,777,216 bytes.
    TooLong,
}

/// How a run ended.
#[derive(Debug, Drop)]
pub enum Status {
    /// The report was written.
    Done,
    /// The words asked for help.
    Help,
    /// The words request no run.
    Usage(UsageCause),
    /// The feed was refused.
    BadFeed(FeedFault),
    /// The source failed.
    ReadFault,
    /// The sink failed before the whole answer was written.
    WriteFault,
    /// The store had no space for the operation with that number, from 1. `active` buffers were in use, and `held`
    /// waited for readers. The report of what was committed before was written.
    Full {
        operation: u32,
        active: u32,
        held: u32,
    },
    /// Memory was exhausted. Nothing was written.
    Memory,
}

impl Status {
    /// Returns the exit status of the program: 0 if the report or the help text was written, otherwise the number of
    /// the failure.
    pub fn exit_code(&self) -> u8
        ensures { result ≡ exit_code self.now }
    {
        match self {
            Status::Done => 0,
            Status::Help => 0,
            Status::Usage(_) => 2,
            Status::BadFeed(_) => 3,
            Status::ReadFault => 4,
            Status::WriteFault => 5,
            Status::Full { .. } => 6,
            Status::Memory => 7,
        }
    }
}

/// The result of a run: its status, the number of operations that it loaded, the rounds of its readers, and at how
/// many operations the table was saved, if it was.
#[derive(Drop)]
pub struct Outcome {
    pub status: Status,
    pub loaded: u32,
    pub rounds: RoundList,
    pub saved: Option<u32>,
    /// What the writer's seat knew at the end of the run, if there was a run. It has no bytes.
    pub writer: Badge<Watched>,
}

impl Outcome {
    /// Returns the outcome if memory is exhausted: nothing was done.
    pub fn out_of_memory(alloc: Global) -> Outcome
        ensures status { result.status ≡ Memory }
        ensures no_run { HasNoRun (progress_of result) }
    {
        Outcome {
            status: Status::Memory,
            loaded: 0,
            rounds: RoundList::new(alloc),
            saved: None,
            writer: Badge::blank(),
        }
    }
}

/// Returns the exit status of a program with this outcome.
pub fn exit_of(outcome: &Outcome) -> ExitCode
    ensures { exit_status result ≡ exit_code outcome.now.status }
{
    ExitCode::from(outcome.status.exit_code())
}
