//! Why a run ends without a report.

ghost use Rattle.std.specs.Prelude.{◌≡◌};
ghost use Rattle.attr_run.specs.Steps.{feed_stop, words_stop};
ghost use Rattle.attr_run.specs.declared.stop.Stop.TheVariants as stops;

use crate::outcome::{FeedFault, Status, UsageCause};
use command_line::WordsError;
use feed_reader::FeedError;
use std::alloc::{AllocError, AllocFailed};

/// Why a call has no report to write: another answer, or exhausted memory.
#[derive(Debug, Drop)]
pub enum Stop {
    Answer(Status),
    Memory,
}

impl Stop {
    pub fn usage(cause: UsageCause) -> Stop
        ensures { result ≡ Stop.Answer (Status.Usage cause) }
    {
        Stop::Answer(Status::Usage(cause))
    }

    /// Returns the stop for words that give no settings.
    pub fn of_words(error: WordsError) -> Stop
        ensures { result ≡ words_stop error }
    {
        match error {
            WordsError::Help => Stop::Answer(Status::Help),
            WordsError::Refused => Stop::usage(UsageCause::Words),
            WordsError::Kind => Stop::usage(UsageCause::KindName),
            WordsError::Value => Stop::usage(UsageCause::ValueName),
            WordsError::Size { buffers, words } => Stop::usage(UsageCause::Size { buffers, words }),
            WordsError::Also { place } => Stop::usage(UsageCause::Also { place }),
            WordsError::Memory => Stop::Memory,
        }
    }

    fn line(line: u32, number: u32) -> Stop
        ensures { result ≡ Stop.Answer (Status.BadFeed (FeedFault.Line line number)) }
    {
        Stop::Answer(Status::BadFeed(FeedFault::Line { line, number }))
    }
}

impl From<AllocError> for Stop {
    ghost from_gives = { λ _ s. s ≡ stops.Memory };

    fn from(_e: AllocError) -> Stop {
        Stop::Memory
    }
}

impl<T: Drop> From<AllocFailed<T>> for Stop {
    ghost from_gives = { λ _ s. s ≡ stops.Memory };

    fn from(_e: AllocFailed<T>) -> Stop {
        Stop::Memory
    }
}

impl From<FeedError> for Stop {
    ghost from_gives = { λ e s. s ≡ feed_stop e };

    fn from(e: FeedError) -> Stop {
        match e {
            FeedError::NotJson { line } => Stop::line(line, 1),
            FeedError::NoOperation { line } => Stop::line(line, 2),
            FeedError::BadId { line } => Stop::line(line, 3),
            FeedError::BadValue { line } => Stop::line(line, 4),
            FeedError::Unsupported { line } => Stop::line(line, 5),
            FeedError::TooManyItems { line } => Stop::line(line, 6),
            FeedError::FeedTooLong => Stop::Answer(Status::BadFeed(FeedFault::TooLong)),
            FeedError::ReadFault => Stop::Answer(Status::ReadFault),
            FeedError::Memory => Stop::Memory,
        }
    }
}
