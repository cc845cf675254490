//! Why a save was not written or read.

ghost use Rattle.std.specs.Prelude.{◌≡◌};
ghost use Rattle.attr_saver.specs.declared.error.Broken.TheVariants as broken;
ghost use Rattle.attr_saver.specs.declared.error.LoadError.TheVariants as loading;
ghost use Rattle.attr_saver.specs.declared.error.SaveError.TheVariants as saving;

use attr_io::{Failed, ReadError};
use std::alloc::{AllocError, AllocFailed};
use thiserror::Error;

/// Why bytes are not a save.
#[derive(Clone, Copy, Debug, PartialEq, Eq)]
pub enum Broken {
    /// The first bad field begins where this many bytes are left.
    Field { left: usize },
    Memory,
}

impl From<AllocError> for Broken {
    ghost from_gives = { λ _ e. e ≡ broken.Memory };

    fn from(_e: AllocError) -> Broken {
        Broken::Memory
    }
}

impl<T: Drop> From<AllocFailed<T>> for Broken {
    ghost from_gives = { λ _ e. e ≡ broken.Memory };

    fn from(_e: AllocFailed<T>) -> Broken {
        Broken::Memory
    }
}

/// Why a save was not read.
#[derive(Clone, Copy, Debug, PartialEq, Eq, Error)]
pub enum LoadError {
    /// At this offset begins the first field that breaks its rule or ends past the input; or all fields are good, and
    /// the first superfluous byte is at this offset.
    #[error("no save: the field at {place}")]
    BadForm { place: u64 },
    #[error("a read failed")]
    ReadFault,
    #[error("out of memory")]
    Memory,
}

impl From<ReadError> for LoadError {
    ghost use Rattle.attr_saver.specs.Answers.{load_error_of};

    ghost from_gives = { λ error e. e ≡ load_error_of error };

    fn from(error: ReadError) -> LoadError {
        match error {
            ReadError::Fault => LoadError::ReadFault,
            ReadError::TooLong | ReadError::Memory => LoadError::Memory,
        }
    }
}

/// Why a save was not written completely.
#[derive(Clone, Copy, Debug, PartialEq, Eq, Error)]
pub enum SaveError {
    #[error("a write failed")]
    WriteFault,
}

impl From<Failed> for SaveError {
    ghost from_gives = { λ _ e. e ≡ saving.WriteFault };

    fn from(_failed: Failed) -> SaveError {
        SaveError::WriteFault
    }
}
