//! Reading a list of words as settings.
ghost use Rattle.std.specs.Prelude.{◌≡◌, ◌≤◌, IfOk, length, map, string_bytes};
ghost use Rattle.clap.specs.Faults.{fault_of};
ghost use Rattle.command_line.specs.CommandLine.{attr_app};
ghost use Rattle.command_line.specs.Found.{error_of};
ghost use Rattle.command_line.specs.Reading.{AnswersWords, RangesHold, TextsAreGiven};
ghost use Rattle.command_line.specs.Settings.{IsLawful, Says, SettingsAreLawful, given_by, settings_in};
ghost use Rattle.command_line.specs.declared.reading.WordsError.TheVariants as errors;

use crate::command::attr_command;
use crate::options::{Options, options_in};
use crate::settings::{Settings, settings_by};
use clap::error::ErrorKind;
use std::alloc::{AllocError, Global};

/// Why a list of words gives no settings. The checks run in this order.
#[derive(Clone, Copy, Debug, PartialEq, Eq)]
pub enum WordsError {
    /// The words ask for help, by `--help` or `-h`, before anything in them is refused.
    Help,
    /// The command refuses the words: a fault comes before any help flag.
    Refused,
    /// The name is not that of a kind.
    Kind,
    /// The name is not that of a value type.
    Value,
    /// References cannot name this many buffers or words: more than 1,023 buffers without `--wide`, or more than
    /// 67,108,864 words in all with it.
    Size { buffers: u32, words: u32 },
    /// The text of `--also` does not consist of one to seven fields `name:kind:value` with distinct names. `place` is
    /// the offset of the first wrong part.
    Also { place: u64 },
    /// Memory is exhausted.
    Memory,
}

impl From<AllocError> for WordsError {
    ghost from_gives = { λ _ e. e ≡ errors.Memory };

    fn from(_e: AllocError) -> WordsError {
        WordsError::Memory
    }
}

fn refusal_of(kind: ErrorKind) -> WordsError
    ensures { result ≡ error_of kind }
{
    match kind {
        ErrorKind::DisplayHelp => WordsError::Help,
        ErrorKind::OutOfMemory => WordsError::Memory,
        _ => WordsError::Refused,
    }
}

/// Returns the contents of the options in these words.
fn read_options(alloc: Global, words: &[String]) -> Result<Options, WordsError>
    ensures { AnswersWords (map (λ w. string_bytes w) words.now) result }
{
    let command = attr_command(alloc)?;
    match command.try_get_matches_from(words) {
        Ok(matches) => Ok(options_in(alloc, &matches)?),
        Err(error) => Err(refusal_of(error.kind())),
    }
}

/// Reads the words after the program's name. First `clap` reads them by the command `attr` (<https://docs.rs/clap>):
/// options are in any order, also as `--name=value`, `--` precedes queries that begin with a dash, and the first
/// fault decides. Then the names of kind and value type, the size of the store and the further attributes are
/// checked.
#[tactic(auto, using(crate::proofs::CommandLemmas::one_kind_at_most))]
pub fn read_words(alloc: Global, words: &[String]) -> Result<Settings, WordsError>
    ensures says { Says given_by result (settings_in (map (λ w. string_bytes w) words.now)) }
    ensures one_kind { length (fault_of attr_app (map (λ w. string_bytes w) words.now)) ≤ 1 }
    ensures lawful { IfOk result (λ s. IsLawful (given_by s)) }
{
    settings_law();
    let options = read_options(alloc, words)?;
    settings_by(alloc, options)
}

/// If the command accepts words, each number is in the range of its option, and each required text is given.
pub fn ranges_law()
    ensures ranges { RangesHold }
    ensures texts { TextsAreGiven }
{}

/// The settings of words are lawful.
pub fn settings_law()
    ensures { SettingsAreLawful }
{}
