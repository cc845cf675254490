//! The command `attr`.
ghost use Rattle.std.specs.Prelude.{◌≡◌, IfOk, false, [], ◌∷◌};
ghost use Rattle.clap.specs.Walk.{rule_of};
ghost use Rattle.clap.specs.Simple.{app_of};
ghost use Rattle.command_line.specs.CommandLine.{required_rule, text_rule, number_rule};
ghost use Rattle.command_line.specs.CommandLine.{flag_rule, words_rule, attr_app};
ghost use Rattle.command_line.specs.CommandLine.{with_fields, with_flags, with_numbers};

use clap::builder::ValueParser;
use clap::{Arg, ArgAction, Command};
use std::alloc::{AllocError, Global};

fn required_option<'a>(alloc: Global, name: &'a str) -> Arg<'a>
    ensures rule { rule_of result ≡ required_rule name.entry.now }
    ensures local { result.global ≡ false }
{
    Arg::new(alloc, name).long(name).required(true)
}

fn text_option<'a>(alloc: Global, name: &'a str, default: &'a str) -> Arg<'a>
    ensures rule { rule_of result ≡ text_rule name.entry.now (default.entry.now ∷ []) }
    ensures local { result.global ≡ false }
{
    Arg::new(alloc, name).long(name).default_value(default)
}

fn free_text_option<'a>(alloc: Global, name: &'a str) -> Arg<'a>
    ensures rule { rule_of result ≡ text_rule name.entry.now [] }
    ensures local { result.global ≡ false }
{
    Arg::new(alloc, name).long(name)
}

fn number_option<'a>(
    alloc: Global,
    name: &'a str,
    least: u64,
    most: u64,
    default: &'a str,
) -> Arg<'a>
    ensures rule { rule_of result ≡ number_rule (record {
      name = name.entry.now;
      least = least;
      most = most;
      default = default.entry.now ∷ [];
    }) }
    ensures local { result.global ≡ false }
{
    Arg::new(alloc, name)
        .long(name)
        .value_parser(ValueParser::Unsigned(least, most))
        .default_value(default)
}

fn free_number_option<'a>(alloc: Global, name: &'a str, least: u64, most: u64) -> Arg<'a>
    ensures rule { rule_of result ≡ number_rule (record {
      name = name.entry.now;
      least = least;
      most = most;
      default = [];
    }) }
    ensures local { result.global ≡ false }
{
    Arg::new(alloc, name)
        .long(name)
        .value_parser(ValueParser::Unsigned(least, most))
}

fn flag_option<'a>(alloc: Global, name: &'a str) -> Arg<'a>
    ensures rule { rule_of result ≡ flag_rule name.entry.now }
    ensures local { result.global ≡ false }
{
    Arg::new(alloc, name).long(name).action(ArgAction::SetTrue)
}

fn words_argument<'a>(alloc: Global, name: &'a str) -> Arg<'a>
    ensures rule { rule_of result ≡ words_rule name.entry.now }
    ensures local { result.global ≡ false }
{
    Arg::new(alloc, name).action(ArgAction::Append)
}

/// Adds the options that name the attributes.
fn with_fields<'a>(alloc: Global, command: Command<'a>) -> Result<Command<'a>, AllocError>
    ensures { IfOk result (λ c. app_of c ≡ with_fields (app_of command.entry)) }
{
    command
        .arg(required_option(alloc, "kind"))?
        .arg(required_option(alloc, "value"))?
        .arg(text_option(alloc, "field", "f"))?
        .arg(free_text_option(alloc, "also"))
}

/// Adds the options with a number.
fn with_numbers<'a>(alloc: Global, command: Command<'a>) -> Result<Command<'a>, AllocError>
    ensures { IfOk result (λ c. app_of c ≡ with_numbers (app_of command.entry)) }
{
    command
        .arg(number_option(alloc, "batch", 1, 1_000_000, "100"))?
        .arg(number_option(alloc, "readers", 0, 8, "2"))?
        .arg(number_option(alloc, "rounds", 1, 1_000, "4"))?
        .arg(number_option(alloc, "buffers", 8, 8_191, "64"))?
        .arg(number_option(alloc, "words", 8_192, 65_536, "16384"))?
        .arg(free_number_option(alloc, "make", 1, 1_000_000))?
        .arg(number_option(alloc, "seed", 0, 65_535, "1"))
}

/// Adds the flags.
fn with_flags<'a>(alloc: Global, command: Command<'a>) -> Result<Command<'a>, AllocError>
    ensures { IfOk result (λ c. app_of c ≡ with_flags (app_of command.entry)) }
{
    command
        .arg(flag_option(alloc, "after"))?
        .arg(flag_option(alloc, "wide"))?
        .arg(flag_option(alloc, "dense"))?
        .arg(flag_option(alloc, "save"))
}

/// Returns the command that reads the words after the program's name.
pub(crate) fn attr_command<'a>(alloc: Global) -> Result<Command<'a>, AllocError>
    ensures { IfOk result (λ c. app_of c ≡ attr_app) }
{
    let bare = Command::new(alloc, "attr").no_binary_name(true);
    let command = with_fields(alloc, bare)?;
    let command = with_numbers(alloc, command)?;
    let command = with_flags(alloc, command)?;
    command.arg(words_argument(alloc, "query"))
}
