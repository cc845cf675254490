//! Reads the words of the command line: the settings, then the asks.

ghost use Rattle.std.specs.Prelude.{◌≡◌, ◌<◌, ◌≤◌, ◌^◌, IfOk, IfErr, length, map, string_bytes};
ghost use Rattle.std.specs.List.{AllByRecursion};
ghost use Rattle.std.specs.Str.{IsUtf8};
ghost use Rattle.clap.specs.Faults.{fault_of};
ghost use Rattle.command_line.specs.CommandLine.{attr_app};
ghost use Rattle.command_line.specs.Settings.{settings_in as given_in, given_by, IsLawful};
ghost use Rattle.attr_types.specs.Scores.{ask_tree};
ghost use Rattle.query_text.specs.Asks.{ask_of};
ghost use Rattle.attr_report.specs.Run.{run_in};
ghost use Rattle.attr_run.specs.Run.{given_or_refused, make_of, run_of, ask_or_refused, asks_from, asked};
ghost use Rattle.attr_run.specs.Settings.{IsAskedBy};
ghost use Rattle.attr_run.specs.Steps.{Says, IsWordsStop, IsRuledStop};

use crate::laws::settings_law;
use crate::outcome::UsageCause;
use crate::stop::Stop;
use crate::words::Words;
use attr_report::{Make, Request};
use attr_types::{Ask, Asks, Field, QueryError};
use command_line::{Settings, read_words};
use query_text::parse_ask;
use std::alloc::Global;

/// Returns the settings that the words give, unless they ask for help or are refused.
fn settings_in(alloc: Global, words: &Words) -> Result<Settings, Stop>
    ensures says { Says given_by result (given_or_refused (given_in words.now)) }
    ensures given { IfOk result (λ s. given_in words.now ≡ Ok (given_by s)) }
    ensures refusal { IfErr result IsWordsStop }
    ensures one_kind { length (fault_of attr_app words.now) ≤ 1 }
    ensures few { IfOk result (λ s. length s.fields < 2 ^ 32) }
    ensures texts { IfOk result (λ s. AllByRecursion IsUtf8 (given_by s).queries) }
{
    match read_words(alloc, words.as_slice()) {
        Ok(settings) => Ok(settings),
        Err(error) => Err(Stop::of_words(error)),
    }
}

fn ask_in(alloc: Global, fields: &[Field], number: u64, text: &str) -> Result<Ask, Stop>
    requires { length fields.now < 2 ^ 32 }
    ensures says { Says ask_tree result (ask_or_refused number (ask_of fields.now text.now)) }
    ensures refusal { IfErr result IsWordsStop }
{
    match parse_ask(alloc, text, fields) {
        Ok(ask) => Ok(ask),
        Err(QueryError::Memory) => Err(Stop::Memory),
        Err(error) => Err(Stop::usage(UsageCause::Query { number, error })),
    }
}

fn asks_in(alloc: Global, fields: &[Field], texts: &[String]) -> Result<Asks, Stop>
    requires few { length fields.now < 2 ^ 32 }
    requires small { length texts.now < 2 ^ 63 }
    ensures refusal { IfErr result IsWordsStop }
    ensures says { Says (λ asks. map ask_tree asks.items) result
        (asks_from fields.now 1 (map (λ t. string_bytes t) texts.now)) }
{
    let mut asks = Asks::new(alloc);
    let mut number: u64 = 1;
    for text in texts {
        let ask = ask_in(alloc, fields, number, text.as_str())?;
        asks.push(ask)?;
        number += 1;
    }
    Ok(asks)
}

fn make_of(count: Option<u32>, seed: u32) -> Option<Make>
    ensures { result ≡ make_of count seed }
{
    match count {
        Some(count) => Some(Make { count, seed }),
        None => None,
    }
}

fn request_of(settings: Settings, asks: Asks) -> Request
    ensures run { run_in result ≡ run_of (given_by settings) (map ask_tree asks.items) }
{
    Request {
        fields: settings.fields,
        batch: settings.batch,
        readers: settings.readers,
        rounds: settings.rounds,
        buffers: settings.buffers,
        words: settings.words,
        after: settings.after,
        make: make_of(settings.make, settings.seed),
        wide: settings.wide,
        dense: settings.dense,
        save: settings.save,
        asks,
    }
}

/// Reads the words: first the settings, then the asks.
pub fn request_in(alloc: Global, words: &Words) -> Result<Request, Stop>
    ensures asked { Says run_in result (asked words.now) }
    ensures refusal { IfErr result IsWordsStop }
    ensures one_kind { length (fault_of attr_app words.now) ≤ 1 }
    ensures lawful { IfOk result (λ request. IsAskedBy words.now (run_in request)) }
    ensures ruled { IfErr result (IsRuledStop words.now) }
{
    settings_law();
    let settings = settings_in(alloc, words)?;
    let asks = asks_in(
        alloc,
        settings.fields.as_slice(),
        settings.queries.as_slice(),
    )?;
    Ok(request_of(settings, asks))
}
