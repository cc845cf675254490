//! The content of each option, from clap's matches.
ghost use Rattle.std.specs.Prelude.{◌≡◌, IfOk, map, option_map, string_bytes};
ghost use Rattle.clap.specs.Matches.{found_of};
ghost use Rattle.clap.specs.Walk.{first_of, rows_of};
ghost use Rattle.command_line.specs.Found.{HasFlagText, HasNumberText, HasTexts, IsNumberText, MayHaveText};
ghost use Rattle.command_line.specs.Reading.{flag_at, number_at, number_in, options_said, said_by};
ghost use Rattle.command_line.specs.Reading.{text_at, text_option, texts_at};

use clap::ArgMatches;
use std::alloc::{AllocError, Global};

/// The content of each option, as a text or a number. The names of kind and value type, the further attributes and
/// the queries are texts as given.
#[derive(Debug, Drop)]
pub(crate) struct Options {
    pub kind: String,
    pub value: String,
    pub field: String,
    pub also: Option<String>,
    pub batch: u32,
    pub readers: u32,
    pub rounds: u32,
    pub buffers: u32,
    pub words: u32,
    pub make: Option<u32>,
    pub seed: u32,
    pub after: bool,
    pub wide: bool,
    pub dense: bool,
    pub save: bool,
    pub queries: Vec<String>,
}

fn text_in(alloc: Global, matches: &ArgMatches<'_>, name: &str) -> Result<String, AllocError>
    ensures { IfOk result (λ s. string_bytes s
        ≡ text_at name.now (rows_of (found_of matches.now))) }
{
    String::from_str(alloc, matches.get_str(name).unwrap_or(""))
}

fn number_in(matches: &ArgMatches<'_>, name: &str) -> u32
    requires { HasNumberText name.now (rows_of (found_of matches.now)) }
    ensures { result ≡ number_at name.now (rows_of (found_of matches.now)) }
{
    match matches.get_one::<u32>(name) {
        Some(number) => number,
        None => unreachable!(),
    }
}

fn text_if_given(
    alloc: Global,
    matches: &ArgMatches<'_>,
    name: &str,
) -> Result<Option<String>, AllocError>
    ensures { IfOk result (λ text. text_option text ≡ first_of name.now (rows_of (found_of matches.now))) }
{
    match matches.get_str(name) {
        Some(text) => Ok(Some(String::from_str(alloc, text)?)),
        None => Ok(None),
    }
}

fn number_if_given(matches: &ArgMatches<'_>, name: &str) -> Option<u32>
    requires { MayHaveText IsNumberText name.now (rows_of (found_of matches.now)) }
    ensures { result ≡ option_map number_in (first_of name.now (rows_of (found_of matches.now))) }
{
    match matches.get_str(name) {
        Some(_) => Some(number_in(matches, name)),
        None => None,
    }
}

fn flag_in(matches: &ArgMatches<'_>, name: &str) -> bool
    requires { HasFlagText name.now (rows_of (found_of matches.now)) }
    ensures { result ≡ flag_at name.now (rows_of (found_of matches.now)) }
{
    matches.get_flag(name)
}

fn copied(alloc: Global, texts: &[&str]) -> Result<Vec<String>, AllocError>
    ensures { IfOk result (λ v. map (λ s. string_bytes s) v.items ≡ map (λ t. t.now) texts.now) }
{
    let mut copies = Vec::new(alloc);
    for text in texts {
        copies.push(String::from_str(alloc, text)?)?;
    }
    Ok(copies)
}

fn texts_in(alloc: Global, matches: &ArgMatches<'_>, name: &str) -> Result<Vec<String>, AllocError>
    ensures { IfOk result (λ v. map (λ s. string_bytes s) v.items
        ≡ texts_at name.now (rows_of (found_of matches.now))) }
{
    match matches.get_strs(name) {
        Some(texts) => copied(alloc, texts),
        None => Ok(Vec::new(alloc)),
    }
}

/// Returns the contents of the options from the matches of a parse.
pub(crate) fn options_in(alloc: Global, matches: &ArgMatches<'_>) -> Result<Options, AllocError>
    requires { HasTexts (rows_of (found_of matches.now)) }
    ensures { IfOk result (λ o. options_said o ≡ said_by (rows_of (found_of matches.now))) }
{
    Ok(Options {
        kind: text_in(alloc, matches, "kind")?,
        value: text_in(alloc, matches, "value")?,
        field: text_in(alloc, matches, "field")?,
        also: text_if_given(alloc, matches, "also")?,
        batch: number_in(matches, "batch"),
        readers: number_in(matches, "readers"),
        rounds: number_in(matches, "rounds"),
        buffers: number_in(matches, "buffers"),
        words: number_in(matches, "words"),
        make: number_if_given(matches, "make"),
        seed: number_in(matches, "seed"),
        after: flag_in(matches, "after"),
        wide: flag_in(matches, "wide"),
        dense: flag_in(matches, "dense"),
        save: flag_in(matches, "save"),
        queries: texts_in(alloc, matches, "query")?,
    })
}
