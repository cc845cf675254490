//! The settings of a run.
ghost use Rattle.std.specs.Prelude.{◌≡◌};
ghost use Rattle.attr_types.specs.Names.{kind_named, value_named};
ghost use Rattle.command_line.specs.Reading.{options_said};
ghost use Rattle.command_line.specs.Settings.{Says, are_too_many, given_by, if_room, or_refused, settings_by};
ghost use Rattle.command_line.specs.declared.reading.WordsError.TheVariants as errors;

use crate::also::fields_of;
use crate::options::Options;
use crate::reading::WordsError;
use attr_types::{Field, Fields, Kind, Name, ValueType, kind_named, value_named};
use std::alloc::Global;

/// The settings that the words give. The queries are texts as given.
#[derive(Debug, Drop)]
pub struct Settings {
    /// The attributes: that of `--field` first, then those of `--also`.
    pub fields: Fields,
    /// The number of operations of each commit.
    pub batch: u32,
    /// The number of readers.
    pub readers: u32,
    /// How often each reader answers the queries.
    pub rounds: u32,
    /// The number of buffers of the store.
    pub buffers: u32,
    /// The number of words of each buffer.
    pub words: u32,
    /// The readers run after the whole feed is loaded, not beside the loading.
    pub after: bool,
    /// The number of operations that are made instead of reading a feed.
    pub make: Option<u32>,
    /// The number from which they are made.
    pub seed: u32,
    /// References have 19 and 13 bits instead of 22 and 10.
    pub wide: bool,
    /// The flag `--dense`, which changes no answer.
    pub dense: bool,
    /// The table is saved instead of a report.
    pub save: bool,
    /// The words that belong to no option, in order.
    pub queries: Vec<String>,
}

fn kind_in(name: &str) -> Result<Kind, WordsError>
    ensures { Says (λ kind. kind) result (or_refused errors.Kind (kind_named name.now)) }
{
    kind_named(name).ok_or(WordsError::Kind)
}

fn value_in(name: &str) -> Result<ValueType, WordsError>
    ensures { Says (λ value. value) result (or_refused errors.Value (value_named name.now)) }
{
    value_named(name).ok_or(WordsError::Value)
}

/// The greatest number of words in all buffers, which wide references can name.
const MOST_WORDS: u64 = 67_108_864;

/// The greatest number of buffers that references can name which are not wide.
const MOST_BUFFERS: u32 = 1_023;

/// Returns whether references cannot name all of a store's buffers and words.
fn are_too_many(wide: bool, buffers: u32, words: u32) -> bool
    ensures { result ≡ are_too_many wide buffers words }
{
    if wide {
        u64::from(buffers) * u64::from(words) > MOST_WORDS
    } else {
        buffers > MOST_BUFFERS
    }
}

fn room_in(wide: bool, buffers: u32, words: u32) -> Result<(), WordsError>
    ensures { Says (λ room. room) result (or_refused (errors.Size buffers words) (if_room wide buffers words)) }
{
    if are_too_many(wide, buffers, words) {
        Err(WordsError::Size { buffers, words })
    } else {
        Ok(())
    }
}

/// Returns the settings of the options, or their first refusal.
#[tactic(auto, unfolding(crate::specs::Settings::settings_by))]
pub(crate) fn settings_by(alloc: Global, options: Options) -> Result<Settings, WordsError>
    ensures { Says given_by result (settings_by (options_said options)) }
{
    let kind = kind_in(options.kind.as_str())?;
    let value = value_in(options.value.as_str())?;
    room_in(options.wide, options.buffers, options.words)?;
    let name = Name::new(options.field);
    let fields = fields_of(alloc, Field { name, kind, value }, options.also)?;
    Ok(Settings {
        fields,
        batch: options.batch,
        readers: options.readers,
        rounds: options.rounds,
        buffers: options.buffers,
        words: options.words,
        after: options.after,
        make: options.make,
        seed: options.seed,
        wide: options.wide,
        dense: options.dense,
        save: options.save,
        queries: options.queries,
    })
}
