//! The command line of `attr`: a list of words, which `clap` reads into the settings of a run.
#![tactic(auto)]

mod also;
mod command;
mod options;
mod reading;
mod settings;

pub use reading::{WordsError, ranges_law, read_words, settings_law};
pub use settings::Settings;
