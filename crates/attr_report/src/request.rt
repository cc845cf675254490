//! A requested run, as its settings and asks.

use attr_types::{Asks, Fields};

/// Operations that are made from a number instead of reading a feed.
#[derive(Clone, Copy, Debug)]
pub struct Make {
    /// How many.
    pub count: u32,
    /// The number from which they are made.
    pub seed: u32,
}

/// A requested run.
#[derive(Debug, Drop)]
pub struct Request {
    /// The attributes, numbered from 0.
    pub fields: Fields,
    /// The number of operations of each commit.
    pub batch: u32,
    /// The number of readers.
    pub readers: u32,
    /// How often each reader answers.
    pub rounds: u32,
    /// The number of buffers of the store.
    pub buffers: u32,
    /// The number of words of each buffer.
    pub words: u32,
    /// The readers run after all operations are loaded, not beside the loading.
    pub after: bool,
    /// The operations are made, and no feed is read.
    pub make: Option<Make>,
    /// References have 19 and 13 bits instead of 22 and 10.
    pub wide: bool,
    /// The flag `--dense`, which changes no answer.
    pub dense: bool,
    /// The table is saved instead of a report.
    pub save: bool,
    /// The asks, numbered from 1.
    pub asks: Asks,
}
