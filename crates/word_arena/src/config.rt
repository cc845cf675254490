//! The settings of an arena.

/// The greatest limit of commits that a root word has room for.
pub const MOST_COMMITS: u32 = 4_294_967_295;

/// The greatest limit of generations that the word of the newest hold has room for.
pub const MOST_GENERATIONS: u64 = 281_474_976_710_655;

/// The highest number of a commit, and the highest generation (below 2^48). At the first the writer can commit no more; at
/// the second it can let go no more commits. Tests set low ones; a program takes `MOST_COMMITS` and `MOST_GENERATIONS`.
#[derive(Clone, Copy, PartialEq, Eq, Debug, Drop)]
pub struct Limits {
    pub commits: u32,
    pub generations: u64,
}

/// The settings of a new arena: the number of buffers, the words of each (8,192 to 65,536), the shape by which the layout
/// reads images, and the limits. `Arena::create` says which it accepts.
#[derive(Clone, Copy, PartialEq, Eq, Debug, Drop)]
pub struct Config {
    pub buffers: u32,
    pub words: u32,
    pub shape: u32,
    pub limits: Limits,
}
