//! The rounds of readers, as counts of operations.

use crate::list::ListOf;

/// How many operations each round of one reader saw, in the order of the rounds.
pub type RoundCounts = ListOf<u32>;

/// The counts of each reader, in the order of the readers.
pub type RoundList = ListOf<RoundCounts>;
