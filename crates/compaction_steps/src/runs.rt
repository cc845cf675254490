//! Consecutive pairs of which nothing lies in a buffer.
ghost use Rattle.std.specs.Prelude.{◌≡◌, ◌≢◌, ◌≤◌, [], true};
ghost use Rattle.std.specs.List.{AllByRecursion};
ghost use Rattle.tree_read.specs.SearchPlaces.{first_key, first_value, pairs_from, HasPair, IsAt};
ghost use Rattle.compaction_steps.specs.Sights.{StandsApart, IsPairOf, IsRun};

use crate::sights::{Sight, pair_is_apart};
use arena_api::Frozen;
use attr_types::{Kind, ValueType};
use frozen_btree::Cursor;

/// The number of pairs, and the key of the last of them.
#[derive(Clone, Copy, Drop)]
pub struct Run {
    pub pairs: u32,
    pub last: u64,
}

/// Returns whether a pair follows, and what belongs to its key lies outside the buffer.
fn next_is_apart<const OFFSET_BITS: u32, F: Frozen<OFFSET_BITS>>(
    frozen: &mut F,
    sight: Sight,
    kind: Kind,
    value_type: ValueType,
    cursor: &Cursor<OFFSET_BITS>,
    buffer: u32,
) -> bool
    requires at { IsAt (F.records frozen.old) cursor.now }
    requires pairs { AllByRecursion (IsPairOf kind value_type (F.records frozen.old) sight) (pairs_from (F.records frozen.old) cursor.now) }
    ensures some { result ≡ true → HasPair cursor.now }
    ensures pairs { result ≡ true → pairs_from (F.records frozen.old) cursor.now ≢ [] }
    ensures apart { result ≡ true → StandsApart OFFSET_BITS buffer kind (F.records frozen.old) sight
        (first_key (pairs_from (F.records frozen.old) cursor.now), first_value (pairs_from (F.records frozen.old) cursor.now)) }
    ensures same { frozen.new ≡ frozen.old }
{
    if cursor.at_end() {
        return false;
    }
    let key = cursor.key();
    let word = cursor.value();
    pair_is_apart(frozen, sight, kind, value_type, key, word, buffer)
}

/// Returns the pairs from a position on, at most `most` of them, up to one of which something lies in the buffer.
#[tactic(none)]
pub fn run_from<const OFFSET_BITS: u32, F: Frozen<OFFSET_BITS>>(
    frozen: &mut F,
    sight: Sight,
    kind: Kind,
    value_type: ValueType,
    cursor: &mut Cursor<OFFSET_BITS>,
    buffer: u32,
    most: u32,
) -> Run
    requires at { IsAt (F.records frozen.old) cursor.old }
    requires pairs { AllByRecursion (IsPairOf kind value_type (F.records frozen.old) sight) (pairs_from (F.records frozen.old) cursor.old) }
    ensures run { IsRun (StandsApart OFFSET_BITS buffer kind (F.records frozen.old) sight) (pairs_from (F.records frozen.old) cursor.old)
        result.pairs result.last }
    ensures few { result.pairs ≤ most }
    ensures same { frozen.new ≡ frozen.old }
{
    let mut last = 0;
    for pairs in 0..most {
        if !next_is_apart(frozen, sight, kind, value_type, cursor, buffer) {
            return Run { pairs, last };
        }
        last = cursor.key();
        cursor.next(frozen);
    }
    Run { pairs: most, last }
}
