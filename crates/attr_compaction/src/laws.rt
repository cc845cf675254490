//! Laws of places. The function does nothing; its contract is the law.
ghost use Rattle.attr_compaction.specs.Laws.{PlacesAreOrdered, KeysAreExact, NextIsAbove};

/// Places are totally ordered, and so are the keys of a phase. Keys that compare as equal are the same. The place
/// after a place is above it.
pub fn place_law()
    ensures order { PlacesAreOrdered }
    ensures exact { KeysAreExact }
    ensures above { NextIsAbove }
{}
