//! Laws of the keys between two places. The function does nothing; its contract is the law.
ghost use Rattle.attr_compaction.specs.CountsLaws.{EndIsNoMore, NextIsOneMore, NoneAreBetween, SameAreBetween};

/// No key lies between a place and itself. Up to the next key of a place there is one more, and none more if the
/// phase has no further key. Attributes with the same keys have the same counts.
#[tactic(none)]
pub fn count_law()
    ensures none { NoneAreBetween }
    ensures next { NextIsOneMore }
    ensures end { EndIsNoMore }
    ensures same { SameAreBetween }
{}
