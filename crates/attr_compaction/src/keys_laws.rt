//! Laws of the keys of a phase. The function does nothing; its contract is the law.
ghost use Rattle.attr_compaction.specs.KeysLaws.{PhaseKeysAscend};

/// The keys of a phase ascend strictly. So the first key after a place is the only key between the place and itself.
pub fn keys_law()
    ensures { PhaseKeysAscend }
{}
