//! The law of a list of changes. The function does nothing; its contract is the law.

ghost use Rattle.tree_changes.specs.Merges.{MergesOneByOne, MergesInParts};

/// Changes whose keys ascend give the same pairs at once as one by one, and in each part of a list by itself.
pub fn merge_law()
    ensures one_by_one { MergesOneByOne }
    ensures parts { MergesInParts }
{}
