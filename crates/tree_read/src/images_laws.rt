//! Laws of trees. Each function does nothing; its contract is the law.
ghost use Rattle.tree_read.specs.Examples.{TwoLeavesAreATree, TwoLeavesRead};
ghost use Rattle.tree_read.specs.Laws.{NodeIsFormed, NodeReads, NodesAreDistinct};
ghost use Rattle.tree_read.specs.Laws.{PairsStay, OldPairsStay, OldRootStays, KeysAscend, CountIsLength, HasManyPairs};

/// A tree stays the same while the records of its nodes stay the same, and so when records are only added.
pub fn frame_law()
    ensures same { PairsStay }
    ensures pairs { OldPairsStay }
    ensures root { OldRootStays }
{}

/// The keys of a tree ascend, its count is the number of its pairs, a tree of several levels has many pairs, and no
/// node occurs twice.
pub fn tree_law()
    ensures ascend { KeysAscend }
    ensures count { CountIsLength }
    ensures many { HasManyPairs }
    ensures distinct { NodesAreDistinct }
{}

/// A node made of slots has the form of a node, and reads as these slots.
pub fn node_law()
    ensures form { NodeIsFormed }
    ensures reads { NodeReads }
{}

/// Keys 1 to 17 in a leaf of nine and a leaf of eight are a tree, which reads as these keys.
pub fn example_law()
    ensures tree { TwoLeavesAreATree }
    ensures reads { TwoLeavesRead }
{}
