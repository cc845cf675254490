//! Laws of the ways to keys. The function does nothing; its contract is the law.
ghost use Rattle.frozen_btree.specs.Ways.{NodesHaveKeys, NodesStandOnWays, WaysHaveAllNodes};

use tree_read::KeyOrder;

/// A node of a tree is on the way to each key below it. Each such key is in the tree, and there is at least one. So
/// if no node on the way to any key lies in a buffer, no node of the tree does.
pub fn way_law<const OFFSET_BITS: u32, K: KeyOrder<OFFSET_BITS>>()
    ensures ways { NodesStandOnWays K.order K.read }
    ensures keys { NodesHaveKeys K.order K.read }
    ensures clear { WaysHaveAllNodes OFFSET_BITS K.order K.read }
{}
