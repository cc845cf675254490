//! The rest of a leaf, if no node on the way to it lies in a buffer.
ghost use Rattle.std.specs.Prelude.{◌≡◌, ◌≢◌, ◌<◌, ◌≤◌, ◌+◌, ◌-◌, true, false, min, length, get_or};
ghost use Rattle.tree_read.specs.Nodes.{used_of};
ghost use Rattle.tree_read.specs.Trees.{pairs_below, tree_pairs, IsNode, IsTree};
ghost use Rattle.tree_read.specs.Keys.{Ascends, AllReadable, seen_by};
ghost use Rattle.compaction_steps.specs.Ways.{IsWay, IsWayApart, IsWayBelow};

use arena_api::Frozen;
use entry_ref::EntryRef;
use frozen_btree::KeyOrder;
use tree_read::{FIRST_VALUE, NODE_WORDS, Spot, read_head, used_in, visit};

/// Pairs of one leaf, from the first that is not below a key on.
#[derive(Clone, Copy, Drop)]
pub struct Way {
    pub pairs: u32,
    /// The key of the last pair.
    pub last: u64,
    /// Whether the first pair is at the key.
    pub found: bool,
}

/// Returns a way without pairs.
fn no_way() -> Way
    ensures pairs { result.pairs ≡ 0 }
    ensures last { result.last ≡ 0 }
    ensures found { result.found ≡ false }
{
    Way {
        pairs: 0,
        last: 0,
        found: false,
    }
}

/// Returns the pairs of a leaf with these words from a slot on, at most `most` of them.
fn rest_of(words: &[u64; NODE_WORDS], spot: Spot, most: u32) -> Way
    requires slot { spot.slot < used_of words.now }
    requires room { used_of words.now ≤ 16 }
    requires some { 0 < most }
    ensures pairs { result.pairs ≡ min (used_of words.now - spot.slot) most }
    ensures last { result.last ≡ get_or words.now (1 + spot.slot + result.pairs) 0 }
    ensures found { result.found ≡ spot.found }
{
    let rest = (used_in(words) - spot.slot) as u32;
    let pairs = rest.min(most);
    Way {
        pairs,
        last: words[1 + spot.slot + pairs as usize],
        found: spot.found,
    }
}

/// Returns the pairs below a node, from the first that is not below the key up to the end of its leaf, at most `most`
/// of them. Returns none if a node on the way to the leaf lies in the buffer.
#[tactic(none)]
fn way_below<const OFFSET_BITS: u32, F: Frozen<OFFSET_BITS>, K: KeyOrder<OFFSET_BITS>>(
    frozen: &mut F,
    node: EntryRef<OFFSET_BITS>,
    level: u64,
    key: &K,
    buffer: u32,
    most: u32,
) -> Way
    requires node { IsNode (F.records frozen.old) 1 level node }
    requires ascends { Ascends K.order K.read (F.records frozen.old) (pairs_below (F.records frozen.old) level node) }
    requires readable { AllReadable K.can_read (F.records frozen.old) (pairs_below (F.records frozen.old) level node) }
    requires some { 0 < most }
    ensures way { IsWay (IsWayBelow OFFSET_BITS buffer K.order K.read (F.records frozen.old) level node.entry)
        (seen_by K.read K.order (K.sought key.now) (F.records frozen.old)) (pairs_below (F.records frozen.old) level node.entry)
        result.pairs result.last result.found }
    ensures few { result.pairs ≤ most }
    ensures same { frozen.new ≡ frozen.old }
{
    if node.buffer() == buffer {
        return no_way();
    }
    let mut words = [0; NODE_WORDS];
    let spot = visit(frozen, node, key, &mut words);
    if spot.slot == used_in(&words) {
        return no_way();
    }
    if level == 0 {
        return rest_of(&words, spot, most);
    }
    let child = EntryRef::from_raw(words[FIRST_VALUE + spot.slot] as u32);
    way_below(frozen, child, level - 1, key, buffer, most)
}

/// Returns the pairs of a tree, from the first that is not below the key up to the end of its leaf, at most `most` of
/// them. Returns none if a node on the way to the leaf lies in the buffer.
pub fn way_of<const OFFSET_BITS: u32, F: Frozen<OFFSET_BITS>, K: KeyOrder<OFFSET_BITS>>(
    frozen: &mut F,
    root: EntryRef<OFFSET_BITS>,
    key: &K,
    buffer: u32,
    most: u32,
) -> Way
    requires tree { IsTree K.order K.read (F.records frozen.old) root }
    requires readable { AllReadable K.can_read (F.records frozen.old) (tree_pairs (F.records frozen.old) root) }
    requires some { 0 < most }
    ensures way { IsWay (IsWayApart OFFSET_BITS buffer K.order K.read (F.records frozen.old) root.entry)
        (seen_by K.read K.order (K.sought key.now) (F.records frozen.old)) (tree_pairs (F.records frozen.old) root.entry)
        result.pairs result.last result.found }
    ensures few { result.pairs ≤ most }
    ensures same { frozen.new ≡ frozen.old }
{
    if !root.valid() {
        return no_way();
    }
    let level = read_head(frozen, root).level;
    way_below(frozen, root, level, key, buffer, most)
}
