//! The next number in a tree by number.

ghost use Rattle.std.specs.Prelude.{◌≡◌, ◌<◌, ◌+◌, ◌^◌};
ghost use Rattle.std.specs.List.{AllByRecursion};
ghost use Rattle.std.specs.Option.{option_map};
ghost use Rattle.std.specs.Ordering.{nat_cmp};
ghost use Rattle.tree_read.specs.Pairs.{seek};
ghost use Rattle.tree_read.specs.Trees.{tree_pairs, by_number, IsTree};
ghost use Rattle.tree_read.specs.SearchPlaces.{pairs_from, IsAt};
ghost use Rattle.attr_compaction.specs.PhaseKeys.{first_item};

use arena_api::Frozen;
use entry_ref::EntryRef;
use frozen_btree::{Cursor, NumberKey};

/// Returns the number of the next pair, if there is one.
fn number_at<const OFFSET_BITS: u32, F: Frozen<OFFSET_BITS>>(
    frozen: &mut F,
    cursor: &Cursor<OFFSET_BITS>,
) -> Option<u32>
    requires at { IsAt (F.records frozen.old) cursor.now }
    requires few { AllByRecursion (λ p. p.0 < 2 ^ 32) (pairs_from (F.records frozen.old) cursor.now) }
    ensures number { result ≡ option_map (λ p. p.0) (first_item (pairs_from (F.records frozen.old) cursor.now)) }
    ensures same { frozen.new ≡ frozen.old }
{
    let _ = frozen;
    if cursor.at_end() {
        return None;
    }
    let number = cursor.key() as u32;
    Some(number)
}

/// Returns the first number of a tree by number.
pub fn first_number<const OFFSET_BITS: u32, F: Frozen<OFFSET_BITS>>(
    frozen: &mut F,
    root: EntryRef<OFFSET_BITS>,
) -> Option<u32>
    requires tree { IsTree nat_cmp by_number (F.records frozen.old) root }
    requires few { AllByRecursion (λ p. p.0 < 2 ^ 32) (tree_pairs (F.records frozen.old) root) }
    ensures number { result ≡ option_map (λ p. p.0) (first_item (tree_pairs (F.records frozen.old) root.entry)) }
    ensures same { frozen.new ≡ frozen.old }
{
    let cursor = Cursor::first(frozen, root);
    number_at(frozen, &cursor)
}

/// Returns the first number of a tree by number above another one.
pub fn number_past<const OFFSET_BITS: u32, F: Frozen<OFFSET_BITS>>(
    frozen: &mut F,
    root: EntryRef<OFFSET_BITS>,
    after: u32,
) -> Option<u32>
    requires tree { IsTree nat_cmp by_number (F.records frozen.old) root }
    requires few { AllByRecursion (λ p. p.0 < 2 ^ 32) (tree_pairs (F.records frozen.old) root) }
    ensures number { result ≡ option_map (λ p. p.0)
        (first_item (seek (λ key. nat_cmp key (after + 1)) (tree_pairs (F.records frozen.old) root.entry))) }
    ensures same { frozen.new ≡ frozen.old }
{
    let cursor = Cursor::seek(frozen, root, &NumberKey(after as u64 + 1));
    number_at(frozen, &cursor)
}
