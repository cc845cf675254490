//! A bit vector dropped, with its blocks.
ghost use Rattle.std.specs.Prelude.{◌≡◌, ◌≤◌, ◌∷◌, [], ℕ, true, map, length};
ghost use Rattle.bit_vector.specs.Changes.{vector_part};
ghost use Rattle.bit_vector.specs.Vectors.{IsVector};
ghost use Rattle.store_api.specs.Parts.{Owns, Turns};
ghost use Rattle.store_api.specs.Units.{MayDo, MakesAtMost};
ghost use Rattle.tree_read.specs.Trees.{tree_pairs};

use crate::MOST_BLOCKS;
use arena_api::Frozen;
use arrayvec::ArrayVec;
use entry_ref::EntryRef;
use frozen_btree::{Cursor, drop_nodes, drop_tree};
use store_api::Store;

/// Returns the records of the blocks of a bit vector.
fn records_of<const OFFSET_BITS: u32, F: Frozen<OFFSET_BITS>>(
    frozen: &mut F,
    root: EntryRef<OFFSET_BITS>,
) -> ArrayVec<u32, MOST_BLOCKS>
    requires vector { IsVector (F.records frozen.old) root }
    ensures records { result.items ≡ map (λ p. p.1) (tree_pairs (F.records frozen.old) root.entry) }
    ensures same { frozen.new ≡ frozen.old }
{
    let mut records = ArrayVec::new();
    let mut cursor = Cursor::first(frozen, root);
    while !cursor.at_end() {
        records.push(cursor.value() as u32);
        cursor.next(frozen);
    }
    records
}

/// Drops the nodes and the blocks of a bit vector.
pub fn drop_vector<const OFFSET_BITS: u32, S: Store<OFFSET_BITS>>(
    store: &mut S,
    root: EntryRef<OFFSET_BITS>,
)
    requires unit { (S.ledger store.old).unit ≡ true }
    requires vector { IsVector (S.records store.old) root }
    requires owns { Owns (S.ledger store.old) (S.records store.old) (vector_part root ∷ []) }
    ensures turns { Turns (S.ledger store.old) (S.ledger store.new) (S.records store.old) (S.records store.new)
        (vector_part root.entry ∷ []) [] }
    ensures none_made { (c w : ℕ) → MakesAtMost c 0 ((S.ledger store.old).of_width w) ((S.ledger store.new).of_width w) }
    ensures may { MayDo (S.ledger store.old) (S.ledger store.new) }
{
    let records = records_of(store, root);
    drop_tree(store, root);
    drop_nodes(store, records.as_slice());
}
