//! Makes a tree of one leaf.

ghost use Rattle.std.specs.Prelude.{◌≡◌, ◌≤◌, ◌∷◌, [], true, length, IfOk, IfErr};
ghost use Rattle.std.specs.List.{zip};
ghost use Rattle.tree_read.specs.Trees.{tree_pairs, Keeps};
ghost use Rattle.tree_read.specs.Keys.{Ascends, AllReadable, NoneReadsNodes, IsKeyedTree};
ghost use Rattle.store_api.specs.Calls.{Refuses};
ghost use Rattle.store_api.specs.Parts.{Owns, Turns};
ghost use Rattle.store_api.specs.Units.{MayDo};
ghost use Rattle.frozen_btree.specs.Changes.{tree};
ghost use Rattle.frozen_nodes.specs.Makes.{CountsNodes};

use crate::make_root;
use arrayvec::ArrayVec;
use entry_ref::EntryRef;
use store_api::{Store, StoreError};
use tree_read::{KeyOrder, MOST_SLOTS, NODE_WORDS, Slots, append};

/// Makes a tree of at most 16 pairs with ascending keys, as one leaf. Without pairs the root is 0.
pub fn build_leaf<const OFFSET_BITS: u32, S: Store<OFFSET_BITS>, K: KeyOrder<OFFSET_BITS>>(
    store: &mut S,
    keys: &[u64],
    values: &[u64],
) -> Result<EntryRef<OFFSET_BITS>, StoreError>
    requires unit { (S.ledger store.old).unit ≡ true }
    requires even { length keys.now ≡ length values.now }
    requires fits { length keys.now ≤ MOST_SLOTS }
    requires ascends { Ascends K.order K.read (S.records store.old) (zip keys.now values.now) }
    requires readable { AllReadable K.can_read (S.records store.old) (zip keys.now values.now) }
    requires apart { NoneReadsNodes K.reads_from (S.records store.old) (zip keys.now values.now) }
    ensures keyed { IfOk result (IsKeyedTree K.order K.read K.can_read K.reads_from (S.records store.new)) }
    ensures pairs { IfOk result (λ r. tree_pairs (S.records store.new) r ≡ zip keys.now values.now) }
    ensures owns { IfOk result (λ r. Owns (S.ledger store.new) (S.records store.new) (tree r ∷ [])) }
    ensures turns { IfOk result (λ r. Turns (S.ledger store.old) (S.ledger store.new) (S.records store.old) (S.records store.new)
        [] (tree r ∷ [])) }
    ensures stay { Keeps (S.records store.old) (S.records store.new) }
    ensures counts { CountsNodes (S.ledger store.old) (S.ledger store.new) 1 }
    ensures refuses { IfErr result (Refuses (S.ledger store.old) (S.ledger store.new) NODE_WORDS) }
    ensures may { MayDo (S.ledger store.old) (S.ledger store.new) }
{
    let mut slots = Slots {
        level: 0,
        keys: ArrayVec::new(),
        values: ArrayVec::new(),
    };
    append(&mut slots.keys, keys);
    append(&mut slots.values, values);
    make_root(store, &slots)
}
