//! Copies of nodes, with one child changed.

ghost use Rattle.std.specs.Prelude.{◌≡◌, ◌<◌, ◌+◌, true, length, slice_set, IfOk, IfErr};
ghost use Rattle.store_api.specs.Calls.{Refuses};
ghost use Rattle.frozen_nodes.specs.Makes.{MakesNodes};
ghost use Rattle.frozen_btree.specs.Touches.{CopiesNode};

use entry_ref::EntryRef;
use store_api::{Store, StoreError};
use tree_read::{FIRST_VALUE, MOST_SLOTS, NODE_WORDS, read_words};

/// Makes a node with these words.
fn make_words<const OFFSET_BITS: u32, S: Store<OFFSET_BITS>>(
    store: &mut S,
    words: &[u64; NODE_WORDS],
    near: u32,
) -> Result<EntryRef<OFFSET_BITS>, StoreError>
    requires unit { (S.ledger store.old).unit ≡ true }
    ensures copies { IfOk result (CopiesNode OFFSET_BITS (S.ledger store.old) (S.ledger store.new)
        (S.records store.old) (S.records store.new) words.now) }
    ensures nodes { MakesNodes (S.ledger store.old) (S.ledger store.new) (S.records store.old) (S.records store.new) 1 }
    ensures refuses { IfErr result (Refuses (S.ledger store.old) (S.ledger store.new) NODE_WORDS) }
{
    store.make_near(NODE_WORDS as u32, words, EntryRef::from_raw(near))
}

/// Makes a copy of a node.
pub fn copy_of<const OFFSET_BITS: u32, S: Store<OFFSET_BITS>>(
    store: &mut S,
    node: EntryRef<OFFSET_BITS>,
) -> Result<EntryRef<OFFSET_BITS>, StoreError>
    requires unit { (S.ledger store.old).unit ≡ true }
    requires size { length (S.records store.old node) ≡ NODE_WORDS }
    ensures copies { IfOk result (CopiesNode OFFSET_BITS (S.ledger store.old) (S.ledger store.new)
        (S.records store.old) (S.records store.new) (S.records store.old node.entry)) }
    ensures nodes { MakesNodes (S.ledger store.old) (S.ledger store.new) (S.records store.old) (S.records store.new) 1 }
    ensures refuses { IfErr result (Refuses (S.ledger store.old) (S.ledger store.new) NODE_WORDS) }
{
    let mut words = [0; NODE_WORDS];
    read_words(store, node, &mut words);
    make_words(store, &words, node.raw())
}

/// Makes a copy of a node, with another child in one slot.
pub fn copy_with<const OFFSET_BITS: u32, S: Store<OFFSET_BITS>>(
    store: &mut S,
    node: EntryRef<OFFSET_BITS>,
    slot: usize,
    child: u64,
) -> Result<EntryRef<OFFSET_BITS>, StoreError>
    requires unit { (S.ledger store.old).unit ≡ true }
    requires size { length (S.records store.old node) ≡ NODE_WORDS }
    requires slot { slot < MOST_SLOTS }
    ensures copies { IfOk result (CopiesNode OFFSET_BITS (S.ledger store.old) (S.ledger store.new)
        (S.records store.old) (S.records store.new) (slice_set (S.records store.old node.entry) (FIRST_VALUE + slot) child)) }
    ensures nodes { MakesNodes (S.ledger store.old) (S.ledger store.new) (S.records store.old) (S.records store.new) 1 }
    ensures refuses { IfErr result (Refuses (S.ledger store.old) (S.ledger store.new) NODE_WORDS) }
{
    let mut words = [0; NODE_WORDS];
    read_words(store, node, &mut words);
    words[FIRST_VALUE + slot] = child;
    make_words(store, &words, node.raw())
}
