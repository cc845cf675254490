//! Roots of few pairs.

ghost use Rattle.std.specs.Prelude.{◌≡◌, ◌^◌, ◌≤◌, ◌<◌, ◌∷◌, [], true, length, IfOk, IfErr};
ghost use Rattle.store_api.specs.Calls.{Refuses};
ghost use Rattle.frozen_nodes.specs.Makes.{MakesNodes, MakesNode};
ghost use Rattle.frozen_btree.specs.Changes.{MakesRoot};
ghost use Rattle.tree_read.specs.Slots.{slot_pairs, IsInHand};

use arrayvec::ArrayVec;
use entry_ref::EntryRef;
use frozen_nodes::make_part;
use store_api::{Store, StoreError};
use tree_read::{MOST_SLOTS, NODE_WORDS, Slots};

/// Makes a leaf of one pair.
pub fn make_leaf<const OFFSET_BITS: u32, S: Store<OFFSET_BITS>>(
    store: &mut S,
    word: u64,
    value: u64,
) -> Result<EntryRef<OFFSET_BITS>, StoreError>
    requires unit { (S.ledger store.old).unit ≡ true }
    ensures leaf { IfOk result (MakesNode (S.ledger store.old) (S.ledger store.new) (S.records store.old) (S.records store.new)
        0 (word ∷ []) (value ∷ [])) }
    ensures makes { MakesNodes (S.ledger store.old) (S.ledger store.new) (S.records store.old) (S.records store.new) 1 }
    ensures refuses { IfErr result (Refuses (S.ledger store.old) (S.ledger store.new) NODE_WORDS) }
{
    let mut slots = Slots {
        level: 0,
        keys: ArrayVec::new(),
        values: ArrayVec::new(),
    };
    slots.keys.push(word);
    slots.values.push(value);
    let part = make_part(store, &slots)?;
    Ok(EntryRef::from_raw(part.node))
}

/// Returns the root of slots in memory: 0 if there is none, and, above the leaves, the child of a single slot.
pub fn make_root<const OFFSET_BITS: u32, S: Store<OFFSET_BITS>>(
    store: &mut S,
    slots: &Slots,
) -> Result<EntryRef<OFFSET_BITS>, StoreError>
    requires unit { (S.ledger store.old).unit ≡ true }
    requires low { slots.now.level ≤ 7 }
    requires hand { IsInHand (S.records store.old) slots.now.level slots.now.keys.items slots.now.values.items }
    requires some { 0 < slots.now.level → 0 < length slots.now.keys.items }
    requires room { length slots.now.keys.items ≤ MOST_SLOTS }
    requires few { length (slot_pairs (S.records store.old) slots.now.level slots.now.keys.items slots.now.values.items) < 2 ^ 32 }
    ensures root { IfOk result (MakesRoot (S.ledger store.old) (S.ledger store.new) (S.records store.old) (S.records store.new)
        slots.now.level slots.now.keys.items slots.now.values.items) }
    ensures refuses { IfErr result (Refuses (S.ledger store.old) (S.ledger store.new) NODE_WORDS) }
    ensures makes { MakesNodes (S.ledger store.old) (S.ledger store.new) (S.records store.old) (S.records store.new) 1 }
{
    if slots.keys.is_empty() {
        return Ok(EntryRef::from_raw(0));
    }
    if slots.level > 0 && slots.keys.len() == 1 {
        return Ok(EntryRef::from_raw(slots.values[0] as u32));
    }
    let part = make_part(store, slots)?;
    Ok(EntryRef::from_raw(part.node))
}
