//! Moves the record of one value out of the victim.

ghost use Rattle.std.specs.Prelude.{◌≡◌, ◌∷◌, [], true, IfOk, IfErr, Some};
ghost use Rattle.tree_read.specs.Trees.{tree_pairs};
ghost use Rattle.tree_read.specs.Pairs.{lookup_pair};
ghost use Rattle.store_api.specs.Calls.{IsUsedWidth, RefusesOf};
ghost use Rattle.store_api.specs.Parts.{Owns};
ghost use Rattle.store_api.specs.Units.{MayDo, MakesWithin};
ghost use Rattle.attr_types.specs.Value.{type_of};
ghost use Rattle.enum_dictionary.specs.Dictionaries.{beside_value};
ghost use Rattle.value_index.specs.Indexes.{index_part, IsIndex};
ghost use Rattle.compaction_moves.specs.IndexMoves.{key_most, MovesKey};

use attr_types::Value;
use entry_ref::EntryRef;
use enum_dictionary::{find, set};
use store_api::{Store, StoreError};
use unique_store::add;

/// Copies the record of a value if it lies in the buffer, and makes the copy the value's key.
#[tactic(none)]
fn move_found<const OFFSET_BITS: u32, S: Store<OFFSET_BITS>>(
    store: &mut S,
    root: EntryRef<OFFSET_BITS>,
    value: &Value,
    key: EntryRef<OFFSET_BITS>,
    list: u64,
    buffer: u32,
) -> Result<EntryRef<OFFSET_BITS>, StoreError>
    requires unit { (S.ledger store.old).unit ≡ true }
    requires sealed { (S.ledger store.old).sealed buffer ≡ true }
    requires index { IsIndex (type_of value.now) (S.records store.old) root }
    requires owns { Owns (S.ledger store.old) (S.records store.old) (index_part root ∷ []) }
    requires found { lookup_pair (beside_value value.now (S.records store.old)) (tree_pairs (S.records store.old) root) ≡ Some (key, list) }
    ensures moves { IfOk result (MovesKey OFFSET_BITS buffer value.now (S.ledger store.old) (S.ledger store.new)
        (S.records store.old) (S.records store.new) root.entry) }
    ensures counts { MakesWithin (S.ledger store.old) (S.ledger store.new) (key_most value.now (S.records store.old) root.entry) }
    ensures refuses { IfErr result (RefusesOf (IsUsedWidth (S.ledger store.old) (S.records store.old)) (S.ledger store.old)
        (S.ledger store.new)) }
    ensures may { MayDo (S.ledger store.old) (S.ledger store.new) }
{
    if key.buffer() != buffer {
        return Ok(root);
    }
    let copy = add(store, value)?;
    set(store, root, value, copy, list)
}

/// Moves the key of a value out of a sealed buffer: if its record lies there, a copy of it becomes the key. The old
/// record stays in use, since documents may refer to it, and disappears with the buffer. Returns the root of the new
/// index.
#[tactic(none)]
pub fn move_key<const OFFSET_BITS: u32, S: Store<OFFSET_BITS>>(
    store: &mut S,
    root: EntryRef<OFFSET_BITS>,
    value: &Value,
    buffer: u32,
) -> Result<EntryRef<OFFSET_BITS>, StoreError>
    requires unit { (S.ledger store.old).unit ≡ true }
    requires sealed { (S.ledger store.old).sealed buffer ≡ true }
    requires index { IsIndex (type_of value.now) (S.records store.old) root }
    requires owns { Owns (S.ledger store.old) (S.records store.old) (index_part root ∷ []) }
    ensures moves { IfOk result (MovesKey OFFSET_BITS buffer value.now (S.ledger store.old) (S.ledger store.new)
        (S.records store.old) (S.records store.new) root.entry) }
    ensures counts { MakesWithin (S.ledger store.old) (S.ledger store.new) (key_most value.now (S.records store.old) root.entry) }
    ensures refuses { IfErr result (RefusesOf (IsUsedWidth (S.ledger store.old) (S.records store.old)) (S.ledger store.old)
        (S.ledger store.new)) }
    ensures may { MayDo (S.ledger store.old) (S.ledger store.new) }
{
    match find(store, root, value) {
        Some(entry) => move_found(store, root, value, entry.key, entry.posting, buffer),
        None => Ok(root),
    }
}
