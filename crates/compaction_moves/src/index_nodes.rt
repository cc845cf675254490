//! Moves the nodes of the dictionary above one value out of the victim.

ghost use Rattle.std.specs.Prelude.{◌≡◌, ◌∷◌, [], true, IfOk, IfErr, OnErr};
ghost use Rattle.store_api.specs.Calls.{IsUsedWidth, Refuses};
ghost use Rattle.store_api.specs.Parts.{Owns};
ghost use Rattle.store_api.specs.Units.{MayDo};
ghost use Rattle.frozen_btree.specs.Changes.{levels};
ghost use Rattle.frozen_btree.specs.Makes.{CountsNodes};
ghost use Rattle.attr_types.specs.Value.{type_of};
ghost use Rattle.value_index.specs.Indexes.{index_part, IsIndex};
ghost use Rattle.compaction_moves.specs.IndexMoves.{MovesNodes};

use attr_types::Value;
use entry_ref::EntryRef;
use enum_dictionary::{LongKey, TextKey};
use frozen_btree::touch;
use store_api::{Store, StoreError};
use tree_read::NODE_WORDS;

/// Moves the nodes of the dictionary on the way to a value out of a sealed buffer. Returns the root of the new index.
pub fn move_nodes<const OFFSET_BITS: u32, S: Store<OFFSET_BITS>>(
    store: &mut S,
    root: EntryRef<OFFSET_BITS>,
    value: &Value,
    buffer: u32,
) -> Result<EntryRef<OFFSET_BITS>, StoreError>
    requires unit { (S.ledger store.old).unit ≡ true }
    requires sealed { (S.ledger store.old).sealed buffer ≡ true }
    requires index { IsIndex (type_of value.now) (S.records store.old) root }
    requires owns { Owns (S.ledger store.old) (S.records store.old) (index_part root ∷ []) }
    ensures moves { IfOk result (MovesNodes OFFSET_BITS buffer value.now (S.ledger store.old) (S.ledger store.new)
        (S.records store.old) (S.records store.new) root.entry) }
    ensures counts { CountsNodes (S.ledger store.old) (S.ledger store.new) (levels (S.records store.old) root.entry) }
    ensures refuses { IfErr result (Refuses (S.ledger store.old) (S.ledger store.new) NODE_WORDS) }
    ensures used { OnErr result (IsUsedWidth (S.ledger store.old) (S.records store.old) NODE_WORDS) }
    ensures may { MayDo (S.ledger store.old) (S.ledger store.new) }
{
    if !root.valid() {
        return Ok(root);
    }
    match value {
        Value::Long(_) => touch(store, root, &LongKey::new(value), buffer),
        Value::Text(_) => touch(store, root, &TextKey::new(value), buffer),
    }
}
