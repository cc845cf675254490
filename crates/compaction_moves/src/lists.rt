//! Moves the list of one value out of the victim.

ghost use Rattle.std.specs.Prelude.{◌≡◌, ◌∷◌, [], true, length, IfOk, IfErr, Some};
ghost use Rattle.tree_read.specs.Trees.{tree_pairs};
ghost use Rattle.tree_read.specs.Pairs.{lookup_pair};
ghost use Rattle.store_api.specs.Calls.{IsUsedWidth, RefusesOf};
ghost use Rattle.store_api.specs.Parts.{Owns};
ghost use Rattle.store_api.specs.Units.{MayDo, MakesWithin};
ghost use Rattle.image_format.specs.Postings.{index_of};
ghost use Rattle.index_model.specs.Index.{list_of};
ghost use Rattle.attr_types.specs.Value.{type_of};
ghost use Rattle.enum_dictionary.specs.Dictionaries.{beside_value};
ghost use Rattle.value_index.specs.Indexes.{index_part, IsIndex};
ghost use Rattle.compaction_moves.specs.IndexMoves.{move_most, MovesList};

use attr_types::Value;
use entry_ref::EntryRef;
use enum_dictionary::{find, set};
use posting_store::{Posting, move_posting};
use store_api::{Store, StoreError};

/// Moves the list of a value that exists.
fn move_found<const OFFSET_BITS: u32, S: Store<OFFSET_BITS>>(
    store: &mut S,
    root: EntryRef<OFFSET_BITS>,
    value: &Value,
    key: EntryRef<OFFSET_BITS>,
    list: u64,
    doc: u32,
    buffer: u32,
) -> Result<EntryRef<OFFSET_BITS>, StoreError>
    requires unit { (S.ledger store.old).unit ≡ true }
    requires sealed { (S.ledger store.old).sealed buffer ≡ true }
    requires index { IsIndex (type_of value.now) (S.records store.old) root }
    requires owns { Owns (S.ledger store.old) (S.records store.old) (index_part root ∷ []) }
    requires found { lookup_pair (beside_value value.now (S.records store.old)) (tree_pairs (S.records store.old) root) ≡ Some (key, list) }
    ensures moves { IfOk result (MovesList OFFSET_BITS buffer doc value.now (S.ledger store.old) (S.ledger store.new)
        (S.records store.old) (S.records store.new) root.entry) }
    ensures counts { MakesWithin (S.ledger store.old) (S.ledger store.new) (move_most value.now (S.records store.old) root.entry
        (length (list_of value.now (index_of (type_of value.now) (S.records store.old) root.entry)))) }
    ensures refuses { IfErr result (RefusesOf (IsUsedWidth (S.ledger store.old) (S.records store.old)) (S.ledger store.old)
        (S.ledger store.new)) }
    ensures may { MayDo (S.ledger store.old) (S.ledger store.new) }
{
    let next = move_posting(store, Posting::from_word(list), doc, buffer)?;
    let word = next.word();
    if word == list {
        return Ok(root);
    }
    set(store, root, value, key, word)
}

/// Moves the list of a value out of a sealed buffer, as far as the way to one document: a single record is copied if
/// it lies there, and so are the nodes of a tree on the way to the document, or the block of the document with the nodes
/// on the way to it. Returns the root of the new index.
pub fn move_list<const OFFSET_BITS: u32, S: Store<OFFSET_BITS>>(
    store: &mut S,
    root: EntryRef<OFFSET_BITS>,
    value: &Value,
    doc: u32,
    buffer: u32,
) -> Result<EntryRef<OFFSET_BITS>, StoreError>
    requires unit { (S.ledger store.old).unit ≡ true }
    requires sealed { (S.ledger store.old).sealed buffer ≡ true }
    requires index { IsIndex (type_of value.now) (S.records store.old) root }
    requires owns { Owns (S.ledger store.old) (S.records store.old) (index_part root ∷ []) }
    ensures moves { IfOk result (MovesList OFFSET_BITS buffer doc value.now (S.ledger store.old) (S.ledger store.new)
        (S.records store.old) (S.records store.new) root.entry) }
    ensures counts { MakesWithin (S.ledger store.old) (S.ledger store.new) (move_most value.now (S.records store.old) root.entry
        (length (list_of value.now (index_of (type_of value.now) (S.records store.old) root.entry)))) }
    ensures refuses { IfErr result (RefusesOf (IsUsedWidth (S.ledger store.old) (S.records store.old)) (S.ledger store.old)
        (S.ledger store.new)) }
    ensures may { MayDo (S.ledger store.old) (S.ledger store.new) }
{
    match find(store, root, value) {
        Some(entry) => move_found(store, root, value, entry.key, entry.posting, doc, buffer),
        None => Ok(root),
    }
}
