//! Sets and removes the entry of a value.

ghost use Rattle.std.specs.Prelude.{◌≡◌, ◌+◌, ◌*◌, ◌∷◌, [], true, IsSome, IfOk, IfErr};
ghost use Rattle.tree_read.specs.Trees.{tree_pairs};
ghost use Rattle.tree_read.specs.Keys.{KeepsOthers};
ghost use Rattle.tree_read.specs.Pairs.{lookup, put, take_out};
ghost use Rattle.store_api.specs.Calls.{Refuses};
ghost use Rattle.store_api.specs.Parts.{Owns};
ghost use Rattle.store_api.specs.Units.{MayDo};
ghost use Rattle.frozen_btree.specs.Changes.{levels, tree};
ghost use Rattle.frozen_btree.specs.Makes.{CountsNodes};
ghost use Rattle.image_format.specs.Values.{stored_value, IsValueRecord};
ghost use Rattle.attr_types.specs.Value.{type_of};
ghost use Rattle.enum_dictionary.specs.Dictionaries.{IsDictionary, MakesDictionary, beside_value};

use crate::keys::{LongKey, TextKey};
use attr_types::Value;
use entry_ref::EntryRef;
use frozen_btree::{insert, remove as remove_pair};
use store_api::{Store, StoreError};
use tree_read::NODE_WORDS;

/// Sets the record that is a value's key, and the word of its posting list. If the value exists already, this record
/// becomes its key, and the caller owns the old record. Returns the root of the new dictionary.
pub fn set<const OFFSET_BITS: u32, S: Store<OFFSET_BITS>>(
    store: &mut S,
    root: EntryRef<OFFSET_BITS>,
    value: &Value,
    value_ref: EntryRef<OFFSET_BITS>,
    posting: u64,
) -> Result<EntryRef<OFFSET_BITS>, StoreError>
    requires unit { (S.ledger store.old).unit ≡ true }
    requires dictionary { IsDictionary (type_of value.now) (S.records store.old) root }
    requires record { IsValueRecord (type_of value.now) (S.records store.old value_ref) }
    requires reads { stored_value (type_of value.now) (S.records store.old) value_ref ≡ value.now }
    requires owns { Owns (S.ledger store.old) (S.records store.old) (tree root ∷ []) }
    ensures makes { IfOk result (MakesDictionary (type_of value.now) (S.ledger store.old) (S.ledger store.new)
        (S.records store.old) (S.records store.new) root.entry
        (put (beside_value value.now (S.records store.old)) (value_ref.entry, posting)
        (tree_pairs (S.records store.old) root.entry))) }
    ensures others { KeepsOthers (S.records store.old) (S.records store.new) }
    ensures counts { CountsNodes (S.ledger store.old) (S.ledger store.new) (2 * levels (S.records store.old) root.entry + 1) }
    ensures refuses { IfErr result (Refuses (S.ledger store.old) (S.ledger store.new) NODE_WORDS) }
    ensures may { MayDo (S.ledger store.old) (S.ledger store.new) }
{
    let word = value_ref.raw() as u64;
    match value {
        Value::Long(_) => insert(store, root, &LongKey::new(value), word, posting),
        Value::Text(_) => insert(store, root, &TextKey::new(value), word, posting),
    }
}

/// Removes a value that exists. The caller then owns the record of its key. Returns the root of the new dictionary,
/// or 0 if no value is left.
pub fn remove<const OFFSET_BITS: u32, S: Store<OFFSET_BITS>>(
    store: &mut S,
    root: EntryRef<OFFSET_BITS>,
    value: &Value,
) -> Result<EntryRef<OFFSET_BITS>, StoreError>
    requires unit { (S.ledger store.old).unit ≡ true }
    requires dictionary { IsDictionary (type_of value.now) (S.records store.old) root }
    requires there { IsSome (lookup (beside_value value.now (S.records store.old)) (tree_pairs (S.records store.old) root)) }
    requires owns { Owns (S.ledger store.old) (S.records store.old) (tree root ∷ []) }
    ensures makes { IfOk result (MakesDictionary (type_of value.now) (S.ledger store.old) (S.ledger store.new)
        (S.records store.old) (S.records store.new) root.entry (take_out (beside_value value.now (S.records store.old))
        (tree_pairs (S.records store.old) root.entry))) }
    ensures others { KeepsOthers (S.records store.old) (S.records store.new) }
    ensures counts { CountsNodes (S.ledger store.old) (S.ledger store.new) (levels (S.records store.old) root.entry + 1) }
    ensures refuses { IfErr result (Refuses (S.ledger store.old) (S.ledger store.new) NODE_WORDS) }
    ensures may { MayDo (S.ledger store.old) (S.ledger store.new) }
{
    match value {
        Value::Long(_) => remove_pair(store, root, &LongKey::new(value)),
        Value::Text(_) => remove_pair(store, root, &TextKey::new(value)),
    }
}
