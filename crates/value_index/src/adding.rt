//! Adds a document to the list of a value.

ghost use Rattle.std.specs.Prelude.{◌≡◌, ◌+◌, ◌*◌, ◌∷◌, [], pos, true, false, length, IfOk, IfErr, None, Some};
ghost use Rattle.std.specs.BTreeMap.{insert_entry};
ghost use Rattle.std.specs.Ordering.{nat_cmp};
ghost use Rattle.tree_read.specs.Trees.{tree_pairs};
ghost use Rattle.tree_read.specs.Pairs.{lookup_pair, put};
ghost use Rattle.tree_read.specs.declared.node_format.TheConstants.{NODE_WORDS};
ghost use Rattle.store_api.specs.Calls.{Refuses, RefusesOf};
ghost use Rattle.store_api.specs.Parts.{Owns};
ghost use Rattle.store_api.specs.Units.{MayDo, MakesWithin};
ghost use Rattle.frozen_btree.specs.Changes.{levels, tree};
ghost use Rattle.frozen_btree.specs.Makes.{CountsNodes};
ghost use Rattle.image_format.specs.Postings.{index_of};
ghost use Rattle.image_format.specs.Values.{stored_value, IsValueRecord};
ghost use Rattle.index_model.specs.Index.{list_of, with_posting};
ghost use Rattle.attr_types.specs.Value.{type_of};
ghost use Rattle.enum_dictionary.specs.Dictionaries.{beside_value, IsDictionary, MakesDictionary};
ghost use Rattle.posting_store.specs.Lists.{AreOnes};
ghost use Rattle.value_index.specs.Changes.{add_most, IsChangeWidth, MakesIndex};
ghost use Rattle.value_index.specs.Forms.{IsPlainIndex};
ghost use Rattle.value_index.specs.Indexes.{index_part, key_at, IsIndex};

use attr_types::{Doc, Value};
use entry_ref::EntryRef;
use enum_dictionary::{find, found_law, set};
use posting_store::{Posting, add as add_posting};
use std::alloc::Global;
use store_api::{Store, StoreError};
use unique_store::add as add_value;

/// The root of an index to which a document was added, and the key of its value.
#[derive(Clone, Copy)]
pub struct Added<const OFFSET_BITS: u32> {
    pub root: EntryRef<OFFSET_BITS>,
    pub key: EntryRef<OFFSET_BITS>,
}

/// Sets the pair of a value in the dictionary. Returns the root of the new dictionary, and the key.
#[tactic(none)]
fn set_pair<const OFFSET_BITS: u32, S: Store<OFFSET_BITS>>(
    store: &mut S,
    root: EntryRef<OFFSET_BITS>,
    value: &Value,
    key: EntryRef<OFFSET_BITS>,
    posting: u64,
) -> Result<Added<OFFSET_BITS>, StoreError>
    requires unit { (S.ledger store.old).unit ≡ true }
    requires dictionary { IsDictionary (type_of value.now) (S.records store.old) root }
    requires record { IsValueRecord (type_of value.now) (S.records store.old key) }
    requires reads { stored_value (type_of value.now) (S.records store.old) key ≡ value.now }
    requires owns { Owns (S.ledger store.old) (S.records store.old) (tree root ∷ []) }
    ensures makes { IfOk result (λ added. MakesDictionary (type_of value.now) (S.ledger store.old) (S.ledger store.new)
        (S.records store.old) (S.records store.new) root.entry
        (put (beside_value value.now (S.records store.old)) (key.entry, posting) (tree_pairs (S.records store.old) root.entry))
        added.root) }
    ensures key { IfOk result (λ added. key_at value.now (S.records store.new) added.root ≡ Some added.key) }
    ensures counts { CountsNodes (S.ledger store.old) (S.ledger store.new) (2 * levels (S.records store.old) root.entry + 1) }
    ensures refuses { IfErr result (Refuses (S.ledger store.old) (S.ledger store.new) NODE_WORDS) }
    ensures may { MayDo (S.ledger store.old) (S.ledger store.new) }
{
    found_law();
    match set(store, root, value, key, posting) {
        Ok(next) => Ok(Added { root: next, key }),
        Err(error) => Err(error),
    }
}

/// Adds a value with its first document.
#[tactic(none)]
fn add_new<const OFFSET_BITS: u32, S: Store<OFFSET_BITS>>(
    alloc: Global,
    store: &mut S,
    root: EntryRef<OFFSET_BITS>,
    value: &Value,
    doc: Doc,
    weight: i32,
    dense: bool,
    documents: u32,
) -> Result<Added<OFFSET_BITS>, StoreError>
    requires unit { (S.ledger store.old).unit ≡ true }
    requires index { IsIndex (type_of value.now) (S.records store.old) root }
    requires owns { Owns (S.ledger store.old) (S.records store.old) (index_part root ∷ []) }
    requires plain { dense ≡ false → IsPlainIndex (S.records store.old) root }
    requires one { dense ≡ true → weight ≡ pos 1 }
    requires new { lookup_pair (beside_value value.now (S.records store.old)) (tree_pairs (S.records store.old) root) ≡ None }
    ensures makes { IfOk result (λ added. MakesIndex (type_of value.now) (S.ledger store.old) (S.ledger store.new)
        (S.records store.old) (S.records store.new) root.entry
        (with_posting value.now doc weight (index_of (type_of value.now) (S.records store.old) root.entry)) added.root) }
    ensures key { IfOk result (λ added. key_at value.now (S.records store.new) added.root ≡ Some added.key) }
    ensures plain { IfOk result (λ added. dense ≡ false → IsPlainIndex (S.records store.new) added.root) }
    ensures counts { MakesWithin (S.ledger store.old) (S.ledger store.new) (add_most value.now (S.records store.old) root.entry
        dense documents (insert_entry nat_cmp
        (list_of value.now (index_of (type_of value.now) (S.records store.old) root.entry)) doc weight)) }
    ensures refuses { IfErr result (RefusesOf (IsChangeWidth dense value.now
        (length (insert_entry nat_cmp (list_of value.now (index_of (type_of value.now) (S.records store.old) root.entry)) doc weight)))
        (S.ledger store.old) (S.ledger store.new)) }
    ensures may { MayDo (S.ledger store.old) (S.ledger store.new) }
{
    let key = add_value(store, value)?;
    let list = add_posting(alloc, store, Posting::EMPTY, doc, weight, dense, documents)?;
    set_pair(store, root, value, key, list.word())
}

/// Adds a document to the list of an existing value.
#[tactic(none)]
fn add_more<const OFFSET_BITS: u32, S: Store<OFFSET_BITS>>(
    alloc: Global,
    store: &mut S,
    root: EntryRef<OFFSET_BITS>,
    value: &Value,
    key: EntryRef<OFFSET_BITS>,
    list: Posting,
    doc: Doc,
    weight: i32,
    dense: bool,
    documents: u32,
) -> Result<Added<OFFSET_BITS>, StoreError>
    requires unit { (S.ledger store.old).unit ≡ true }
    requires index { IsIndex (type_of value.now) (S.records store.old) root }
    requires owns { Owns (S.ledger store.old) (S.records store.old) (index_part root ∷ []) }
    requires plain { dense ≡ false → IsPlainIndex (S.records store.old) root }
    requires ones { dense ≡ true → AreOnes (list_of value.now (index_of (type_of value.now) (S.records store.old) root)) }
    requires one { dense ≡ true → weight ≡ pos 1 }
    requires found { lookup_pair (beside_value value.now (S.records store.old)) (tree_pairs (S.records store.old) root)
        ≡ Some (key, list) }
    ensures makes { IfOk result (λ added. MakesIndex (type_of value.now) (S.ledger store.old) (S.ledger store.new)
        (S.records store.old) (S.records store.new) root.entry
        (with_posting value.now doc weight (index_of (type_of value.now) (S.records store.old) root.entry)) added.root) }
    ensures key { IfOk result (λ added. key_at value.now (S.records store.new) added.root ≡ Some added.key) }
    ensures plain { IfOk result (λ added. dense ≡ false → IsPlainIndex (S.records store.new) added.root) }
    ensures counts { MakesWithin (S.ledger store.old) (S.ledger store.new) (add_most value.now (S.records store.old) root.entry
        dense documents (insert_entry nat_cmp
        (list_of value.now (index_of (type_of value.now) (S.records store.old) root.entry)) doc weight)) }
    ensures refuses { IfErr result (RefusesOf (IsChangeWidth dense value.now
        (length (insert_entry nat_cmp (list_of value.now (index_of (type_of value.now) (S.records store.old) root.entry)) doc weight)))
        (S.ledger store.old) (S.ledger store.new)) }
    ensures may { MayDo (S.ledger store.old) (S.ledger store.new) }
{
    let next = add_posting(alloc, store, list, doc, weight, dense, documents)?;
    set_pair(store, root, value, key, next.word())
}

/// Adds a document to the list of a value, or replaces its weight there. Returns the root of the new index, and the key
/// of the value. With `dense` the list becomes a bit vector if it is long, for `documents` documents in all; then each weight
/// has to be 1.
#[tactic(none)]
pub fn add_with_key<const OFFSET_BITS: u32, S: Store<OFFSET_BITS>>(
    alloc: Global,
    store: &mut S,
    root: EntryRef<OFFSET_BITS>,
    value: &Value,
    doc: Doc,
    weight: i32,
    dense: bool,
    documents: u32,
) -> Result<Added<OFFSET_BITS>, StoreError>
    requires unit { (S.ledger store.old).unit ≡ true }
    requires index { IsIndex (type_of value.now) (S.records store.old) root }
    requires owns { Owns (S.ledger store.old) (S.records store.old) (index_part root ∷ []) }
    requires plain { dense ≡ false → IsPlainIndex (S.records store.old) root }
    requires ones { dense ≡ true → AreOnes (list_of value.now (index_of (type_of value.now) (S.records store.old) root)) }
    requires one { dense ≡ true → weight ≡ pos 1 }
    ensures makes { IfOk result (λ added. MakesIndex (type_of value.now) (S.ledger store.old) (S.ledger store.new)
        (S.records store.old) (S.records store.new) root.entry
        (with_posting value.now doc weight (index_of (type_of value.now) (S.records store.old) root.entry)) added.root) }
    ensures key { IfOk result (λ added. key_at value.now (S.records store.new) added.root ≡ Some added.key) }
    ensures plain { IfOk result (λ added. dense ≡ false → IsPlainIndex (S.records store.new) added.root) }
    ensures counts { MakesWithin (S.ledger store.old) (S.ledger store.new) (add_most value.now (S.records store.old) root.entry
        dense documents (insert_entry nat_cmp
        (list_of value.now (index_of (type_of value.now) (S.records store.old) root.entry)) doc weight)) }
    ensures refuses { IfErr result (RefusesOf (IsChangeWidth dense value.now
        (length (insert_entry nat_cmp (list_of value.now (index_of (type_of value.now) (S.records store.old) root.entry)) doc weight)))
        (S.ledger store.old) (S.ledger store.new)) }
    ensures may { MayDo (S.ledger store.old) (S.ledger store.new) }
{
    match find(store, root, value) {
        Some(entry) => add_more(
            alloc,
            store,
            root,
            value,
            entry.key,
            Posting::from_word(entry.posting),
            doc,
            weight,
            dense,
            documents,
        ),
        None => add_new(alloc, store, root, value, doc, weight, dense, documents),
    }
}

/// Adds a document to the list of a value, or replaces its weight there. Returns the root of the new index. With `dense`
/// the list becomes a bit vector if it is long, for `documents` documents in all; then each weight has to be 1.
#[tactic(none)]
pub fn add<const OFFSET_BITS: u32, S: Store<OFFSET_BITS>>(
    alloc: Global,
    store: &mut S,
    root: EntryRef<OFFSET_BITS>,
    value: &Value,
    doc: Doc,
    weight: i32,
    dense: bool,
    documents: u32,
) -> Result<EntryRef<OFFSET_BITS>, StoreError>
    requires unit { (S.ledger store.old).unit ≡ true }
    requires index { IsIndex (type_of value.now) (S.records store.old) root }
    requires owns { Owns (S.ledger store.old) (S.records store.old) (index_part root ∷ []) }
    requires plain { dense ≡ false → IsPlainIndex (S.records store.old) root }
    requires ones { dense ≡ true → AreOnes (list_of value.now (index_of (type_of value.now) (S.records store.old) root)) }
    requires one { dense ≡ true → weight ≡ pos 1 }
    ensures makes { IfOk result (MakesIndex (type_of value.now) (S.ledger store.old) (S.ledger store.new)
        (S.records store.old) (S.records store.new) root.entry
        (with_posting value.now doc weight (index_of (type_of value.now) (S.records store.old) root.entry))) }
    ensures plain { IfOk result (λ next. dense ≡ false → IsPlainIndex (S.records store.new) next) }
    ensures counts { MakesWithin (S.ledger store.old) (S.ledger store.new) (add_most value.now (S.records store.old) root.entry
        dense documents (insert_entry nat_cmp
        (list_of value.now (index_of (type_of value.now) (S.records store.old) root.entry)) doc weight)) }
    ensures refuses { IfErr result (RefusesOf (IsChangeWidth dense value.now
        (length (insert_entry nat_cmp (list_of value.now (index_of (type_of value.now) (S.records store.old) root.entry)) doc weight)))
        (S.ledger store.old) (S.ledger store.new)) }
    ensures may { MayDo (S.ledger store.old) (S.ledger store.new) }
{
    match add_with_key(alloc, store, root, value, doc, weight, dense, documents) {
        Ok(added) => Ok(added.root),
        Err(error) => Err(error),
    }
}
