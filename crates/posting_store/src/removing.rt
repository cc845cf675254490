//! Removes a document from a posting list.

ghost use Rattle.std.specs.Prelude.{◌≡◌, ◌<◌, ◌≤◌, ◌∷◌, [], true, false, length, IsSome, IfOk, IfErr};
ghost use Rattle.std.specs.BTreeMap.{is_at};
ghost use Rattle.std.specs.Map.{lookup};
ghost use Rattle.std.specs.Ordering.{nat_cmp};
ghost use Rattle.store_api.specs.Calls.{RefusesOf};
ghost use Rattle.store_api.specs.Parts.{Owns};
ghost use Rattle.store_api.specs.Units.{MayDo, MakesWithin};
ghost use Rattle.posting_store.specs.Lists.{list_at, list_levels, is_vector, without_document, AreOnes, IsList, IsPlain};
ghost use Rattle.posting_store.specs.Changes.{list_part, list_most, list_change_most, rule_most, same_form_most};
ghost use Rattle.posting_store.specs.Changes.{IsListChangeWidth, IsListWidth, IsRuleWidth, IsSameFormWidth, MakesByRule, MakesList};

use crate::cursor::has_at_least;
use crate::forming::by_rule;
use crate::items::{items_of, take_item};
use crate::posting::{Posting, root_of};
use crate::replacing::replace_list;
use attr_types::Doc;
use bit_vector::remove as remove_document;
use frozen_btree::{NumberKey, remove as remove_pair};
use std::alloc::Global;
use store_api::{Store, StoreError};

/// Removes a document from a list that remains a tree.
fn remove_from_tree<const OFFSET_BITS: u32, S: Store<OFFSET_BITS>>(
    store: &mut S,
    list: Posting,
    doc: Doc,
) -> Result<Posting, StoreError>
    requires unit { (S.ledger store.old).unit ≡ true }
    requires list { IsList (S.records store.old) list }
    requires plain { IsPlain list }
    requires many { 9 < length (list_at (S.records store.old) list) }
    requires there { IsSome (lookup (is_at (nat_cmp doc)) (list_at (S.records store.old) list)) }
    requires owns { Owns (S.ledger store.old) (S.records store.old) (list_part list ∷ []) }
    ensures makes { IfOk result (MakesList (S.ledger store.old) (S.ledger store.new) (S.records store.old) (S.records store.new)
        list (without_document (S.records store.old) list doc) false) }
    ensures counts { MakesWithin (S.ledger store.old) (S.ledger store.new) (list_most (list_levels (S.records store.old) list)
        (length (without_document (S.records store.old) list doc))) }
    ensures refuses { IfErr result (RefusesOf
        (IsListWidth (length (without_document (S.records store.old) list doc)))
        (S.ledger store.old) (S.ledger store.new)) }
    ensures may { MayDo (S.ledger store.old) (S.ledger store.new) }
{
    let root = remove_pair(store, list.entry(), &NumberKey(doc.number() as u64))?;
    Ok(Posting::tree(root))
}

/// Removes a document from a list that remains a bit vector.
fn remove_from_vector<const OFFSET_BITS: u32, S: Store<OFFSET_BITS>>(
    store: &mut S,
    list: Posting,
    doc: Doc,
) -> Result<Posting, StoreError>
    requires unit { (S.ledger store.old).unit ≡ true }
    requires list { IsList (S.records store.old) list }
    requires vector { is_vector list ≡ true }
    requires many { 9 < length (list_at (S.records store.old) list) }
    requires there { IsSome (lookup (is_at (nat_cmp doc)) (list_at (S.records store.old) list)) }
    requires owns { Owns (S.ledger store.old) (S.records store.old) (list_part list ∷ []) }
    ensures makes { IfOk result (MakesList (S.ledger store.old) (S.ledger store.new) (S.records store.old) (S.records store.new)
        list (without_document (S.records store.old) list doc) true) }
    ensures counts { MakesWithin (S.ledger store.old) (S.ledger store.new)
        (list_change_most true true (list_levels (S.records store.old) list)
        (without_document (S.records store.old) list doc)) }
    ensures refuses { IfErr result (RefusesOf
        (IsListChangeWidth true (length (without_document (S.records store.old) list doc)))
        (S.ledger store.old) (S.ledger store.new)) }
    ensures may { MayDo (S.ledger store.old) (S.ledger store.new) }
{
    let vector = root_of(store, list);
    let root = remove_document(store, vector, doc)?;
    Ok(Posting::vector(root))
}

/// Removes a document from a list that remains a tree or a bit vector.
fn remove_in_form<const OFFSET_BITS: u32, S: Store<OFFSET_BITS>>(
    store: &mut S,
    list: Posting,
    doc: Doc,
) -> Result<Posting, StoreError>
    requires unit { (S.ledger store.old).unit ≡ true }
    requires list { IsList (S.records store.old) list }
    requires many { 9 < length (list_at (S.records store.old) list) }
    requires there { IsSome (lookup (is_at (nat_cmp doc)) (list_at (S.records store.old) list)) }
    requires owns { Owns (S.ledger store.old) (S.records store.old) (list_part list ∷ []) }
    ensures makes { IfOk result (MakesList (S.ledger store.old) (S.ledger store.new) (S.records store.old) (S.records store.new)
        list (without_document (S.records store.old) list doc) (is_vector list)) }
    ensures counts { MakesWithin (S.ledger store.old) (S.ledger store.new)
        (same_form_most (S.records store.old) list (without_document (S.records store.old) list doc)) }
    ensures refuses { IfErr result (RefusesOf
        (IsSameFormWidth list (without_document (S.records store.old) list doc))
        (S.ledger store.old) (S.ledger store.new)) }
    ensures may { MayDo (S.ledger store.old) (S.ledger store.new) }
{
    if list.is_vector() {
        remove_from_vector(store, list, doc)
    } else {
        remove_from_tree(store, list, doc)
    }
}

/// Removes a document from a list of more than nine documents, which does not become short.
fn remove_from_long<const OFFSET_BITS: u32, S: Store<OFFSET_BITS>>(
    alloc: Global,
    store: &mut S,
    list: Posting,
    doc: Doc,
    dense: bool,
    documents: u32,
) -> Result<Posting, StoreError>
    requires unit { (S.ledger store.old).unit ≡ true }
    requires list { IsList (S.records store.old) list }
    requires plain { dense ≡ false → IsPlain list }
    requires ones { dense ≡ true → AreOnes (list_at (S.records store.old) list) }
    requires many { 9 < length (list_at (S.records store.old) list) }
    requires there { IsSome (lookup (is_at (nat_cmp doc)) (list_at (S.records store.old) list)) }
    requires owns { Owns (S.ledger store.old) (S.records store.old) (list_part list ∷ []) }
    ensures makes { IfOk result (MakesByRule dense documents (S.ledger store.old) (S.ledger store.new) (S.records store.old)
        (S.records store.new) list (without_document (S.records store.old) list doc)) }
    ensures counts { MakesWithin (S.ledger store.old) (S.ledger store.new)
        (rule_most (S.records store.old) list dense documents (without_document (S.records store.old) list doc)) }
    ensures refuses { IfErr result (RefusesOf (IsRuleWidth list dense documents (without_document (S.records store.old) list doc))
        (S.ledger store.old) (S.ledger store.new)) }
    ensures may { MayDo (S.ledger store.old) (S.ledger store.new) }
{
    let next = remove_in_form(store, list, doc)?;
    by_rule(alloc, store, next, dense, documents)
}

/// Removes a document from a list of at most nine documents, which becomes short.
fn remove_from_short<const OFFSET_BITS: u32, S: Store<OFFSET_BITS>>(
    store: &mut S,
    list: Posting,
    doc: Doc,
) -> Result<Posting, StoreError>
    requires unit { (S.ledger store.old).unit ≡ true }
    requires list { IsList (S.records store.old) list }
    requires few { length (list_at (S.records store.old) list) ≤ 9 }
    requires owns { Owns (S.ledger store.old) (S.records store.old) (list_part list ∷ []) }
    ensures makes { IfOk result (MakesList (S.ledger store.old) (S.ledger store.new) (S.records store.old) (S.records store.new)
        list (without_document (S.records store.old) list doc) false) }
    ensures counts { MakesWithin (S.ledger store.old) (S.ledger store.new) (list_most (list_levels (S.records store.old) list)
        (length (without_document (S.records store.old) list doc))) }
    ensures refuses { IfErr result (RefusesOf
        (IsListWidth (length (without_document (S.records store.old) list doc)))
        (S.ledger store.old) (S.ledger store.new)) }
    ensures may { MayDo (S.ledger store.old) (S.ledger store.new) }
{
    let mut items = items_of(store, list);
    take_item(&mut items, doc);
    replace_list(store, list, items.as_slice())
}

/// Removes a document that exists from a list. Returns the new list, in the form of the rule for `documents` documents in
/// all, or 0 if no document is left.
pub fn remove<const OFFSET_BITS: u32, S: Store<OFFSET_BITS>>(
    alloc: Global,
    store: &mut S,
    list: Posting,
    doc: Doc,
    dense: bool,
    documents: u32,
) -> Result<Posting, StoreError>
    requires unit { (S.ledger store.old).unit ≡ true }
    requires list { IsList (S.records store.old) list }
    requires plain { dense ≡ false → IsPlain list }
    requires ones { dense ≡ true → AreOnes (list_at (S.records store.old) list) }
    requires there { IsSome (lookup (is_at (nat_cmp doc)) (list_at (S.records store.old) list)) }
    requires owns { Owns (S.ledger store.old) (S.records store.old) (list_part list ∷ []) }
    ensures makes { IfOk result (MakesByRule dense documents (S.ledger store.old) (S.ledger store.new) (S.records store.old)
        (S.records store.new) list (without_document (S.records store.old) list doc)) }
    ensures counts { MakesWithin (S.ledger store.old) (S.ledger store.new)
        (rule_most (S.records store.old) list dense documents (without_document (S.records store.old) list doc)) }
    ensures refuses { IfErr result (RefusesOf (IsRuleWidth list dense documents (without_document (S.records store.old) list doc))
        (S.ledger store.old) (S.ledger store.new)) }
    ensures may { MayDo (S.ledger store.old) (S.ledger store.new) }
{
    if has_at_least(store, list, 10) {
        remove_from_long(alloc, store, list, doc, dense, documents)
    } else {
        remove_from_short(store, list, doc)
    }
}
