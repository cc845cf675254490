//! Adds a document to a posting list.

ghost use Rattle.std.specs.Prelude.{◌≡◌, ◌%◌, ◌∷◌, [], pos, true, false, length, IfOk, IfErr};
ghost use Rattle.store_api.specs.Calls.{RefusesOf};
ghost use Rattle.store_api.specs.Parts.{Owns};
ghost use Rattle.store_api.specs.Units.{MayDo, MakesWithin};
ghost use Rattle.posting_store.specs.Lists.{list_at, list_levels, is_vector, with_document, AreOnes, IsList, IsPlain};
ghost use Rattle.posting_store.specs.Changes.{list_part, list_most, list_change_most, rule_most, same_form_most};
ghost use Rattle.posting_store.specs.Changes.{IsListChangeWidth, IsListWidth, IsRuleWidth, IsSameFormWidth, MakesByRule, MakesList};

use crate::forming::by_rule;
use crate::items::{items_of, number_law, put_item};
use crate::posting::{Posting, root_of};
use crate::replacing::replace_list;
use attr_types::Doc;
use bit_vector::insert as insert_document;
use frozen_btree::{NumberKey, insert};
use std::alloc::Global;
use store_api::{Store, StoreError};

/// Adds a document to a tree, or replaces its weight there.
fn add_to_tree<const OFFSET_BITS: u32, S: Store<OFFSET_BITS>>(
    store: &mut S,
    list: Posting,
    doc: Doc,
    weight: i32,
) -> Result<Posting, StoreError>
    requires unit { (S.ledger store.old).unit ≡ true }
    requires list { IsList (S.records store.old) list }
    requires plain { IsPlain list }
    requires tree { list % 2 ≡ 1 }
    requires owns { Owns (S.ledger store.old) (S.records store.old) (list_part list ∷ []) }
    ensures makes { IfOk result (MakesList (S.ledger store.old) (S.ledger store.new) (S.records store.old) (S.records store.new)
        list (with_document (S.records store.old) list doc weight) false) }
    ensures counts { MakesWithin (S.ledger store.old) (S.ledger store.new) (list_most (list_levels (S.records store.old) list)
        (length (with_document (S.records store.old) list doc weight))) }
    ensures refuses { IfErr result (RefusesOf
        (IsListWidth (length (with_document (S.records store.old) list doc weight)))
        (S.ledger store.old) (S.ledger store.new)) }
    ensures may { MayDo (S.ledger store.old) (S.ledger store.new) }
{
    let number = doc.number() as u64;
    let bits = weight.cast_unsigned() as u64;
    let root = insert(store, list.entry(), &NumberKey(number), number, bits)?;
    Ok(Posting::tree(root))
}

/// Adds a document to a short list, or replaces its weight there.
fn add_to_short<const OFFSET_BITS: u32, S: Store<OFFSET_BITS>>(
    store: &mut S,
    list: Posting,
    doc: Doc,
    weight: i32,
) -> Result<Posting, StoreError>
    requires unit { (S.ledger store.old).unit ≡ true }
    requires list { IsList (S.records store.old) list }
    requires plain { IsPlain list }
    requires short { list % 2 ≡ 0 }
    requires owns { Owns (S.ledger store.old) (S.records store.old) (list_part list ∷ []) }
    ensures makes { IfOk result (MakesList (S.ledger store.old) (S.ledger store.new) (S.records store.old) (S.records store.new)
        list (with_document (S.records store.old) list doc weight) false) }
    ensures counts { MakesWithin (S.ledger store.old) (S.ledger store.new) (list_most (list_levels (S.records store.old) list)
        (length (with_document (S.records store.old) list doc weight))) }
    ensures refuses { IfErr result (RefusesOf
        (IsListWidth (length (with_document (S.records store.old) list doc weight)))
        (S.ledger store.old) (S.ledger store.new)) }
    ensures may { MayDo (S.ledger store.old) (S.ledger store.new) }
{
    number_law(doc);
    let mut items = items_of(store, list);
    put_item(&mut items, doc, weight);
    replace_list(store, list, items.as_slice())
}

/// Adds a document to a list that is no bit vector, or replaces its weight there.
fn add_to_plain<const OFFSET_BITS: u32, S: Store<OFFSET_BITS>>(
    store: &mut S,
    list: Posting,
    doc: Doc,
    weight: i32,
) -> Result<Posting, StoreError>
    requires unit { (S.ledger store.old).unit ≡ true }
    requires list { IsList (S.records store.old) list }
    requires plain { IsPlain list }
    requires owns { Owns (S.ledger store.old) (S.records store.old) (list_part list ∷ []) }
    ensures makes { IfOk result (MakesList (S.ledger store.old) (S.ledger store.new) (S.records store.old) (S.records store.new)
        list (with_document (S.records store.old) list doc weight) false) }
    ensures counts { MakesWithin (S.ledger store.old) (S.ledger store.new) (list_most (list_levels (S.records store.old) list)
        (length (with_document (S.records store.old) list doc weight))) }
    ensures refuses { IfErr result (RefusesOf
        (IsListWidth (length (with_document (S.records store.old) list doc weight)))
        (S.ledger store.old) (S.ledger store.new)) }
    ensures may { MayDo (S.ledger store.old) (S.ledger store.new) }
{
    if list.is_tree() {
        add_to_tree(store, list, doc, weight)
    } else {
        add_to_short(store, list, doc, weight)
    }
}

/// Adds a document to a bit vector.
fn add_to_vector<const OFFSET_BITS: u32, S: Store<OFFSET_BITS>>(
    store: &mut S,
    list: Posting,
    doc: Doc,
) -> Result<Posting, StoreError>
    requires unit { (S.ledger store.old).unit ≡ true }
    requires list { IsList (S.records store.old) list }
    requires vector { is_vector list ≡ true }
    requires owns { Owns (S.ledger store.old) (S.records store.old) (list_part list ∷ []) }
    ensures makes { IfOk result (MakesList (S.ledger store.old) (S.ledger store.new) (S.records store.old) (S.records store.new)
        list (with_document (S.records store.old) list doc (pos 1)) true) }
    ensures counts { MakesWithin (S.ledger store.old) (S.ledger store.new)
        (list_change_most true true (list_levels (S.records store.old) list)
        (with_document (S.records store.old) list doc (pos 1))) }
    ensures refuses { IfErr result (RefusesOf
        (IsListChangeWidth true (length (with_document (S.records store.old) list doc (pos 1))))
        (S.ledger store.old) (S.ledger store.new)) }
    ensures may { MayDo (S.ledger store.old) (S.ledger store.new) }
{
    number_law(doc);
    let vector = root_of(store, list);
    let root = insert_document(store, vector, doc)?;
    Ok(Posting::vector(root))
}

/// Adds a document to a list, or replaces its weight there. A bit vector stays one, and another list does not become
/// one.
fn add_in_form<const OFFSET_BITS: u32, S: Store<OFFSET_BITS>>(
    store: &mut S,
    list: Posting,
    doc: Doc,
    weight: i32,
) -> Result<Posting, StoreError>
    requires unit { (S.ledger store.old).unit ≡ true }
    requires list { IsList (S.records store.old) list }
    requires one { is_vector list ≡ true → weight ≡ pos 1 }
    requires owns { Owns (S.ledger store.old) (S.records store.old) (list_part list ∷ []) }
    ensures makes { IfOk result (MakesList (S.ledger store.old) (S.ledger store.new) (S.records store.old) (S.records store.new)
        list (with_document (S.records store.old) list doc weight) (is_vector list)) }
    ensures counts { MakesWithin (S.ledger store.old) (S.ledger store.new)
        (same_form_most (S.records store.old) list (with_document (S.records store.old) list doc weight)) }
    ensures refuses { IfErr result (RefusesOf
        (IsSameFormWidth list (with_document (S.records store.old) list doc weight))
        (S.ledger store.old) (S.ledger store.new)) }
    ensures may { MayDo (S.ledger store.old) (S.ledger store.new) }
{
    if list.is_vector() {
        add_to_vector(store, list, doc)
    } else {
        add_to_plain(store, list, doc, weight)
    }
}

/// Adds a document to a list, or replaces its weight there. Returns the new list, in the form of the rule for `documents`
/// documents in all.
pub fn add<const OFFSET_BITS: u32, S: Store<OFFSET_BITS>>(
    alloc: Global,
    store: &mut S,
    list: Posting,
    doc: Doc,
    weight: i32,
    dense: bool,
    documents: u32,
) -> Result<Posting, StoreError>
    requires unit { (S.ledger store.old).unit ≡ true }
    requires list { IsList (S.records store.old) list }
    requires plain { dense ≡ false → IsPlain list }
    requires ones { dense ≡ true → AreOnes (list_at (S.records store.old) list) × (weight ≡ pos 1) }
    requires owns { Owns (S.ledger store.old) (S.records store.old) (list_part list ∷ []) }
    ensures makes { IfOk result (MakesByRule dense documents (S.ledger store.old) (S.ledger store.new) (S.records store.old)
        (S.records store.new) list (with_document (S.records store.old) list doc weight)) }
    ensures counts { MakesWithin (S.ledger store.old) (S.ledger store.new)
        (rule_most (S.records store.old) list dense documents (with_document (S.records store.old) list doc weight)) }
    ensures refuses { IfErr result (RefusesOf (IsRuleWidth list dense documents (with_document (S.records store.old) list doc weight))
        (S.ledger store.old) (S.ledger store.new)) }
    ensures may { MayDo (S.ledger store.old) (S.ledger store.new) }
{
    let next = add_in_form(store, list, doc, weight)?;
    by_rule(alloc, store, next, dense, documents)
}
