//! The form of a list: a tree becomes a bit vector, and a bit vector a tree.
ghost use Rattle.std.specs.Prelude.{◌≡◌, ◌<◌, ◌∷◌, [], true, false, length, IfOk, IfErr};
ghost use Rattle.store_api.specs.Calls.{RefusesOf};
ghost use Rattle.store_api.specs.Parts.{Owns};
ghost use Rattle.store_api.specs.Units.{MayDo, MakesWithin};
ghost use Rattle.image_format.specs.Postings.{is_dense};
ghost use Rattle.bit_vector.specs.Changes.{IsVectorWidth};
ghost use Rattle.posting_store.specs.Lists.{list_at, is_vector, AreOnes, IsList, IsPlain};
ghost use Rattle.posting_store.specs.Changes.{list_part, form_most, IsFormWidth, MakesByRule, MakesList};

use crate::cursor::has_at_least;
use crate::dropping::drop_list;
use crate::posting::{Posting, root_of};
use bit_vector::{from_tree, to_tree};
use image_format::least_dense;
use std::alloc::Global;
use store_api::{Store, StoreError};

/// Makes a bit vector in place of a tree.
fn tree_to_vector<const OFFSET_BITS: u32, S: Store<OFFSET_BITS>>(
    alloc: Global,
    store: &mut S,
    list: Posting,
) -> Result<Posting, StoreError>
    requires unit { (S.ledger store.old).unit ≡ true }
    requires list { IsList (S.records store.old) list }
    requires plain { IsPlain list }
    requires many { 8 < length (list_at (S.records store.old) list) }
    requires ones { AreOnes (list_at (S.records store.old) list) }
    requires owns { Owns (S.ledger store.old) (S.records store.old) (list_part list ∷ []) }
    ensures makes { IfOk result (MakesList (S.ledger store.old) (S.ledger store.new) (S.records store.old) (S.records store.new)
        list (list_at (S.records store.old) list) true) }
    ensures counts { MakesWithin (S.ledger store.old) (S.ledger store.new) (form_most false true (list_at (S.records store.old) list)) }
    ensures refuses { IfErr result (RefusesOf IsVectorWidth (S.ledger store.old) (S.ledger store.new)) }
    ensures may { MayDo (S.ledger store.old) (S.ledger store.new) }
{
    let root = from_tree(alloc, store, list.entry())?;
    let next = Posting::vector(root);
    drop_list(store, list);
    Ok(next)
}

/// Makes a tree in place of a bit vector.
fn vector_to_tree<const OFFSET_BITS: u32, S: Store<OFFSET_BITS>>(
    alloc: Global,
    store: &mut S,
    list: Posting,
) -> Result<Posting, StoreError>
    requires unit { (S.ledger store.old).unit ≡ true }
    requires list { IsList (S.records store.old) list }
    requires vector { is_vector list ≡ true }
    requires owns { Owns (S.ledger store.old) (S.records store.old) (list_part list ∷ []) }
    ensures makes { IfOk result (MakesList (S.ledger store.old) (S.ledger store.new) (S.records store.old) (S.records store.new)
        list (list_at (S.records store.old) list) false) }
    ensures counts { MakesWithin (S.ledger store.old) (S.ledger store.new) (form_most true false (list_at (S.records store.old) list)) }
    ensures refuses { IfErr result (RefusesOf IsVectorWidth (S.ledger store.old) (S.ledger store.new)) }
    ensures may { MayDo (S.ledger store.old) (S.ledger store.new) }
{
    let vector = root_of(store, list);
    let root = to_tree(alloc, store, vector)?;
    let made = Posting::tree(root);
    drop_list(store, list);
    Ok(made)
}

/// Returns the list as a bit vector.
fn as_vector<const OFFSET_BITS: u32, S: Store<OFFSET_BITS>>(
    alloc: Global,
    store: &mut S,
    list: Posting,
) -> Result<Posting, StoreError>
    requires unit { (S.ledger store.old).unit ≡ true }
    requires list { IsList (S.records store.old) list }
    requires many { 8 < length (list_at (S.records store.old) list) }
    requires ones { AreOnes (list_at (S.records store.old) list) }
    requires owns { Owns (S.ledger store.old) (S.records store.old) (list_part list ∷ []) }
    ensures makes { IfOk result (MakesList (S.ledger store.old) (S.ledger store.new) (S.records store.old) (S.records store.new)
        list (list_at (S.records store.old) list) true) }
    ensures counts { MakesWithin (S.ledger store.old) (S.ledger store.new)
        (form_most (is_vector list) true (list_at (S.records store.old) list)) }
    ensures refuses { IfErr result (RefusesOf (IsFormWidth (is_vector list) true) (S.ledger store.old) (S.ledger store.new)) }
    ensures may { MayDo (S.ledger store.old) (S.ledger store.new) }
{
    if list.is_vector() {
        return Ok(list);
    }
    tree_to_vector(alloc, store, list)
}

/// Returns the list as a record or a tree.
fn as_plain<const OFFSET_BITS: u32, S: Store<OFFSET_BITS>>(
    alloc: Global,
    store: &mut S,
    list: Posting,
) -> Result<Posting, StoreError>
    requires unit { (S.ledger store.old).unit ≡ true }
    requires list { IsList (S.records store.old) list }
    requires owns { Owns (S.ledger store.old) (S.records store.old) (list_part list ∷ []) }
    ensures makes { IfOk result (MakesList (S.ledger store.old) (S.ledger store.new) (S.records store.old) (S.records store.new)
        list (list_at (S.records store.old) list) false) }
    ensures counts { MakesWithin (S.ledger store.old) (S.ledger store.new)
        (form_most (is_vector list) false (list_at (S.records store.old) list)) }
    ensures refuses { IfErr result (RefusesOf (IsFormWidth (is_vector list) false) (S.ledger store.old) (S.ledger store.new)) }
    ensures may { MayDo (S.ledger store.old) (S.ledger store.new) }
{
    if list.is_vector() {
        return vector_to_tree(alloc, store, list);
    }
    Ok(list)
}

/// Returns whether a list is to be a bit vector, of `documents` documents in all.
fn is_long<const OFFSET_BITS: u32, S: Store<OFFSET_BITS>>(
    store: &mut S,
    list: Posting,
    documents: u32,
) -> bool
    requires list { IsList (S.records store.old) list }
    ensures dense { result ≡ is_dense true (length (list_at (S.records store.old) list)) documents }
    ensures same { store.new ≡ store.old }
{
    has_at_least(store, list, least_dense(documents))
}

/// Returns the list in the form of the rule.
pub fn by_rule<const OFFSET_BITS: u32, S: Store<OFFSET_BITS>>(
    alloc: Global,
    store: &mut S,
    list: Posting,
    dense: bool,
    documents: u32,
) -> Result<Posting, StoreError>
    requires unit { (S.ledger store.old).unit ≡ true }
    requires list { IsList (S.records store.old) list }
    requires plain { dense ≡ false → IsPlain list }
    requires ones { dense ≡ true → AreOnes (list_at (S.records store.old) list) }
    requires owns { Owns (S.ledger store.old) (S.records store.old) (list_part list ∷ []) }
    ensures makes { IfOk result (MakesByRule dense documents (S.ledger store.old) (S.ledger store.new) (S.records store.old)
        (S.records store.new) list (list_at (S.records store.old) list)) }
    ensures counts { MakesWithin (S.ledger store.old) (S.ledger store.new)
        (form_most (is_vector list) (is_dense dense (length (list_at (S.records store.old) list)) documents)
        (list_at (S.records store.old) list)) }
    ensures refuses { IfErr result (RefusesOf
        (IsFormWidth (is_vector list) (is_dense dense (length (list_at (S.records store.old) list)) documents))
        (S.ledger store.old) (S.ledger store.new)) }
    ensures may { MayDo (S.ledger store.old) (S.ledger store.new) }
{
    if !dense {
        return Ok(list);
    }
    if is_long(store, list, documents) {
        as_vector(alloc, store, list)
    } else {
        as_plain(alloc, store, list)
    }
}
