//! A list moved out of the buffer that a compaction empties.
ghost use Rattle.std.specs.Prelude.{◌≡◌, ◌<◌, ◌%◌, ◌∷◌, [], ℕ, true, length, IfOk, IfErr};
ghost use Rattle.store_api.specs.Calls.{IsUsedWidth, RefusesOf};
ghost use Rattle.store_api.specs.Parts.{Owns};
ghost use Rattle.store_api.specs.Units.{MayDo, MakesWithin};
ghost use Rattle.posting_store.specs.Changes.{list_part};
ghost use Rattle.posting_store.specs.Lists.{is_vector, list_at, list_levels, IsList, IsPlain};
ghost use Rattle.posting_store.specs.Moves.{word_most, MovesWord};

use crate::copying::copy_record;
use crate::posting::{Posting, root_of};
use bit_vector::move_block;
use frozen_btree::{NumberKey, touch};
use image_format::BLOCK_DOCUMENTS;
use store_api::{Store, StoreError, drop_one};

/// Copies the record of a short list if it lies in the buffer. Returns the new list.
fn move_short<const OFFSET_BITS: u32, S: Store<OFFSET_BITS>>(
    store: &mut S,
    list: Posting,
    buffer: u32,
) -> Result<Posting, StoreError>
    requires unit { (S.ledger store.old).unit ≡ true }
    requires sealed { (S.ledger store.old).sealed buffer ≡ true }
    requires list { IsList (S.records store.old) list }
    requires plain { IsPlain list }
    requires some { 0 < list }
    requires short { list % 2 ≡ 0 }
    requires owns { Owns (S.ledger store.old) (S.records store.old) (list_part list ∷ []) }
    ensures moves { (doc : ℕ) → IfOk result (MovesWord OFFSET_BITS buffer doc (S.ledger store.old) (S.ledger store.new)
        (S.records store.old) (S.records store.new) list) }
    ensures counts { MakesWithin (S.ledger store.old) (S.ledger store.new) (word_most (is_vector list)
        (list_levels (S.records store.old) list) (length (list_at (S.records store.old) list))) }
    ensures refuses { IfErr result (RefusesOf (IsUsedWidth (S.ledger store.old) (S.records store.old)) (S.ledger store.old)
        (S.ledger store.new)) }
    ensures may { MayDo (S.ledger store.old) (S.ledger store.new) }
{
    let record = list.entry();
    if record.buffer() != buffer {
        return Ok(list);
    }
    let copy = copy_record(store, record)?;
    drop_one(store, record);
    Ok(Posting::short(copy))
}

/// Copies the nodes of a list that is a tree, on the way to a document, if they lie in the buffer. Returns the new
/// list.
fn move_tree<const OFFSET_BITS: u32, S: Store<OFFSET_BITS>>(
    store: &mut S,
    list: Posting,
    doc: u32,
    buffer: u32,
) -> Result<Posting, StoreError>
    requires unit { (S.ledger store.old).unit ≡ true }
    requires sealed { (S.ledger store.old).sealed buffer ≡ true }
    requires list { IsList (S.records store.old) list }
    requires plain { IsPlain list }
    requires tree { list % 2 ≡ 1 }
    requires owns { Owns (S.ledger store.old) (S.records store.old) (list_part list ∷ []) }
    ensures moves { IfOk result (MovesWord OFFSET_BITS buffer doc (S.ledger store.old) (S.ledger store.new)
        (S.records store.old) (S.records store.new) list) }
    ensures counts { MakesWithin (S.ledger store.old) (S.ledger store.new) (word_most (is_vector list)
        (list_levels (S.records store.old) list) (length (list_at (S.records store.old) list))) }
    ensures refuses { IfErr result (RefusesOf (IsUsedWidth (S.ledger store.old) (S.records store.old)) (S.ledger store.old)
        (S.ledger store.new)) }
    ensures may { MayDo (S.ledger store.old) (S.ledger store.new) }
{
    let root = touch(store, list.entry(), &NumberKey(doc as u64), buffer)?;
    Ok(Posting::tree(root))
}

/// Copies the block of a document, of a list that is a bit vector, and the nodes on the way to it, if they lie in the
/// buffer. Returns the new list.
fn move_vector<const OFFSET_BITS: u32, S: Store<OFFSET_BITS>>(
    store: &mut S,
    list: Posting,
    doc: u32,
    buffer: u32,
) -> Result<Posting, StoreError>
    requires unit { (S.ledger store.old).unit ≡ true }
    requires sealed { (S.ledger store.old).sealed buffer ≡ true }
    requires list { IsList (S.records store.old) list }
    requires vector { is_vector list ≡ true }
    requires owns { Owns (S.ledger store.old) (S.records store.old) (list_part list ∷ []) }
    ensures moves { IfOk result (MovesWord OFFSET_BITS buffer doc (S.ledger store.old) (S.ledger store.new)
        (S.records store.old) (S.records store.new) list) }
    ensures counts { MakesWithin (S.ledger store.old) (S.ledger store.new) (word_most (is_vector list)
        (list_levels (S.records store.old) list) (length (list_at (S.records store.old) list))) }
    ensures refuses { IfErr result (RefusesOf (IsUsedWidth (S.ledger store.old) (S.records store.old)) (S.ledger store.old)
        (S.ledger store.new)) }
    ensures may { MayDo (S.ledger store.old) (S.ledger store.new) }
{
    let root = root_of(store, list);
    let next = move_block(store, root, doc as u64 / BLOCK_DOCUMENTS, buffer)?;
    Ok(Posting::vector(next))
}

/// Moves a list that is no bit vector out of the buffer, as far as the way to one document. Returns the new list.
fn move_plain<const OFFSET_BITS: u32, S: Store<OFFSET_BITS>>(
    store: &mut S,
    list: Posting,
    doc: u32,
    buffer: u32,
) -> Result<Posting, StoreError>
    requires unit { (S.ledger store.old).unit ≡ true }
    requires sealed { (S.ledger store.old).sealed buffer ≡ true }
    requires list { IsList (S.records store.old) list }
    requires plain { IsPlain list }
    requires some { 0 < list }
    requires owns { Owns (S.ledger store.old) (S.records store.old) (list_part list ∷ []) }
    ensures moves { IfOk result (MovesWord OFFSET_BITS buffer doc (S.ledger store.old) (S.ledger store.new)
        (S.records store.old) (S.records store.new) list) }
    ensures counts { MakesWithin (S.ledger store.old) (S.ledger store.new) (word_most (is_vector list)
        (list_levels (S.records store.old) list) (length (list_at (S.records store.old) list))) }
    ensures refuses { IfErr result (RefusesOf (IsUsedWidth (S.ledger store.old) (S.records store.old)) (S.ledger store.old)
        (S.ledger store.new)) }
    ensures may { MayDo (S.ledger store.old) (S.ledger store.new) }
{
    if list.is_tree() {
        move_tree(store, list, doc, buffer)
    } else {
        move_short(store, list, buffer)
    }
}

/// Moves a list out of a sealed buffer, as far as the way to one document: a single record is copied if it lies there, and
/// so are the nodes of a tree on the way to the document, or the block of the document with the nodes on the way to it.
/// Returns the new list.
pub fn move_posting<const OFFSET_BITS: u32, S: Store<OFFSET_BITS>>(
    store: &mut S,
    list: Posting,
    doc: u32,
    buffer: u32,
) -> Result<Posting, StoreError>
    requires unit { (S.ledger store.old).unit ≡ true }
    requires sealed { (S.ledger store.old).sealed buffer ≡ true }
    requires list { IsList (S.records store.old) list }
    requires some { 0 < list }
    requires owns { Owns (S.ledger store.old) (S.records store.old) (list_part list ∷ []) }
    ensures moves { IfOk result (MovesWord OFFSET_BITS buffer doc (S.ledger store.old) (S.ledger store.new)
        (S.records store.old) (S.records store.new) list) }
    ensures counts { MakesWithin (S.ledger store.old) (S.ledger store.new) (word_most (is_vector list)
        (list_levels (S.records store.old) list) (length (list_at (S.records store.old) list))) }
    ensures refuses { IfErr result (RefusesOf (IsUsedWidth (S.ledger store.old) (S.records store.old)) (S.ledger store.old)
        (S.ledger store.new)) }
    ensures may { MayDo (S.ledger store.old) (S.ledger store.new) }
{
    if list.is_vector() {
        return move_vector(store, list, doc, buffer);
    }
    move_plain(store, list, doc, buffer)
}
