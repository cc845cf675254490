//! A block of a bit vector moved out of a buffer.
ghost use Rattle.std.specs.Prelude.{◌≡◌, ◌+◌, ◌*◌, ◌∷◌, [], true, length, None, Some, IfOk, IfErr};
ghost use Rattle.bit_vector.specs.Changes.{vector_most, vector_part};
ghost use Rattle.bit_vector.specs.Keeps.{block_at};
ghost use Rattle.bit_vector.specs.Moves.{moved_nodes, CopiesBlock, MovesBlock, MovesWay, PutsBlock};
ghost use Rattle.bit_vector.specs.Vectors.{IsVector};
ghost use Rattle.frozen_btree.specs.Changes.{levels};
ghost use Rattle.frozen_btree.specs.Makes.{CountsNodes};
ghost use Rattle.store_api.specs.Calls.{IsUsedWidth, Refuses, RefusesOf};
ghost use Rattle.store_api.specs.Parts.{Owns, entry};
ghost use Rattle.store_api.specs.Units.{MayDo, MakesWithin};

use crate::blocks::{find_block, read_block};
use entry_ref::EntryRef;
use frozen_btree::{NumberKey, insert as insert_pair, touch};
use image_format::BLOCK_WORDS;
use store_api::{Store, StoreError, drop_one, make_entry};
use tree_read::NODE_WORDS;

/// Copies the nodes on the way to a block if they lie in the buffer.
fn move_way<const OFFSET_BITS: u32, S: Store<OFFSET_BITS>>(
    store: &mut S,
    root: EntryRef<OFFSET_BITS>,
    number: u64,
    buffer: u32,
) -> Result<EntryRef<OFFSET_BITS>, StoreError>
    requires unit { (S.ledger store.old).unit ≡ true }
    requires sealed { (S.ledger store.old).sealed buffer ≡ true }
    requires vector { IsVector (S.records store.old) root }
    requires owns { Owns (S.ledger store.old) (S.records store.old) (vector_part root ∷ []) }
    ensures moves { IfOk result (MovesWay OFFSET_BITS buffer number (S.ledger store.old) (S.ledger store.new)
        (S.records store.old) (S.records store.new) root.entry) }
    ensures counts { CountsNodes (S.ledger store.old) (S.ledger store.new) (levels (S.records store.old) root.entry) }
    ensures refuses { IfErr result (Refuses (S.ledger store.old) (S.ledger store.new) NODE_WORDS) }
    ensures may { MayDo (S.ledger store.old) (S.ledger store.new) }
{
    touch(store, root, &NumberKey(number), buffer)
}

/// Makes a copy of the record of a block.
fn copy_block<const OFFSET_BITS: u32, S: Store<OFFSET_BITS>>(
    store: &mut S,
    block: EntryRef<OFFSET_BITS>,
) -> Result<EntryRef<OFFSET_BITS>, StoreError>
    requires unit { (S.ledger store.old).unit ≡ true }
    requires size { length (S.records store.old block) ≡ BLOCK_WORDS }
    ensures copies { IfOk result (CopiesBlock OFFSET_BITS (S.ledger store.old) (S.ledger store.new)
        (S.records store.old) (S.records store.new) block.entry) }
    ensures counts { MakesWithin (S.ledger store.old) (S.ledger store.new) (vector_most 1 0) }
    ensures refuses { IfErr result (Refuses (S.ledger store.old) (S.ledger store.new) BLOCK_WORDS) }
    ensures may { MayDo (S.ledger store.old) (S.ledger store.new) }
{
    let words = read_block(store, block);
    make_entry(store, BLOCK_WORDS as u32, &words)
}

/// Puts a copy of a block's record in its place, and drops the old record.
fn put_copy<const OFFSET_BITS: u32, S: Store<OFFSET_BITS>>(
    store: &mut S,
    root: EntryRef<OFFSET_BITS>,
    number: u64,
    copy: EntryRef<OFFSET_BITS>,
    block: EntryRef<OFFSET_BITS>,
) -> Result<EntryRef<OFFSET_BITS>, StoreError>
    requires unit { (S.ledger store.old).unit ≡ true }
    requires vector { IsVector (S.records store.old) root }
    requires has { block_at (S.records store.old) root number ≡ Some block }
    requires same { S.records store.old copy ≡ S.records store.old block }
    requires owns { Owns (S.ledger store.old) (S.records store.old) (vector_part root ∷ entry copy ∷ []) }
    ensures puts { IfOk result (PutsBlock (S.ledger store.old) (S.ledger store.new) (S.records store.old) (S.records store.new)
        root.entry number copy.entry) }
    ensures counts { CountsNodes (S.ledger store.old) (S.ledger store.new) (2 * levels (S.records store.old) root.entry + 1) }
    ensures refuses { IfErr result (Refuses (S.ledger store.old) (S.ledger store.new) NODE_WORDS) }
    ensures may { MayDo (S.ledger store.old) (S.ledger store.new) }
{
    let next = insert_pair(store, root, &NumberKey(number), number, copy.raw() as u64)?;
    drop_one(store, block);
    Ok(next)
}

/// Moves a block whose record lies in the buffer.
fn move_found<const OFFSET_BITS: u32, S: Store<OFFSET_BITS>>(
    store: &mut S,
    root: EntryRef<OFFSET_BITS>,
    number: u64,
    block: EntryRef<OFFSET_BITS>,
    buffer: u32,
) -> Result<EntryRef<OFFSET_BITS>, StoreError>
    requires unit { (S.ledger store.old).unit ≡ true }
    requires sealed { (S.ledger store.old).sealed buffer ≡ true }
    requires vector { IsVector (S.records store.old) root }
    requires has { block_at (S.records store.old) root number ≡ Some block }
    requires owns { Owns (S.ledger store.old) (S.records store.old) (vector_part root ∷ []) }
    ensures moves { IfOk result (MovesBlock OFFSET_BITS buffer number (S.ledger store.old) (S.ledger store.new)
        (S.records store.old) (S.records store.new) root.entry) }
    ensures counts { MakesWithin (S.ledger store.old) (S.ledger store.new) (vector_most 1 moved_nodes) }
    ensures refuses { IfErr result (RefusesOf (IsUsedWidth (S.ledger store.old) (S.records store.old)) (S.ledger store.old)
        (S.ledger store.new)) }
    ensures may { MayDo (S.ledger store.old) (S.ledger store.new) }
{
    let copy = copy_block(store, block)?;
    let next = put_copy(store, root, number, copy, block)?;
    move_way(store, next, number, buffer)
}

/// Moves a block that is there.
fn move_there<const OFFSET_BITS: u32, S: Store<OFFSET_BITS>>(
    store: &mut S,
    root: EntryRef<OFFSET_BITS>,
    number: u64,
    block: EntryRef<OFFSET_BITS>,
    buffer: u32,
) -> Result<EntryRef<OFFSET_BITS>, StoreError>
    requires unit { (S.ledger store.old).unit ≡ true }
    requires sealed { (S.ledger store.old).sealed buffer ≡ true }
    requires vector { IsVector (S.records store.old) root }
    requires has { block_at (S.records store.old) root number ≡ Some block }
    requires owns { Owns (S.ledger store.old) (S.records store.old) (vector_part root ∷ []) }
    ensures moves { IfOk result (MovesBlock OFFSET_BITS buffer number (S.ledger store.old) (S.ledger store.new)
        (S.records store.old) (S.records store.new) root.entry) }
    ensures counts { MakesWithin (S.ledger store.old) (S.ledger store.new) (vector_most 1 moved_nodes) }
    ensures refuses { IfErr result (RefusesOf (IsUsedWidth (S.ledger store.old) (S.records store.old)) (S.ledger store.old)
        (S.ledger store.new)) }
    ensures may { MayDo (S.ledger store.old) (S.ledger store.new) }
{
    if block.buffer() != buffer {
        return move_way(store, root, number, buffer);
    }
    move_found(store, root, number, block, buffer)
}

/// Moves the nodes on the way to a block that is not there.
fn move_missing<const OFFSET_BITS: u32, S: Store<OFFSET_BITS>>(
    store: &mut S,
    root: EntryRef<OFFSET_BITS>,
    number: u64,
    buffer: u32,
) -> Result<EntryRef<OFFSET_BITS>, StoreError>
    requires unit { (S.ledger store.old).unit ≡ true }
    requires sealed { (S.ledger store.old).sealed buffer ≡ true }
    requires vector { IsVector (S.records store.old) root }
    requires lacks { block_at (S.records store.old) root number ≡ None }
    requires owns { Owns (S.ledger store.old) (S.records store.old) (vector_part root ∷ []) }
    ensures moves { IfOk result (MovesBlock OFFSET_BITS buffer number (S.ledger store.old) (S.ledger store.new)
        (S.records store.old) (S.records store.new) root.entry) }
    ensures counts { MakesWithin (S.ledger store.old) (S.ledger store.new) (vector_most 1 moved_nodes) }
    ensures refuses { IfErr result (RefusesOf (IsUsedWidth (S.ledger store.old) (S.records store.old)) (S.ledger store.old)
        (S.ledger store.new)) }
    ensures may { MayDo (S.ledger store.old) (S.ledger store.new) }
{
    if !root.valid() {
        return Ok(root);
    }
    move_way(store, root, number, buffer)
}

/// Moves a block of a bit vector out of a sealed buffer, if there is one with this number: its record is copied if it lies
/// there, and so are the nodes on the way to it. Returns the root of the new bit vector, which has the same documents.
pub fn move_block<const OFFSET_BITS: u32, S: Store<OFFSET_BITS>>(
    store: &mut S,
    root: EntryRef<OFFSET_BITS>,
    number: u64,
    buffer: u32,
) -> Result<EntryRef<OFFSET_BITS>, StoreError>
    requires unit { (S.ledger store.old).unit ≡ true }
    requires sealed { (S.ledger store.old).sealed buffer ≡ true }
    requires vector { IsVector (S.records store.old) root }
    requires owns { Owns (S.ledger store.old) (S.records store.old) (vector_part root ∷ []) }
    ensures moves { IfOk result (MovesBlock OFFSET_BITS buffer number (S.ledger store.old) (S.ledger store.new)
        (S.records store.old) (S.records store.new) root.entry) }
    ensures counts { MakesWithin (S.ledger store.old) (S.ledger store.new) (vector_most 1 moved_nodes) }
    ensures refuses { IfErr result (RefusesOf (IsUsedWidth (S.ledger store.old) (S.records store.old)) (S.ledger store.old)
        (S.ledger store.new)) }
    ensures may { MayDo (S.ledger store.old) (S.ledger store.new) }
{
    match find_block(store, root, number) {
        Some(block) => move_there(store, root, number, block, buffer),
        None => move_missing(store, root, number, buffer),
    }
}
