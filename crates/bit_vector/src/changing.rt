//! A document put into a bit vector, or taken out of it.
ghost use Rattle.std.specs.Prelude.{◌≡◌, ◌<◌, ◌≤◌, ◌+◌, ◌*◌, ℕ, pos, ◌∷◌, [], true, false, None, Some, Ok, length, IfOk, IfErr};
ghost use Rattle.std.specs.BTreeMap.{insert_entry, is_at};
ghost use Rattle.std.specs.List.{AllByRecursion};
ghost use Rattle.std.specs.Map.{remove_entry};
ghost use Rattle.std.specs.Ordering.{nat_cmp};
ghost use Rattle.image_format.specs.Postings.{block_documents, vector_documents, IsBlock};
ghost use Rattle.index_model.specs.Sets.{has, in_words};
ghost use Rattle.attr_types.specs.Lawful.{IsDocNumber};
ghost use Rattle.bit_vector.specs.Blocks.{beside_block, HasBit, SetsBlock};
ghost use Rattle.bit_vector.specs.Changes.{vector_most, vector_part, IsVectorWidth, MakesVector};
ghost use Rattle.bit_vector.specs.Vectors.{vector_at, IsVector};
ghost use Rattle.frozen_btree.specs.Changes.{levels};
ghost use Rattle.frozen_btree.specs.Makes.{CountsNodes};
ghost use Rattle.store_api.specs.Calls.{Refuses, RefusesOf};
ghost use Rattle.store_api.specs.Parts.{Owns, entry};
ghost use Rattle.store_api.specs.Units.{MayDo, MakesWithin};
ghost use Rattle.tree_read.specs.Pairs.{lookup};
ghost use Rattle.tree_read.specs.Trees.{tree_pairs};

use crate::bits::{clear_bit, has_bit, is_empty, set_bit};
use crate::blocks::{BLOCK_SIZE, block_words, find_block};
use attr_types::Doc;
use entry_ref::EntryRef;
use frozen_btree::{NumberKey, insert as insert_pair, remove as remove_pair};
use image_format::{BLOCK_DOCUMENTS, BLOCK_WORDS};
use store_api::{Store, StoreError, drop_one, make_entry};
use tree_read::NODE_WORDS;

/// Adds a block that a bit vector lacks.
fn add_block<const OFFSET_BITS: u32, S: Store<OFFSET_BITS>>(
    store: &mut S,
    root: EntryRef<OFFSET_BITS>,
    number: u64,
    block: EntryRef<OFFSET_BITS>,
) -> Result<EntryRef<OFFSET_BITS>, StoreError>
    requires unit { (S.ledger store.old).unit ≡ true }
    requires vector { IsVector (S.records store.old) root }
    requires lacks { lookup (beside_block number) (tree_pairs (S.records store.old) root) ≡ None }
    requires form { IsBlock number (S.records store.old block) }
    requires numbers { AllByRecursion IsDocNumber (block_documents number (S.records store.old block)) }
    requires owns { Owns (S.ledger store.old) (S.records store.old) (vector_part root ∷ entry block ∷ []) }
    ensures sets { IfOk result (SetsBlock (S.ledger store.old) (S.ledger store.new) (S.records store.old) (S.records store.new)
        root.entry (vector_part root.entry ∷ entry block.entry ∷ []) number (S.records store.old block.entry)) }
    ensures counts { CountsNodes (S.ledger store.old) (S.ledger store.new) (2 * levels (S.records store.old) root.entry + 1) }
    ensures refuses { IfErr result (Refuses (S.ledger store.old) (S.ledger store.new) NODE_WORDS) }
    ensures may { MayDo (S.ledger store.old) (S.ledger store.new) }
{
    insert_pair(store, root, &NumberKey(number), number, block.raw() as u64)
}

/// Puts the record of a block in place of the one that a bit vector has.
fn replace_block<const OFFSET_BITS: u32, S: Store<OFFSET_BITS>>(
    store: &mut S,
    root: EntryRef<OFFSET_BITS>,
    number: u64,
    block: EntryRef<OFFSET_BITS>,
    old: EntryRef<OFFSET_BITS>,
) -> Result<EntryRef<OFFSET_BITS>, StoreError>
    requires unit { (S.ledger store.old).unit ≡ true }
    requires vector { IsVector (S.records store.old) root }
    requires has { lookup (beside_block number) (tree_pairs (S.records store.old) root) ≡ Some old }
    requires form { IsBlock number (S.records store.old block) }
    requires numbers { AllByRecursion IsDocNumber (block_documents number (S.records store.old block)) }
    requires owns { Owns (S.ledger store.old) (S.records store.old) (vector_part root ∷ entry block ∷ []) }
    ensures sets { IfOk result (SetsBlock (S.ledger store.old) (S.ledger store.new) (S.records store.old) (S.records store.new)
        root.entry (vector_part root.entry ∷ entry block.entry ∷ []) number (S.records store.old block.entry)) }
    ensures counts { CountsNodes (S.ledger store.old) (S.ledger store.new) (2 * levels (S.records store.old) root.entry + 1) }
    ensures refuses { IfErr result (Refuses (S.ledger store.old) (S.ledger store.new) NODE_WORDS) }
    ensures may { MayDo (S.ledger store.old) (S.ledger store.new) }
{
    let next = insert_pair(store, root, &NumberKey(number), number, block.raw() as u64)?;
    drop_one(store, old);
    Ok(next)
}

/// Puts the record of a block into a bit vector.
fn put_block<const OFFSET_BITS: u32, S: Store<OFFSET_BITS>>(
    store: &mut S,
    root: EntryRef<OFFSET_BITS>,
    number: u64,
    block: EntryRef<OFFSET_BITS>,
) -> Result<EntryRef<OFFSET_BITS>, StoreError>
    requires unit { (S.ledger store.old).unit ≡ true }
    requires vector { IsVector (S.records store.old) root }
    requires form { IsBlock number (S.records store.old block) }
    requires numbers { AllByRecursion IsDocNumber (block_documents number (S.records store.old block)) }
    requires owns { Owns (S.ledger store.old) (S.records store.old) (vector_part root ∷ entry block ∷ []) }
    ensures sets { IfOk result (SetsBlock (S.ledger store.old) (S.ledger store.new) (S.records store.old) (S.records store.new)
        root.entry (vector_part root.entry ∷ entry block.entry ∷ []) number (S.records store.old block.entry)) }
    ensures counts { CountsNodes (S.ledger store.old) (S.ledger store.new) (2 * levels (S.records store.old) root.entry + 1) }
    ensures refuses { IfErr result (Refuses (S.ledger store.old) (S.ledger store.new) NODE_WORDS) }
    ensures may { MayDo (S.ledger store.old) (S.ledger store.new) }
{
    match find_block(store, root, number) {
        Some(old) => replace_block(store, root, number, block, old),
        None => add_block(store, root, number, block),
    }
}

/// Makes the words of a block, which have some bit, those of a bit vector.
fn set_block<const OFFSET_BITS: u32, S: Store<OFFSET_BITS>>(
    store: &mut S,
    root: EntryRef<OFFSET_BITS>,
    number: u64,
    words: &[u64],
) -> Result<EntryRef<OFFSET_BITS>, StoreError>
    requires unit { (S.ledger store.old).unit ≡ true }
    requires vector { IsVector (S.records store.old) root }
    requires form { IsBlock number words.now }
    requires numbers { AllByRecursion IsDocNumber (block_documents number words.now) }
    requires owns { Owns (S.ledger store.old) (S.records store.old) (vector_part root ∷ []) }
    ensures sets { IfOk result (SetsBlock (S.ledger store.old) (S.ledger store.new) (S.records store.old) (S.records store.new)
        root.entry (vector_part root.entry ∷ []) number words.now) }
    ensures counts { MakesWithin (S.ledger store.old) (S.ledger store.new)
        (vector_most 1 (2 * levels (S.records store.old) root.entry + 1)) }
    ensures refuses { IfErr result (RefusesOf IsVectorWidth (S.ledger store.old) (S.ledger store.new)) }
    ensures may { MayDo (S.ledger store.old) (S.ledger store.new) }
{
    let block = make_entry(store, BLOCK_WORDS as u32, words)?;
    put_block(store, root, number, block)
}

/// Takes out the block of a bit vector with this record.
fn take_block<const OFFSET_BITS: u32, S: Store<OFFSET_BITS>>(
    store: &mut S,
    root: EntryRef<OFFSET_BITS>,
    number: u64,
    old: EntryRef<OFFSET_BITS>,
) -> Result<EntryRef<OFFSET_BITS>, StoreError>
    requires unit { (S.ledger store.old).unit ≡ true }
    requires vector { IsVector (S.records store.old) root }
    requires has { lookup (beside_block number) (tree_pairs (S.records store.old) root) ≡ Some old }
    requires owns { Owns (S.ledger store.old) (S.records store.old) (vector_part root ∷ []) }
    ensures sets { IfOk result (SetsBlock (S.ledger store.old) (S.ledger store.new) (S.records store.old) (S.records store.new)
        root.entry (vector_part root.entry ∷ []) number []) }
    ensures counts { CountsNodes (S.ledger store.old) (S.ledger store.new) (2 * levels (S.records store.old) root.entry + 1) }
    ensures refuses { IfErr result (Refuses (S.ledger store.old) (S.ledger store.new) NODE_WORDS) }
    ensures may { MayDo (S.ledger store.old) (S.ledger store.new) }
{
    let next = remove_pair(store, root, &NumberKey(number))?;
    drop_one(store, old);
    Ok(next)
}

/// Makes a bit vector lack a block.
fn clear_block<const OFFSET_BITS: u32, S: Store<OFFSET_BITS>>(
    store: &mut S,
    root: EntryRef<OFFSET_BITS>,
    number: u64,
) -> Result<EntryRef<OFFSET_BITS>, StoreError>
    requires unit { (S.ledger store.old).unit ≡ true }
    requires vector { IsVector (S.records store.old) root }
    requires owns { Owns (S.ledger store.old) (S.records store.old) (vector_part root ∷ []) }
    ensures sets { IfOk result (SetsBlock (S.ledger store.old) (S.ledger store.new) (S.records store.old) (S.records store.new)
        root.entry (vector_part root.entry ∷ []) number []) }
    ensures counts { MakesWithin (S.ledger store.old) (S.ledger store.new)
        (vector_most 1 (2 * levels (S.records store.old) root.entry + 1)) }
    ensures refuses { IfErr result (RefusesOf IsVectorWidth (S.ledger store.old) (S.ledger store.new)) }
    ensures may { MayDo (S.ledger store.old) (S.ledger store.new) }
{
    match find_block(store, root, number) {
        Some(old) => take_block(store, root, number, old),
        None => Ok(root),
    }
}

/// Adds a document to a bit vector. Returns the root of the new one.
pub fn insert<const OFFSET_BITS: u32, S: Store<OFFSET_BITS>>(
    store: &mut S,
    root: EntryRef<OFFSET_BITS>,
    doc: Doc,
) -> Result<EntryRef<OFFSET_BITS>, StoreError>
    requires unit { (S.ledger store.old).unit ≡ true }
    requires vector { IsVector (S.records store.old) root }
    requires owns { Owns (S.ledger store.old) (S.records store.old) (vector_part root ∷ []) }
    ensures makes { IfOk result (MakesVector (S.ledger store.old) (S.ledger store.new) (S.records store.old) (S.records store.new)
        root.entry (insert_entry nat_cmp (vector_at (S.records store.old) root.entry) doc (pos 1))) }
    ensures still { has (vector_documents (S.records store.old) root.entry) doc ≡ true → store.new ≡ store.old }
    ensures stays { has (vector_documents (S.records store.old) root.entry) doc ≡ true → result ≡ Ok root.entry }
    ensures counts { MakesWithin (S.ledger store.old) (S.ledger store.new)
        (vector_most 1 (2 * levels (S.records store.old) root.entry + 1)) }
    ensures refuses { IfErr result (RefusesOf IsVectorWidth (S.ledger store.old) (S.ledger store.new)) }
    ensures may { MayDo (S.ledger store.old) (S.ledger store.new) }
{
    let place = doc.number();
    let number = (place / BLOCK_SIZE) as u64;
    let mut words = block_words(store, root, number);
    if has_bit(&words, place % BLOCK_SIZE) {
        return Ok(root);
    }
    set_bit(&mut words, place % BLOCK_SIZE);
    set_block(store, root, number, &words)
}

/// Removes a document from a bit vector. Returns the root of the new one, or 0 if no document is left.
pub fn remove<const OFFSET_BITS: u32, S: Store<OFFSET_BITS>>(
    store: &mut S,
    root: EntryRef<OFFSET_BITS>,
    doc: Doc,
) -> Result<EntryRef<OFFSET_BITS>, StoreError>
    requires unit { (S.ledger store.old).unit ≡ true }
    requires vector { IsVector (S.records store.old) root }
    requires owns { Owns (S.ledger store.old) (S.records store.old) (vector_part root ∷ []) }
    ensures makes { IfOk result (MakesVector (S.ledger store.old) (S.ledger store.new) (S.records store.old) (S.records store.new)
        root.entry (remove_entry (is_at (nat_cmp doc)) (vector_at (S.records store.old) root.entry))) }
    ensures counts { MakesWithin (S.ledger store.old) (S.ledger store.new)
        (vector_most 1 (2 * levels (S.records store.old) root.entry + 1)) }
    ensures refuses { IfErr result (RefusesOf IsVectorWidth (S.ledger store.old) (S.ledger store.new)) }
    ensures may { MayDo (S.ledger store.old) (S.ledger store.new) }
{
    let place = doc.number();
    let number = (place / BLOCK_SIZE) as u64;
    let mut words = block_words(store, root, number);
    clear_bit(&mut words, place % BLOCK_SIZE);
    if is_empty(&words) {
        clear_block(store, root, number)
    } else {
        set_block(store, root, number, &words)
    }
}
