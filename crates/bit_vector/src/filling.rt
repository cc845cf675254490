//! Blocks made of the documents of a tree.
ghost use Rattle.std.specs.Prelude.{◌≡◌, ◌<◌, ◌≤◌, ◌+◌, ◌*◌, ◌∷◌, [], ℕ, true, map, length, filter, OnOk, IfOk, IfErr};
ghost use Rattle.std.specs.List.{range_with_len, AllByRecursion};
ghost use Rattle.std.specs.Ordering.{nat_cmp};
ghost use Rattle.index_model.specs.Sets.{has, in_words};
ghost use Rattle.attr_types.specs.Lawful.{IsDocNumber};
ghost use Rattle.bit_vector.specs.Changes.{vector_most, IsVectorWidth};
ghost use Rattle.bit_vector.specs.Fillings.{block_most, MakesBlock, MakesBlocks};
ghost use Rattle.bit_vector.specs.Vectors.{count_blocks, is_block_of};
ghost use Rattle.frozen_btree.specs.Changes.{tree};
ghost use Rattle.store_api.specs.Calls.{Refuses, RefusesOf};
ghost use Rattle.store_api.specs.Parts.{Owns};
ghost use Rattle.store_api.specs.Units.{MayDo, MakesWithin};
ghost use Rattle.tree_read.specs.Trees.{tree_pairs, by_number, IsTree};

use crate::MOST_BLOCKS;
use crate::bits::{is_empty, set_bit};
use arena_api::Frozen;
use arrayvec::ArrayVec;
use entry_ref::EntryRef;
use frozen_btree::{Cursor, NumberKey};
use image_format::{BLOCK_DOCUMENTS, BLOCK_WORDS};
use store_api::{Store, StoreError, make_entry};

/// Blocks with their records.
#[derive(Drop)]
pub struct Blocks {
    pub numbers: ArrayVec<u64, MOST_BLOCKS>,
    pub records: ArrayVec<u64, MOST_BLOCKS>,
}

/// Returns the words of a block with the documents that are keys of a tree.
fn words_of_tree<const OFFSET_BITS: u32, F: Frozen<OFFSET_BITS>>(
    frozen: &mut F,
    root: EntryRef<OFFSET_BITS>,
    number: u64,
) -> [u64; BLOCK_WORDS]
    requires tree { IsTree nat_cmp by_number (F.records frozen.old) root }
    requires few { number < MOST_BLOCKS }
    ensures bits { (i : ℕ) → i < BLOCK_DOCUMENTS
        → in_words result i ≡ has (map (λ p. p.0) (tree_pairs (F.records frozen.old) root.entry)) (BLOCK_DOCUMENTS * number + i) }
    ensures same { frozen.new ≡ frozen.old }
{
    let mut words = [0; BLOCK_WORDS];
    let mut cursor = Cursor::seek(frozen, root, &NumberKey(number * BLOCK_DOCUMENTS));
    while !cursor.at_end() {
        let key = cursor.key();
        if key / BLOCK_DOCUMENTS != number {
            return words;
        }
        set_bit(&mut words, (key % BLOCK_DOCUMENTS) as u32);
        cursor.next(frozen);
    }
    words
}

/// Makes the block with a number, if a tree has one of its documents.
fn make_block<const OFFSET_BITS: u32, S: Store<OFFSET_BITS>>(
    store: &mut S,
    root: EntryRef<OFFSET_BITS>,
    number: u64,
    blocks: &mut Blocks,
) -> Result<(), StoreError>
    requires unit { (S.ledger store.old).unit ≡ true }
    requires tree { IsTree nat_cmp by_number (S.records store.old) root }
    requires few { number < MOST_BLOCKS }
    requires room { length blocks.old.numbers.items ≤ number }
    requires even { length blocks.old.records.items ≡ length blocks.old.numbers.items }
    ensures makes { OnOk result (MakesBlock (S.ledger store.old) (S.ledger store.new) (S.records store.old) (S.records store.new)
        (map (λ p. p.0) (tree_pairs (S.records store.old) root.entry)) number blocks.old blocks.new) }
    ensures counts { MakesWithin (S.ledger store.old) (S.ledger store.new)
        (block_most (is_block_of (map (λ p. p.0) (tree_pairs (S.records store.old) root.entry)) number)) }
    ensures refuses { IfErr result (Refuses (S.ledger store.old) (S.ledger store.new) BLOCK_WORDS) }
    ensures may { MayDo (S.ledger store.old) (S.ledger store.new) }
{
    let words = words_of_tree(store, root, number);
    if is_empty(&words) {
        return Ok(());
    }
    let block = make_entry(store, BLOCK_WORDS as u32, &words)?;
    blocks.numbers.push(number);
    blocks.records.push(block.raw() as u64);
    Ok(())
}

/// Makes the blocks of the documents that are keys of a tree.
pub fn make_blocks<const OFFSET_BITS: u32, S: Store<OFFSET_BITS>>(
    store: &mut S,
    root: EntryRef<OFFSET_BITS>,
) -> Result<Blocks, StoreError>
    requires unit { (S.ledger store.old).unit ≡ true }
    requires tree { IsTree nat_cmp by_number (S.records store.old) root }
    requires owns { Owns (S.ledger store.old) (S.records store.old) (tree root ∷ []) }
    ensures makes { IfOk result (λ blocks. MakesBlocks (S.ledger store.old) (S.ledger store.new) (S.records store.old) (S.records store.new)
        (map (λ p. p.0) (tree_pairs (S.records store.old) root.entry)) MOST_BLOCKS blocks) }
    ensures counts { MakesWithin (S.ledger store.old) (S.ledger store.new)
        (vector_most (count_blocks (map (λ p. p.0) (tree_pairs (S.records store.old) root.entry))) 0) }
    ensures refuses { IfErr result (RefusesOf IsVectorWidth (S.ledger store.old) (S.ledger store.new)) }
    ensures may { MayDo (S.ledger store.old) (S.ledger store.new) }
{
    let mut blocks = Blocks {
        numbers: ArrayVec::new(),
        records: ArrayVec::new(),
    };
    for number in 0..MOST_BLOCKS as u64 {
        make_block(store, root, number, &mut blocks)?;
    }
    Ok(blocks)
}
