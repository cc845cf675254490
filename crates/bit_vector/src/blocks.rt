//! The blocks of a bit vector, read.
ghost use Rattle.std.specs.Prelude.{◌≡◌, ◌<◌, ◌+◌, ◌*◌, ℕ, length};
ghost use Rattle.image_format.specs.Postings.{vector_documents};
ghost use Rattle.index_model.specs.Sets.{has, in_words};
ghost use Rattle.bit_vector.specs.Blocks.{beside_block};
ghost use Rattle.bit_vector.specs.Vectors.{IsVector};
ghost use Rattle.tree_read.specs.Pairs.{lookup};
ghost use Rattle.tree_read.specs.Trees.{tree_pairs};

use arena_api::{Frozen, read};
use entry_ref::EntryRef;
use frozen_btree::{NumberKey, find};
use image_format::{BLOCK_DOCUMENTS, BLOCK_WORDS};

/// The number of documents of a block.
pub const BLOCK_SIZE: u32 = BLOCK_DOCUMENTS as u32;

/// Returns the record of a block, if a bit vector has the block.
pub fn find_block<const OFFSET_BITS: u32, F: Frozen<OFFSET_BITS>>(
    frozen: &mut F,
    root: EntryRef<OFFSET_BITS>,
    number: u64,
) -> Option<EntryRef<OFFSET_BITS>>
    requires vector { IsVector (F.records frozen.old) root }
    ensures found { result ≡ lookup (beside_block number) (tree_pairs (F.records frozen.old) root.entry) }
    ensures same { frozen.new ≡ frozen.old }
{
    match find(frozen, root, &NumberKey(number)) {
        Some((_, stored)) => Some(EntryRef::from_raw(stored as u32)),
        None => None,
    }
}

/// Returns the words of a block's record.
pub fn read_block<const OFFSET_BITS: u32, F: Frozen<OFFSET_BITS>>(
    frozen: &mut F,
    block: EntryRef<OFFSET_BITS>,
) -> [u64; BLOCK_WORDS]
    requires size { length (F.records frozen.old block) ≡ BLOCK_WORDS }
    ensures words { result ≡ F.records frozen.old block.entry }
    ensures same { frozen.new ≡ frozen.old }
{
    let mut words = [0; BLOCK_WORDS];
    read(frozen, block, 0, &mut words);
    words
}

/// Returns the words of a block, which are zeros if a bit vector lacks the block.
pub fn block_words<const OFFSET_BITS: u32, F: Frozen<OFFSET_BITS>>(
    frozen: &mut F,
    root: EntryRef<OFFSET_BITS>,
    number: u64,
) -> [u64; BLOCK_WORDS]
    requires vector { IsVector (F.records frozen.old) root }
    ensures bits { (i : ℕ) → i < BLOCK_DOCUMENTS
        → in_words result i ≡ has (vector_documents (F.records frozen.old) root.entry) (BLOCK_DOCUMENTS * number + i) }
    ensures same { frozen.new ≡ frozen.old }
{
    match find_block(frozen, root, number) {
        Some(block) => read_block(frozen, block),
        None => [0; BLOCK_WORDS],
    }
}
