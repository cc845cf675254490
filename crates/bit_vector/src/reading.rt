//! A document sought in a bit vector.
ghost use Rattle.std.specs.Prelude.{◌≡◌, ◌<◌, length};
ghost use Rattle.image_format.specs.Postings.{vector_documents};
ghost use Rattle.index_model.specs.Sets.{has, in_words};
ghost use Rattle.bit_vector.specs.Vectors.{IsVector};

use crate::blocks::{BLOCK_SIZE, find_block};
use arena_api::Frozen;
use attr_types::Doc;
use entry_ref::EntryRef;
use image_format::{BLOCK_DOCUMENTS, BLOCK_WORDS};

/// Returns whether bit `i` of a block is 1.
fn bit_of<const OFFSET_BITS: u32, F: Frozen<OFFSET_BITS>>(
    frozen: &mut F,
    block: EntryRef<OFFSET_BITS>,
    i: u32,
) -> bool
    requires size { length (F.records frozen.old block) ≡ BLOCK_WORDS }
    requires within { i < BLOCK_DOCUMENTS }
    ensures bit { result ≡ in_words (F.records frozen.old block.entry) i }
    ensures same { frozen.new ≡ frozen.old }
{
    (frozen.word(block, i / 64) >> (i % 64)) & 1 == 1
}

/// Returns whether a bit vector has a document.
pub fn contains<const OFFSET_BITS: u32, F: Frozen<OFFSET_BITS>>(
    frozen: &mut F,
    root: EntryRef<OFFSET_BITS>,
    doc: Doc,
) -> bool
    requires vector { IsVector (F.records frozen.old) root }
    ensures has { result ≡ has (vector_documents (F.records frozen.old) root.entry) doc }
    ensures same { frozen.new ≡ frozen.old }
{
    let place = doc.number();
    match find_block(frozen, root, (place / BLOCK_SIZE) as u64) {
        Some(block) => bit_of(frozen, block, place % BLOCK_SIZE),
        None => false,
    }
}
