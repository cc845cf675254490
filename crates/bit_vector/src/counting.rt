//! Documents of a bit vector, counted.
ghost use Rattle.std.specs.Prelude.{◌≡◌, ◌<◌, ◌≤◌, ◌+◌, ◌*◌, ℕ, length, nat_le};
ghost use Rattle.image_format.specs.Postings.{block_documents, vector_documents};
ghost use Rattle.bit_vector.specs.Vectors.{IsVector};

use arena_api::Frozen;
use entry_ref::EntryRef;
use frozen_btree::Cursor;
use image_format::BLOCK_WORDS;

/// Returns the number of documents of a block.
fn count_block<const OFFSET_BITS: u32, F: Frozen<OFFSET_BITS>>(
    frozen: &mut F,
    block: EntryRef<OFFSET_BITS>,
) -> u32
    requires size { length (F.records frozen.old block) ≡ BLOCK_WORDS }
    ensures count { (k : ℕ) → result ≡ length (block_documents k (F.records frozen.old block.entry)) }
    ensures few { result ≤ 4096 }
    ensures same { frozen.new ≡ frozen.old }
{
    let mut count = 0;
    for i in 0..BLOCK_WORDS as u32 {
        count += frozen.word(block, i).count_ones();
    }
    count
}

/// Returns whether a bit vector has at least so many documents. It counts block by block and stops at the block that settles it.
pub fn has_at_least<const OFFSET_BITS: u32, F: Frozen<OFFSET_BITS>>(
    frozen: &mut F,
    root: EntryRef<OFFSET_BITS>,
    least: u32,
) -> bool
    requires vector { IsVector (F.records frozen.old) root }
    ensures least { result ≡ nat_le least (length (vector_documents (F.records frozen.old) root.entry)) }
    ensures same { frozen.new ≡ frozen.old }
{
    let mut cursor = Cursor::first(frozen, root);
    let mut count = 0;
    while !cursor.at_end() {
        if count >= least {
            return true;
        }
        count += count_block(frozen, EntryRef::from_raw(cursor.value() as u32));
        cursor.next(frozen);
    }
    count >= least
}
