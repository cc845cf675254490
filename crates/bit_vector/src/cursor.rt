//! A walk over the documents of a bit vector.
ghost use Rattle.std.specs.Prelude.{◌≡◌, ◌↔◌, ℕ, drop, [], false, IsTrue};
ghost use Rattle.image_format.specs.Postings.{vector_documents};
ghost use Rattle.bit_vector.specs.Vectors.{blocks_documents, IsVector};
ghost use Rattle.bit_vector.specs.Walks.{documents_from, first_document, HasDocument, IsBlockPlace, IsVectorPlace};
ghost use Rattle.entry_ref.specs.Records.{Records};
ghost use Rattle.tree_read.specs.SearchPlaces.{pairs_from};

use crate::bits::next_bit;
use crate::blocks::BLOCK_SIZE;
use arena_api::Frozen;
use attr_types::Doc;
use entry_ref::EntryRef;
use frozen_btree::Cursor;

/// A position before a document of a bit vector, or at its end.
#[derive(Drop)]
pub struct VectorCursor<const OFFSET_BITS: u32> {
    // before the block with the document
    blocks: Cursor<OFFSET_BITS>,
    // arbitrary at the end
    doc: Doc,
}

impl<const OFFSET_BITS: u32> VectorCursor<OFFSET_BITS> {
    /// Returns a cursor before the first document.
    pub fn first<F: Frozen<OFFSET_BITS>>(
        frozen: &mut F,
        root: EntryRef<OFFSET_BITS>,
    ) -> VectorCursor<OFFSET_BITS>
        requires vector { IsVector (F.records frozen.old) root }
        ensures place { IsVectorPlace (F.records frozen.old) result }
        ensures documents { documents_from (F.records frozen.old) result ≡ vector_documents (F.records frozen.old) root.entry }
        ensures same { frozen.new ≡ frozen.old }
    {
        let mut cursor = VectorCursor {
            blocks: Cursor::first(frozen, root),
            doc: Doc::new(1),
        };
        cursor.enter(frozen);
        cursor
    }

    /// Moves to the first document of the block at hand, if there is one.
    fn enter<F: Frozen<OFFSET_BITS>>(&mut self, frozen: &mut F)
        requires { IsBlockPlace (F.records frozen.old) self.old.blocks }
        ensures place { IsVectorPlace (F.records frozen.old) self.new }
        ensures documents { documents_from (F.records frozen.old) self.new
            ≡ blocks_documents (F.records frozen.old) (pairs_from (F.records frozen.old) self.old.blocks) }
        ensures same { frozen.new ≡ frozen.old }
    {
        if self.blocks.at_end() {
            return;
        }
        let block = EntryRef::from_raw(self.blocks.value() as u32);
        let bit = next_bit(frozen, block, 0);
        self.doc = Doc::new(self.blocks.key() as u32 * BLOCK_SIZE + bit);
    }

    /// Returns whether no document follows.
    pub fn at_end(&self) -> bool
        ensures document { IsTrue result ↔ ¬ HasDocument self.now }
        ensures follows { result ≡ false → HasDocument self.now }
        ensures documents { (m : Records) → IsVectorPlace m self.now → IsTrue result ↔ (documents_from m self.now ≡ []) }
    {
        self.blocks.at_end()
    }

    /// Returns the next document.
    pub fn doc(&self) -> Doc
        requires { HasDocument self.now }
        ensures { (m : Records) → IsVectorPlace m self.now → result ≡ first_document (documents_from m self.now) }
    {
        self.doc
    }

    /// Moves past one document.
    pub fn next<F: Frozen<OFFSET_BITS>>(&mut self, frozen: &mut F)
        requires place { IsVectorPlace (F.records frozen.old) self.old }
        requires document { HasDocument self.old }
        ensures place { IsVectorPlace (F.records frozen.old) self.new }
        ensures documents { documents_from (F.records frozen.old) self.new ≡ drop 1 (documents_from (F.records frozen.old) self.old) }
        ensures same { frozen.new ≡ frozen.old }
    {
        let block = EntryRef::from_raw(self.blocks.value() as u32);
        let number = self.doc.number();
        let bit = next_bit(frozen, block, number % BLOCK_SIZE + 1);
        if bit < BLOCK_SIZE {
            self.doc = Doc::new(number / BLOCK_SIZE * BLOCK_SIZE + bit);
        } else {
            self.blocks.next(frozen);
            self.enter(frozen);
        }
    }
}
