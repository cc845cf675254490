//! A bit vector made of a tree of documents, and such a tree made of a bit vector.
ghost use Rattle.std.specs.Prelude.{◌≡◌, ◌+◌, ◌∷◌, [], pos, true, map, length, replicate, IfOk, IfErr};
ghost use Rattle.std.specs.List.{AllByRecursion};
ghost use Rattle.std.specs.Ordering.{nat_cmp};
ghost use Rattle.image_format.specs.Postings.{vector_documents};
ghost use Rattle.attr_types.specs.Lawful.{IsDocNumber};
ghost use Rattle.bit_vector.specs.Changes.{vector_most, IsVectorWidth, MakesTree, MakesVector};
ghost use Rattle.bit_vector.specs.Vectors.{count_blocks, IsVector};
ghost use Rattle.frozen_btree.specs.Builds.{nodes_of};
ghost use Rattle.frozen_btree.specs.Changes.{tree};
ghost use Rattle.frozen_btree.specs.Makes.{CountsNodes};
ghost use Rattle.store_api.specs.Calls.{Refuses, RefusesOf};
ghost use Rattle.store_api.specs.Parts.{Owns};
ghost use Rattle.store_api.specs.Units.{MayDo, MakesWithin};
ghost use Rattle.tree_read.specs.Trees.{tree_pairs, by_number, IsTree};

use crate::cursor::VectorCursor;
use crate::filling::make_blocks;
use arena_api::Frozen;
use entry_ref::EntryRef;
use frozen_btree::{NumberKey, build};
use std::alloc::{AllocError, Global};
use store_api::{Store, StoreError};
use tree_read::NODE_WORDS;

/// Makes a bit vector of the keys of a tree by number, which are documents. The tree stays.
pub fn from_tree<const OFFSET_BITS: u32, S: Store<OFFSET_BITS>>(
    alloc: Global,
    store: &mut S,
    root: EntryRef<OFFSET_BITS>,
) -> Result<EntryRef<OFFSET_BITS>, StoreError>
    requires unit { (S.ledger store.old).unit ≡ true }
    requires tree { IsTree nat_cmp by_number (S.records store.old) root }
    requires numbers { AllByRecursion IsDocNumber (map (λ p. p.0) (tree_pairs (S.records store.old) root)) }
    requires owns { Owns (S.ledger store.old) (S.records store.old) (tree root ∷ []) }
    ensures makes { IfOk result (MakesVector (S.ledger store.old) (S.ledger store.new) (S.records store.old) (S.records store.new)
        0 (map (λ p. (p.0, pos 1)) (tree_pairs (S.records store.old) root.entry))) }
    ensures counts { MakesWithin (S.ledger store.old) (S.ledger store.new)
        (vector_most (count_blocks (map (λ p. p.0) (tree_pairs (S.records store.old) root.entry)))
        (nodes_of (count_blocks (map (λ p. p.0) (tree_pairs (S.records store.old) root.entry))))) }
    ensures refuses { IfErr result (RefusesOf IsVectorWidth (S.ledger store.old) (S.ledger store.new)) }
    ensures may { MayDo (S.ledger store.old) (S.ledger store.new) }
{
    let blocks = make_blocks(store, root)?;
    build::<OFFSET_BITS, S, NumberKey>(
        alloc,
        store,
        blocks.numbers.as_slice(),
        blocks.records.as_slice(),
    )
}

/// Returns the documents of a bit vector.
fn documents_of<const OFFSET_BITS: u32, F: Frozen<OFFSET_BITS>>(
    alloc: Global,
    frozen: &mut F,
    root: EntryRef<OFFSET_BITS>,
) -> Result<Vec<u64>, AllocError>
    requires vector { IsVector (F.records frozen.old) root }
    ensures documents { IfOk result (λ docs. docs.items ≡ vector_documents (F.records frozen.old) root.entry) }
    ensures same { frozen.new ≡ frozen.old }
{
    let mut docs = Vec::new(alloc);
    let mut cursor = VectorCursor::first(frozen, root);
    while !cursor.at_end() {
        docs.push(cursor.doc().number() as u64)?;
        cursor.next(frozen);
    }
    Ok(docs)
}

/// Returns a list of ones.
fn ones(alloc: Global, size: usize) -> Result<Vec<u64>, AllocError>
    ensures { IfOk result (λ ones. ones.items ≡ replicate size 1) }
{
    vec![in alloc; 1; size]
}

/// Makes a tree by number of the documents of a bit vector, each with the value 1. The bit vector stays.
pub fn to_tree<const OFFSET_BITS: u32, S: Store<OFFSET_BITS>>(
    alloc: Global,
    store: &mut S,
    root: EntryRef<OFFSET_BITS>,
) -> Result<EntryRef<OFFSET_BITS>, StoreError>
    requires unit { (S.ledger store.old).unit ≡ true }
    requires vector { IsVector (S.records store.old) root }
    ensures makes { IfOk result (MakesTree (S.ledger store.old) (S.ledger store.new) (S.records store.old) (S.records store.new)
        (map (λ doc. (doc, 1)) (vector_documents (S.records store.old) root.entry))) }
    ensures counts { CountsNodes (S.ledger store.old) (S.ledger store.new)
        (nodes_of (length (vector_documents (S.records store.old) root.entry))) }
    ensures refuses { IfErr result (Refuses (S.ledger store.old) (S.ledger store.new) NODE_WORDS) }
    ensures may { MayDo (S.ledger store.old) (S.ledger store.new) }
{
    let Ok(docs) = documents_of(alloc, store, root) else {
        return Err(StoreError::Memory);
    };
    let Ok(values) = ones(alloc, docs.len()) else {
        return Err(StoreError::Memory);
    };
    build::<OFFSET_BITS, S, NumberKey>(alloc, store, docs.as_slice(), values.as_slice())
}
