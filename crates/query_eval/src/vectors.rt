//! The documents of lists that are bit vectors, block by block.
ghost use Rattle.std.specs.Prelude.{◌≡◌, ◌<◌, ◌≤◌, ◌+◌, ◌*◌, ◌/◌, ◌||◌, ◌&&◌, ℕ, nat_eq, false, length, IfOk, OnOk};
ghost use Rattle.std.specs.List.{AllByRecursion};
ghost use Rattle.tree_read.specs.SearchPlaces.{IsAt, pairs_from};
ghost use Rattle.image_format.specs.Postings.{block_documents};
ghost use Rattle.image_format.specs.declared.TheConstants.{BLOCK_DOCUMENTS};
ghost use Rattle.index_model.specs.Gathers.{is_gathered};
ghost use Rattle.index_model.specs.Sets.{has, in_words};
ghost use Rattle.query_eval.specs.Blocks.{IsDocumentBlock, documents_of};
ghost use Rattle.query_eval.specs.Lists.{list_has, all_have, some_has, IsVectorWord, AreVectorWords};
ghost use Rattle.query_eval.specs.Vectors.{IsInHand};

use crate::blocks::{BLOCK_SIZE, has_bit, push_block};
use arena_api::{Frozen, read};
use attr_types::{Doc, DocList};
use bit_vector::{block_and, block_or};
use entry_ref::EntryRef;
use frozen_btree::{Cursor, NumberKey, find};
use image_format::{BLOCK_WORDS, FIRST_VECTOR};
use index_model::Gathered;
use std::alloc::{AllocError, Global};

/// The number of blocks with one bit for each document.
const BLOCKS: u32 = 256;

/// Returns the words of a block's record.
fn read_block<const OFFSET_BITS: u32, F: Frozen<OFFSET_BITS>>(
    frozen: &mut F,
    stored: u64,
) -> [u64; BLOCK_WORDS]
    requires size { length (F.records frozen.old stored) ≡ BLOCK_WORDS }
    ensures words { result ≡ F.records frozen.old stored }
    ensures same { frozen.new ≡ frozen.old }
{
    let mut words = [0; BLOCK_WORDS];
    read(frozen, EntryRef::from_raw(stored as u32), 0, &mut words);
    words
}

/// Returns the root of a bit vector.
fn root_of<const OFFSET_BITS: u32, F: Frozen<OFFSET_BITS>>(
    frozen: &mut F,
    list: u64,
) -> EntryRef<OFFSET_BITS>
    requires { IsVectorWord (F.records frozen.old) list }
    ensures root { result + FIRST_VECTOR ≡ list }
    ensures same { frozen.new ≡ frozen.old }
{
    EntryRef::from_raw((list - FIRST_VECTOR) as u32)
}

/// Returns the words of a block without documents.
fn no_block() -> [u64; BLOCK_WORDS]
    ensures { (i : ℕ) → in_words result i ≡ false }
{
    [0; BLOCK_WORDS]
}

/// Returns the words of a block of a bit vector, which are zeros if it lacks the block.
fn block_of<const OFFSET_BITS: u32, F: Frozen<OFFSET_BITS>>(
    frozen: &mut F,
    list: u64,
    block: u64,
) -> [u64; BLOCK_WORDS]
    requires { IsVectorWord (F.records frozen.old) list }
    ensures bits { (i : ℕ) → i < BLOCK_DOCUMENTS → in_words result i ≡ list_has (F.records frozen.old) list (BLOCK_DOCUMENTS * block + i) }
    ensures same { frozen.new ≡ frozen.old }
{
    let root = root_of(frozen, list);
    match find(frozen, root, &NumberKey(block)) {
        Some((_, stored)) => read_block(frozen, stored),
        None => no_block(),
    }
}

/// Keeps the bits of a block that all of the bit vectors have.
fn keep_in_all<const OFFSET_BITS: u32, F: Frozen<OFFSET_BITS>>(
    frozen: &mut F,
    lists: &[u64],
    block: u64,
    words: &mut [u64],
)
    requires lists { AreVectorWords (F.records frozen.old) lists.now }
    requires size { length words.old ≡ BLOCK_WORDS }
    ensures size { length words.new ≡ BLOCK_WORDS }
    ensures kept { (i : ℕ) → i < BLOCK_DOCUMENTS
        → in_words words.new i ≡ (in_words words.old i && all_have (F.records frozen.old) lists.now (BLOCK_DOCUMENTS * block + i)) }
    ensures same { frozen.new ≡ frozen.old }
{
    for list in lists {
        let own = block_of(frozen, *list, block);
        block_and(words, &own);
    }
}

/// Adds the documents of a block that are in all of the bit vectors.
fn push_common<const OFFSET_BITS: u32, F: Frozen<OFFSET_BITS>>(
    frozen: &mut F,
    block: u64,
    stored: u64,
    lists: &[u64],
    docs: &mut Vec<Doc>,
) -> Result<(), AllocError>
    requires block { IsDocumentBlock (F.records frozen.old) (block, stored) }
    requires lists { AreVectorWords (F.records frozen.old) lists.now }
    ensures docs { OnOk result ((doc : ℕ) → has docs.new.items doc ≡ (has docs.old.items doc
        || (has (block_documents block (F.records frozen.old stored)) doc && all_have (F.records frozen.old) lists.now doc))) }
    ensures same { frozen.new ≡ frozen.old }
{
    let mut words = read_block(frozen, stored);
    keep_in_all(frozen, lists, block, &mut words);
    push_block(docs, block as u32, &words)
}

/// Adds the documents of the blocks from a place on that are in all of the bit vectors.
fn push_rest<const OFFSET_BITS: u32, F: Frozen<OFFSET_BITS>>(
    frozen: &mut F,
    cursor: &mut Cursor<OFFSET_BITS>,
    lists: &[u64],
    docs: &mut Vec<Doc>,
) -> Result<(), AllocError>
    requires at { IsAt (F.records frozen.old) cursor.old }
    requires blocks { AllByRecursion (IsDocumentBlock (F.records frozen.old)) (pairs_from (F.records frozen.old) cursor.old) }
    requires lists { AreVectorWords (F.records frozen.old) lists.now }
    ensures docs { OnOk result ((doc : ℕ) → has docs.new.items doc ≡ (has docs.old.items doc
        || (has (documents_of (F.records frozen.old) (pairs_from (F.records frozen.old) cursor.old)) doc
        && all_have (F.records frozen.old) lists.now doc))) }
    ensures same { frozen.new ≡ frozen.old }
{
    while !cursor.at_end() {
        push_common(frozen, cursor.key(), cursor.value(), lists, docs)?;
        cursor.next(frozen);
    }
    Ok(())
}

/// Returns the documents of a bit vector that are in all of the others.
pub fn common_of_vectors<const OFFSET_BITS: u32, F: Frozen<OFFSET_BITS>>(
    alloc: Global,
    frozen: &mut F,
    list: u64,
    others: &[u64],
) -> Result<DocList, AllocError>
    requires list { IsVectorWord (F.records frozen.old) list }
    requires others { AreVectorWords (F.records frozen.old) others.now }
    ensures docs { IfOk result (λ docs. (doc : ℕ) → has docs doc
        ≡ (list_has (F.records frozen.old) list doc && all_have (F.records frozen.old) others.now doc)) }
    ensures same { frozen.new ≡ frozen.old }
{
    let root = root_of(frozen, list);
    let mut cursor = Cursor::first(frozen, root);
    let mut docs = Vec::new(alloc);
    push_rest(frozen, &mut cursor, others, &mut docs)?;
    Ok(DocList::from_vec(docs))
}

/// Adds the bits of a block that some of the bit vectors have.
fn add_of_all<const OFFSET_BITS: u32, F: Frozen<OFFSET_BITS>>(
    frozen: &mut F,
    lists: &[u64],
    block: u64,
    words: &mut [u64],
)
    requires lists { AreVectorWords (F.records frozen.old) lists.now }
    requires size { length words.old ≡ BLOCK_WORDS }
    ensures size { length words.new ≡ BLOCK_WORDS }
    ensures added { (i : ℕ) → i < BLOCK_DOCUMENTS
        → in_words words.new i ≡ (in_words words.old i || some_has (F.records frozen.old) lists.now (BLOCK_DOCUMENTS * block + i)) }
    ensures same { frozen.new ≡ frozen.old }
{
    for list in lists {
        let own = block_of(frozen, *list, block);
        block_or(words, &own);
    }
}

/// Adds the documents of a block that are in some of the bit vectors.
fn push_union<const OFFSET_BITS: u32, F: Frozen<OFFSET_BITS>>(
    frozen: &mut F,
    block: u32,
    lists: &[u64],
    docs: &mut Vec<Doc>,
) -> Result<(), AllocError>
    requires few { block < BLOCKS }
    requires lists { AreVectorWords (F.records frozen.old) lists.now }
    ensures docs { OnOk result ((doc : ℕ) → has docs.new.items doc ≡ (has docs.old.items doc
        || (nat_eq (doc / BLOCK_DOCUMENTS) block && some_has (F.records frozen.old) lists.now doc))) }
    ensures same { frozen.new ≡ frozen.old }
{
    let mut words = no_block();
    add_of_all(frozen, lists, u64::from(block), &mut words);
    push_block(docs, block, &words)
}

/// Returns the documents that are in some of the bit vectors.
pub fn union_of_vectors<const OFFSET_BITS: u32, F: Frozen<OFFSET_BITS>>(
    alloc: Global,
    frozen: &mut F,
    lists: &[u64],
) -> Result<DocList, AllocError>
    requires { AreVectorWords (F.records frozen.old) lists.now }
    ensures docs { IfOk result (λ docs. (doc : ℕ) → has docs doc ≡ some_has (F.records frozen.old) lists.now doc) }
    ensures same { frozen.new ≡ frozen.old }
{
    let mut docs = Vec::new(alloc);
    for block in 0..BLOCKS {
        push_union(frozen, block, lists, &mut docs)?;
    }
    Ok(DocList::from_vec(docs))
}

/// A block of a bit vector, by its number and its words.
#[derive(Drop)]
struct Block {
    number: u64,
    words: [u64; BLOCK_WORDS],
}

/// Returns whether a bit vector has a document. The block that was read last is kept in memory.
fn is_in_vector<const OFFSET_BITS: u32, F: Frozen<OFFSET_BITS>>(
    frozen: &mut F,
    list: u64,
    doc: Doc,
    hand: &mut Block,
) -> bool
    requires list { IsVectorWord (F.records frozen.old) list }
    requires hand { IsInHand (F.records frozen.old) list hand.old }
    ensures has { result ≡ list_has (F.records frozen.old) list doc }
    ensures hand { IsInHand (F.records frozen.old) list hand.new }
    ensures same { frozen.new ≡ frozen.old }
{
    let place = doc.number();
    let number = u64::from(place / BLOCK_SIZE);
    if hand.number != number {
        *hand = Block {
            number,
            words: block_of(frozen, list, number),
        };
    }
    has_bit(&hand.words, place % BLOCK_SIZE)
}

/// Returns the documents of `docs` that a bit vector has, tested one by one.
pub fn kept_in_vector<const OFFSET_BITS: u32, F: Frozen<OFFSET_BITS>>(
    alloc: Global,
    frozen: &mut F,
    list: u64,
    docs: &DocList,
) -> Result<DocList, AllocError>
    requires list { IsVectorWord (F.records frozen.old) list }
    ensures kept { IfOk result (λ kept. (doc : ℕ) → has kept doc ≡ (has docs.now doc && list_has (F.records frozen.old) list doc)) }
    ensures same { frozen.new ≡ frozen.old }
{
    let mut kept = DocList::new(alloc);
    let mut hand = Block {
        number: 0,
        words: block_of(frozen, list, 0),
    };
    for doc in docs.as_slice() {
        if is_in_vector(frozen, list, *doc, &mut hand) {
            kept.push(*doc)?;
        }
    }
    Ok(kept)
}

/// Adds the documents of a list that is a bit vector to those gathered.
pub fn gather_vector<const OFFSET_BITS: u32, F: Frozen<OFFSET_BITS>>(
    alloc: Global,
    frozen: &mut F,
    list: u64,
    gathered: Gathered,
) -> Result<Gathered, AllocError>
    requires { IsVectorWord (F.records frozen.old) list }
    ensures docs { IfOk result (λ all. (doc : ℕ) → is_gathered all doc
        ≡ (is_gathered gathered doc || list_has (F.records frozen.old) list doc)) }
    ensures same { frozen.new ≡ frozen.old }
{
    let own = common_of_vectors(alloc, frozen, list, &[])?;
    gathered.with_docs(alloc, own.as_slice())
}
