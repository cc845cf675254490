//! The documents of one value, by the form of its list.
ghost use Rattle.std.specs.Prelude.{◌≡◌, ◌≤◌, ◌++◌, ◌||◌, ◌&&◌, ℕ, map, length, IfOk, OnOk};
ghost use Rattle.std.specs.Map.{keys_of};
ghost use Rattle.attr_types.specs.Lawful.{IsDocNumber};
ghost use Rattle.image_format.specs.Postings.{list_form, postings_at, short, tree, IsPostingList};
ghost use Rattle.image_format.specs.Words.{unpacked};
ghost use Rattle.index_model.specs.Gathers.{is_gathered};
ghost use Rattle.index_model.specs.Postings.{HaveDocNumbers};
ghost use Rattle.index_model.specs.Sets.{has, in_words};

use crate::kept::{keep_marked, marks_of};
use crate::takers::{Inserted, Pushed};
use crate::vectors::{gather_vector, kept_in_vector};
use arena_api::{Frozen, read};
use array_store::count;
use attr_types::{Doc, DocList};
use entry_ref::EntryRef;
use frozen_btree::total;
use image_format::{FIRST_VECTOR, MOST_SHORT};
use index_model::{DocSet, Gathered, are_many};
use std::alloc::{AllocError, Global};
use tree_read::take_keys;

/// Returns the document in a word of a short list.
fn doc_of(word: u64) -> Doc
    requires { IsDocNumber (unpacked word).0 }
    ensures { result ≡ (unpacked word).0 }
{
    Doc::new((word >> 32) as u32)
}

/// Adds the documents in the words of a short list, in their order.
pub fn push_words(docs: &mut Vec<Doc>, words: &[u64]) -> Result<(), AllocError>
    requires { HaveDocNumbers (map unpacked words.now) }
    ensures { OnOk result (docs.new.items ≡ docs.old.items ++ keys_of (map unpacked words.now)) }
{
    for word in words {
        docs.push(doc_of(*word))?;
    }
    Ok(())
}

fn insert_words(set: &mut DocSet, words: &[u64]) -> Result<(), AllocError>
    requires { HaveDocNumbers (map unpacked words.now) }
    ensures { OnOk result ((doc : ℕ) → in_words set.new doc ≡ (in_words set.old doc || has (keys_of (map unpacked words.now)) doc)) }
{
    for word in words {
        set.insert(doc_of(*word))?;
    }
    Ok(())
}

/// Adds the documents in the words of a short list to those gathered.
fn with_words(alloc: Global, gathered: Gathered, words: &[u64]) -> Result<Gathered, AllocError>
    requires { HaveDocNumbers (map unpacked words.now) }
    ensures { IfOk result (λ all. (doc : ℕ) → is_gathered all doc
        ≡ (is_gathered gathered doc || has (keys_of (map unpacked words.now)) doc)) }
{
    match gathered {
        Gathered::Few(mut docs) => {
            if !are_many(docs.as_slice(), 0) {
                push_words(&mut docs, words)?;
                return Ok(Gathered::Few(docs));
            }
            let mut set = Gathered::Few(docs).into_set(alloc)?;
            insert_words(&mut set, words)?;
            Ok(Gathered::Many(set))
        }
        Gathered::Many(mut set) => {
            insert_words(&mut set, words)?;
            Ok(Gathered::Many(set))
        }
    }
}

/// Adds the documents of a short list to those gathered.
fn gather_short<const OFFSET_BITS: u32, F: Frozen<OFFSET_BITS>>(
    alloc: Global,
    frozen: &mut F,
    list: EntryRef<OFFSET_BITS>,
    gathered: Gathered,
) -> Result<Gathered, AllocError>
    requires form { IsPostingList (F.records frozen.old) (short list) }
    requires documents { HaveDocNumbers (postings_at (F.records frozen.old) (short list)) }
    ensures docs { IfOk result (λ all. (doc : ℕ) → is_gathered all doc
        ≡ (is_gathered gathered doc || has (keys_of (postings_at (F.records frozen.old) (short list.entry))) doc)) }
    ensures same { frozen.new ≡ frozen.old }
{
    let mut buffer = [0; MOST_SHORT];
    let words = &mut buffer[..count(frozen, list) as usize];
    read(frozen, list, 1, words);
    with_words(alloc, gathered, words)
}

/// Adds the documents of a small tree to a list.
fn push_tree<const OFFSET_BITS: u32, F: Frozen<OFFSET_BITS>>(
    frozen: &mut F,
    root: EntryRef<OFFSET_BITS>,
    docs: Vec<Doc>,
) -> Result<Gathered, AllocError>
    requires form { IsPostingList (F.records frozen.old) (tree root) }
    requires documents { HaveDocNumbers (postings_at (F.records frozen.old) (tree root)) }
    ensures docs { IfOk result (λ all. (doc : ℕ) → is_gathered all doc
        ≡ (has docs.items doc || has (keys_of (postings_at (F.records frozen.old) (tree root.entry))) doc)) }
    ensures same { frozen.new ≡ frozen.old }
{
    let mut pushed = Pushed { docs };
    take_keys(frozen, root, &mut pushed)?;
    Ok(Gathered::Few(pushed.docs))
}

/// Adds the documents of a tree to a bit vector.
fn insert_tree<const OFFSET_BITS: u32, F: Frozen<OFFSET_BITS>>(
    frozen: &mut F,
    root: EntryRef<OFFSET_BITS>,
    set: DocSet,
) -> Result<Gathered, AllocError>
    requires form { IsPostingList (F.records frozen.old) (tree root) }
    requires documents { HaveDocNumbers (postings_at (F.records frozen.old) (tree root)) }
    ensures docs { IfOk result (λ all. (doc : ℕ) → is_gathered all doc
        ≡ (in_words set doc || has (keys_of (postings_at (F.records frozen.old) (tree root.entry))) doc)) }
    ensures same { frozen.new ≡ frozen.old }
{
    let mut inserted = Inserted { set };
    take_keys(frozen, root, &mut inserted)?;
    Ok(Gathered::Many(inserted.set))
}

/// Adds the documents of a tree to a list.
fn with_tree<const OFFSET_BITS: u32, F: Frozen<OFFSET_BITS>>(
    alloc: Global,
    frozen: &mut F,
    root: EntryRef<OFFSET_BITS>,
    mut docs: Vec<Doc>,
) -> Result<Gathered, AllocError>
    requires form { IsPostingList (F.records frozen.old) (tree root) }
    requires documents { HaveDocNumbers (postings_at (F.records frozen.old) (tree root)) }
    ensures docs { IfOk result (λ all. (doc : ℕ) → is_gathered all doc
        ≡ (has docs.items doc || has (keys_of (postings_at (F.records frozen.old) (tree root.entry))) doc)) }
    ensures same { frozen.new ≡ frozen.old }
{
    let count = total(frozen, root) as usize;
    if !are_many(docs.as_slice(), count) {
        docs.reserve(count)?;
        return push_tree(frozen, root, docs);
    }
    let set = Gathered::Few(docs).into_set(alloc)?;
    insert_tree(frozen, root, set)
}

/// Adds the documents of a list that is a tree to those gathered.
fn gather_tree<const OFFSET_BITS: u32, F: Frozen<OFFSET_BITS>>(
    alloc: Global,
    frozen: &mut F,
    root: EntryRef<OFFSET_BITS>,
    gathered: Gathered,
) -> Result<Gathered, AllocError>
    requires form { IsPostingList (F.records frozen.old) (tree root) }
    requires documents { HaveDocNumbers (postings_at (F.records frozen.old) (tree root)) }
    ensures docs { IfOk result (λ all. (doc : ℕ) → is_gathered all doc
        ≡ (is_gathered gathered doc || has (keys_of (postings_at (F.records frozen.old) (tree root.entry))) doc)) }
    ensures same { frozen.new ≡ frozen.old }
{
    match gathered {
        Gathered::Few(docs) => with_tree(alloc, frozen, root, docs),
        Gathered::Many(set) => insert_tree(frozen, root, set),
    }
}

/// Adds the documents of a list to those gathered, given the word that a dictionary stores for it.
pub fn gather_list<const OFFSET_BITS: u32, F: Frozen<OFFSET_BITS>>(
    alloc: Global,
    frozen: &mut F,
    list: u64,
    gathered: Gathered,
) -> Result<Gathered, AllocError>
    requires form { IsPostingList (F.records frozen.old) (list_form list) }
    requires documents { HaveDocNumbers (postings_at (F.records frozen.old) (list_form list)) }
    ensures docs { IfOk result (λ all. (doc : ℕ) → is_gathered all doc
        ≡ (is_gathered gathered doc || has (keys_of (postings_at (F.records frozen.old) (list_form list))) doc)) }
    ensures same { frozen.new ≡ frozen.old }
{
    if list >= FIRST_VECTOR {
        return gather_vector(alloc, frozen, list, gathered);
    }
    let list_root = EntryRef::from_raw((list / 2) as u32);
    if list % 2 == 0 {
        gather_short(alloc, frozen, list_root, gathered)
    } else {
        gather_tree(alloc, frozen, list_root, gathered)
    }
}

/// Returns the documents of `docs` that are in a list that is a tree.
fn keep_tree<const OFFSET_BITS: u32, F: Frozen<OFFSET_BITS>>(
    alloc: Global,
    frozen: &mut F,
    root: EntryRef<OFFSET_BITS>,
    docs: &DocList,
) -> Result<DocList, AllocError>
    requires form { IsPostingList (F.records frozen.old) (tree root) }
    requires documents { HaveDocNumbers (postings_at (F.records frozen.old) (tree root)) }
    ensures kept { IfOk result (λ kept. (doc : ℕ) → has kept doc
        ≡ (has docs.now doc && has (keys_of (postings_at (F.records frozen.old) (tree root.entry))) doc)) }
    ensures same { frozen.new ≡ frozen.old }
{
    match marks_of(alloc, docs.as_slice())? {
        Some(marks) => keep_marked(alloc, frozen, root, marks),
        None => {
            let own = gather_tree(alloc, frozen, root, Gathered::new(alloc))?;
            own.kept_of(alloc, docs)
        }
    }
}

/// Returns the documents of `docs` that are in a list, given the word that a dictionary stores for it.
pub fn keep_list<const OFFSET_BITS: u32, F: Frozen<OFFSET_BITS>>(
    alloc: Global,
    frozen: &mut F,
    list: u64,
    docs: &DocList,
) -> Result<DocList, AllocError>
    requires form { IsPostingList (F.records frozen.old) (list_form list) }
    requires documents { HaveDocNumbers (postings_at (F.records frozen.old) (list_form list)) }
    ensures kept { IfOk result (λ kept. (doc : ℕ) → has kept doc
        ≡ (has docs.now doc && has (keys_of (postings_at (F.records frozen.old) (list_form list))) doc)) }
    ensures same { frozen.new ≡ frozen.old }
{
    if list >= FIRST_VECTOR {
        return kept_in_vector(alloc, frozen, list, docs);
    }
    if list % 2 == 0 {
        let own = gather_list(alloc, frozen, list, Gathered::new(alloc))?;
        return own.kept_of(alloc, docs);
    }
    keep_tree(alloc, frozen, EntryRef::from_raw((list / 2) as u32), docs)
}
