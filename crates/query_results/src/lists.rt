//! The documents of a posting list, and how many it has, by the form of the list.
ghost use Rattle.std.specs.Prelude.{◌≡◌, ◌∷◌, ◌++◌, [], length, IfOk, OnOk};
ghost use Rattle.std.specs.Map.{keys_of};
ghost use Rattle.attr_types.specs.Lawful.{IsDocNumber};
ghost use Rattle.image_format.specs.Postings.{list_form, postings_at, short, tree, vector_documents, IsPostingList};
ghost use Rattle.index_model.specs.Postings.{HaveDocNumbers};
ghost use Rattle.bit_vector.specs.Vectors.{IsVector};

use arena_api::{Frozen, read};
use array_store::count;
use attr_types::Doc;
use bit_vector::VectorCursor;
use entry_ref::EntryRef;
use frozen_btree::total;
use image_format::{FIRST_VECTOR, MOST_SHORT};
use query_eval::push_words;
use std::alloc::AllocError;
use tree_read::{TakesKeys, take_keys};

/// Returns the number of documents of a bit vector.
fn count_in_vector<const OFFSET_BITS: u32, F: Frozen<OFFSET_BITS>>(
    frozen: &mut F,
    root: EntryRef<OFFSET_BITS>,
) -> u64
    requires { IsVector (F.records frozen.old) root }
    ensures count { result ≡ length (vector_documents (F.records frozen.old) root.entry) }
    ensures same { frozen.new ≡ frozen.old }
{
    let mut cursor = VectorCursor::first(frozen, root);
    let mut count = 0;
    while !cursor.at_end() {
        count += 1;
        cursor.next(frozen);
    }
    count
}

/// Returns the number of documents of a list, given the word that a dictionary stores for it.
pub fn count_of<const OFFSET_BITS: u32, F: Frozen<OFFSET_BITS>>(frozen: &mut F, list: u64) -> u64
    requires form { IsPostingList (F.records frozen.old) (list_form list) }
    requires documents { HaveDocNumbers (postings_at (F.records frozen.old) (list_form list)) }
    ensures count { result ≡ length (postings_at (F.records frozen.old) (list_form list)) }
    ensures same { frozen.new ≡ frozen.old }
{
    if list >= FIRST_VECTOR {
        return count_in_vector(frozen, EntryRef::from_raw((list - FIRST_VECTOR) as u32));
    }
    let list_root = EntryRef::from_raw((list / 2) as u32);
    if list % 2 == 0 {
        u64::from(count(frozen, list_root))
    } else {
        u64::from(total(frozen, list_root))
    }
}

/// A list that receives the documents of a tree, in their order.
#[derive(Drop)]
struct Listed {
    docs: Vec<Doc>,
}

impl TakesKeys for Listed {
    ghost use Rattle.query_results.specs.ProofsForLists.{appends_none, appends_joined};

    ghost can_take = { IsDocNumber };

    ghost takes = { λ old keys new. new.docs.items ≡ old.docs.items ++ keys };

    fn take(&mut self, key: u64) -> Result<(), AllocError>
        requires { IsDocNumber key }
        ensures { OnOk result (self.new.docs.items ≡ self.old.docs.items ++ key ∷ []) }
    {
        self.docs.push(Doc::new(key as u32))?;
        Ok(())
    }

    ghost none = { λ taker. appends_none taker.docs.items };

    ghost joins = { λ a b c xs ys first second. appends_joined a.docs.items b.docs.items c.docs.items xs ys first second };
}

/// Adds the documents of a short list.
fn with_short<const OFFSET_BITS: u32, F: Frozen<OFFSET_BITS>>(
    frozen: &mut F,
    list: EntryRef<OFFSET_BITS>,
    mut docs: Vec<Doc>,
) -> Result<Vec<Doc>, AllocError>
    requires form { IsPostingList (F.records frozen.old) (short list) }
    requires documents { HaveDocNumbers (postings_at (F.records frozen.old) (short list)) }
    ensures docs { IfOk result (λ all. all.items ≡ docs.items ++ keys_of (postings_at (F.records frozen.old) (short list.entry))) }
    ensures same { frozen.new ≡ frozen.old }
{
    let mut buffer = [0; MOST_SHORT];
    let words = &mut buffer[..count(frozen, list) as usize];
    read(frozen, list, 1, words);
    push_words(&mut docs, words)?;
    Ok(docs)
}

/// Adds the documents of a tree.
fn with_tree<const OFFSET_BITS: u32, F: Frozen<OFFSET_BITS>>(
    frozen: &mut F,
    root: EntryRef<OFFSET_BITS>,
    docs: Vec<Doc>,
) -> Result<Vec<Doc>, AllocError>
    requires form { IsPostingList (F.records frozen.old) (tree root) }
    requires documents { HaveDocNumbers (postings_at (F.records frozen.old) (tree root)) }
    ensures docs { IfOk result (λ all. all.items ≡ docs.items ++ keys_of (postings_at (F.records frozen.old) (tree root.entry))) }
    ensures same { frozen.new ≡ frozen.old }
{
    let mut listed = Listed { docs };
    take_keys(frozen, root, &mut listed)?;
    Ok(listed.docs)
}

/// Adds the documents of a bit vector.
fn with_vector<const OFFSET_BITS: u32, F: Frozen<OFFSET_BITS>>(
    frozen: &mut F,
    root: EntryRef<OFFSET_BITS>,
    docs: Vec<Doc>,
) -> Result<Vec<Doc>, AllocError>
    requires { IsVector (F.records frozen.old) root }
    ensures docs { IfOk result (λ all. all.items ≡ docs.items ++ vector_documents (F.records frozen.old) root.entry) }
    ensures same { frozen.new ≡ frozen.old }
{
    let mut all = docs;
    let mut cursor = VectorCursor::first(frozen, root);
    while !cursor.at_end() {
        all.push(cursor.doc())?;
        cursor.next(frozen);
    }
    Ok(all)
}

/// Returns the documents of a list, ascending, given the word that a dictionary stores for it. They are put into `docs`,
/// whose old documents are removed.
pub fn documents_in<const OFFSET_BITS: u32, F: Frozen<OFFSET_BITS>>(
    frozen: &mut F,
    list: u64,
    mut docs: Vec<Doc>,
) -> Result<Vec<Doc>, AllocError>
    requires form { IsPostingList (F.records frozen.old) (list_form list) }
    requires documents { HaveDocNumbers (postings_at (F.records frozen.old) (list_form list)) }
    ensures docs { IfOk result (λ docs. docs.items ≡ keys_of (postings_at (F.records frozen.old) (list_form list))) }
    ensures same { frozen.new ≡ frozen.old }
{
    docs.clear();
    if list >= FIRST_VECTOR {
        return with_vector(
            frozen,
            EntryRef::from_raw((list - FIRST_VECTOR) as u32),
            docs,
        );
    }
    let list_root = EntryRef::from_raw((list / 2) as u32);
    if list % 2 == 0 {
        with_short(frozen, list_root, docs)
    } else {
        with_tree(frozen, list_root, docs)
    }
}
