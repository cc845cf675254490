//! The trees of tests, and what their records contain.
ghost use Rattle.std.specs.Prelude.{◌≡◌, ◌≤◌, ◌<◌};
ghost use Rattle.entry_ref.specs.References.{offset_limit, buffer_limit};
ghost use Rattle.tree_read.specs.Trees.{IsNode, IsRootNode};

use arena_api::Frozen;
use check_images::{Keys, check_tree};
use entry_ref::{EntryRef, word_in, words_at};
use entry_store::EntryStore;
use mem_work::MemWork;
use number_tree::{NumberTree, TreeLayout};
use std::alloc::{AllocError, Global};
use std::collections::BTreeMap;
use store_api::Store;
use tree_read::{NODE_WORDS, read_head, read_node, read_words};

/// Creates an empty tree in a store of its own, with a number of buffers of 8,192 words.
pub fn new_tree<const OFFSET_BITS: u32>(
    alloc: Global,
    buffers: u32,
) -> Result<
    NumberTree<OFFSET_BITS, EntryStore<OFFSET_BITS, MemWork<OFFSET_BITS, TreeLayout>>>,
    AllocError,
>
    requires some { 1 ≤ buffers }
    requires most { buffers ≤ 64 }
    requires few { 64 < buffer_limit OFFSET_BITS }
    requires offsets { 8192 ≤ offset_limit OFFSET_BITS }
{
    let work = MemWork::<OFFSET_BITS, TreeLayout>::create(alloc, buffers, 8192, 1)?;
    match EntryStore::create(alloc, work) {
        Ok(store) => Ok(NumberTree::new(store)),
        Err(_) => Err(AllocError),
    }
}

/// The contents of a tree's records: its root, the first words of its upper nodes, the second word of its root, the
/// number of nodes, and its pairs.
#[derive(Drop)]
pub struct Seen {
    pub root: u32,
    pub heads: Vec<u64>,
    pub count: u64,
    pub nodes: u64,
    pub pairs: Vec<(u64, u64)>,
}

/// Returns the first word of the root, and of each of its children if it is above the leaves.
pub fn heads(
    alloc: Global,
    records: &BTreeMap<u32, Vec<u64>>,
    root: u64,
) -> Result<Vec<u64>, AllocError> {
    let words = words_at(records, root);
    let head = word_in(words, 0);
    let mut heads = Vec::new(alloc);
    heads.push(head)?;
    if head >= 256 {
        for i in 0..(head % 256) as usize {
            heads.push(word_in(words_at(records, word_in(words, 18 + i)), 0))?;
        }
    }
    Ok(heads)
}

/// Adds the records of a node, and of all nodes below it, to other records.
fn add_below<const OFFSET_BITS: u32, F: Frozen<OFFSET_BITS>>(
    alloc: Global,
    frozen: &mut F,
    node: EntryRef<OFFSET_BITS>,
    level: u64,
    records: &mut BTreeMap<u32, Vec<u64>>,
) -> Result<(), AllocError>
    requires { IsNode (F.records frozen.old) 1 level node }
    ensures { frozen.new ≡ frozen.old }
{
    let mut words = [0; NODE_WORDS];
    read_words(frozen, node, &mut words);
    records.insert(node.raw(), words.as_slice().to_vec(alloc)?)?;
    if level == 0 {
        return Ok(());
    }
    let slots = read_node(frozen, node);
    for child in slots.values.as_slice() {
        let below = EntryRef::from_raw(*child as u32);
        add_below(alloc, frozen, below, level - 1, records)?;
    }
    Ok(())
}

/// Returns the records of a tree's nodes.
pub fn records_of<const OFFSET_BITS: u32, F: Frozen<OFFSET_BITS>>(
    alloc: Global,
    frozen: &mut F,
    root: EntryRef<OFFSET_BITS>,
) -> Result<BTreeMap<u32, Vec<u64>>, AllocError>
    requires { 0 < root → IsRootNode (F.records frozen.old) root }
    ensures { frozen.new ≡ frozen.old }
{
    let mut records = BTreeMap::new(alloc);
    if root.valid() {
        let level = read_head(frozen, root).level;
        add_below(alloc, frozen, root, level, &mut records)?;
    }
    Ok(records)
}

/// Looks at the records of a tree, if the slow checker accepts them.
pub fn look_at<const OFFSET_BITS: u32, F: Frozen<OFFSET_BITS>>(
    alloc: Global,
    frozen: &mut F,
    root: EntryRef<OFFSET_BITS>,
) -> Result<Option<Seen>, AllocError>
    requires { 0 < root → IsRootNode (F.records frozen.old) root }
{
    let records = records_of(alloc, frozen, root)?;
    seen_in(alloc, &records, root.raw())
}

/// Returns the contents of a tree's records, if they are a tree.
fn seen_in(
    alloc: Global,
    records: &BTreeMap<u32, Vec<u64>>,
    root: u32,
) -> Result<Option<Seen>, AllocError> {
    let number = u64::from(root);
    match check_tree(alloc, Keys::Numbers, records, number) {
        Ok(pairs) => Ok(Some(Seen {
            root,
            heads: heads(alloc, records, number)?,
            count: word_in(words_at(records, number), 1),
            nodes: records.len() as u64,
            pairs,
        })),
        Err(_) => Ok(None),
    }
}

/// Looks at the records of a tree in a store of its own.
pub fn look<const OFFSET_BITS: u32, S: Store<OFFSET_BITS, Layout = TreeLayout> + Drop>(
    alloc: Global,
    tree: NumberTree<OFFSET_BITS, S>,
) -> Result<Option<Seen>, AllocError> {
    let top = tree.root();
    let mut store = tree.into_store();
    look_at(alloc, &mut store, top)
}
