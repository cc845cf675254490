//! Which records the attributes reach in each buffer, by role.
use attr_types::{Field, Kind, ValueType};
use check_images::{CheckFault, Keys, check_tree};
use entry_ref::{word_in, words_at};
use image_format::FIRST_VECTOR;
use std::alloc::{AllocError, Global};
use std::collections::BTreeMap;
use tree_read::FIRST_VALUE;

/// The number of buffers that references can name.
const BUFFERS: usize = 1024;

/// The roles of records, each of which is moved in one phase of a compaction: keys of dictionaries, records of
/// documents, posting lists (of a bit vector, its nodes), nodes of dictionaries and of document trees, and blocks of
/// bit vectors, which are moved with the lists.
pub const ROLES: usize = 5;

const KEYS: usize = 0;

const DOCUMENTS: usize = 1;

const LISTS: usize = 2;

const NODES: usize = 3;

const BLOCKS: usize = 4;

/// The number of records of each role in each buffer.
#[derive(Drop)]
pub struct Census {
    counts: Vec<u32>,
}

/// Returns the index of the count of a role in a buffer.
fn place_of(role: usize, buffer: usize) -> usize {
    role.saturating_mul(BUFFERS).saturating_add(buffer)
}

impl Census {
    fn new(alloc: Global) -> Result<Census, AllocError> {
        let counts = vec![in alloc; 0u32; ROLES * BUFFERS]?;
        Ok(Census { counts })
    }

    fn note(&mut self, role: usize, reference: u64) {
        let buffer = (reference % 1024) as usize;
        if let Some(count) = self.counts.get_mut(place_of(role, buffer)) {
            *count = count.saturating_add(1);
        }
    }

    /// Returns the number of records of a role in a buffer.
    pub fn of(&self, role: usize, buffer: u32) -> u32 {
        match self.counts.get(place_of(role, buffer as usize)) {
            Some(count) => *count,
            None => 0,
        }
    }
}

/// Adds the nodes from one of this level on.
fn add_nodes(
    census: &mut Census,
    role: usize,
    records: &BTreeMap<u32, Vec<u64>>,
    reference: u64,
    level: u32,
) {
    census.note(role, reference);
    if level == 0 {
        return;
    }
    let words = words_at(records, reference);
    let used = (word_in(words, 0) % 256) as usize;
    for i in 0..used {
        add_nodes(
            census,
            role,
            records,
            word_in(words, FIRST_VALUE.saturating_add(i)),
            level - 1,
        );
    }
}

/// Adds the nodes of a tree.
fn add_tree(census: &mut Census, role: usize, records: &BTreeMap<u32, Vec<u64>>, root: u64) {
    if root == 0 {
        return;
    }
    let level = word_in(words_at(records, root), 0) / 256 % 8;
    add_nodes(census, role, records, root, level as u32);
}

/// Adds a document's record, and the values to which it refers.
fn add_document(
    census: &mut Census,
    kind: Kind,
    records: &BTreeMap<u32, Vec<u64>>,
    reference: u64,
) {
    if reference == 0 {
        return;
    }
    census.note(DOCUMENTS, reference);
    let words = words_at(records, reference);
    let count = (word_in(words, 0) % 1024) as usize;
    let part = match kind {
        Kind::Single => return,
        Kind::Array => 1,
        Kind::WeightedSet => 4_294_967_296,
    };
    for i in 0..count {
        census.note(DOCUMENTS, word_in(words, i.saturating_add(1)) / part);
    }
}

/// Adds the nodes and the blocks of a bit vector.
fn add_vector(
    alloc: Global,
    census: &mut Census,
    records: &BTreeMap<u32, Vec<u64>>,
    root: u64,
) -> Result<(), CheckFault> {
    let blocks = check_tree(alloc, Keys::Numbers, records, root)?;
    for pair in blocks.as_slice() {
        census.note(BLOCKS, pair.1);
    }
    add_tree(census, LISTS, records, root);
    Ok(())
}

/// Adds a value's list.
fn add_list(
    alloc: Global,
    census: &mut Census,
    records: &BTreeMap<u32, Vec<u64>>,
    word: u64,
) -> Result<(), CheckFault> {
    if word >= FIRST_VECTOR {
        return add_vector(alloc, census, records, word - FIRST_VECTOR);
    }
    if word % 2 == 1 {
        add_tree(census, LISTS, records, word / 2);
    } else {
        census.note(LISTS, word / 2);
    }
    Ok(())
}

/// Adds the documents of an attribute.
fn add_documents(
    alloc: Global,
    census: &mut Census,
    kind: Kind,
    records: &BTreeMap<u32, Vec<u64>>,
    root: u64,
) -> Result<(), CheckFault> {
    let column = check_tree(alloc, Keys::Numbers, records, root)?;
    for pair in column.as_slice() {
        add_document(census, kind, records, pair.1);
    }
    Ok(())
}

/// Adds the values of an attribute's dictionary, and their lists.
fn add_values(
    alloc: Global,
    census: &mut Census,
    value: ValueType,
    records: &BTreeMap<u32, Vec<u64>>,
    root: u64,
) -> Result<(), CheckFault> {
    let values = check_tree(alloc, Keys::Values(value), records, root)?;
    for pair in values.as_slice() {
        census.note(KEYS, pair.0);
        add_list(alloc, census, records, pair.1)?;
    }
    Ok(())
}

fn add_field(
    alloc: Global,
    census: &mut Census,
    field: &Field,
    records: &BTreeMap<u32, Vec<u64>>,
    documents: u64,
    dictionary: u64,
) -> Result<(), CheckFault> {
    add_documents(alloc, census, field.kind, records, documents)?;
    add_values(alloc, census, field.value, records, dictionary)?;
    add_tree(census, NODES, records, documents);
    add_tree(census, NODES, records, dictionary);
    Ok(())
}

/// Adds everything that an image's root record reaches.
pub fn take(
    alloc: Global,
    fields: &[Field],
    records: &BTreeMap<u32, Vec<u64>>,
    root: u64,
) -> Result<Census, CheckFault> {
    let mut census = Census::new(alloc)?;
    let words = words_at(records, root);
    let mut place = 1usize;
    for field in fields {
        let documents = word_in(words, place);
        let dictionary = word_in(words, place.saturating_add(1));
        add_field(alloc, &mut census, field, records, documents, dictionary)?;
        place = place.saturating_add(2);
    }
    Ok(census)
}
