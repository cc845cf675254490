//! Which member of an `And` has the fewest documents, as far as dictionaries and the heads of lists tell.
ghost use Rattle.std.specs.Prelude.{◌≡◌, ◌<◌, length};
ghost use Rattle.image_format.specs.Postings.{list_form, IsPostingList};
ghost use Rattle.query_eval.specs.Parts.{IsIndexed};
ghost use Rattle.query_eval.specs.Indexes.{AreIndexed};

use crate::dictionary::Dictionary;
use crate::words::word_of;
use arena_api::Frozen;
use array_store::count;
use attr_types::{Leaf, Query, Value, ValueType};
use entry_ref::EntryRef;
use frozen_btree::total;
use image_format::{BLOCK_DOCUMENTS, FIRST_VECTOR};

/// Returns the number of documents of a list, or an upper bound for a bit vector.
pub fn size_of_list<const OFFSET_BITS: u32, F: Frozen<OFFSET_BITS>>(
    frozen: &mut F,
    list: u64,
) -> u64
    requires form { IsPostingList (F.records frozen.old) (list_form list) }
    ensures same { frozen.new ≡ frozen.old }
{
    if list >= FIRST_VECTOR {
        let root = EntryRef::from_raw((list - FIRST_VECTOR) as u32);
        return u64::from(total(frozen, root)) * BLOCK_DOCUMENTS;
    }
    let list_root = EntryRef::from_raw((list / 2) as u32);
    if list % 2 == 0 {
        u64::from(count(frozen, list_root))
    } else {
        u64::from(total(frozen, list_root))
    }
}

fn size_of_value<const OFFSET_BITS: u32, F: Frozen<OFFSET_BITS>>(
    frozen: &mut F,
    root: EntryRef<OFFSET_BITS>,
    value_type: ValueType,
    value: &Value,
) -> u64
    requires { IsIndexed value_type (F.records frozen.old) root }
    ensures same { frozen.new ≡ frozen.old }
{
    match word_of(frozen, root, value_type, value) {
        Some(list) => size_of_list(frozen, list),
        None => 0,
    }
}

/// Returns the size of the list for a leaf of one value, and no bound for other leaves.
fn size_of_leaf<const OFFSET_BITS: u32, F: Frozen<OFFSET_BITS>>(
    frozen: &mut F,
    dictionary: Dictionary<OFFSET_BITS>,
    leaf: &Leaf,
) -> u64
    requires { IsIndexed dictionary.values (F.records frozen.old) dictionary.root }
    ensures same { frozen.new ≡ frozen.old }
{
    match leaf {
        Leaf::Is(value) => size_of_value(frozen, dictionary.root, dictionary.values, value),
        Leaf::Prefix(_) => u64::MAX,
        Leaf::Range { low: _, high: _ } => u64::MAX,
        Leaf::Below(_) => u64::MAX,
        Leaf::Above(_) => u64::MAX,
    }
}

fn size_of_one<const OFFSET_BITS: u32, F: Frozen<OFFSET_BITS>>(
    frozen: &mut F,
    dictionaries: &[Dictionary<OFFSET_BITS>],
    field: u32,
    leaf: &Leaf,
) -> u64
    requires { AreIndexed OFFSET_BITS (F.records frozen.old) dictionaries.now }
    ensures same { frozen.new ≡ frozen.old }
{
    match dictionaries.get(field as usize) {
        Some(dictionary) => size_of_leaf(frozen, *dictionary, leaf),
        None => 0,
    }
}

fn size_of<const OFFSET_BITS: u32, F: Frozen<OFFSET_BITS>>(
    frozen: &mut F,
    dictionaries: &[Dictionary<OFFSET_BITS>],
    query: &Query,
) -> u64
    requires { AreIndexed OFFSET_BITS (F.records frozen.old) dictionaries.now }
    ensures same { frozen.new ≡ frozen.old }
{
    match query {
        Query::One { field, leaf } => size_of_one(frozen, dictionaries, *field, leaf),
        Query::And(_) => u64::MAX,
        Query::Or(_) => u64::MAX,
    }
}

/// Returns the index of the member with the fewest documents, as far as known, and the first of several.
pub fn shortest_of<const OFFSET_BITS: u32, F: Frozen<OFFSET_BITS>>(
    frozen: &mut F,
    dictionaries: &[Dictionary<OFFSET_BITS>],
    queries: &[Query],
) -> usize
    requires { AreIndexed OFFSET_BITS (F.records frozen.old) dictionaries.now }
    ensures within { 0 < length queries.now → result < length queries.now }
    ensures same { frozen.new ≡ frozen.old }
{
    let mut shortest = 0;
    let mut fewest = u64::MAX;
    for (i, query) in queries.iter().enumerate() {
        let size = size_of(frozen, dictionaries, query);
        if size < fewest {
            fewest = size;
            shortest = i;
        }
    }
    shortest
}
