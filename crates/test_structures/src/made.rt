//! Records made by hand, and fields.
ghost use Rattle.std.specs.Prelude.{◌≡◌, length, IfOk};

use attr_types::{Field, Fields, Kind, Name, ValueType};
use entry_ref::word_in;
use std::alloc::{AllocError, Global};
use std::collections::BTreeMap;

/// The words of a record.
#[derive(Clone, Copy)]
pub enum Words<'a> {
    Are(&'a [u64]),
    /// A leaf: its first key, how many keys follow each other from there on, and the value of each.
    Run(u64, usize, u64),
    /// A node: word 0, its count, its keys and its values.
    Node(u64, u64, &'a [u64], &'a [u64]),
    /// The root over leaves of the keys 1 to 9 and 10 to 17.
    Root(u64, u64),
    /// A block of 64 words: word 0, and one more word behind its place. The others are 0.
    Block(u64, usize, u64),
}

/// A reference and the words of its record.
pub type Row<'a> = (u32, Words<'a>);

pub type Map = BTreeMap<u32, Vec<u64>>;

/// Returns the words of a node: word 0, its count, its keys and its values.
pub fn node(head: u64, count: u64, keys: &[u64], values: &[u64]) -> [u64; 34] {
    let mut words = [0; 34];
    words[0] = head;
    words[1] = count;
    for i in 0..16 {
        words[2 + i] = word_in(keys, i);
        words[18 + i] = word_in(values, i);
    }
    words
}

fn run(first: u64, count: usize, value: u64) -> [u64; 34] {
    let mut keys = [0; 16];
    let mut values = [0; 16];
    for i in 0..16 {
        if i < count {
            keys[i] = first.saturating_add(i as u64);
            values[i] = value;
        }
    }
    node(count as u64, count as u64, &keys, &values)
}

/// Returns the root over leaves of the keys 1 to 9 and 10 to 17.
pub fn root(first: u64, second: u64) -> [u64; 34] {
    node(258, 17, &[9, 17], &[first, second])
}

fn block(first: u64, place: usize, word: u64) -> [u64; 64] {
    let mut words = [0; 64];
    words[0] = first;
    if place < 64 {
        words[place] = word;
    }
    words
}

fn record_of(alloc: Global, words: Words) -> Result<Vec<u64>, AllocError> {
    match words {
        Words::Are(words) => Vec::from_slice(alloc, words),
        Words::Run(first, count, value) => Vec::from_slice(alloc, &run(first, count, value)),
        Words::Node(head, count, keys, values) => {
            Vec::from_slice(alloc, &node(head, count, keys, values))
        }
        Words::Root(first, second) => Vec::from_slice(alloc, &root(first, second)),
        Words::Block(first, place, word) => Vec::from_slice(alloc, &block(first, place, word)),
    }
}

/// Inserts records into a map; later ones replace earlier ones.
fn put(alloc: Global, records: &mut Map, rows: &[Row]) -> Result<(), AllocError> {
    for row in rows {
        records.insert(row.0, record_of(alloc, row.1)?)?;
    }
    Ok(())
}

/// Returns these records, after others replace them.
pub fn records_of(alloc: Global, rows: &[Row], others: &[Row]) -> Result<Map, AllocError> {
    let mut records = BTreeMap::new(alloc);
    put(alloc, &mut records, rows)?;
    put(alloc, &mut records, others)?;
    Ok(records)
}

fn field(alloc: Global, kind: Kind, value: ValueType) -> Result<Field, AllocError> {
    let name = Name::from_str(alloc, "f")?;
    Ok(Field { name, kind, value })
}

/// Returns one attribute.
pub fn one_field(alloc: Global, kind: Kind, value: ValueType) -> Result<Fields, AllocError>
    ensures { IfOk result (λ fields. length fields ≡ 1) }
{
    Fields::of_one(alloc, field(alloc, kind, value)?)
}

/// Returns a weighted set of texts, and single longs.
pub fn two_fields(alloc: Global) -> Result<Fields, AllocError>
    ensures { IfOk result (λ fields. length fields ≡ 2) }
{
    let mut fields = one_field(alloc, Kind::WeightedSet, ValueType::Text)?;
    fields.push(field(alloc, Kind::Single, ValueType::Long)?)?;
    Ok(fields)
}
