//! How many whole numbers given documents have, their sum, the least and the greatest.
ghost use Rattle.std.specs.Prelude.{◌≡◌, ◌<◌, ◌≤◌, ◌+◌, ◌-◌, ◌*◌, ◌^◌, length, IfOk};
ghost use Rattle.std.specs.Int.{int_max, int_min};
ghost use Rattle.std.specs.Int.RustNames.{unsigned_abs};
ghost use Rattle.std.specs.List.{filter_map};
ghost use Rattle.std.specs.Option.{option_and_then};
ghost use Rattle.image_format.specs.Images.{table_of, IsLawfulImage};
ghost use Rattle.image_format.specs.Shapes.{shape_of, types_of};
ghost use Rattle.attr_types.specs.declared.field.TheConstants.{MOST_FIELDS};
ghost use Rattle.result_model.specs.Totals as model;
ghost use Rattle.query_results.specs.Attributes.{after, number_in, HasDocuments};
ghost use Rattle.query_results.specs.Walks.{IsWalk};

use crate::attribute::{Attribute, attribute_of};
use crate::items::next_value;
use crate::walks::{Walk, walk_of};
use arena_api::Frozen;
use attr_types::{Doc, DocList, Fields, Value};
use entry_ref::EntryRef;
use result_model::Totals;
use std::alloc::{AllocError, Global};

/// Returns the number that a value is, if it is one.
fn long_in(value: Option<Value>) -> Option<i64>
    ensures { result ≡ option_and_then model.long_of value }
{
    match value {
        Some(Value::Long(number)) => Some(number),
        Some(Value::Text(_)) => None,
        None => None,
    }
}

/// Returns the number of a document, at the next step of a walk.
fn next_number<const OFFSET_BITS: u32, F: Frozen<OFFSET_BITS>>(
    alloc: Global,
    frozen: &mut F,
    attribute: &Attribute<OFFSET_BITS>,
    walk: &mut Walk<OFFSET_BITS>,
    doc: Doc,
) -> Result<Option<i64>, AllocError>
    requires documents { HasDocuments OFFSET_BITS (F.records frozen.old) attribute.now }
    requires walk { IsWalk (F.records frozen.old) attribute.now.documents walk.old }
    ensures number { IfOk result (λ number. number ≡ number_in OFFSET_BITS (F.records frozen.old) attribute.now doc) }
    ensures walk { IsWalk (F.records frozen.old) attribute.now.documents walk.new }
    ensures same { frozen.new ≡ frozen.old }
{
    let value = next_value(alloc, frozen, attribute, walk, doc)?;
    Ok(long_in(value))
}

/// Returns the less of a number and another, if there is another.
fn least_of(other: Option<i64>, number: i64) -> i64
    ensures { result ≡ model.beside int_min other number }
{
    match other {
        Some(other) => other.min(number),
        None => number,
    }
}

/// Returns the greater of a number and another, if there is another.
fn greatest_of(other: Option<i64>, number: i64) -> i64
    ensures { result ≡ model.beside int_max other number }
{
    match other {
        Some(other) => other.max(number),
        None => number,
    }
}

/// Adds a number to totals of at most `most` numbers.
fn add_number(totals: &mut Totals, number: i64, most: usize)
    requires room { most < 2 ^ 64 - 1 }
    requires count { totals.old.count ≤ most }
    requires sum { unsigned_abs totals.old.sum ≤ most * 2 ^ 63 }
    ensures totals { totals.new ≡ model.with_number totals.old number }
    ensures count { totals.new.count ≤ most + 1 }
    ensures sum { unsigned_abs totals.new.sum ≤ (most + 1) * 2 ^ 63 }
{
    let _ = most;
    totals.count += 1;
    totals.sum += i128::from(number);
    totals.least = Some(least_of(totals.least, number));
    totals.greatest = Some(greatest_of(totals.greatest, number));
}

/// Adds a number, if there is one, to totals of at most `most` numbers.
fn add_next(totals: &mut Totals, number: Option<i64>, most: usize)
    requires room { most < 2 ^ 64 - 1 }
    requires count { totals.old.count ≤ most }
    requires sum { unsigned_abs totals.old.sum ≤ most * 2 ^ 63 }
    ensures totals { totals.new ≡ after totals.old number }
    ensures count { totals.new.count ≤ most + 1 }
    ensures sum { unsigned_abs totals.new.sum ≤ (most + 1) * 2 ^ 63 }
{
    match number {
        Some(number) => add_number(totals, number, most),
        None => {}
    }
}

/// Returns the totals of the numbers of these documents in an attribute.
fn totals_along<const OFFSET_BITS: u32, F: Frozen<OFFSET_BITS>>(
    alloc: Global,
    frozen: &mut F,
    attribute: &Attribute<OFFSET_BITS>,
    docs: &[Doc],
) -> Result<Totals, AllocError>
    requires { HasDocuments OFFSET_BITS (F.records frozen.old) attribute.now }
    ensures totals { IfOk result (λ found. found
        ≡ model.with_numbers model.no_totals (filter_map (number_in OFFSET_BITS (F.records frozen.old) attribute.now) docs.now)) }
    ensures same { frozen.new ≡ frozen.old }
{
    let mut totals = Totals {
        count: 0,
        sum: 0,
        least: None,
        greatest: None,
    };
    let mut walk = walk_of(frozen, attribute.documents);
    let mut passed: usize = 0;
    for doc in docs {
        let number = next_number(alloc, frozen, attribute, &mut walk, *doc)?;
        add_next(&mut totals, number, passed);
        passed += 1;
    }
    Ok(totals)
}

/// Returns the totals of the whole numbers that these documents have in the attribute with this number, which is meant
/// to be single. It is fastest if the documents ascend.
pub fn totals<const OFFSET_BITS: u32, F: Frozen<OFFSET_BITS>>(
    alloc: Global,
    frozen: &mut F,
    root: EntryRef<OFFSET_BITS>,
    fields: &Fields,
    field: u32,
    docs: &DocList,
) -> Result<Totals, AllocError>
    requires few { length fields.now ≤ MOST_FIELDS }
    requires shape { F.shape frozen.old ≡ shape_of (types_of fields.now) }
    requires image { IsLawfulImage (F.shape frozen.old) (F.records frozen.old) root }
    ensures totals { IfOk result (λ found. found
        ≡ model.totals field docs.now (table_of (F.shape frozen.old) (F.records frozen.old) root.entry)) }
    ensures same { frozen.new ≡ frozen.old }
{
    let attribute = attribute_of(frozen, root, fields.as_slice(), field);
    totals_along(alloc, frozen, &attribute, docs.as_slice())
}
