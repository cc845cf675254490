//! Reads the members of `and(..)` and `or(..)`.

ghost use Rattle.std.specs.Prelude.{◌≡◌, ◌≤◌, ◌<◌, ◌^◌, length, map, option_map, Some};
ghost use Rattle.attr_types.specs.Query.{tree_of};
ghost use Rattle.query_text.specs.Grammar.{field_number};
ghost use Rattle.query_text.specs.Reading.{Finds, and_front, or_front, mark_front, list_front, name_at_front, leaf_of_field};
ghost use Rattle.query_text.specs.Reading.{query_with, query_front};

use crate::name::{after_name, name_at_front};
use crate::read::{ReadError, after, leaf_in};
use attr_types::{Field, Queries, Query, field_named};
use std::alloc::Global;

/// Returns what follows `and(` at the front.
#[tactic(auto, unfolding(crate::specs::Reading::and_front))]
pub fn after_and(bytes: &[u8]) -> Option<&[u8]>
    ensures { option_map (λ rest. rest.now) result ≡ and_front bytes.now }
{
    let rest = after(b'a', bytes)?;
    let rest = after(b'n', rest)?;
    let rest = after(b'd', rest)?;
    after(b'(', rest)
}

/// Returns what follows `or(` at the front.
#[tactic(auto, unfolding(crate::specs::Reading::or_front))]
pub fn after_or(bytes: &[u8]) -> Option<&[u8]>
    ensures { option_map (λ rest. rest.now) result ≡ or_front bytes.now }
{
    let rest = after(b'o', bytes)?;
    let rest = after(b'r', rest)?;
    after(b'(', rest)
}

/// Returns whether the mark after a member of a list is a comma, not the closing bracket; and what follows it.
#[tactic(auto, unfolding(crate::specs::Reading::mark_front))]
pub fn mark_in(bytes: &[u8]) -> Option<(bool, &[u8])>
    ensures { option_map (λ mark. (mark.0, mark.1.now)) result ≡ mark_front bytes.now }
{
    match after(b',', bytes) {
        Some(rest) => Some((true, rest)),
        None => after(b')', bytes).map(|rest| (false, rest)),
    }
}

/// Returns the number of the attribute that is named at the front.
fn named_at_front(fields: &[Field], bytes: &[u8]) -> usize
    ensures value { result ≡ field_number fields.now (Some (name_at_front bytes.now)) }
    ensures inside { result ≤ length fields.now }
{
    field_named(fields, name_at_front(bytes)).unwrap_or(0)
}

/// Reads the leaf at the front, which refers to this attribute.
fn leaf_of_field(alloc: Global, field: usize, bytes: &[u8]) -> Result<(Query, &[u8]), ReadError>
    requires { field < 2 ^ 32 }
    ensures { Finds (λ found. (tree_of found.0, found.1.now)) result (leaf_of_field field bytes.now) }
{
    let (leaf, rest) = leaf_in(alloc, bytes)?;
    Ok((
        Query::One {
            field: field as u32,
            leaf,
        },
        rest,
    ))
}

/// Reads the query at the front, if it has at most `levels` levels.
#[cycle(query)]
pub fn query_in<'a>(
    alloc: Global,
    fields: &[Field],
    bytes: &'a [u8],
    levels: u32,
) -> Result<(Query, &'a [u8]), ReadError>
    requires { length fields.now < 2 ^ 32 }
    ensures { Finds (λ found. (tree_of found.0, found.1.now)) result (query_front fields.now levels bytes.entry.now) }
{
    if levels == 0 {
        return Err(ReadError::NotRead);
    }
    query_with(alloc, fields, bytes, levels - 1)
}

/// Reads the query at the front, if its members have at most this many levels.
#[cycle(query)]
#[tactic(auto, unfolding(crate::specs::Reading::query_with))]
fn query_with<'a>(
    alloc: Global,
    fields: &[Field],
    bytes: &'a [u8],
    levels: u32,
) -> Result<(Query, &'a [u8]), ReadError>
    requires { length fields.now < 2 ^ 32 }
    ensures { Finds (λ found. (tree_of found.0, found.1.now)) result
        (query_with fields.now (query_front fields.now levels) bytes.entry.now) }
{
    if let Some(rest) = after_name(bytes) {
        return leaf_of_field(alloc, named_at_front(fields, bytes), rest);
    }
    if let Some(rest) = after_and(bytes) {
        let (list, rest) = list_in(alloc, fields, rest, levels)?;
        return Ok((Query::And(list), rest));
    }
    if let Some(rest) = after_or(bytes) {
        let (list, rest) = list_in(alloc, fields, rest, levels)?;
        return Ok((Query::Or(list), rest));
    }
    leaf_of_field(alloc, 0, bytes)
}

/// Reads the members of the list whose bracket is open, each of at most this many levels.
#[cycle(query)]
fn list_in<'a>(
    alloc: Global,
    fields: &[Field],
    bytes: &'a [u8],
    levels: u32,
) -> Result<(Queries, &'a [u8]), ReadError>
    requires { length fields.now < 2 ^ 32 }
    ensures { Finds (λ found. (map tree_of found.0.items, found.1.now)) result
        (list_front (query_front fields.now levels) (length bytes.entry.now) bytes.entry.now) }
{
    let mut list = Vec::new(alloc);
    let mut rest = bytes;
    for _count in 0..bytes.len() {
        let (member, next) = match query_in(alloc, fields, rest, levels) {
            Ok(found) => found,
            Err(error) => return Err(error),
        };
        list.push(member)?;
        match mark_in(next) {
            Some((true, others)) => rest = others,
            Some((false, end)) => return Ok((list, end)),
            None => return Err(ReadError::NotRead),
        }
    }
    Err(ReadError::NotRead)
}
