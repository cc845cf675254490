//! Reads the parts of a dot product.

ghost use Rattle.std.specs.Prelude.{◌≡◌, length, option_map};
ghost use Rattle.query_text.specs.Asks.{dot_front, parts_behind, parts_in};
ghost use Rattle.query_text.specs.Dot.{if_weight, part_front, parts_front};
ghost use Rattle.query_text.specs.Reading.{Finds};

use crate::list::mark_in;
use crate::name::after_name;
use crate::read::{ReadError, after, number_in, value_in};
use attr_types::{Part, Parts};
use std::alloc::Global;

fn weight_of(number: i64) -> Option<i32>
    ensures { result ≡ if_weight number }
{
    i32::try_from(number).ok()
}

/// Reads the part at the front.
#[tactic(auto, unfolding(crate::specs::Dot::part_front))]
fn part_in(alloc: Global, bytes: &[u8]) -> Result<(Part, &[u8]), ReadError>
    ensures { Finds (λ found. (found.0, found.1.now)) result (part_front bytes.now) }
{
    let (value, rest) = value_in(alloc, bytes)?;
    let rest = after(b':', rest).ok_or(ReadError::NotRead)?;
    let (number, rest) = number_in(rest).ok_or(ReadError::NotRead)?;
    let weight = weight_of(number).ok_or(ReadError::NotRead)?;
    Ok((Part { value, weight }, rest))
}

/// Reads the parts up to the closing bracket.
pub fn parts_up_to_end(alloc: Global, bytes: &[u8]) -> Result<Parts, ReadError>
    ensures { Finds (λ parts. parts) result (parts_front (length bytes.now) bytes.now) }
{
    let mut parts = Parts::new(alloc);
    let mut rest = bytes;
    for _count in 0..bytes.len() {
        let (part, next) = match part_in(alloc, rest) {
            Ok(found) => found,
            Err(error) => return Err(error),
        };
        parts.push(part)?;
        match mark_in(next) {
            Some((true, others)) => rest = others,
            Some((false, _)) => return Ok(parts),
            None => return Err(ReadError::NotRead),
        }
    }
    Err(ReadError::NotRead)
}

/// Returns what follows `dot(`.
#[tactic(auto, unfolding(crate::specs::Asks::dot_front))]
fn after_dot(bytes: &[u8]) -> Option<&[u8]>
    ensures { option_map (λ rest. rest.now) result ≡ dot_front bytes.now }
{
    let rest = after(b'd', bytes)?;
    let rest = after(b'o', rest)?;
    let rest = after(b't', rest)?;
    after(b'(', rest)
}

fn parts_behind(alloc: Global, bytes: &[u8]) -> Result<Parts, ReadError>
    ensures { Finds (λ parts. parts) result (parts_behind (dot_front bytes.now)) }
{
    match after_dot(bytes) {
        Some(rest) => parts_up_to_end(alloc, rest),
        None => Err(ReadError::NotRead),
    }
}

/// Reads the parts of the dot product, which may have a name before it.
pub fn parts_in(alloc: Global, text: &[u8]) -> Result<Parts, ReadError>
    ensures { Finds (λ parts. parts) result (parts_in text.now) }
{
    match after_name(text) {
        Some(rest) => parts_behind(alloc, rest),
        None => parts_behind(alloc, text),
    }
}
