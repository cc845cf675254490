//! The words of a row.
ghost use Rattle.std.specs.Prelude.{◌<◌, ◌≤◌, length, IfOk, IfSome};
ghost use Rattle.attr_types.specs.declared.field.TheConstants.{MOST_FIELDS};

use attr_types::{Field, Fields, Kind, MOST_FIELDS, Name, ValueType};
use std::alloc::{AllocError, Global};

/// Returns the number at this index of a row, or 0 if there is none.
pub fn number_at(row: &str, place: usize) -> u32 {
    match row.split(' ').skip(place).next() {
        Some(word) => word.parse::<u32>().unwrap_or(0),
        None => 0,
    }
}

/// Returns the kind in the words `KIND:TYPE`: a single value, if they name no other kind.
pub fn kind_in(word: &str) -> Kind {
    match word.split(':').next() {
        Some("array") => Kind::Array,
        Some("weightedset") => Kind::WeightedSet,
        _ => Kind::Single,
    }
}

/// Returns the value type in the words `KIND:TYPE`: longs, if they name no texts.
pub fn type_in(word: &str) -> ValueType {
    match word.split(':').skip(1).next() {
        Some("string") => ValueType::Text,
        _ => ValueType::Long,
    }
}

fn field_in(alloc: Global, word: &str) -> Result<Field, AllocError> {
    Ok(Field {
        name: Name::from_str(alloc, "f")?,
        kind: kind_in(word),
        value: type_in(word),
    })
}

fn all_fields_in(alloc: Global, row: &str) -> Result<Fields, AllocError> {
    let mut fields = Fields::new(alloc);
    if let Some(words) = row.split(' ').next() {
        for word in words.split(',') {
            fields.push(field_in(alloc, word)?)?;
        }
    }
    Ok(fields)
}

/// Returns the attributes that the first word of a row names as `KIND:TYPE`, separated by commas, each with the name
/// `f`. Returns `None` if they are more than eight.
pub fn fields_in(alloc: Global, row: &str) -> Result<Option<Fields>, AllocError>
    ensures some { IfOk result (λ found. IfSome found (λ fields. 0 < length fields)) }
    ensures few { IfOk result (λ found. IfSome found (λ fields. length fields ≤ MOST_FIELDS)) }
{
    let fields = all_fields_in(alloc, row)?;
    if fields.is_empty() {
        return Ok(None);
    }
    if fields.len() > MOST_FIELDS {
        return Ok(None);
    }
    Ok(Some(fields))
}
