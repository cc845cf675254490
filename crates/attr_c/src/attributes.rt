//! The attributes that a text names.
ghost use Rattle.std.specs.Prelude.{◌≡◌, ◌≤◌, ◌<◌, [], length, map, IfOk};
ghost use Rattle.attr_types.specs.declared.field.TheConstants.{MOST_FIELDS};
ghost use Rattle.attr_c.specs.Attributes.{error_code, error_number, field_in, fields_from, fields_in, named_field, parts_of};
ghost use Rattle.attr_c.specs.Attributes.{SaysField, SaysFields};
ghost use Rattle.attr_c.specs.declared.attributes.AttributesError.TheVariants as errors;

use crate::codes::{ATTRIBUTES, MEMORY};
use attr_types::{Field, Fields, MOST_FIELDS, Name, field_named, is_name, kind_named, value_named};
use std::alloc::{AllocError, Global};

/// Why a text names no attributes.
#[derive(Clone, Copy, Drop)]
pub enum AttributesError {
    /// The attribute with this number, from 0, does not have the form, has the name of an earlier one, or is the
    /// ninth.
    Broken { number: usize },
    Memory,
}

impl From<AllocError> for AttributesError {
    ghost from_gives = { λ _ e. e ≡ errors.Memory };

    fn from(_e: AllocError) -> AttributesError {
        AttributesError::Memory
    }
}

impl AttributesError {
    pub fn code(self) -> i32
        ensures { result ≡ error_code self }
    {
        match self {
            AttributesError::Broken { .. } => ATTRIBUTES,
            AttributesError::Memory => MEMORY,
        }
    }

    pub fn number(self) -> u64
        ensures { result ≡ error_number self }
    {
        match self {
            AttributesError::Broken { number } => number as u64,
            AttributesError::Memory => 0,
        }
    }
}

fn parts_of<'a>(alloc: Global, text: &'a str, mark: char) -> Result<Vec<&'a str>, AllocError>
    requires { mark < 128 }
    ensures { IfOk result (λ texts. map (λ t. t.now) texts.items ≡ parts_of mark text.entry.now) }
{
    text.split(mark).collect(alloc)
}

/// Returns the attribute with a name, a kind and a value type, if no earlier one has that name.
fn named_field(
    alloc: Global,
    before: &[Field],
    name: &str,
    kind: &str,
    value: &str,
) -> Result<Option<Field>, AllocError>
    ensures { IfOk result (λ found. found ≡ named_field before.now name.now kind.now value.now) }
{
    if !is_name(name.as_bytes()) || field_named(before, name.as_bytes()).is_some() {
        return Ok(None);
    }
    let Some(kind) = kind_named(kind) else {
        return Ok(None);
    };
    let Some(value) = value_named(value) else {
        return Ok(None);
    };
    let name = Name::from_str(alloc, name)?;
    Ok(Some(Field { name, kind, value }))
}

/// Returns the attribute of a text `name:kind:value`.
fn field_in(alloc: Global, before: &[Field], text: &str) -> Result<Option<Field>, AllocError>
    ensures { IfOk result (λ found. found ≡ field_in before.now text.now) }
{
    let parts = parts_of(alloc, text, ':')?;
    match parts.as_slice() {
        [name, kind, value] => named_field(alloc, before, name, kind, value),
        _ => Ok(None),
    }
}

/// Returns the attribute of a text, if one more attribute is allowed.
fn next_field(alloc: Global, before: &[Field], text: &str) -> Result<Field, AttributesError>
    ensures { SaysField (length before.now) result (field_in before.now text.now) }
{
    let number = before.len();
    match field_in(alloc, before, text)? {
        Some(field) => Ok(field),
        None => Err(AttributesError::Broken { number }),
    }
}

fn fields_of(alloc: Global, texts: &[&str]) -> Result<Fields, AttributesError>
    ensures few { IfOk result (λ fields. length fields ≤ MOST_FIELDS) }
    ensures says { SaysFields result (fields_from [] (map (λ t. t.now) texts.now)) }
{
    let mut fields = Fields::new(alloc);
    for text in texts {
        if fields.len() >= MOST_FIELDS {
            return Err(AttributesError::Broken {
                number: fields.len(),
            });
        }
        let field = next_field(alloc, fields.as_slice(), text)?;
        fields.push(field)?;
    }
    Ok(fields)
}

/// Returns the attributes that a text names, each as `name:kind:value`, separated by commas: one to eight.
pub fn fields_in(alloc: Global, text: &str) -> Result<Fields, AttributesError>
    ensures some { IfOk result (λ fields. 0 < length fields) }
    ensures few { IfOk result (λ fields. length fields ≤ MOST_FIELDS) }
    ensures says { SaysFields result (fields_in text.now) }
{
    let texts = parts_of(alloc, text, ',')?;
    let fields = fields_of(alloc, texts.as_slice())?;
    if fields.is_empty() {
        return Err(AttributesError::Broken { number: 0 });
    }
    Ok(fields)
}
