//! The attributes that `--field` and `--also` name.
ghost use Rattle.std.specs.Prelude.{◌≡◌, ◌≤◌, ◌+◌, ◌<◌, ◌^◌, ◌==◌, ◌∷◌, [], IfOk, length, map};
ghost use Rattle.std.specs.List.{AllByRecursion, slice_split};
ghost use Rattle.attr_types.specs.Names.{kind_named, value_named};
ghost use Rattle.command_line.specs.Also.{EndsBefore, piece_of, pieces, placed, span, part_at, new_name, or_broken};
ghost use Rattle.command_line.specs.Also.{field_in, next_field, fields_from, named_fields};
ghost use Rattle.command_line.specs.Reading.{text_option};
ghost use Rattle.command_line.specs.Settings.{Says};

use crate::reading::WordsError;
use attr_types::{
    Field, Fields, Kind, MOST_FIELDS, Name, ValueType, field_named, is_name, kind_named,
    value_named,
};
use std::alloc::{AllocError, Global};

/// A piece of a text, and the offset at which it begins.
#[derive(Clone, Copy, Debug)]
pub(crate) struct AlsoPart<'a> {
    pub place: u64,
    pub text: &'a str,
}

/// Returns the texts between occurrences of a character.
fn texts_in<'a>(alloc: Global, text: &'a str, mark: char) -> Result<Vec<&'a str>, AllocError>
    requires { mark < 128 }
    ensures { IfOk result (λ texts. map (λ t. t.now) texts.items
        ≡ slice_split (λ byte. byte == mark) text.entry.now) }
{
    text.split(mark).collect(alloc)
}

/// Returns texts that follow each other, with one byte between them, as parts.
fn placed<'a>(alloc: Global, place: u64, texts: &[&'a str]) -> Result<Vec<AlsoPart<'a>>, AllocError>
    requires { place + span (map (λ t. t.now) texts.now) < 2 ^ 64 }
    ensures { IfOk result (λ parts. map piece_of parts.items ≡ placed place (map (λ t. t.now) texts.now)) }
{
    let mut parts = Vec::new(alloc);
    let mut place = place;
    for text in texts {
        parts.push(AlsoPart { place, text })?;
        place += text.len() as u64 + 1;
    }
    Ok(parts)
}

/// Splits a piece at a character.
fn cut<'a>(alloc: Global, whole: AlsoPart<'a>, mark: char) -> Result<Vec<AlsoPart<'a>>, AllocError>
    requires ascii { mark < 128 }
    requires small { whole.place + length whole.text.now + 1 < 2 ^ 64 }
    ensures pieces { IfOk result (λ parts. map piece_of parts.items ≡ pieces mark (piece_of whole.entry)) }
    ensures ends { IfOk result (λ parts. AllByRecursion
        (EndsBefore (whole.entry.place + length whole.entry.text.now)) (map piece_of parts.items)) }
{
    let texts = texts_in(alloc, whole.text, mark)?;
    placed(alloc, whole.place, texts.as_slice())
}

/// Returns the part with this number, or an empty part at the end of the whole.
fn part_at<'a>(whole: AlsoPart<'a>, parts: &[AlsoPart<'a>], number: usize) -> AlsoPart<'a>
    requires { whole.place + length whole.text.now < 2 ^ 64 }
    ensures { piece_of result ≡ part_at (piece_of whole.entry) (map piece_of parts.now) number }
{
    match parts.get(number) {
        Some(part) => *part,
        None => AlsoPart {
            place: whole.place + whole.text.len() as u64,
            text: "",
        },
    }
}

/// Returns the name of a field, if no attribute before it has the same name.
fn name_in(alloc: Global, before: &[Field], part: AlsoPart<'_>) -> Result<Name, WordsError>
    ensures { Says (λ name. name) result
        (or_broken (piece_of part.entry) (new_name before.now part.entry.text.now)) }
{
    let bytes = part.text.as_bytes();
    if is_name(bytes) && field_named(before, bytes).is_none() {
        Ok(Name::from_str(alloc, part.text)?)
    } else {
        Err(WordsError::Also { place: part.place })
    }
}

/// Returns the kind that a part names.
fn kind_in(part: AlsoPart<'_>) -> Result<Kind, WordsError>
    ensures { Says (λ kind. kind) result (or_broken (piece_of part.entry) (kind_named part.entry.text.now)) }
{
    kind_named(part.text).ok_or(WordsError::Also { place: part.place })
}

/// Returns the value type that a part names.
fn value_in(part: AlsoPart<'_>) -> Result<ValueType, WordsError>
    ensures { Says (λ value. value) result (or_broken (piece_of part.entry) (value_named part.entry.text.now)) }
{
    value_named(part.text).ok_or(WordsError::Also { place: part.place })
}

/// Returns the attribute of a field `name:kind:value`.
#[tactic(auto, unfolding(crate::specs::Also::field_in))]
fn field_in(alloc: Global, before: &[Field], whole: AlsoPart<'_>) -> Result<Field, WordsError>
    requires { whole.place + length whole.text.now + 1 < 2 ^ 64 }
    ensures { Says (λ field. field) result (field_in before.now (piece_of whole.entry)) }
{
    let parts = cut(alloc, whole, ':')?;
    let name = name_in(alloc, before, part_at(whole, &parts, 0))?;
    let kind = kind_in(part_at(whole, &parts, 1))?;
    let value = value_in(part_at(whole, &parts, 2))?;
    match parts.get(3) {
        Some(part) => Err(WordsError::Also { place: part.place }),
        None => Ok(Field { name, kind, value }),
    }
}

/// Returns the attribute of a field, if one more attribute is allowed.
#[tactic(auto, unfolding(crate::specs::Also::next_field))]
fn next_field(alloc: Global, before: &[Field], whole: AlsoPart<'_>) -> Result<Field, WordsError>
    requires { whole.place + length whole.text.now + 1 < 2 ^ 64 }
    ensures { Says (λ field. field) result (next_field before.now (piece_of whole.entry)) }
{
    if before.len() < MOST_FIELDS {
        field_in(alloc, before, whole)
    } else {
        Err(WordsError::Also { place: whole.place })
    }
}

/// Returns the attributes followed by those of further fields.
fn fields_from(alloc: Global, first: Field, parts: &[AlsoPart<'_>]) -> Result<Fields, WordsError>
    requires { AllByRecursion (EndsBefore 18446744073709551614) (map piece_of parts.now) }
    ensures { Says (λ fields. fields) result (fields_from (first ∷ []) (map piece_of parts.now)) }
{
    let mut fields = Fields::of_one(alloc, first)?;
    for part in parts {
        let field = next_field(alloc, fields.as_slice(), *part)?;
        fields.push(field)?;
    }
    Ok(fields)
}

/// Returns the attribute of `--field`, and those of `--also` if it is given.
#[tactic(auto, unfolding(crate::specs::Also::named_fields))]
pub(crate) fn fields_of(
    alloc: Global,
    first: Field,
    also: Option<String>,
) -> Result<Fields, WordsError>
    ensures { Says (λ fields. fields) result (named_fields first (text_option also)) }
{
    match also {
        None => Ok(Fields::of_one(alloc, first)?),
        Some(text) => {
            let whole = AlsoPart {
                place: 0,
                text: text.as_str(),
            };
            let parts = cut(alloc, whole, ',')?;
            fields_from(alloc, first, parts.as_slice())
        }
    }
}
