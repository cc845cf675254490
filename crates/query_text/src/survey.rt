//! Scans a query byte by byte, and finds the first fault.

ghost use Rattle.std.specs.Prelude.{◌≡◌, ◌<◌, ◌≤◌, ◌^◌, ◌+◌, IfSome, length};
ghost use Rattle.query_text.specs.Grammar.{type_at, first_found, unknown_if};
ghost use Rattle.query_text.specs.Survey.{is_right, is_in_size, ends_value, ends_query, is_complete, depth_after, begins_after, found_at};
ghost use Rattle.query_text.specs.Survey.{wanted_after, start, name_before, entered_by, entered, surveyed_after, surveyed};

use crate::mode::{Mode, Role};
use attr_types::{Field, ValueType, field_named};

/// What the scanned front of a text shows.
#[derive(Clone, Copy, Debug, PartialEq, Eq)]
pub struct Survey {
    pub mode: Mode,
    /// The number of open brackets.
    pub depth: u64,
    /// The number of levels of its queries.
    pub levels: u64,
    /// The offset at which the current query begins.
    pub begins: usize,
    /// The type of the values of the current leaf.
    pub wanted: ValueType,
    /// The offset at which the first name begins that is not the name of an attribute.
    pub unknown: Option<usize>,
    /// Whether all values have the types of their attributes.
    pub right: bool,
    /// Whether all numbers and texts are in range.
    pub small: bool,
}

/// Returns the type of the values of the attribute with a number.
pub fn type_at(fields: &[Field], number: usize) -> ValueType
    ensures { result ≡ type_at fields.now number }
{
    match fields.get(number) {
        Some(field) => field.value,
        None => ValueType::Long,
    }
}

/// Returns the attribute to which the next leaf refers, by the name before it, if any.
fn found_at(fields: &[Field], name: &[u8], mode: Mode) -> Option<usize>
    ensures { result ≡ found_at fields.now name.now mode }
{
    match mode {
        Mode::Named => field_named(fields, name),
        _ => Some(0),
    }
}

fn wanted_after(fields: &[Field], wanted: ValueType, mode: Mode, found: Option<usize>) -> ValueType
    ensures { result ≡ wanted_after fields.now wanted mode found }
{
    match mode {
        Mode::Start => type_at(fields, 0),
        Mode::Opened => type_at(fields, 0),
        Mode::Named => type_at(fields, found.unwrap_or(0)),
        _ => wanted,
    }
}

fn begins_after(begins: usize, place: usize, mode: Mode) -> usize
    requires place { place < 2 ^ 63 }
    requires begins { begins ≤ place }
    ensures value { result ≡ begins_after begins place mode }
    ensures next { result ≤ place + 1 }
{
    match mode {
        Mode::Start => place + 1,
        Mode::Opened => place + 1,
        _ => begins,
    }
}

fn unknown_after(unknown: Option<usize>, begins: usize, found: Option<usize>) -> Option<usize>
    ensures { result ≡ first_found unknown (unknown_if begins found) }
{
    match (unknown, found) {
        (Some(first), _) => Some(first),
        (None, Some(_)) => None,
        (None, None) => Some(begins),
    }
}

impl Survey {
    /// Returns the survey before the first byte.
    pub fn start(fields: &[Field]) -> Survey
        ensures { result ≡ start fields.now }
    {
        Survey {
            mode: Mode::Start,
            depth: 0,
            levels: 1,
            begins: 0,
            wanted: type_at(fields, 0),
            unknown: None,
            right: true,
            small: true,
        }
    }

    fn entered_by(self, fields: &[Field], place: usize, mode: Mode, found: Option<usize>) -> Survey
        requires deep { self.depth < 2 ^ 63 }
        requires begins { self.begins ≤ place }
        requires place { place < 2 ^ 63 }
        ensures value { result ≡ entered_by fields.now self place mode found }
        ensures depth { result.depth ≤ self.depth + 1 }
        ensures begins { result.begins ≤ place + 1 }
    {
        let depth = depth_after(self.depth, mode);
        Survey {
            mode,
            depth,
            levels: self.levels.max(depth + 1),
            begins: begins_after(self.begins, place, mode),
            wanted: wanted_after(fields, self.wanted, mode, found),
            unknown: unknown_after(self.unknown, self.begins, found),
            right: self.right && is_right(self.wanted, mode),
            small: self.small && is_small(mode),
        }
    }

    /// Returns the survey after the byte at this place, which leads to this mode.
    fn entered(self, fields: &[Field], text: &[u8], place: usize, mode: Mode) -> Survey
        requires deep { self.depth < 2 ^ 63 }
        requires begins { self.begins ≤ place }
        requires place { place < length text.now }
        ensures value { result ≡ entered fields.now text.now self place mode }
        ensures depth { result.depth ≤ self.depth + 1 }
        ensures begins { result.begins ≤ place + 1 }
    {
        let found = found_at(fields, &text[self.begins..place], mode);
        self.entered_by(fields, place, mode, found)
    }

    /// Returns the survey after the byte at this place, if some query continues with it.
    fn after(self, fields: &[Field], text: &[u8], place: usize, byte: u8) -> Option<Survey>
        requires deep { self.depth < 2 ^ 63 }
        requires begins { self.begins ≤ place }
        requires place { place < length text.now }
        ensures value { result ≡ surveyed_after fields.now text.now self place byte }
        ensures depth { IfSome result (λ next. next.depth ≤ self.depth + 1) }
        ensures begins { IfSome result (λ next. next.begins ≤ place + 1) }
    {
        let mode = self.mode.next(self.depth > 0, byte)?;
        Some(self.entered(fields, text, place, mode))
    }

    /// Returns whether a whole query has been scanned.
    fn is_whole(self) -> bool
        ensures { result ≡ is_complete self }
    {
        self.depth == 0 && ends_query(self.mode)
    }
}

/// Scans a text, and returns what it shows, or the place from which on it is not a query.
pub fn survey_of(text: &[u8], fields: &[Field]) -> Result<Survey, u64>
    ensures { result ≡ surveyed fields.now text.now }
{
    let mut survey = Survey::start(fields);
    for (place, byte) in text.iter().enumerate() {
        match survey.after(fields, text, place, *byte) {
            Some(next) => survey = next,
            None => return Err(place as u64),
        }
    }
    if survey.is_whole() {
        Ok(survey)
    } else {
        Err(text.len() as u64)
    }
}

fn depth_after(depth: u64, mode: Mode) -> u64
    requires { depth < 2 ^ 63 }
    ensures value { result ≡ depth_after depth mode }
    ensures next { result ≤ depth + 1 }
{
    match mode {
        Mode::Opened => depth + 1,
        Mode::Closed => depth.saturating_sub(1),
        _ => depth,
    }
}

pub fn is_right(value: ValueType, mode: Mode) -> bool
    ensures { result ≡ is_right value mode }
{
    match mode {
        Mode::Minus(_) | Mode::Number(_, _, _) => value == ValueType::Long,
        Mode::Text(_, _) => value == ValueType::Text,
        _ => true,
    }
}

pub fn is_small(mode: Mode) -> bool
    ensures { result ≡ is_in_size mode }
{
    match mode {
        Mode::Number(_, true, size) => size <= 1 << 63,
        Mode::Number(_, false, size) => size < 1 << 63,
        Mode::Text(_, len) => len <= 1024,
        _ => true,
    }
}

fn ends_value(role: Role) -> bool
    ensures { result ≡ ends_value role }
{
    match role {
        Role::Alone | Role::Bound => true,
        Role::Low | Role::High => false,
    }
}

pub fn ends_query(mode: Mode) -> bool
    ensures { result ≡ ends_query mode }
{
    match mode {
        Mode::Number(role, _, _) | Mode::Quoted(role) => ends_value(role),
        Mode::Ended | Mode::Closed => true,
        _ => false,
    }
}
