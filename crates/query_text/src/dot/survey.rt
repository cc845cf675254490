//! Scans a dot product byte by byte, and finds the first fault.

ghost use Rattle.std.specs.Prelude.{◌≡◌, ◌<◌, length, take};
ghost use Rattle.query_text.specs.Dot.{letter, is_dot, head_begun, head_next, value_more, after_value, after_weight, dot_next};
ghost use Rattle.query_text.specs.Dot.{found_after, is_right_part, is_weight_size, is_small_weight, is_small_part, dot_start};
ghost use Rattle.query_text.specs.Dot.{wanted_by, dot_entered, dot_after, has_ended, dot_is_ended, dot_surveyed};

use crate::mode::{Mode, Role, Spell, number_begun, value_begun};
use crate::survey::{ends_query, is_right, is_small, type_at};
use attr_types::{Field, ValueType, begins_name, continues_name, field_named};

/// The state of the scan of a dot product between two bytes.
#[derive(Clone, Copy, Debug, PartialEq, Eq)]
pub enum DotMode {
    /// Before the first byte.
    Front,
    /// In a name, or in `dot`.
    Name(Spell),
    /// After the `:` of a name.
    Named,
    /// After `d`.
    D,
    /// After `do`.
    Do,
    /// After `dot`.
    Dot,
    /// Before a part.
    Part,
    /// In the value of a part.
    Value(Mode),
    /// After the `:` of a part.
    Colon,
    /// In the weight of a part.
    Weight(Mode),
    /// After the `)`.
    Ended,
}

/// What the scanned front of a text shows.
#[derive(Clone, Copy, Debug, PartialEq, Eq)]
pub struct DotSurvey {
    pub mode: DotMode,
    /// The number of the attribute, if it exists.
    pub found: Option<usize>,
    /// Whether all values have the attribute's type.
    pub right: bool,
    /// Whether all values and weights are in range.
    pub small: bool,
}

fn letter(wanted: u8, mode: DotMode, byte: u8) -> Option<DotMode>
    ensures { result ≡ letter wanted mode byte }
{
    if byte == wanted { Some(mode) } else { None }
}

fn is_dot(spell: Spell) -> bool
    ensures { result ≡ is_dot spell }
{
    match spell {
        Spell::Dot => true,
        _ => false,
    }
}

fn head_begun(byte: u8) -> Option<DotMode>
    ensures { result ≡ head_begun byte }
{
    if begins_name(byte) {
        Some(DotMode::Name(Spell::begun(byte)))
    } else {
        None
    }
}

fn head_next(spell: Spell, byte: u8) -> Option<DotMode>
    ensures { result ≡ head_next spell byte }
{
    if continues_name(byte) {
        Some(DotMode::Name(spell.next(byte)))
    } else if byte == b':' {
        Some(DotMode::Named)
    } else if is_dot(spell) && byte == b'(' {
        Some(DotMode::Part)
    } else {
        None
    }
}

fn value_more(mode: Mode, byte: u8) -> Option<Mode>
    ensures { result ≡ value_more mode byte }
{
    match mode {
        Mode::Quoted(_) => None,
        other => other.next(false, byte),
    }
}

fn after_value(mode: Mode, byte: u8) -> Option<DotMode>
    ensures { result ≡ after_value mode byte }
{
    if ends_query(mode) && byte == b':' {
        Some(DotMode::Colon)
    } else {
        value_more(mode, byte).map(DotMode::Value)
    }
}

fn after_weight(mode: Mode, byte: u8) -> Option<DotMode>
    ensures { result ≡ after_weight mode byte }
{
    if ends_query(mode) && byte == b',' {
        Some(DotMode::Part)
    } else if ends_query(mode) && byte == b')' {
        Some(DotMode::Ended)
    } else {
        value_more(mode, byte).map(DotMode::Weight)
    }
}

fn is_weight_size(mode: Mode) -> bool
    ensures { result ≡ is_weight_size mode }
{
    match mode {
        Mode::Number(_, true, size) => size <= 1 << 31,
        Mode::Number(_, false, size) => size < 1 << 31,
        _ => true,
    }
}

impl DotMode {
    /// Returns the mode after one more byte, if some dot product continues with it.
    #[tactic(auto, unfolding(crate::specs::Dot::dot_next))]
    fn next(self, byte: u8) -> Option<DotMode>
        ensures { result ≡ dot_next self byte }
    {
        match self {
            DotMode::Front => head_begun(byte),
            DotMode::Name(spell) => head_next(spell, byte),
            DotMode::Named => letter(b'd', DotMode::D, byte),
            DotMode::D => letter(b'o', DotMode::Do, byte),
            DotMode::Do => letter(b't', DotMode::Dot, byte),
            DotMode::Dot => letter(b'(', DotMode::Part, byte),
            DotMode::Part => value_begun(Role::Alone, byte).map(DotMode::Value),
            DotMode::Value(mode) => after_value(mode, byte),
            DotMode::Colon => number_begun(Role::Alone, byte).map(DotMode::Weight),
            DotMode::Weight(mode) => after_weight(mode, byte),
            DotMode::Ended => None,
        }
    }

    fn is_right(self, wanted: ValueType) -> bool
        ensures { result ≡ is_right_part wanted self }
    {
        match self {
            DotMode::Value(mode) => is_right(wanted, mode),
            _ => true,
        }
    }

    /// Returns whether the current value is in range so far.
    fn is_small(self) -> bool
        ensures { result ≡ is_small_part self }
    {
        match self {
            DotMode::Value(mode) => is_small(mode),
            _ => true,
        }
    }

    /// Returns whether a weight that ends with the step to the next mode is in range.
    fn is_small_weight(self, next: DotMode) -> bool
        ensures { result ≡ is_small_weight self next }
    {
        match (self, next) {
            (DotMode::Weight(mode), DotMode::Part) => is_weight_size(mode),
            (DotMode::Weight(mode), DotMode::Ended) => is_weight_size(mode),
            _ => true,
        }
    }

    fn has_ended(self) -> bool
        ensures { result ≡ has_ended self }
    {
        match self {
            DotMode::Ended => true,
            _ => false,
        }
    }
}

fn found_after(fields: &[Field], name: &[u8], found: Option<usize>, mode: DotMode) -> Option<usize>
    ensures { result ≡ found_after fields.now name.now found mode }
{
    match mode {
        DotMode::Named => field_named(fields, name),
        _ => found,
    }
}

fn wanted_by(fields: &[Field], found: Option<usize>) -> ValueType
    ensures { result ≡ wanted_by fields.now found }
{
    type_at(fields, found.unwrap_or(0))
}

impl DotSurvey {
    fn start() -> DotSurvey
        ensures { result ≡ dot_start }
    {
        DotSurvey {
            mode: DotMode::Front,
            found: Some(0),
            right: true,
            small: true,
        }
    }

    fn entered(self, fields: &[Field], text: &[u8], place: usize, mode: DotMode) -> DotSurvey
        requires { place < length text.now }
        ensures { result ≡ dot_entered fields.now text.now self place mode }
    {
        let wanted = wanted_by(fields, self.found);
        DotSurvey {
            mode,
            found: found_after(fields, &text[..place], self.found, mode),
            right: self.right && mode.is_right(wanted),
            small: self.small && (mode.is_small() && self.mode.is_small_weight(mode)),
        }
    }

    fn after(self, fields: &[Field], text: &[u8], place: usize, byte: u8) -> Option<DotSurvey>
        requires { place < length text.now }
        ensures { result ≡ dot_after fields.now text.now self place byte }
    {
        let mode = self.mode.next(byte)?;
        Some(self.entered(fields, text, place, mode))
    }

    fn is_whole(self) -> bool
        ensures { result ≡ dot_is_ended self }
    {
        self.mode.has_ended()
    }
}

/// Scans a text, and returns what it shows, or the place from which on it is not a dot product.
pub fn dot_survey_of(text: &[u8], fields: &[Field]) -> Result<DotSurvey, u64>
    ensures { result ≡ dot_surveyed fields.now text.now }
{
    let mut survey = DotSurvey::start();
    for (place, byte) in text.iter().enumerate() {
        match survey.after(fields, text, place, *byte) {
            Some(next) => survey = next,
            None => return Err(place as u64),
        }
    }
    if survey.is_whole() {
        Ok(survey)
    } else {
        Err(text.len() as u64)
    }
}
