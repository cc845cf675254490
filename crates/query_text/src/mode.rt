//! The states of the scan of a query, and how a byte changes them.

ghost use Rattle.std.specs.Prelude.{◌≡◌};
ghost use Rattle.query_text.specs.Modes.{is_digit, number_begun, text_begun, value_begun, leaf_begun, query_begun, query_ended};
ghost use Rattle.query_text.specs.Modes.{number_ended};
ghost use Rattle.query_text.specs.Modes.{spell_begun, spell_next, opens_list, name_next, quoted_next, minus_next, number_next};
ghost use Rattle.query_text.specs.Modes.{text_next, escape_next};
ghost use Rattle.query_text.specs.Modes.{low_next, high_next, high_number_next, high_text_next, letter_next, next_mode};

use attr_types::{begins_name, continues_name};

/// The role of the current value in its leaf.
#[derive(Clone, Copy, Debug, PartialEq, Eq)]
pub enum Role {
    /// The leaf itself, or its prefix.
    Alone,
    /// The bound after `<` or `>`.
    Bound,
    /// The lower end of a range.
    Low,
    /// The upper end of a range.
    High,
}

/// What the letters of a name are so far.
#[derive(Clone, Copy, Debug, PartialEq, Eq)]
pub enum Spell {
    A,
    An,
    And,
    O,
    Or,
    D,
    Do,
    Dot,
    /// Only a name.
    Other,
}

/// The state of the scan of a query between two bytes.
#[derive(Clone, Copy, Debug, PartialEq, Eq)]
pub enum Mode {
    /// Before a query: at the front, or after a comma.
    Start,
    /// After the `(` of a list.
    Opened,
    /// In a name, or in the keyword of a list.
    Name(Spell),
    /// After the `:` of a name.
    Named,
    /// After `<` or `>`.
    Bound,
    /// After `[`.
    Low,
    /// After `[;`.
    High,
    /// After `[`, a number and `;`.
    HighNumber,
    /// After `[`, a text and `;`.
    HighText,
    /// After the `-` of a number.
    Minus(Role),
    /// In a number: whether it is negative, and its size so far, up to the greatest 64-bit number.
    Number(Role, bool, u64),
    /// In a text: the number of its bytes so far.
    Text(Role, u64),
    /// In a text, after a `\`.
    Escape(Role, u64),
    /// After the quote that ends a text.
    Quoted(Role),
    /// After the `*` or `]` that ends a leaf.
    Ended,
    /// After the `)` of a list.
    Closed,
}

impl Spell {
    pub fn begun(byte: u8) -> Spell
        ensures { result ≡ spell_begun byte }
    {
        match byte {
            b'a' => Spell::A,
            b'o' => Spell::O,
            b'd' => Spell::D,
            _ => Spell::Other,
        }
    }

    pub fn next(self, byte: u8) -> Spell
        ensures { result ≡ spell_next self byte }
    {
        match self {
            Spell::A if byte == b'n' => Spell::An,
            Spell::An if byte == b'd' => Spell::And,
            Spell::O if byte == b'r' => Spell::Or,
            Spell::D if byte == b'o' => Spell::Do,
            Spell::Do if byte == b't' => Spell::Dot,
            Spell::A | Spell::An | Spell::O | Spell::D | Spell::Do => Spell::Other,
            Spell::And | Spell::Or | Spell::Dot | Spell::Other => Spell::Other,
        }
    }

    fn opens_list(self) -> bool
        ensures { result ≡ opens_list self }
    {
        match self {
            Spell::And | Spell::Or => true,
            Spell::A | Spell::An | Spell::O | Spell::D => false,
            Spell::Do | Spell::Dot | Spell::Other => false,
        }
    }
}

impl Mode {
    /// Returns the mode after one more byte, if some query continues with it. `nested` says that a bracket is open.
    #[tactic(auto, unfolding(crate::specs::Modes::next_mode))]
    pub fn next(self, nested: bool, byte: u8) -> Option<Mode>
        ensures { result ≡ next_mode nested self byte }
    {
        match self {
            Mode::Start | Mode::Opened => query_begun(byte),
            Mode::Name(spell) => name_next(spell, byte),
            Mode::Named => leaf_begun(byte),
            Mode::Bound => value_begun(Role::Bound, byte),
            Mode::Low => low_next(byte),
            Mode::High => high_next(byte),
            Mode::HighNumber => high_number_next(byte),
            Mode::HighText => high_text_next(byte),
            Mode::Minus(role) => minus_next(role, byte),
            Mode::Number(role, negative, size) => number_next(nested, role, negative, size, byte),
            Mode::Text(role, len) => Some(text_next(role, len, byte)),
            Mode::Escape(role, len) => escape_next(role, len, byte),
            Mode::Quoted(role) => quoted_next(nested, role, byte),
            Mode::Ended | Mode::Closed => query_ended(nested, byte),
        }
    }
}

pub fn is_digit(byte: u8) -> bool
    ensures { result ≡ is_digit byte }
{
    b'0' <= byte && byte <= b'9'
}

fn letter_next(letter: u8, mode: Mode, byte: u8) -> Option<Mode>
    ensures { result ≡ letter_next letter mode byte }
{
    if byte == letter { Some(mode) } else { None }
}

pub fn number_begun(role: Role, byte: u8) -> Option<Mode>
    ensures { result ≡ number_begun role byte }
{
    if byte == b'-' {
        Some(Mode::Minus(role))
    } else if is_digit(byte) {
        Some(Mode::Number(role, false, u64::from(byte - b'0')))
    } else {
        None
    }
}

fn text_begun(role: Role, byte: u8) -> Option<Mode>
    ensures { result ≡ text_begun role byte }
{
    if byte == b'"' {
        Some(Mode::Text(role, 0))
    } else {
        None
    }
}

pub fn value_begun(role: Role, byte: u8) -> Option<Mode>
    ensures { result ≡ value_begun role byte }
{
    if byte == b'"' {
        Some(Mode::Text(role, 0))
    } else {
        number_begun(role, byte)
    }
}

fn leaf_begun(byte: u8) -> Option<Mode>
    ensures { result ≡ leaf_begun byte }
{
    if byte == b'[' {
        Some(Mode::Low)
    } else if byte == b'<' || byte == b'>' {
        Some(Mode::Bound)
    } else {
        value_begun(Role::Alone, byte)
    }
}

fn query_begun(byte: u8) -> Option<Mode>
    ensures { result ≡ query_begun byte }
{
    if begins_name(byte) {
        Some(Mode::Name(Spell::begun(byte)))
    } else {
        leaf_begun(byte)
    }
}

fn name_next(spell: Spell, byte: u8) -> Option<Mode>
    ensures { result ≡ name_next spell byte }
{
    if continues_name(byte) {
        Some(Mode::Name(spell.next(byte)))
    } else if byte == b':' {
        Some(Mode::Named)
    } else if spell.opens_list() && byte == b'(' {
        Some(Mode::Opened)
    } else {
        None
    }
}

fn query_ended(nested: bool, byte: u8) -> Option<Mode>
    ensures { result ≡ query_ended nested byte }
{
    if nested && byte == b',' {
        Some(Mode::Start)
    } else if nested && byte == b')' {
        Some(Mode::Closed)
    } else {
        None
    }
}

fn number_ended(nested: bool, role: Role, byte: u8) -> Option<Mode>
    ensures { result ≡ number_ended nested role byte }
{
    match role {
        Role::Alone | Role::Bound => query_ended(nested, byte),
        Role::Low => letter_next(b';', Mode::HighNumber, byte),
        Role::High => letter_next(b']', Mode::Ended, byte),
    }
}

fn quoted_next(nested: bool, role: Role, byte: u8) -> Option<Mode>
    ensures { result ≡ quoted_next nested role byte }
{
    match role {
        Role::Alone if byte == b'*' => Some(Mode::Ended),
        Role::Alone | Role::Bound => query_ended(nested, byte),
        Role::Low => letter_next(b';', Mode::HighText, byte),
        Role::High => letter_next(b']', Mode::Ended, byte),
    }
}

fn minus_next(role: Role, byte: u8) -> Option<Mode>
    ensures { result ≡ minus_next role byte }
{
    if b'1' <= byte && byte <= b'9' {
        Some(Mode::Number(role, true, u64::from(byte - b'0')))
    } else {
        None
    }
}

fn number_next(nested: bool, role: Role, negative: bool, size: u64, byte: u8) -> Option<Mode>
    ensures { result ≡ number_next nested role negative size byte }
{
    if is_digit(byte) && size != 0 {
        let digit = u64::from(byte - b'0');
        Some(Mode::Number(
            role,
            negative,
            size.saturating_mul(10).saturating_add(digit),
        ))
    } else {
        number_ended(nested, role, byte)
    }
}

fn text_next(role: Role, len: u64, byte: u8) -> Mode
    ensures { result ≡ text_next role len byte }
{
    if byte == b'"' {
        Mode::Quoted(role)
    } else if byte == b'\\' {
        Mode::Escape(role, len)
    } else {
        Mode::Text(role, len.saturating_add(1))
    }
}

fn escape_next(role: Role, len: u64, byte: u8) -> Option<Mode>
    ensures { result ≡ escape_next role len byte }
{
    if byte == b'"' || byte == b'\\' {
        Some(Mode::Text(role, len.saturating_add(1)))
    } else {
        None
    }
}

fn low_next(byte: u8) -> Option<Mode>
    ensures { result ≡ low_next byte }
{
    if byte == b';' {
        Some(Mode::High)
    } else {
        value_begun(Role::Low, byte)
    }
}

fn high_next(byte: u8) -> Option<Mode>
    ensures { result ≡ high_next byte }
{
    if byte == b']' {
        Some(Mode::Ended)
    } else {
        value_begun(Role::High, byte)
    }
}

fn high_number_next(byte: u8) -> Option<Mode>
    ensures { result ≡ high_number_next byte }
{
    if byte == b']' {
        Some(Mode::Ended)
    } else {
        number_begun(Role::High, byte)
    }
}

fn high_text_next(byte: u8) -> Option<Mode>
    ensures { result ≡ high_text_next byte }
{
    if byte == b']' {
        Some(Mode::Ended)
    } else {
        text_begun(Role::High, byte)
    }
}
