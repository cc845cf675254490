//! Numerals, and the numbers that they name.

ghost use Rattle.std.specs.Prelude.{◌≡◌, ◌<◌, ◌^◌, length, true};
ghost use Rattle.std.specs.List.{list_all};
ghost use Rattle.std.specs.Option.{SomeIff};
ghost use Rattle.std.specs.Str.Parse.{digits_value};
ghost use Rattle.feed_reader.specs.Numerals.{is_digit, is_positive_numeral, is_whole_numeral, long_written, document_written};

use attr_types::Doc;

fn is_digits(text: &[u8]) -> bool
    ensures { result ≡ list_all is_digit text.now }
{
    text.iter().all(|b| 48 <= *b && *b <= 57)
}

fn is_positive_numeral(text: &[u8]) -> bool
    ensures { result ≡ is_positive_numeral text.now }
{
    if text.is_empty() || !is_digits(text) {
        return false;
    }
    text[0] > b'0'
}

fn is_whole_numeral(text: &[u8]) -> bool
    ensures { result ≡ is_whole_numeral text.now }
{
    match text {
        b"0" => true,
        [b'-', digits @ ..] => is_positive_numeral(digits),
        _ => is_positive_numeral(text),
    }
}

/// Returns the whole number of 64 signed bits in a text of its own digits.
#[tactic(auto, unfolding(crate::specs::Numerals::long_written))]
pub fn long_in(text: &str) -> Option<i64>
    ensures { result ≡ long_written text.now }
{
    if !is_whole_numeral(text.as_bytes()) {
        return None;
    }
    text.parse::<i64>().ok()
}

/// Returns the number of digits, if it fits in 32 bits.
fn value_of_digits(text: &str) -> Option<u32>
    requires { is_positive_numeral text.now ≡ true }
    ensures { SomeIff result (digits_value 10 text.now < 2 ^ 32) (digits_value 10 text.now) }
{
    text.parse::<u32>().ok()
}

/// Returns the document whose number a text is.
#[tactic(auto, unfolding(crate::specs::Numerals::document_written))]
pub fn document_in(text: &str) -> Option<Doc>
    ensures { result ≡ document_written text.now }
{
    if !is_positive_numeral(text.as_bytes()) {
        return None;
    }
    let number = value_of_digits(text)?;
    if number == 0 || number > Doc::LAST {
        return None;
    }
    Some(Doc::new(number))
}
