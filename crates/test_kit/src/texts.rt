//! Texts for tests.

use attr_types::Text;
use std::alloc::{AllocError, Global};

/// The lengths at which the record of a text becomes wider, with one or two more bytes.
const LENGTHS: [u32; 18] = [
    0, 6, 7, 8, 22, 23, 24, 55, 56, 119, 120, 247, 248, 503, 504, 1015, 1021, 1022,
];

/// What follows the letters of one length. Two of these differ only in the last byte.
const ENDS: [&str; 4] = ["", "x", "y", "é"];

/// Returns a text, which is empty if it would be too long.
pub fn text_of(alloc: Global, text: &str) -> Result<Text, AllocError> {
    if text.len() > Text::MAX_LEN {
        return Text::from_str(alloc, "");
    }
    Text::from_str(alloc, text)
}

/// Appends as many letters as a length says, and an end.
fn push_letters(text: &mut String, number: u32) -> Result<(), AllocError> {
    let place = (number / 4) as usize;
    if place >= LENGTHS.len() {
        return write!(text, "{number}");
    }
    for _ in 0..LENGTHS[place] {
        text.push_str("a")?;
    }
    text.push_str(ENDS[(number % 4) as usize])
}

/// Returns the text of a number. Those whose records are at the edges of each width come first.
pub fn text_at(alloc: Global, number: u32) -> Result<Text, AllocError> {
    let mut text = String::new(alloc);
    push_letters(&mut text, number)?;
    text_of(alloc, &text)
}
