//! Reads names of attributes.

ghost use Rattle.std.specs.Prelude.{◌≡◌, ◌≤◌, ◌<◌, IfSome, length, option_map};
ghost use Rattle.std.specs.List.{position};
ghost use Rattle.query_text.specs.Reading.{ends_name, name_end, name_at_front, begins_so, after_name};

use crate::read::after;
use attr_types::{begins_name, continues_name};

fn ends_name(byte: u8) -> bool
    ensures { result ≡ ends_name byte }
{
    !continues_name(byte)
}

fn first_end(bytes: &[u8]) -> Option<usize>
    ensures value { result ≡ position ends_name bytes.now }
    ensures inside { IfSome result (λ end. end < length bytes.now) }
{
    bytes.iter().position(|byte| ends_name(*byte))
}

/// Returns where the letters of a name end.
fn name_end(bytes: &[u8]) -> usize
    ensures value { result ≡ name_end bytes.now }
    ensures inside { result ≤ length bytes.now }
{
    match first_end(bytes) {
        Some(end) => end,
        None => bytes.len(),
    }
}

/// Returns the letters of a name at the front.
pub fn name_at_front(bytes: &[u8]) -> &[u8]
    ensures { result.now ≡ name_at_front bytes.now }
{
    &bytes[..name_end(bytes)]
}

fn begins_so(bytes: &[u8]) -> bool
    ensures { result ≡ begins_so bytes.now }
{
    match bytes {
        [byte, ..] => begins_name(*byte),
        [] => false,
    }
}

/// Returns what follows the name at the front and its `:`.
#[tactic(auto, unfolding(crate::specs::Reading::after_name))]
pub fn after_name(bytes: &[u8]) -> Option<&[u8]>
    ensures { option_map (λ rest. rest.now) result ≡ after_name bytes.now }
{
    if begins_so(bytes) {
        after(b':', &bytes[name_end(bytes)..])
    } else {
        None
    }
}
