//! Splits bytes into lines.

ghost use Rattle.std.specs.Prelude.{◌≡◌, ◌<◌, ◌≤◌, ◌+◌, ◌∷◌, length, position};
ghost use Rattle.feed_reader.specs.Lines.{is_newline, lines_of, is_blank};

use memchr::memchr;

fn newline_in(bytes: &[u8]) -> Option<usize>
    ensures { result ≡ position is_newline bytes.now }
{
    memchr(b'\n', bytes)
}

/// Returns the first line, and what follows its line feed.
pub fn split_line(bytes: &[u8]) -> (&[u8], &[u8])
    requires { 0 < length bytes.now }
    ensures lines { lines_of bytes.now ≡ result.0.now ∷ lines_of result.1.now }
    ensures shorter { length result.1.now < length bytes.now }
{
    match newline_in(bytes) {
        Some(end) => (&bytes[..end], &bytes[end + 1..]),
        None => (bytes, &[]),
    }
}

/// Returns whether a line has only spaces, tabs and carriage returns.
pub fn is_blank_line(line: &[u8]) -> bool
    ensures { result ≡ is_blank line.now }
{
    line.iter()
        .all(|b| *b == b' ' || *b == b'\t' || *b == b'\r')
}
