//! The lines of a text.
ghost use Rattle.std.specs.Prelude.{◌≡◌, ◌<◌, ◌-◌, ◌∷◌, [], drop, length, position};
ghost use Rattle.feed_reader.specs.Lines.{is_newline, lines_of, is_blank};

use memchr::memchr;

fn newline_in(bytes: &[u8]) -> Option<usize>
    ensures { result ≡ position is_newline bytes.now }
{
    memchr(b'\n', bytes)
}

/// Returns the first line, and what follows its line feed.
pub fn split_line(bytes: &[u8]) -> (&[u8], &[u8])
    requires { 0 < length bytes.now }
    ensures lines { lines_of bytes.now ≡ result.0.now ∷ lines_of result.1.now }
    ensures shorter { length result.1.now < length bytes.now }
    ensures rest { result.1.now ≡ drop (length bytes.now - length result.1.now) bytes.now }
    // The first line is one line by itself.
    ensures alone { 0 < length result.0.now → lines_of result.0.now ≡ result.0.now ∷ [] }
{
    match newline_in(bytes) {
        Some(end) => (&bytes[..end], &bytes[end + 1..]),
        None => (bytes, &[]),
    }
}

/// Returns whether a line has only spaces, tabs and carriage returns.
pub fn is_blank_line(line: &[u8]) -> bool
    ensures { result ≡ is_blank line.now }
{
    line.iter()
        .all(|b| *b == b' ' || *b == b'\t' || *b == b'\r')
}
