//! Lists of words, read by the checker.

ghost use Rattle.std.specs.Prelude.{◌≡◌, drop};

/// Returns the words after the first.
pub fn rest_of(words: &[u64]) -> &[u64]
    ensures { result.now ≡ drop 1 words.now }
{
    match words.get(1..) {
        Some(rest) => rest,
        None => &[],
    }
}
