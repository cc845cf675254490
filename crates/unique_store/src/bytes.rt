//! Bytes of a text as words, eight in each.

ghost use Rattle.std.specs.Prelude.{◌≡◌, ◌+◌, ◌/◌, ◌≤◌, ◌<◌, ◌++◌, length, take, drop, replicate};
ghost use Rattle.std.specs.Int.{from_be_bytes, w64};
ghost use Rattle.image_format.specs.Values.{packed_bytes};

/// Returns fewer than eight bytes, followed by zeros.
fn filled_eight(bytes: &[u8]) -> [u8; 8]
    requires { length bytes.now < 8 }
    ensures { result ≡ take 8 (bytes.now ++ replicate 8 0) }
{
    let mut eight = [0; 8];
    eight[..bytes.len()].copy_from_slice(bytes);
    eight
}

/// Returns the first eight bytes as a word, the first byte in the highest place, with zeros for missing bytes.
pub fn first_word(bytes: &[u8]) -> u64
    ensures { result ≡ from_be_bytes w64 (take 8 (bytes.now ++ replicate 8 0)) }
{
    match bytes.first_chunk::<8>() {
        Some(eight) => u64::from_be_bytes(*eight),
        None => u64::from_be_bytes(filled_eight(bytes)),
    }
}

/// Returns the bytes after the first eight.
pub fn behind_eight(bytes: &[u8]) -> &[u8]
    ensures { result.now ≡ drop 8 bytes.now }
{
    match bytes.get(8..) {
        Some(rest) => rest,
        None => &[],
    }
}

/// Writes bytes as words, eight in each.
pub fn pack(words: &mut [u64], bytes: &[u8])
    requires { length words.old ≡ (length bytes.now + 7) / 8 }
    ensures { words.new ≡ packed_bytes ((length bytes.now + 7) / 8) bytes.now }
{
    let mut rest = bytes;
    for i in 0..words.len() {
        words[i] = first_word(rest);
        rest = behind_eight(rest);
    }
}
