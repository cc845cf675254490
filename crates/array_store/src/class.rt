//! The width class of a record: the least width that holds its words.

ghost use Rattle.std.specs.Prelude.{◌≡◌, ◌≤◌, true};
ghost use Rattle.image_format.specs.Words.{class_of};
ghost use Rattle.store_api.specs.Ledgers.{is_width};

use crate::MOST_WORDS;

const CLASSES: [u32; 10] = [2, 4, 8, 16, 32, 64, 128, 256, 512, 1024];

/// Returns the least width of a record that holds `words` words.
pub fn class_of(words: u32) -> u32
    requires { words ≤ MOST_WORDS }
    ensures class { result ≡ class_of words }
    ensures holds { words ≤ result }
    ensures width { is_width result ≡ true }
{
    for width in CLASSES {
        if words <= width {
            return width;
        }
    }
    1024
}
