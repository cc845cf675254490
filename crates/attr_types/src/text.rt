//! A text of at most 1,024 bytes of UTF-8.

ghost use Rattle.std.specs.Prelude.{◌≡◌, ◌≤◌, IfOk, length, string_len, string_bytes, IsUtf8};

use std::alloc::{AllocError, Global};
use std::marker::Model;

/// A text of at most 1,024 bytes of UTF-8.
#[derive(Clone, Debug, Drop)]
pub struct Text {
    text: String,
}

impl Model for Text {
    ghost use Rattle.std.specs.Prelude.{ℕ, List, ◌≤◌, string_len, string_bytes};

    ghost Value = { List ℕ };

    ghost view = { λ t. string_bytes t.text };

    ghost invariant = { λ t. string_len t.text ≤ 1024 };
}

impl Text {
    /// The greatest number of bytes of a text.
    pub const MAX_LEN: usize = 1024;

    pub fn new(text: String) -> Text
        requires { string_len text ≤ 1024 }
        ensures { result ≡ string_bytes text }
    {
        Text { text }
    }

    pub fn from_str(alloc: Global, text: &str) -> Result<Text, AllocError>
        requires { length text.now ≤ 1024 }
        ensures { IfOk result (λ t. t ≡ text.now) }
    {
        let text = String::from_str(alloc, text)?;
        Ok(Text { text })
    }

    pub fn as_str(&self) -> &str
        ensures bytes { result.now ≡ self.now }
        ensures short { length result.now ≤ 1024 }
    {
        self.text.as_str()
    }

    pub fn len(&self) -> usize
        ensures bytes { result ≡ length self.now }
        ensures short { result ≤ 1024 }
    {
        self.text.len()
    }
}
