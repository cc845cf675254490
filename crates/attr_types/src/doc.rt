//! The number of a document.

ghost use Rattle.std.specs.Prelude.{◌≡◌, ◌≤◌};

use crate::list::ListOf;
use std::marker::Model;

/// The number of a document, from 1 to 1,048,575. The number 0 is reserved.
#[derive(Clone, Copy, Debug, PartialEq, Eq, PartialOrd, Ord)]
pub struct Doc {
    number: u32,
}

impl Model for Doc {
    ghost use Rattle.std.specs.Prelude.{ℕ, ◌≤◌};

    ghost Value = { ℕ };

    ghost view = { λ d. d.number };

    ghost invariant = { λ d. (1 ≤ d.number) × (d.number ≤ 1048575) };

    ghost inverse = { λ n. record { number = n } };
}

impl Doc {
    /// The highest document number.
    pub const LAST: u32 = 1_048_575;

    pub fn new(number: u32) -> Doc
        requires first { 1 ≤ number }
        requires last { number ≤ 1048575 }
        ensures { result ≡ number }
    {
        Doc { number }
    }

    pub fn number(self) -> u32
        ensures number { result ≡ self }
        ensures first { 1 ≤ result }
        ensures last { result ≤ 1048575 }
    {
        self.number
    }
}

/// Documents in order. Contracts see the list of their numbers.
pub type DocList = ListOf<Doc>;
