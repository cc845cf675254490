//! An attribute: its name, its kind and the type of its values.

ghost use Rattle.std.specs.Prelude.{◌≡◌, IfOk, string_bytes};

use crate::kind::{Kind, ValueType};
use crate::list::ListOf;
use std::alloc::{AllocError, Global};
use std::marker::Model;

/// The name of a field. Contracts see its bytes.
#[derive(Clone, Debug, Drop)]
pub struct Name {
    text: String,
}

impl Model for Name {
    ghost use Rattle.std.specs.Prelude.{ℕ, List, string_bytes};

    ghost Value = { List ℕ };

    ghost view = { λ n. string_bytes n.text };
}

impl Name {
    pub fn new(text: String) -> Name
        ensures { result ≡ string_bytes text }
    {
        Name { text }
    }

    pub fn from_str(alloc: Global, text: &str) -> Result<Name, AllocError>
        ensures { IfOk result (λ name. name ≡ text.now) }
    {
        let text = String::from_str(alloc, text)?;
        Ok(Name { text })
    }

    pub fn as_str(&self) -> &str
        ensures { result.now ≡ self.now }
    {
        self.text.as_str()
    }
}

/// An attribute: the field of a document that it stores, and what it stores of it.
#[derive(Clone, Debug, Drop)]
pub struct Field {
    pub name: Name,
    pub kind: Kind,
    pub value: ValueType,
}

/// The attributes, numbered from 0.
pub type Fields = ListOf<Field>;

/// The greatest number of attributes of a run.
pub const MOST_FIELDS: usize = 8;
