//! A list of things in order, seen by contracts as a plain list.

ghost use Rattle.std.specs.Prelude.{◌≡◌, [], ◌∷◌, ◌++◌, length, OnOk, IfOk, OnErr, IsTrue, ◌↔◌};

use std::alloc::{AllocError, Global};
use std::marker::Model;

/// A list of things in order. It is made from a `Vec` and returns it, without allocation.
#[derive(Debug, Drop)]
pub struct ListOf<T> {
    list: Vec<T>,
}

impl<T> Model for ListOf<T> {
    ghost use Rattle.std.specs.Prelude.{List};

    ghost Value = { List T };

    ghost view = { λ l. l.list.items };
}

impl<T: Clone> Clone for ListOf<T> {
    ghost use Rattle.std.specs.List.{AllZip};

    ghost is_clone = { λ old new. AllZip T.is_clone old new };

    fn clone(&self) -> Result<ListOf<T>, AllocError> {
        Ok(ListOf {
            list: self.list.clone()?,
        })
    }
}

impl<T> ListOf<T> {
    pub fn new(alloc: Global) -> ListOf<T>
        ensures { result ≡ [] }
    {
        ListOf {
            list: Vec::new(alloc),
        }
    }

    pub fn from_vec(list: Vec<T>) -> ListOf<T>
        ensures { result ≡ list.items }
    {
        ListOf { list }
    }

    pub fn as_slice(&self) -> &[T]
        ensures { result.now ≡ self.now }
    {
        self.list.as_slice()
    }

    pub fn into_vec(self) -> Vec<T>
        ensures { result.items ≡ self }
    {
        self.list
    }

    pub fn len(&self) -> usize
        ensures { result ≡ length self.now }
    {
        self.list.len()
    }

    pub fn is_empty(&self) -> bool
        ensures { IsTrue result ↔ (self.now ≡ []) }
    {
        self.list.is_empty()
    }
}

impl<T: Drop> ListOf<T> {
    /// Makes a list of one thing.
    pub fn of_one(alloc: Global, item: T) -> Result<ListOf<T>, AllocError>
        ensures { IfOk result (λ list. list ≡ item ∷ []) }
    {
        let mut list = Vec::with_capacity(alloc, 1)?;
        list.push(item)?;
        Ok(ListOf { list })
    }

    pub fn push(&mut self, item: T) -> Result<(), AllocError>
        ensures ok { OnOk result (self.new ≡ self.old ++ item ∷ []) }
        ensures err { OnErr result (self.new ≡ self.old) }
    {
        self.list.push(item)?;
        Ok(())
    }
}
