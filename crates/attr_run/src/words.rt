//! The words of a command line, as a list of texts.

ghost use Rattle.std.specs.Prelude.{◌≡◌, [], ◌∷◌, ◌++◌, OnOk, OnErr, IfOk, map, string_bytes};
ghost use Rattle.std.specs.List.{AllByRecursion};
ghost use Rattle.std.specs.Str.{IsUtf8};

use std::alloc::{AllocError, Global};
use std::io::ErrorKind;
use std::marker::Model;
use std::rt::Env;

/// The words of a command line after the program's name. Contracts see a list of texts of any length.
#[derive(Debug, Drop)]
pub struct Words {
    alloc: Global,
    list: Vec<String>,
}

impl Model for Words {
    ghost use Rattle.std.specs.Prelude.{ℕ, List, map, string_bytes};

    ghost Value = { List (List ℕ) };

    ghost view = { λ w. map (λ s. string_bytes s) w.list.items };
}

impl Words {
    pub fn create(alloc: Global) -> Words
        ensures { result ≡ [] }
    {
        Words {
            alloc,
            list: Vec::new(alloc),
        }
    }

    pub fn push(&mut self, word: &str) -> Result<(), AllocError>
        ensures ok { OnOk result (self.new ≡ self.old ++ word.now ∷ []) }
        ensures err { OnErr result (self.new ≡ self.old) }
    {
        self.list.push(String::from_str(self.alloc, word)?)?;
        Ok(())
    }

    /// Returns the arguments of the running program, after its name. If any argument is not UTF-8, returns an empty
    /// list, which the command refuses.
    pub fn of_program<R: Env + AllocGlobal>(rt: &R) -> Result<Words, AllocError>
        ensures utf8 { IfOk result (λ words. AllByRecursion IsUtf8 words) }
    {
        let mut words = Words::create(rt.alloc());
        match std::env::args(rt) {
            Ok(args) => {
                for arg in args.skip(1) {
                    words.push(arg.as_str())?;
                }
            }
            Err(error) => {
                if error.kind() == ErrorKind::OutOfMemory {
                    return Err(AllocError);
                }
            }
        }
        Ok(words)
    }

    pub(crate) fn as_slice(&self) -> &[String]
        ensures { map (λ s. string_bytes s) result.now ≡ self.now }
    {
        self.list.as_slice()
    }
}
