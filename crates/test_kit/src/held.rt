//! A guard of a commit that is empty or one node.
ghost use Rattle.std.specs.Prelude.{◌≡◌};
ghost use Rattle.entry_ref.specs.Images.{words_at};
ghost use Rattle.word_arena.specs.Ruled.{reader_of, seen_image};
ghost use Rattle.test_kit.specs.OneNode.{IsNodeRecord};

use crate::node::{OneNode, are_of};
use arena_api::read;
use std::sync::ledger::Ledger;
use word_arena::{Again, Aimed, Guarded, Reader, Steps};

#[derive(Drop)]
pub struct Held {
    guard: Guarded<22, OneNode>,
    ghost node: { IsNodeRecord (reader_of guard.place.me.0).sizes.shape (words_at (seen_image (reader_of guard.place.me.0)))
        (seen_image (reader_of guard.place.me.0)).root },
}

/// A commit as its reader sees it; and, if it has a node, whether every word of the node is as the commit stored it.
#[derive(Clone, Copy, Drop)]
pub struct Look {
    pub commit: u32,
    pub whole: Option<bool>,
}

impl Held {
    pub fn commit(&self) -> u32 {
        self.guard.commit()
    }

    /// Reads the node, if there is one.
    pub fn read(&mut self, into: &mut [u64; 34]) -> bool {
        let root = self.guard.root();
        if !root.valid() {
            return false;
        }
        read(&mut self.guard, root, 0, into);
        true
    }

    pub fn look(&mut self) -> Look {
        let commit = self.guard.commit();
        let mut words = [0; 34];
        let whole = if self.read(&mut words) {
            Some(are_of(&words, commit))
        } else {
            None
        };
        Look { commit, whole }
    }

    /// Loads the last commit again, under the same hold.
    pub fn again(self) -> Held {
        let Held { guard } = self;
        Held {
            guard: guard.again(),
        }
    }

    pub fn release(self) -> Reader<22, OneNode> {
        let Held { guard } = self;
        guard.release()
    }
}

/// Raises the hold, and returns a guard, or the reader and the count that it found.
pub fn raised(aimed: Aimed<22, OneNode>) -> Result<Held, Again<22, OneNode>> {
    match aimed.try_raise() {
        Ok(guard) => Ok(Held { guard }),
        Err(again) => Err(again),
    }
}

/// Aims at the newest hold and raises it.
pub fn tried(reader: Reader<22, OneNode>) -> Result<Held, Again<22, OneNode>> {
    match reader.try_guard() {
        Ok(guard) => Ok(Held { guard }),
        Err(again) => Err(again),
    }
}

/// Returns a guard, after as many tries as it takes.
pub fn guarded<C: Ledger>(reader: Reader<22, OneNode>, tries: &mut Steps<C>) -> Held {
    Held {
        guard: reader.guard(tries),
    }
}
