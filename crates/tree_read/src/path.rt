//! The path from a root down to a leaf.

ghost use Rattle.std.specs.Prelude.{◌≡◌, ◌<◌, ℕ, List, [], ◌∷◌, length, reverse, IfSome, IfNone};

use arrayvec::ArrayVec;
use entry_ref::EntryRef;
use std::marker::Model;

/// A node above the leaves, and the slot of one of its children.
#[derive(Clone, Copy, Debug, Drop)]
pub struct PathStep<const OFFSET_BITS: u32> {
    pub node: EntryRef<OFFSET_BITS>,
    pub slot: u32,
}

impl<const OFFSET_BITS: u32> Model for PathStep<OFFSET_BITS> {
    ghost use Rattle.tree_read.specs.Steps.{PathStep as OneStep};

    ghost Value = { OneStep };

    ghost view = { λ step. record { node = step.node; slot = step.slot } };

    ghost inverse = { λ step. record { node = step.node; slot = step.slot } };
}

impl<const OFFSET_BITS: u32> Default for PathStep<OFFSET_BITS> {
    fn default() -> Self {
        PathStep {
            node: EntryRef::from_raw(0),
            slot: 0,
        }
    }
}

/// The steps down from a root. Contracts see them as a list from the lowest step up.
#[derive(Drop)]
pub struct Path<const OFFSET_BITS: u32> {
    steps: ArrayVec<PathStep<OFFSET_BITS>, 8>,
}

impl<const OFFSET_BITS: u32> Model for Path<OFFSET_BITS> {
    ghost use Rattle.std.specs.Prelude.{List, reverse};
    ghost use Rattle.tree_read.specs.Steps.{PathStep as OneStep};

    ghost Value = { List OneStep };

    ghost view = { λ path. reverse path.steps.items };
}

impl<const OFFSET_BITS: u32> Path<OFFSET_BITS> {
    pub fn new() -> Self
        ensures { result ≡ [] }
    {
        Path {
            steps: ArrayVec::new(),
        }
    }

    pub fn push(&mut self, node: EntryRef<OFFSET_BITS>, slot: u32)
        requires { length self.old < 8 }
        ensures { self.new ≡ record { node = node.entry; slot = slot } ∷ self.old }
    {
        self.steps.push(PathStep { node, slot });
    }

    pub fn pop(&mut self) -> Option<PathStep<OFFSET_BITS>>
        ensures some { IfSome result (λ step. self.old ≡ step ∷ self.new) }
        ensures none { IfNone result (self.old ≡ []) }
        ensures empty { IfNone result (self.new ≡ []) }
    {
        self.steps.pop()
    }
}
