//! What each round asks of a commit.

ghost use Rattle.std.specs.Prelude.{◌≡◌, ℕ, IfOk};
ghost use Rattle.entry_ref.specs.Records.{Records};

use arena_api::Frozen;
use entry_ref::{EntryRef, Layout};
use std::alloc::{AllocError, Global};

/// What each round asks of a commit.
pub trait Question<const OFFSET_BITS: u32, L: Layout> {
    type Answer: Drop;

    /// The number of operations of an image, by its shape, its records and its root.
    ghost operations: { ℕ → Records → ℕ → ℕ };

    /// The value is the answer to the question at an image.
    ghost answers: { Self → ℕ → Records → ℕ → Self.Answer → Type 0 };

    /// The shapes of images to which the question applies.
    ghost fits: { Self → ℕ → Type 0 };

    fn operations<F: Frozen<OFFSET_BITS>>(&self, frozen: &mut F, root: EntryRef<OFFSET_BITS>) -> u32
        requires lawful { L.lawful (F.shape frozen.old) (F.records frozen.old) root }
        ensures count { result ≡ operations (F.shape frozen.old) (F.records frozen.old) root.entry }
        ensures same { frozen.new ≡ frozen.old };

    fn answer<F: Frozen<OFFSET_BITS>>(
        &self,
        alloc: Global,
        frozen: &mut F,
        root: EntryRef<OFFSET_BITS>,
    ) -> Result<Self::Answer, AllocError>
        requires fits { fits self.now (F.shape frozen.old) }
        requires lawful { L.lawful (F.shape frozen.old) (F.records frozen.old) root }
        ensures answer { IfOk result (answers self.now (F.shape frozen.old) (F.records frozen.old) root.entry) }
        ensures same { frozen.new ≡ frozen.old };
}
