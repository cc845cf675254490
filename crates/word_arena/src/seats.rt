//! The owners of an arena: the writer's, and one for each reader that is still to be made.
ghost use Rattle.std.specs.Prelude.{◌≡◌, ◌+◌, ◌<◌, length, All, IfOk};

use crate::arena::Arena;
use entry_ref::Layout;
use std::alloc::{AllocError, Global};
use std::sync::Arc;

/// The greatest number of readers.
pub(crate) const MOST_READERS: u32 = 64;

/// The owners of an arena. All are made when the writer is made, so that no reader has to count one.
#[derive(Drop)]
pub(crate) struct Owners<const OFFSET_BITS: u32, L: Layout> {
    pub(crate) arena: Arc<Arena<OFFSET_BITS, L>>,
    pub(crate) spare: Vec<Arc<Arena<OFFSET_BITS, L>>>,
    pub(crate) made: u32,
    ghost same: { All (λ a. a.value ≡ arena.value) spare.items },
    ghost rest: { length spare.items + made ≡ 64 },
}

impl<const OFFSET_BITS: u32, L: Layout> Owners<OFFSET_BITS, L> {
    /// Returns the owners of an arena of which no reader was made.
    pub(crate) fn new(
        alloc: Global,
        arena: Arena<OFFSET_BITS, L>,
    ) -> Result<Owners<OFFSET_BITS, L>, AllocError>
        ensures arena { IfOk result (λ s. s.arena.value ≡ arena) }
        ensures made { IfOk result (λ s. s.made ≡ 0) }
    {
        let Ok(arena) = Arc::new(alloc, arena) else {
            return Err(AllocError);
        };
        let mut spare = Vec::new(alloc);
        for _ in 0..MOST_READERS {
            let owner = Arc::try_clone(&arena)?;
            spare.push(owner)?;
        }
        Ok(Owners {
            arena,
            spare,
            made: 0,
        })
    }

    pub(crate) fn arena(&self) -> &Arena<OFFSET_BITS, L>
        ensures { result.now ≡ self.now.arena.value }
    {
        &self.arena
    }

    /// Returns the owner of the next reader.
    pub(crate) fn next(&mut self) -> Arc<Arena<OFFSET_BITS, L>>
        requires { self.old.made < 64 }
        ensures value { result.value ≡ self.old.arena.value }
        ensures made { self.new.made ≡ self.old.made + 1 }
        ensures arena { self.new.arena ≡ self.old.arena }
    {
        match self.spare.pop() {
            None => unreachable!(),
            Some(owner) => {
                self.made += 1;
                owner
            }
        }
    }
}
