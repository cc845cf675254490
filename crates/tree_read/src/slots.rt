//! The slots of a node in memory.

ghost use Rattle.std.specs.Prelude.{◌≡◌, ◌≤◌, ◌+◌, ◌++◌, length};

use arrayvec::ArrayVec;

/// The slots of a node in memory, at most 17, each with a key and a value. A leaf has level 0.
#[derive(Drop)]
pub struct Slots {
    pub level: u64,
    pub keys: ArrayVec<u64, 17>,
    pub values: ArrayVec<u64, 17>,
}

/// Appends words, which must fit.
pub fn append<const CAP: usize>(words: &mut ArrayVec<u64, CAP>, more: &[u64])
    requires { length words.old.items + length more.now ≤ CAP }
    ensures { words.new.items ≡ words.old.items ++ more.now }
{
    match words.try_extend_from_slice(more) {
        Ok(()) => {}
        Err(_) => unreachable!(),
    }
}
