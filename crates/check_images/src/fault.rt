//! Why a check has no result.

use std::alloc::AllocError;

/// Why a check has no result.
#[derive(Clone, Copy, Debug, PartialEq, Eq)]
pub enum CheckFault {
    /// The records do not represent what they are checked for.
    Broken,
    /// Memory was exhausted, which says nothing about the records.
    Memory,
}

impl From<AllocError> for CheckFault {
    ghost use Rattle.std.specs.Prelude.{◌≡◌};
    ghost use Rattle.check_images.specs.declared.fault.CheckFault.TheVariants.{Memory};

    ghost from_gives = { λ _ fault. fault ≡ Memory };

    fn from(_error: AllocError) -> CheckFault {
        CheckFault::Memory
    }
}
