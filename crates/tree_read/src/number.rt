//! Numbers as sought keys.

ghost use Rattle.std.specs.Prelude.{refl, []};
ghost use Rattle.std.specs.Ordering.{nat_cmp};
ghost use Rattle.std.specs.Cmp.{nat_cmp_total};
ghost use Rattle.tree_read.specs.Trees.{by_number};

use crate::key::KeyOrder;
use arena_api::Frozen;
use std::cmp::Ordering;

/// A key that is its own number.
#[derive(Clone, Copy, Debug)]
pub struct NumberKey(pub u64);

impl<const OFFSET_BITS: u32> KeyOrder<OFFSET_BITS> for NumberKey {
    type Read = u64;

    ghost can_read = { λ m key. Unit {0} };

    ghost read = { by_number };

    ghost reads_from = { λ m key. [] };

    ghost order = { nat_cmp };

    ghost sought = { λ s. s.0 };

    fn compare<F: Frozen<OFFSET_BITS>>(&self, frozen: &mut F, stored: u64) -> Ordering {
        stored.cmp(&self.0)
    }

    ghost total = { nat_cmp_total };

    ghost stays = { λ m n key h s. (tt, refl) };

    ghost steady = { λ m n key h s. refl };
}
