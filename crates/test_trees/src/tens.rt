//! Keys that read as their tens.
ghost use Rattle.std.specs.Prelude.{refl, [], IfOk};
ghost use Rattle.std.specs.Ordering.{nat_cmp};
ghost use Rattle.std.specs.Cmp.{nat_cmp_total};
ghost use Rattle.test_trees.specs.Tens.{by_tens, HoldsTens};

use arena_api::Frozen;
use entry_ref::EntryRef;
use frozen_btree::{KeyOrder, insert};
use std::cmp::Ordering;
use store_api::{Store, StoreError};

/// A number of tens: a stored word reads as its tens, so equal keys may be different words.
#[derive(Clone, Copy)]
pub struct TensKey(pub u64);

impl<const OFFSET_BITS: u32> KeyOrder<OFFSET_BITS> for TensKey {
    type Read = u64;

    ghost can_read = { λ m key. Unit {0} };

    ghost read = { by_tens };

    ghost reads_from = { λ m key. [] };

    ghost order = { nat_cmp };

    ghost sought = { λ s. s.0 };

    fn compare<F: Frozen<OFFSET_BITS>>(&self, frozen: &mut F, stored: u64) -> Ordering {
        (stored / 10).cmp(&self.0)
    }

    ghost total = { nat_cmp_total };

    ghost stays = { λ m n key h s. (tt, refl) };

    ghost steady = { λ m n key h s. refl };
}

/// Puts a word as a key, in place of one with the same tens, within a unit.
pub fn put_word<const OFFSET_BITS: u32, S: Store<OFFSET_BITS>>(
    store: &mut S,
    root: EntryRef<OFFSET_BITS>,
    word: u64,
    value: u64,
) -> Result<EntryRef<OFFSET_BITS>, StoreError>
    requires { HoldsTens (S.ledger store.old) (S.records store.old) root }
    ensures { IfOk result (HoldsTens (S.ledger store.new) (S.records store.new)) }
{
    let next = insert(store, root, &TensKey(word / 10), word, value)?;
    Ok(next)
}
