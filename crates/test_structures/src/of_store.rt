//! Rows of the store: undo, full, reclaim.

ghost use Rattle.std.specs.Prelude.{◌≡◌, true, false};
ghost use Rattle.store_api.specs.Ledgers.{is_width, IsNew};

use crate::cases::{Case, StoreRow, right_stores};
use crate::stores::{fill_undone, full};
use std::test::Fail;
use store_api::{Store, StoreError};

/// Returns the entries that a new store makes before and after an undo.
fn make_again<const OFFSET_BITS: u32, S: Store<OFFSET_BITS>>(
    store: &mut S,
) -> Result<[u32; 4], StoreError>
    requires { (S.ledger store.old).unit ≡ false }
{
    store.begin();
    let first = store.make(2, &[8, 5])?;
    store.undo();
    store.begin();
    let again = store.make(2, &[8, 5])?;
    let next = store.make(2, &[8, 5])?;
    let wide = store.make(34, &[])?;
    Ok([first.raw(), again.raw(), next.raw(), wide.raw()])
}

/// Returns whether these are the entries that a new store makes before and after an undo.
pub fn is_made_again<const OFFSET_BITS: u32, S: Store<OFFSET_BITS>>(
    store: &mut S,
    wanted: [u32; 4],
) -> bool
    requires new { IsNew (S.ledger store.old) }
{
    make_again(store) == Ok(wanted)
}

/// Returns whether a new store makes this many entries of a width, with this one as the last, before it is full with
/// this many active buffers; and as many again after an undo.
pub fn is_full<const OFFSET_BITS: u32, S: Store<OFFSET_BITS>>(
    store: &mut S,
    active: u32,
    width: u32,
    wanted: (u32, u32),
) -> bool
    requires new { IsNew (S.ledger store.old) }
    requires width { is_width width ≡ true }
{
    let first = fill_undone::<OFFSET_BITS, _>(store, width);
    let again = fill_undone::<OFFSET_BITS, _>(store, width);
    let (count, last) = wanted;
    let full = full(width, active, 0);
    first == (count, last, full) && again.0 == count && again.2 == full
}

const ROWS: [StoreRow<'static>; 18] = [
    // an entry is made again after an undo
    (22, 8, (Case::MadeAgain([1024, 1024, 2048, 1025]), 2, 3)),
    (22, 8, (Case::MadeAgain([1024, 1024, 2048, 1025]), 34, 1)),
    (22, 8, (Case::MadeAgain([1024, 1024, 2048, 1025]), 4, 0)),
    (19, 8, (Case::MadeAgain([8192, 8192, 16384, 8193]), 2, 3)),
    (19, 8, (Case::MadeAgain([8192, 8192, 16384, 8193]), 34, 1)),
    (19, 8, (Case::MadeAgain([8192, 8192, 16384, 8193]), 4, 0)),
    // a store is full where no buffer is free: the buffers, how many entries, and the last; twice as many are made in all
    (22, 1, (Case::Full(1, 4095, 4_193_280), 2, 8190)),
    (22, 1, (Case::Full(1, 239, 244_736), 34, 478)),
    (22, 1, (Case::Full(1, 7, 7168), 1024, 14)),
    (22, 2, (Case::Full(2, 14, 7169), 1024, 28)),
    (19, 1, (Case::Full(1, 4095, 33_546_240), 2, 8190)),
    (19, 1, (Case::Full(1, 239, 1_957_888), 34, 478)),
    (19, 1, (Case::Full(1, 7, 57_344), 1024, 14)),
    (19, 1024, (Case::Full(1024, 7168, 58_367), 1024, 14_336)),
    // what is dropped is made again after a commit, and what a commit has is not
    (22, 1, (Case::Replaced, 1024, 4)),
    (22, 1, (Case::Kept, 1024, 13)),
    // a victim goes on hold with all its entries, if it is finished
    (22, 2, (Case::Emptied(false, 0), 34, 0)),
    (22, 2, (Case::Emptied(true, 239), 34, 239)),
];

#[test]
fn entries_are_made_as_long_as_buffers_are_free(rt: HostRuntime) -> Result<(), Fail> {
    let right = right_stores(rt.alloc(), &ROWS)?;
    assert!(rt; right == ROWS.len(), "row {right}");
    Ok(())
}
