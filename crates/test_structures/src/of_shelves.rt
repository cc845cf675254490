//! Rows of the shelves of a ledger.

ghost use Rattle.std.specs.Prelude.{◌≡◌};
ghost use Rattle.entry_ledger.specs.States.{empty_shelf};

use entry_ledger::{Shelf, Shelves};
use std::alloc::{AllocError, Global};
use std::test::Fail;

/// Returns whether what a unit took is free after its end is undone.
fn is_free_again(shelf: &mut Shelf) -> Result<bool, AllocError>
    requires { shelf.old ≡ empty_shelf }
{
    shelf.open(4, 2)?;
    let first = shelf.take();
    let settled = [
        shelf.settle(false, 7, 3).is_some(),
        shelf.settle(false, 7, 3).is_some(),
    ];
    let taken = [first, shelf.take(), shelf.take(), shelf.take()];
    Ok(settled == [true, false] && taken == [Some(0), Some(0), Some(1), None])
}

/// Returns whether a shelf has nothing before it is opened, and what a unit took after its end is undone.
fn is_undone(alloc: Global) -> Result<bool, AllocError> {
    let mut shelf = Shelf::new(alloc);
    match shelf.take() {
        Some(_) => Ok(false),
        None => is_free_again(&mut shelf),
    }
}

/// Returns whether a width without a buffer has nothing to spare.
fn has_nothing(alloc: Global) -> Result<bool, AllocError> {
    let mut shelves = Shelves::create(alloc, 2, 8192)?;
    let taken = shelves.take(34, 0, 0, 0).is_some();
    Ok(!taken && (shelves.width(0), shelves.filled(34), shelves.made(34)) == (0, None, 0))
}

#[test]
fn a_shelf_is_undone_and_an_empty_one_has_nothing(rt: HostRuntime) -> Result<(), Fail> {
    let rights = [is_undone(rt.alloc())?, has_nothing(rt.alloc())?];
    assert!(rt; rights == [true, true]);
    Ok(())
}
