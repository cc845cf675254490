//! Rows of tests over a new store.

ghost use Rattle.std.specs.Prelude.{◌≡◌, ◌<◌, ◌≤◌, true};
ghost use Rattle.entry_ref.specs.References.{buffer_limit, offset_limit};
ghost use Rattle.store_api.specs.Ledgers.{is_width, IsNew};

use crate::of_commits::{are_replaced, is_emptied, is_kept};
use crate::of_store::{is_full, is_made_again};
use crate::of_values::{Given, is_stored};
use crate::stores::new_store;
use arena_api::Work;
use array_store::class_of;
use entry_store::EntryStore;
use mem_work::OneRecord;
use std::alloc::{AllocError, Global};
use store_api::Store;

/// A test of a new store.
#[derive(Clone, Copy)]
pub enum Case<'a> {
    /// The expected entries before and after an undo.
    MadeAgain([u32; 4]),
    /// Records that replace each other under commits.
    Replaced,
    /// What is made after a committed record was dropped.
    Kept,
    /// A victim, which is finished or not, and how many entries of 34 words are made after the next commit.
    Emptied(bool, u32),
    /// Entries of the row's width are made until this many buffers are active and none is free: how many, and the last.
    Full(u32, u32, u32),
    /// A value; the first word of its record, and the second one, if it is compared.
    Value(Given<'a>, u64, Option<u64>),
}

/// A test, a width, and how many entries of that width are then made.
pub type Row<'a> = (Case<'a>, u32, u64);

/// The offset bits of a store, its buffers, and a test of it.
pub type StoreRow<'a> = (u32, u32, Row<'a>);

/// Returns the width of a number, or the least one of arrays that holds it.
fn width_of(number: u32) -> u32
    ensures { is_width result ≡ true }
{
    if number == 34 {
        return 34;
    }
    class_of(number.min(1024))
}

/// Returns whether a new store passes a test.
fn is_met<const OFFSET_BITS: u32, S: Store<OFFSET_BITS, Layout = OneRecord>>(
    alloc: Global,
    store: &mut S,
    row: &Row,
) -> Result<bool, AllocError>
    requires new { IsNew (S.ledger store.old) }
{
    match row.0 {
        Case::MadeAgain(wanted) => Ok(is_made_again(store, wanted)),
        Case::Replaced => Ok(are_replaced(store)),
        Case::Kept => Ok(is_kept(store)),
        Case::Emptied(finishes, made) => Ok(is_emptied(store, finishes, made)),
        Case::Full(active, count, last) => Ok(is_full(
            store,
            active,
            width_of(row.1),
            (count, last),
        )),
        Case::Value(given, first, second) => is_stored(alloc, store, given, first, second),
    }
}

/// Returns whether a new store passes a test, and the entries of a width are then as many as expected.
fn is_met_in<const OFFSET_BITS: u32, W: Work<OFFSET_BITS, Layout = OneRecord>>(
    alloc: Global,
    store: &mut EntryStore<OFFSET_BITS, W>,
    row: &Row,
) -> Result<bool, AllocError>
    requires new { IsNew (⟦<EntryStore<OFFSET_BITS, W> as Store<OFFSET_BITS>>⟧.ledger store.old) }
{
    let is_right = is_met(alloc, store, row)?;
    Ok(is_right & (store.made(width_of(row.1)) == row.2))
}

/// The same in a store of its own.
fn is_met_of<const OFFSET_BITS: u32>(
    alloc: Global,
    buffers: u32,
    row: &Row,
) -> Result<bool, AllocError>
    requires some { 1 ≤ buffers }
    requires few { buffers ≤ 1024 }
    requires named { buffers < buffer_limit OFFSET_BITS }
    requires offsets { 8192 ≤ offset_limit OFFSET_BITS }
{
    let mut store = new_store::<OFFSET_BITS>(alloc, buffers)?;
    is_met_in::<OFFSET_BITS, _>(alloc, &mut store, row)
}

fn is_right_in(alloc: Global, row: &StoreRow) -> Result<bool, AllocError> {
    if row.0 == 19 {
        return is_met_of::<19>(alloc, row.1.max(1).min(1024), &row.2);
    }
    is_met_of::<22>(alloc, row.1.max(1).min(1023), &row.2)
}

/// Returns the number of the first row whose test fails, or how many rows there are.
pub fn right_stores(alloc: Global, rows: &[StoreRow]) -> Result<usize, AllocError> {
    for (i, row) in rows.iter().enumerate() {
        if !is_right_in(alloc, row)? {
            return Ok(i);
        }
    }
    Ok(rows.len())
}

/// The same of stores of 22 bits with eight buffers.
pub fn right_rows(alloc: Global, rows: &[Row]) -> Result<usize, AllocError> {
    for (i, row) in rows.iter().enumerate() {
        if !is_met_of::<22>(alloc, 8, row)? {
            return Ok(i);
        }
    }
    Ok(rows.len())
}
