//! How a stored number compares, and equal keys with different words.
ghost use Rattle.std.specs.Prelude.{◌≡◌, false, IfOk};
ghost use Rattle.store_api.specs.Ledgers.{Ledger};
ghost use Rattle.test_trees.specs.Tens.{HoldsTens};

use crate::tens::put_word;
use crate::texts::push_numbers;
use crate::trees::records_of;
use arena_api::Frozen;
use entry_ref::{EntryRef, word_in, words_at};
use frozen_btree::{KeyOrder, NumberKey};
use std::alloc::{AllocError, Global};
use std::cmp::Ordering;
use std::collections::BTreeMap;
use store_api::{Store, StoreError};

/// Returns the result of a row: the comparison of a stored number with 2 to the power of 40.
pub fn beside<const OFFSET_BITS: u32, F: Frozen<OFFSET_BITS>>(
    frozen: &mut F,
    stored: u64,
    line: &mut String,
) -> Result<(), AllocError> {
    line.push_str(match NumberKey(1 << 40).compare(frozen, stored) {
        Ordering::Less => " below",
        Ordering::Equal => " equal",
        Ordering::Greater => " above",
    })
}

/// Makes a tree of 10 to 170 in steps of ten, in which the last keys of both leaves are replaced by other words.
fn two_replaced<const OFFSET_BITS: u32, S: Store<OFFSET_BITS>>(
    store: &mut S,
) -> Result<EntryRef<OFFSET_BITS>, StoreError>
    requires { (S.ledger store.old).unit ≡ false }
    ensures { IfOk result (HoldsTens (S.ledger store.new) (S.records store.new)) }
{
    store.begin();
    let mut root = EntryRef::from_raw(0);
    for i in 1..18u64 {
        root = put_word(store, root, 10 * i, i)?;
    }
    root = put_word(store, root, 95, 1)?;
    put_word(store, root, 179, 2)
}

/// Writes words 0 to 3 of a root, and words 0, 10 and 26 of its first child.
fn push_words(
    line: &mut String,
    records: &BTreeMap<u32, Vec<u64>>,
    root: u32,
) -> Result<(), AllocError> {
    let top = words_at(records, u64::from(root));
    let first = words_at(records, word_in(top, 18));
    push_numbers(
        line,
        &[
            word_in(top, 0),
            word_in(top, 1),
            word_in(top, 2),
            word_in(top, 3),
            word_in(first, 0),
            word_in(first, 10),
            word_in(first, 26),
        ],
    )
}

/// Returns the result of a row: the words of the nodes after the last key of each leaf was replaced.
pub fn replaced<const OFFSET_BITS: u32, S: Store<OFFSET_BITS>>(
    alloc: Global,
    store: &mut S,
    line: &mut String,
) -> Result<(), AllocError>
    requires { (S.ledger store.old).unit ≡ false }
{
    let Ok(root) = two_replaced(store) else {
        return line.push_str(" full");
    };
    let records = records_of(alloc, store, root)?;
    push_words(line, &records, root.raw())
}
