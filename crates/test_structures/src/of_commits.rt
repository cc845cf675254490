//! Rows of commits of a root record.

ghost use Rattle.std.specs.Prelude.{◌≡◌, ◌<◌, ◌≤◌, true, false, [], ◌∷◌, None, IfOk, OnOk};
ghost use Rattle.entry_ref.specs.References.{buffer_of};
ghost use Rattle.store_api.specs.Ledgers.{is_width, is_this, IsNew};
ghost use Rattle.store_api.specs.Parts.{OwnsAll, entry};

use crate::stores::{Filled, fill, fill_undone, full, newest};
use arena_api::Advance;
use entry_ref::EntryRef;
use mem_work::OneRecord;
use store_api::{Store, StoreError, Stored, drop_one, make_entry};

/// Makes a first record, when nothing is in use.
fn make_root<const OFFSET_BITS: u32, S: Store<OFFSET_BITS>>(
    store: &mut S,
    width: u32,
) -> Result<EntryRef<OFFSET_BITS>, StoreError>
    requires unit { (S.ledger store.old).unit ≡ false }
    requires width { is_width width ≡ true }
    requires owns { OwnsAll (S.ledger store.old) (S.records store.old) [] }
    ensures unit { OnOk result ((S.ledger store.new).unit ≡ false) }
    ensures owns { IfOk result (λ r. OwnsAll (S.ledger store.new) (S.records store.new) (entry r ∷ [])) }
    ensures apart { IfOk result (λ r. is_this (S.ledger store.new).finished (buffer_of OFFSET_BITS r) ≡ false) }
{
    store.begin();
    let root = make_entry(store, width, &[])?;
    store.accept();
    Ok(root)
}

/// Makes another record in place of the one in use.
fn next_root<const OFFSET_BITS: u32, S: Store<OFFSET_BITS>>(
    store: &mut S,
    width: u32,
    root: EntryRef<OFFSET_BITS>,
) -> Result<EntryRef<OFFSET_BITS>, StoreError>
    requires unit { (S.ledger store.old).unit ≡ false }
    requires width { is_width width ≡ true }
    requires owns { OwnsAll (S.ledger store.old) (S.records store.old) (entry root ∷ []) }
    ensures unit { OnOk result ((S.ledger store.new).unit ≡ false) }
    ensures owns { IfOk result (λ r. OwnsAll (S.ledger store.new) (S.records store.new) (entry r ∷ [])) }
    ensures apart { IfOk result (λ r. is_this (S.ledger store.new).finished (buffer_of OFFSET_BITS r) ≡ false) }
{
    store.begin();
    let next = make_entry(store, width, &[])?;
    drop_one(store, root);
    store.accept();
    Ok(next)
}

/// Commits the record in use, if a commit is possible.
fn commit_root<const OFFSET_BITS: u32, S: Store<OFFSET_BITS, Layout = OneRecord>>(
    store: &mut S,
    root: EntryRef<OFFSET_BITS>,
) -> Option<Stored>
    requires unit { (S.ledger store.old).unit ≡ false }
    requires owns { OwnsAll (S.ledger store.old) (S.records store.old) (entry root ∷ []) }
    requires apart { is_this (S.ledger store.old).finished (buffer_of OFFSET_BITS root) ≡ false }
    ensures unit { (S.ledger store.new).unit ≡ false }
    ensures owns { OwnsAll (S.ledger store.new) (S.records store.new) (entry root.entry ∷ []) }
{
    if store.commits_left() == 0 {
        return None;
    }
    Some(store.commit(root))
}

/// Makes four records, each in place of the previous one and committed, and returns the result of the last commit.
fn replace_roots<const OFFSET_BITS: u32, S: Store<OFFSET_BITS, Layout = OneRecord>>(
    store: &mut S,
    width: u32,
) -> Result<([u32; 4], Option<Stored>), StoreError>
    requires new { IsNew (S.ledger store.old) }
    requires width { is_width width ≡ true }
{
    let first = make_root(store, width)?;
    let _ = commit_root(store, first);
    let second = next_root(store, width, first)?;
    let _ = commit_root(store, second);
    let third = next_root(store, width, second)?;
    let _ = commit_root(store, third);
    let fourth = next_root(store, width, third)?;
    let last = commit_root(store, fourth);
    Ok(([first.raw(), second.raw(), third.raw(), fourth.raw()], last))
}

/// Returns whether four records replace each other, with the third in the place of the first.
pub fn are_replaced<const OFFSET_BITS: u32, S: Store<OFFSET_BITS, Layout = OneRecord>>(
    store: &mut S,
) -> bool
    requires new { IsNew (S.ledger store.old) }
{
    let stored = Stored {
        commit: 4,
        advance: Advance::To {
            generation: 4,
            hold: 0,
        },
        oldest: newest(4),
    };
    let roots = replace_roots(store, 1024);
    roots == Ok(([1024, 2048, 1024, 2048], Some(stored))) && store.commits_left() == 4_294_967_291
}

/// Returns what is made of a width after a committed record was dropped in the unit, and after the drop was undone.
fn fill_after_drop<const OFFSET_BITS: u32, S: Store<OFFSET_BITS, Layout = OneRecord>>(
    store: &mut S,
    width: u32,
) -> Result<[Filled; 2], StoreError>
    requires new { IsNew (S.ledger store.old) }
    requires width { is_width width ≡ true }
{
    let root = make_root(store, width)?;
    let _ = commit_root(store, root);
    store.begin();
    drop_one(store, root);
    let dropped = fill(store, width);
    store.undo();
    Ok([dropped, fill_undone(store, width)])
}

/// Returns whether six entries were made twice, before the store was full.
fn is_full_of_six(filled: [Filled; 2]) -> bool {
    let [dropped, undone] = filled;
    let full = full(1024, 1, 1);
    dropped == (6, 7168, full) && undone.0 == 6 && undone.2 == full
}

/// Returns whether a dropped record of the last commit still occupies its place.
pub fn is_kept<const OFFSET_BITS: u32, S: Store<OFFSET_BITS, Layout = OneRecord>>(
    store: &mut S,
) -> bool
    requires new { IsNew (S.ledger store.old) }
{
    match fill_after_drop(store, 1024) {
        Ok(filled) => is_full_of_six(filled),
        Err(_) => false,
    }
}

/// Seals the victim, if there is one, and finishes it on request.
fn seal_victim<const OFFSET_BITS: u32, S: Store<OFFSET_BITS>>(
    store: &mut S,
    finishes: bool,
) -> Option<u32>
    requires unit { (S.ledger store.old).unit ≡ false }
    requires none { (S.ledger store.old).finished ≡ None }
    requires owns { OwnsAll (S.ledger store.old) (S.records store.old) [] }
    ensures unit { (S.ledger store.new).unit ≡ false }
    ensures owns { OwnsAll (S.ledger store.new) (S.records store.new) [] }
{
    match store.choose_victim() {
        Some(buffer) => {
            store.seal(buffer);
            if finishes {
                store.finish(buffer);
                return Some(buffer);
            }
            Some(buffer)
        }
        None => None,
    }
}

/// Returns what is made after two buffers were filled and emptied; after the victim was sealed and a record was made;
/// and after a commit, which puts the victim on hold if it is finished.
fn empty_victim<const OFFSET_BITS: u32, S: Store<OFFSET_BITS, Layout = OneRecord>>(
    store: &mut S,
    finishes: bool,
) -> Result<(Option<u32>, [Filled; 3]), StoreError>
    requires new { IsNew (S.ledger store.old) }
{
    let first = fill_undone(store, 1024);
    let victim = seal_victim(store, finishes);
    let root = make_root(store, 1024)?;
    let sealed = fill_undone(store, 1024);
    let _ = commit_root(store, root);
    Ok((victim, [first, sealed, fill_undone(store, 34)]))
}

fn is_first_emptied(emptied: (Option<u32>, [Filled; 3]), made: u32) -> bool {
    let (victim, [first, sealed, nodes]) = emptied;
    victim == Some(0) && first.0 == 14 && sealed.0 == 6 && nodes.0 == made
}

/// Returns whether the first buffer is the victim, and the expected number of entries of 34 words is made after the
/// commit.
pub fn is_emptied<const OFFSET_BITS: u32, S: Store<OFFSET_BITS, Layout = OneRecord>>(
    store: &mut S,
    finishes: bool,
    made: u32,
) -> bool
    requires new { IsNew (S.ledger store.old) }
{
    match empty_victim(store, finishes) {
        Ok(emptied) => is_first_emptied(emptied, made),
        Err(_) => false,
    }
}
