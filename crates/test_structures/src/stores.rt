//! New stores for rows.

ghost use Rattle.std.specs.Prelude.{◌≡◌, ◌<◌, ◌≤◌, true, false, [], IfOk};
ghost use Rattle.entry_ref.specs.References.{buffer_limit, offset_limit};
ghost use Rattle.store_api.specs.Ledgers.{is_width, IsNew};
ghost use Rattle.store_api.specs.Units.{MayDo};
ghost use Rattle.store_api.specs.Parts.{Turns};

use arena_api::Oldest;
use entry_store::EntryStore;
use mem_work::{MemWork, OneRecord};
use std::alloc::{AllocError, Global};
use store_api::{Store, StoreError};

/// Creates a store over `buffers` buffers of 8,192 words.
pub fn new_store<const OFFSET_BITS: u32>(
    alloc: Global,
    buffers: u32,
) -> Result<EntryStore<OFFSET_BITS, MemWork<OFFSET_BITS, OneRecord>>, AllocError>
    requires some { 1 ≤ buffers }
    requires few { buffers ≤ 1024 }
    requires named { buffers < buffer_limit OFFSET_BITS }
    requires offsets { 8192 ≤ offset_limit OFFSET_BITS }
    ensures new { IfOk result (λ s. IsNew (⟦<EntryStore<OFFSET_BITS, MemWork<OFFSET_BITS, OneRecord>> as Store<OFFSET_BITS>>⟧.ledger s)) }
{
    let work = MemWork::create(alloc, buffers, 8192, 1)?;
    match EntryStore::create(alloc, work) {
        Ok(store) => Ok(store),
        Err(_) => Err(AllocError),
    }
}

/// How many entries of a width were made, the last of them, and why no more were made.
pub type Filled = (u32, u32, Option<StoreError>);

/// What is answered of holds where no reader is: the newest one, of this generation.
pub fn newest(generation: u64) -> Oldest {
    Oldest {
        generation,
        hold: 0,
        found: 0,
        newest: true,
    }
}

/// Why a store of this many active buffers makes no more entries of a width, in a generation.
pub fn full(width: u32, active: u32, generation: u64) -> Option<StoreError> {
    let oldest = newest(generation);
    Some(StoreError::Full {
        width,
        active,
        held: 0,
        oldest,
    })
}

/// Makes entries of a width until no more can be made.
pub fn fill<const OFFSET_BITS: u32, S: Store<OFFSET_BITS>>(store: &mut S, width: u32) -> Filled
    requires unit { (S.ledger store.old).unit ≡ true }
    requires width { is_width width ≡ true }
    ensures may { MayDo (S.ledger store.old) (S.ledger store.new) }
{
    let mut last = 0;
    for count in 0..10_000 {
        match store.make(width, &[]) {
            Ok(entry) => last = entry.raw(),
            Err(error) => return (count, last, Some(error)),
        }
    }
    (10_000, last, None)
}

/// The same in a unit that is undone.
pub fn fill_undone<const OFFSET_BITS: u32, S: Store<OFFSET_BITS>>(
    store: &mut S,
    width: u32,
) -> Filled
    requires unit { (S.ledger store.old).unit ≡ false }
    requires width { is_width width ≡ true }
    ensures unit { (S.ledger store.new).unit ≡ false }
    ensures turns { Turns (S.ledger store.old) (S.ledger store.new) (S.records store.old) (S.records store.new) [] [] }
    ensures sealed { (S.ledger store.new).sealed ≡ (S.ledger store.old).sealed }
    ensures finished { (S.ledger store.new).finished ≡ (S.ledger store.old).finished }
{
    store.begin();
    let filled = fill(store, width);
    store.undo();
    filled
}
