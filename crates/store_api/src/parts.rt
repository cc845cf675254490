//! Makes and drops one entry that a structure owns.

ghost use Rattle.std.specs.Prelude.{◌≡◌, ◌≢◌, ◌≤◌, [], ◌∷◌, ℕ, true, false, length, IfOk, IfErr, OnErr};
ghost use Rattle.entry_ref.specs.References.{buffer_of};
ghost use Rattle.arena_api.specs.Calls.{padded};
ghost use Rattle.store_api.specs.Ledgers.{capacity, is_width};
ghost use Rattle.store_api.specs.Units.{MayDo, MakesAtMost};
ghost use Rattle.store_api.specs.Calls.{Refuses};
ghost use Rattle.store_api.specs.Parts.{Owns, Turns, entry, uses};

use crate::store::{Store, StoreError};
use entry_ref::EntryRef;

/// Makes an entry, which the caller owns from now on. Nothing else changes.
pub fn make_entry<const OFFSET_BITS: u32, S: Store<OFFSET_BITS>>(
    store: &mut S,
    width: u32,
    words: &[u64],
) -> Result<EntryRef<OFFSET_BITS>, StoreError>
    requires unit { (S.ledger store.old).unit ≡ true }
    requires width { is_width width ≡ true }
    requires fits { length words.now ≤ width }
    ensures turns { IfOk result (λ r. Turns (S.ledger store.old) (S.ledger store.new) (S.records store.old) (S.records store.new)
        [] (entry r ∷ [])) }
    ensures words { IfOk result (λ r. S.records store.new r ≡ padded words.now width) }
    ensures none { IfOk result (λ r. S.records store.old r ≡ []) }
    ensures unsealed { IfOk result (λ r. (S.ledger store.new).sealed (buffer_of OFFSET_BITS r) ≡ false) }
    ensures refuses { IfErr result (Refuses (S.ledger store.old) (S.ledger store.new) width) }
    ensures still { OnErr result (Turns (S.ledger store.old) (S.ledger store.new) (S.records store.old) (S.records store.new) [] []) }
    ensures left { OnErr result (S.records store.new ≡ S.records store.old) }
    ensures one { MakesAtMost (capacity (S.ledger store.old).work.sizes.words width) 1
        ((S.ledger store.old).of_width width) ((S.ledger store.new).of_width width) }
    ensures others { (c w : ℕ) → w ≢ width → MakesAtMost c 0 ((S.ledger store.old).of_width w) ((S.ledger store.new).of_width w) }
    ensures may { MayDo (S.ledger store.old) (S.ledger store.new) }
{
    store.make(width, words)
}

/// Drops an owned entry.
pub fn drop_one<const OFFSET_BITS: u32, S: Store<OFFSET_BITS>>(
    store: &mut S,
    gone: EntryRef<OFFSET_BITS>,
)
    requires unit { (S.ledger store.old).unit ≡ true }
    requires owns { Owns (S.ledger store.old) (S.records store.old) (entry gone ∷ []) }
    ensures turns { Turns (S.ledger store.old) (S.ledger store.new) (S.records store.old) (S.records store.new)
        (entry gone.entry ∷ []) [] }
    ensures none_made { (c w : ℕ) → MakesAtMost c 0 ((S.ledger store.old).of_width w) ((S.ledger store.new).of_width w) }
    ensures may { MayDo (S.ledger store.old) (S.ledger store.new) }
{
    store.drop_entry(gone);
}
