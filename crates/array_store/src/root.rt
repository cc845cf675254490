//! A root record: it is made in place of the one before, if there was one. Reference 0 says that there was none.
ghost use Rattle.std.specs.Prelude.{◌≡◌, ◌≤◌, ◌∷◌, ℕ, [], true, length, IfOk, IfErr, OnErr};
ghost use Rattle.image_format.specs.Words.{class_of};
ghost use Rattle.store_api.specs.Calls.{Refuses};
ghost use Rattle.store_api.specs.Parts.{Owns, Turns, entries};
ghost use Rattle.store_api.specs.Units.{MayDo, MakesAtMost};
ghost use Rattle.array_store.specs.Adding.{MakesOneOf};
ghost use Rattle.array_store.specs.Roots.{MakesRootRecord, root_entries};

use crate::MOST_WORDS;
use crate::record::make_record;
use entry_ref::EntryRef;
use store_api::{Store, StoreError, drop_one, may_do_law};

/// Drops a root record, if there is one.
#[tactic(none)]
fn drop_root<const OFFSET_BITS: u32, S: Store<OFFSET_BITS>>(
    store: &mut S,
    root: EntryRef<OFFSET_BITS>,
)
    requires unit { (S.ledger store.old).unit ≡ true }
    requires owns { Owns (S.ledger store.old) (S.records store.old) (entries (root_entries root) ∷ []) }
    ensures turns { Turns (S.ledger store.old) (S.ledger store.new) (S.records store.old) (S.records store.new)
        (entries (root_entries root.entry) ∷ []) [] }
    ensures none_made { (c w : ℕ) → MakesAtMost c 0 ((S.ledger store.old).of_width w) ((S.ledger store.new).of_width w) }
    ensures may { MayDo (S.ledger store.old) (S.ledger store.new) }
{
    may_do_law::<OFFSET_BITS, S>();
    if root.valid() {
        drop_one(store, root);
    }
}

/// Makes a root record of these words, and drops the previous one, if any.
#[tactic(none)]
pub fn turn_root<const OFFSET_BITS: u32, S: Store<OFFSET_BITS>>(
    store: &mut S,
    words: &[u64],
    before: EntryRef<OFFSET_BITS>,
) -> Result<EntryRef<OFFSET_BITS>, StoreError>
    requires unit { (S.ledger store.old).unit ≡ true }
    requires few { length words.now ≤ MOST_WORDS }
    requires owns { Owns (S.ledger store.old) (S.records store.old) (entries (root_entries before) ∷ []) }
    ensures makes { IfOk result (MakesRootRecord OFFSET_BITS (S.ledger store.old) (S.ledger store.new) (S.records store.old)
        (S.records store.new) words.now before.entry) }
    ensures refuses { IfErr result (Refuses (S.ledger store.old) (S.ledger store.new) (class_of (length words.now))) }
    ensures none_made { OnErr result ((c w : ℕ) → MakesAtMost c 0 ((S.ledger store.old).of_width w) ((S.ledger store.new).of_width w)) }
    ensures counts { MakesOneOf (class_of (length words.now)) (S.ledger store.old) (S.ledger store.new) }
    ensures may { MayDo (S.ledger store.old) (S.ledger store.new) }
{
    may_do_law::<OFFSET_BITS, S>();
    let root = make_record(store, words)?;
    drop_root(store, before);
    Ok(root)
}
