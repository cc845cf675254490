//! Laws of stores and of what structures own in them.

ghost use Rattle.std.specs.Prelude.{◌≡◌, ◌<◌, ◌≤◌, ◌*◌, ◌∷◌, [], ℕ, List, length, nat_eq, true, false};
ghost use Rattle.entry_ref.specs.References.{buffer_of};
ghost use Rattle.entry_ref.specs.Images.{image_of, words_at};
ghost use Rattle.entry_ref.specs.Records.{Records, AllThere, Among};
ghost use Rattle.std.specs.List.{IsDistinct, AllByRecursion};
ghost use Rattle.entry_ref.specs.Places.{IsEntry};
ghost use Rattle.store_api.specs.Ledgers.{capacity, is_this};
ghost use Rattle.store_api.specs.Calls.{Accepts, IsWhole, StoresCommit};
ghost use Rattle.store_api.specs.Parts.{Part, After, Owns, OwnsAll, Turns, count_in};
ghost use Rattle.store_api.specs.Units.{MayDo};

use crate::store::Store;

/// `MayDo`, the relation of what a unit may do, is reflexive and transitive.
pub fn may_do_law<const OFFSET_BITS: u32, S: Store<OFFSET_BITS>>()
    ensures same { (s : S) → MayDo (S.ledger s) (S.ledger s) }
    ensures then { (a b c : S) → MayDo (S.ledger a) (S.ledger b) → MayDo (S.ledger b) (S.ledger c)
        → MayDo (S.ledger a) (S.ledger c) }
{}

/// The number of distinct entries of one width is at most the number of its offsets in all buffers. For tree nodes
/// that is at most 1,973,790.
pub fn counting_law()
    ensures entries { (bits buffers words width : ℕ) (refs : List ℕ) → IsDistinct nat_eq refs
        → AllByRecursion (IsEntry bits buffers words width) refs → length refs ≤ buffers * capacity words width }
    ensures nodes { (buffers words : ℕ) → buffers * words ≤ 67108864 → buffers * capacity words 34 ≤ 1973790 }
{}

/// If a part is all that is in use except records in sealed buffers, it can be committed, and afterwards it is all
/// that is in use.
pub fn parts_law<const OFFSET_BITS: u32, S: Store<OFFSET_BITS>>()
    ensures whole { (s : S) (m : Records) (part : Part) (rest : List Part) → OwnsAll (S.ledger s) m (part ∷ rest)
        → ((r : ℕ) → 0 < count_in r m rest → (S.ledger s).sealed (buffer_of OFFSET_BITS r) ≡ true)
        → ((r : ℕ) → Among r (part.reach m) → is_this (S.ledger s).finished (buffer_of OFFSET_BITS r) ≡ false)
        → IsWhole OFFSET_BITS (S.ledger s) (part.reach m) }
    ensures commit { (s t : S) (m : Records) (part : Part) (rest : List Part) (root : ℕ) (answer : _)
        → OwnsAll (S.ledger s) m (part ∷ rest) → IsWhole OFFSET_BITS (S.ledger s) (part.reach m) → AllThere (part.reach m) m
        → StoresCommit OFFSET_BITS (S.ledger s) (S.ledger t) (image_of (part.reach m) m root) answer
        → OwnsAll (S.ledger t) (words_at (image_of (part.reach m) m root)) (part ∷ []) }
    ensures unit { (s begun mid t : S) (k m n o : Records) (parts next : List Part) → Owns (S.ledger s) k parts
        → S.ledger begun ≡ record (S.ledger s) { unit = true } → m ≡ k
        → Turns (S.ledger begun) (S.ledger mid) m n parts next → Accepts (S.ledger mid) (S.ledger t) n o
        → After (S.ledger s) (S.ledger t) k o parts next [] }
{}
