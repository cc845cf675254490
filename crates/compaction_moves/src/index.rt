//! Laws of moves in an index. Each function does nothing; its contract is the law.
ghost use Rattle.std.specs.Prelude.{◌≡◌, ℕ, true};
ghost use Rattle.store_api.specs.Statuses.{in_use};
ghost use Rattle.store_api.specs.Units.{MayDo};
ghost use Rattle.compaction_moves.specs.IndexLaws.{KeyMoveClears, KeysAreSame, ListMoveClears, NodeMoveClears};
ghost use Rattle.compaction_moves.specs.IndexTurns.{LeavesBuffer};

use store_api::Store;

/// What a move of a key, of a list, or of the nodes on the way to a value clears: if everything up to a place was
/// cleared, then everything up to the moved key, the next of its phase, is cleared.
#[tactic(none)]
pub fn moved_law<const OFFSET_BITS: u32, S: Store<OFFSET_BITS>>()
    ensures key { KeyMoveClears S.Home }
    ensures list { ListMoveClears S.Home }
    ensures nodes { NodeMoveClears S.Home }
{}

/// The keys of each phase are the same if the contents of the index and the column are the same.
#[tactic(none)]
pub fn keys_law()
    ensures { KeysAreSame }
{}

/// In a unit that has just begun, a store makes nothing in a sealed buffer, and what is in use keeps its words.
#[tactic(none)]
pub fn leaves_law<const OFFSET_BITS: u32, S: Store<OFFSET_BITS>>()
    ensures { (victim : ℕ) (s t : S) → (S.ledger s).sealed victim ≡ true
        → ((r : ℕ) → in_use ((S.ledger s).status r) ≡ true → in_use ((S.ledger s).back r) ≡ true) → MayDo (S.ledger s) (S.ledger t)
        → LeavesBuffer OFFSET_BITS victim (S.ledger s) (S.ledger t) (S.records s) (S.records t) }
{}
