//! Drops the records of a list.

ghost use Rattle.std.specs.Prelude.{◌≡◌, ◌∷◌, [], ℕ, true};
ghost use Rattle.store_api.specs.Parts.{Owns, Turns};
ghost use Rattle.store_api.specs.Units.{MayDo, MakesAtMost};
ghost use Rattle.posting_store.specs.Changes.{list_part};
ghost use Rattle.posting_store.specs.Lists.{is_vector, IsList, IsPlain};

use crate::posting::{Posting, root_of};
use bit_vector::drop_vector;
use frozen_btree::drop_tree;
use store_api::{Store, drop_one};

/// Drops the records of a list that is no bit vector.
fn drop_plain<const OFFSET_BITS: u32, S: Store<OFFSET_BITS>>(store: &mut S, list: Posting)
    requires unit { (S.ledger store.old).unit ≡ true }
    requires list { IsList (S.records store.old) list }
    requires plain { IsPlain list }
    requires owns { Owns (S.ledger store.old) (S.records store.old) (list_part list ∷ []) }
    ensures turns { Turns (S.ledger store.old) (S.ledger store.new) (S.records store.old) (S.records store.new)
        (list_part list ∷ []) [] }
    ensures none_made { (c w : ℕ) → MakesAtMost c 0 ((S.ledger store.old).of_width w) ((S.ledger store.new).of_width w) }
    ensures may { MayDo (S.ledger store.old) (S.ledger store.new) }
{
    let record = list.entry();
    if list.is_tree() {
        drop_tree(store, record);
    } else if record.valid() {
        drop_one(store, record);
    }
}

/// Drops the records of a list that is a bit vector.
fn drop_blocks<const OFFSET_BITS: u32, S: Store<OFFSET_BITS>>(store: &mut S, list: Posting)
    requires unit { (S.ledger store.old).unit ≡ true }
    requires list { IsList (S.records store.old) list }
    requires vector { is_vector list ≡ true }
    requires owns { Owns (S.ledger store.old) (S.records store.old) (list_part list ∷ []) }
    ensures turns { Turns (S.ledger store.old) (S.ledger store.new) (S.records store.old) (S.records store.new)
        (list_part list ∷ []) [] }
    ensures none_made { (c w : ℕ) → MakesAtMost c 0 ((S.ledger store.old).of_width w) ((S.ledger store.new).of_width w) }
    ensures may { MayDo (S.ledger store.old) (S.ledger store.new) }
{
    let root = root_of(store, list);
    drop_vector(store, root);
}

/// Drops the records of a list.
pub fn drop_list<const OFFSET_BITS: u32, S: Store<OFFSET_BITS>>(store: &mut S, list: Posting)
    requires unit { (S.ledger store.old).unit ≡ true }
    requires list { IsList (S.records store.old) list }
    requires owns { Owns (S.ledger store.old) (S.records store.old) (list_part list ∷ []) }
    ensures turns { Turns (S.ledger store.old) (S.ledger store.new) (S.records store.old) (S.records store.new)
        (list_part list ∷ []) [] }
    ensures none_made { (c w : ℕ) → MakesAtMost c 0 ((S.ledger store.old).of_width w) ((S.ledger store.new).of_width w) }
    ensures may { MayDo (S.ledger store.old) (S.ledger store.new) }
{
    if list.is_vector() {
        drop_blocks(store, list);
    } else {
        drop_plain(store, list);
    }
}
