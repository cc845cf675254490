//! Makes a short list in place of another.

ghost use Rattle.std.specs.Prelude.{◌≡◌, ◌≤◌, ◌∷◌, [], true, false, length, map, IfOk, IfErr};
ghost use Rattle.store_api.specs.Calls.{RefusesOf};
ghost use Rattle.store_api.specs.Parts.{Owns};
ghost use Rattle.store_api.specs.Units.{MayDo, MakesWithin};
ghost use Rattle.image_format.specs.Words.{unpacked};
ghost use Rattle.posting_store.specs.Changes.{list_part, list_most, IsListWidth, MakesList};
ghost use Rattle.posting_store.specs.Lists.{AreDocuments, IsList};

use crate::dropping::drop_list;
use crate::making::make_list;
use crate::posting::Posting;
use store_api::{Store, StoreError};

/// Makes a list of at most nine items in place of another list, whose records are dropped.
pub fn replace_list<const OFFSET_BITS: u32, S: Store<OFFSET_BITS>>(
    store: &mut S,
    list: Posting,
    items: &[u64],
) -> Result<Posting, StoreError>
    requires unit { (S.ledger store.old).unit ≡ true }
    requires list { IsList (S.records store.old) list }
    requires owns { Owns (S.ledger store.old) (S.records store.old) (list_part list ∷ []) }
    requires few { length items.now ≤ 9 }
    requires documents { AreDocuments (map unpacked items.now) }
    ensures makes { IfOk result (MakesList (S.ledger store.old) (S.ledger store.new) (S.records store.old) (S.records store.new)
        list (map unpacked items.now) false) }
    ensures counts { MakesWithin (S.ledger store.old) (S.ledger store.new) (list_most 0 (length items.now)) }
    ensures refuses { IfErr result (RefusesOf (IsListWidth (length items.now)) (S.ledger store.old) (S.ledger store.new)) }
    ensures may { MayDo (S.ledger store.old) (S.ledger store.new) }
{
    let next = make_list(store, items)?;
    drop_list(store, list);
    Ok(next)
}
