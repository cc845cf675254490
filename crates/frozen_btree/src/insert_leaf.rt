//! Inserts a pair into the slots of a leaf.

ghost use Rattle.std.specs.Prelude.{◌≡◌, ◌≤◌, ◌<◌, true, IfOk, IfErr};
ghost use Rattle.tree_read.specs.Nodes.{used_of, node_keys, node_values, IsNodeForm};
ghost use Rattle.store_api.specs.Calls.{Refuses};
ghost use Rattle.frozen_nodes.specs.Makes.{MakesNodes};
ghost use Rattle.frozen_nodes.specs.Parts.{MakesParts};
ghost use Rattle.frozen_btree.specs.Inserts.{put_at};

use frozen_nodes::{Parts, make_one, put_slot, set_slot};
use store_api::{Store, StoreError};
use tree_read::{NODE_WORDS, Spot, used_in};

/// Inserts a pair into the slots of a leaf in memory, at the position that the search found, and makes the leaf, or
/// two leaves if it was full.
pub fn put_pair<const OFFSET_BITS: u32, S: Store<OFFSET_BITS>>(
    store: &mut S,
    words: &mut [u64; NODE_WORDS],
    spot: Spot,
    word: u64,
    value: u64,
    near: u32,
) -> Result<Parts, StoreError>
    requires unit { (S.ledger store.old).unit ≡ true }
    requires form { IsNodeForm 0 1 words.old }
    requires within { spot.slot ≤ used_of words.old }
    requires found { spot.found ≡ true → spot.slot < used_of words.old }
    ensures parts { IfOk result (MakesParts (S.ledger store.old) (S.ledger store.new) (S.records store.old) (S.records store.new)
        0 (put_at spot.found spot.slot word (node_keys words.old)) (put_at spot.found spot.slot value (node_values words.old))) }
    ensures makes { MakesNodes (S.ledger store.old) (S.ledger store.new) (S.records store.old) (S.records store.new) 2 }
    ensures refuses { IfErr result (Refuses (S.ledger store.old) (S.ledger store.new) NODE_WORDS) }
{
    let pairs = used_in(words) as u64;
    if spot.found {
        set_slot(words, pairs, spot.slot, word, value);
        return make_one(store, words, near);
    }
    put_slot(store, words, pairs + 1, spot.slot, word, value, near)
}
