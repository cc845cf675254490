//! Drops the nodes that a change replaced.

ghost use Rattle.std.specs.Prelude.{◌≡◌, ◌∷◌, [], true};
ghost use Rattle.store_api.specs.Parts.{Owns, entries};
ghost use Rattle.frozen_btree.specs.Changes.{DropsEntries};

use entry_ref::EntryRef;
use store_api::Store;

/// Drops the entries with these references, which must be owned.
pub fn drop_nodes<const OFFSET_BITS: u32, S: Store<OFFSET_BITS>>(store: &mut S, nodes: &[u32])
    requires unit { (S.ledger store.old).unit ≡ true }
    requires owns { Owns (S.ledger store.old) (S.records store.old) (entries nodes.now ∷ []) }
    ensures drops { DropsEntries (S.ledger store.old) (S.ledger store.new) (S.records store.old) (S.records store.new) nodes.now }
    ensures none { nodes.now ≡ [] → store.new ≡ store.old }
{
    for node in nodes {
        store.drop_entry(EntryRef::from_raw(*node));
    }
}
