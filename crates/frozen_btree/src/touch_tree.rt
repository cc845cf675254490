//! Copies the nodes of a buffer on the way to a key.

ghost use Rattle.std.specs.Prelude.{◌≡◌, ◌∷◌, [], true, Ok, IfOk, IfErr, OnErr};
ghost use Rattle.tree_read.specs.Trees.{tree_pairs, IsTree, Keeps};
ghost use Rattle.tree_read.specs.Keys.{seen_by, AllReadable, KeepsOthers, IsKeyedTree};
ghost use Rattle.store_api.specs.Calls.{Refuses};
ghost use Rattle.store_api.specs.Parts.{Owns, Turns};
ghost use Rattle.store_api.specs.Units.{MayDo};
ghost use Rattle.frozen_btree.specs.Changes.{Rebuilds, levels, tree};
ghost use Rattle.frozen_nodes.specs.Makes.{CountsNodes, MakesNodes};
ghost use Rattle.frozen_btree.specs.Paths.{NoneIn, path_nodes};

use crate::drop_nodes;
use crate::touch_below::touch_below;
use arrayvec::ArrayVec;
use entry_ref::EntryRef;
use store_api::{Store, StoreError};
use tree_read::{KeyOrder, NODE_WORDS, read_head};

/// Makes the tree without nodes of the buffer on the way to a key, and adds the nodes of the old tree that the new
/// one lacks to the replaced ones.
fn make_anew<const OFFSET_BITS: u32, S: Store<OFFSET_BITS>, K: KeyOrder<OFFSET_BITS>>(
    store: &mut S,
    root: EntryRef<OFFSET_BITS>,
    key: &K,
    buffer: u32,
    replaced: &mut ArrayVec<u32, 8>,
) -> Result<EntryRef<OFFSET_BITS>, StoreError>
    requires unit { (S.ledger store.old).unit ≡ true }
    requires sealed { (S.ledger store.old).sealed buffer ≡ true }
    requires tree { IsTree K.order K.read (S.records store.old) root }
    requires readable { AllReadable K.can_read (S.records store.old) (tree_pairs (S.records store.old) root) }
    requires replaced { replaced.old.items ≡ [] }
    ensures rebuilds { IfOk result (λ r. Rebuilds (S.ledger store.old) (S.ledger store.new) (S.records store.old) (S.records store.new)
        root.entry r replaced.new.items (tree_pairs (S.records store.old) root.entry)) }
    ensures apart { IfOk result (λ r. NoneIn OFFSET_BITS buffer
        (path_nodes (S.records store.new) (seen_by K.read K.order (K.sought key.now) (S.records store.old)) r)) }
    ensures still { NoneIn OFFSET_BITS buffer
        (path_nodes (S.records store.old) (seen_by K.read K.order (K.sought key.now) (S.records store.old)) root.entry)
        → (result ≡ Ok root.entry) × ((store.new ≡ store.old) × (replaced.new.items ≡ [])) }
    ensures makes { MakesNodes (S.ledger store.old) (S.ledger store.new) (S.records store.old) (S.records store.new)
        (levels (S.records store.old) root.entry) }
    ensures refuses { IfErr result (Refuses (S.ledger store.old) (S.ledger store.new) NODE_WORDS) }
{
    if !root.valid() {
        return Ok(root);
    }
    let level = read_head(store, root).level;
    touch_below(store, root, level, key, buffer, replaced)
}

/// Copies the nodes on the way to a key that lie in a sealed buffer, and those above them. The pairs stay the same.
/// Afterwards no node on the way to the key lies in the buffer. Drops the nodes of the old tree that are not in the
/// new one.
pub fn touch<const OFFSET_BITS: u32, S: Store<OFFSET_BITS>, K: KeyOrder<OFFSET_BITS>>(
    store: &mut S,
    root: EntryRef<OFFSET_BITS>,
    key: &K,
    buffer: u32,
) -> Result<EntryRef<OFFSET_BITS>, StoreError>
    requires unit { (S.ledger store.old).unit ≡ true }
    requires sealed { (S.ledger store.old).sealed buffer ≡ true }
    requires keyed { IsKeyedTree K.order K.read K.can_read K.reads_from (S.records store.old) root }
    requires owns { Owns (S.ledger store.old) (S.records store.old) (tree root ∷ []) }
    ensures keyed { IfOk result (IsKeyedTree K.order K.read K.can_read K.reads_from (S.records store.new)) }
    ensures owns { IfOk result (λ r. Owns (S.ledger store.new) (S.records store.new) (tree r ∷ [])) }
    ensures pairs { IfOk result (λ r. tree_pairs (S.records store.new) r ≡ tree_pairs (S.records store.old) root.entry) }
    ensures apart { IfOk result (λ r. NoneIn OFFSET_BITS buffer
        (path_nodes (S.records store.new) (seen_by K.read K.order (K.sought key.now) (S.records store.old)) r)) }
    // If no such node lies in the buffer, the tree is unchanged, and nothing was made.
    ensures still { NoneIn OFFSET_BITS buffer
        (path_nodes (S.records store.old) (seen_by K.read K.order (K.sought key.now) (S.records store.old)) root.entry)
        → (result ≡ Ok root.entry) × (store.new ≡ store.old) }
    ensures turns { IfOk result (λ r. Turns (S.ledger store.old) (S.ledger store.new) (S.records store.old) (S.records store.new)
        (tree root.entry ∷ []) (tree r ∷ [])) }
    ensures others { KeepsOthers (S.records store.old) (S.records store.new) }
    ensures counts { CountsNodes (S.ledger store.old) (S.ledger store.new) (levels (S.records store.old) root.entry) }
    ensures left { OnErr result (Keeps (S.records store.old) (S.records store.new)) }
    ensures refuses { IfErr result (Refuses (S.ledger store.old) (S.ledger store.new) NODE_WORDS) }
    ensures may { MayDo (S.ledger store.old) (S.ledger store.new) }
{
    let mut replaced = ArrayVec::new();
    let next = make_anew(store, root, key, buffer, &mut replaced)?;
    drop_nodes(store, &replaced);
    Ok(next)
}
