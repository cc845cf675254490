//! A sorted list of changes of a tree.
ghost use Rattle.std.specs.Prelude.{ℕ, false, ◌≡◌, ◌<◌, ◌≤◌, ◌+◌, ◌-◌, ◌*◌, ◌^◌, ◌∷◌, [], List, true, length, drop, map, IfOk, IfErr, OnErr, OnOk};
ghost use Rattle.std.specs.List.{AllByRecursion};
ghost use Rattle.std.specs.List.Sorted.{IsStrictlySortedBy};
ghost use Rattle.tree_read.specs.Trees.{tree_pairs, tree_nodes, Keeps};
ghost use Rattle.tree_read.specs.Keys.{KeepsOthers, IsKeyedTree};
ghost use Rattle.tree_read.specs.declared.node_format.TheConstants.{NODE_WORDS};
ghost use Rattle.store_api.specs.Calls.{Refuses};
ghost use Rattle.store_api.specs.Ledgers.{Ledger};
ghost use Rattle.store_api.specs.declared.store.StoreError.TheVariants.{Memory};
ghost use Rattle.store_api.specs.Parts.{times, uses, Owns, Turns};
ghost use Rattle.store_api.specs.Units.{MayDo};
ghost use Rattle.frozen_btree.specs.Changes.{levels, tree};
ghost use Rattle.frozen_nodes.specs.Makes.{CountsNodes};
ghost use Rattle.tree_changes.specs.Counts.{FitBudgets, SpendsBelow, all_of, first_slots, last_of, no_budgets, slots_in};
ghost use Rattle.tree_changes.specs.Merges.{merged};
ghost use Rattle.tree_changes.specs.Layers.{rows_pairs, rows_nodes, seen_changes, AreEmpty, AreInHand, IsPairOf, FinishesRows, RebuildsTree, TurnsRows};

use crate::change_below::{Change, change_below, change_leaf};
use crate::layers::{lengthen, raise};
use entry_ref::EntryRef;
use frozen_btree::{Row, build_over, drop_nodes};
use std::alloc::Global;
use store_api::{Store, StoreError};
use tree_read::{KeyOrder, read_head};

/// Returns eight rows without slots.
fn empty_rows(alloc: Global) -> Result<Vec<Row>, StoreError>
    ensures empty { IfOk result (λ rows. AreEmpty rows.items) }
    ensures none { IfOk result (λ rows. AllByRecursion (λ row. row.nodes.items ≡ []) rows.items) }
    ensures size { IfOk result (λ rows. length rows.items ≡ 8) }
    ensures memory { IfErr result (λ error. error ≡ Memory) }
{
    let mut rows = Vec::new(alloc);
    for _ in 0..8_usize {
        let row = Row {
            keys: Vec::new(alloc),
            nodes: Vec::new(alloc),
        };
        if rows.push(row).is_err() {
            return Err(StoreError::Memory);
        }
    }
    Ok(rows)
}

/// Returns whether no row has slots.
fn are_empty(rows: &[Row]) -> bool
    ensures empty { result ≡ true → AreEmpty rows.now }
    ensures some { result ≡ false → ¬ AreEmpty rows.now }
{
    for row in rows {
        if !row.keys.is_empty() {
            return false;
        }
    }
    true
}

/// Makes the tree of all rows.
fn finish<const OFFSET_BITS: u32, S: Store<OFFSET_BITS>>(
    alloc: Global,
    store: &mut S,
    level: u64,
    rows: &mut [Row],
    replaced: &mut Vec<u32>,
) -> Result<EntryRef<OFFSET_BITS>, StoreError>
    requires unit { (S.ledger store.old).unit ≡ true }
    requires rows { level + length rows.old ≡ 8 }
    requires some { 0 < length rows.old }
    requires hand { AreInHand (S.records store.old) level rows.old }
    requires few { length (rows_pairs (S.records store.old) level rows.old) < 2 ^ 32 }
    requires slots { 0 < level → 0 < length (rows_pairs (S.records store.old) level rows.old) }
    requires owned { (r : ℕ) → times r (rows_nodes (S.records store.old) level rows.old) + times r replaced.old.items
        ≤ uses (S.ledger store.old) r }
    ensures finishes { IfOk result (FinishesRows (S.ledger store.old) (S.ledger store.new) (S.records store.old) (S.records store.new)
        level rows.old replaced.old.items replaced.new.items) }
    ensures counts { (budgets : List ℕ) → FitBudgets 0 budgets rows.old → slots_in (drop (length budgets) rows.old) ≡ 0
        → 0 < last_of 0 budgets → CountsNodes (S.ledger store.old) (S.ledger store.new) (2 * all_of budgets + last_of 0 budgets) }
    ensures alone { slots_in (drop 1 rows.old) ≡ 0
        → CountsNodes (S.ledger store.old) (S.ledger store.new) (first_slots rows.old + (1 - first_slots rows.old)) }
    ensures keeps { Keeps (S.records store.old) (S.records store.new) }
    ensures stays { (r : ℕ) → uses (S.ledger store.old) r ≤ uses (S.ledger store.new) r }
    ensures may { MayDo (S.ledger store.old) (S.ledger store.new) }
    ensures refuses { IfErr result (Refuses (S.ledger store.old) (S.ledger store.new) NODE_WORDS) }
{
    lengthen(alloc, store, level, rows, replaced)?;
    let Some((row, above)) = rows.split_first_mut() else {
        return Ok(EntryRef::from_raw(0));
    };
    if are_empty(above) {
        return build_over(alloc, store, level, &row.keys, &row.nodes);
    }
    raise(alloc, store, level, row, above)?;
    finish(alloc, store, level + 1, above, replaced)
}

/// Appends the pairs of a tree after the changes to rows without slots. Adds the nodes that the new tree lacks to the
/// replaced ones.
fn fill_rows<const OFFSET_BITS: u32, S: Store<OFFSET_BITS>, K: KeyOrder<OFFSET_BITS>>(
    alloc: Global,
    store: &mut S,
    root: EntryRef<OFFSET_BITS>,
    changes: &[Change<K>],
    rows: &mut [Row],
    replaced: &mut Vec<u32>,
) -> Result<(), StoreError>
    requires unit { (S.ledger store.old).unit ≡ true }
    requires keyed { IsKeyedTree K.order K.read K.can_read K.reads_from (S.records store.old) root }
    requires sorted { IsStrictlySortedBy K.order (map (λ change. K.sought change.key) changes.now) }
    requires few { length changes.now < 2 ^ 31 }
    requires rows { length rows.old ≡ 8 }
    requires empty { AreEmpty rows.old }
    requires hand { AreInHand (S.records store.old) 0 rows.old }
    ensures turns { OnOk result (TurnsRows (S.ledger store.old) (S.ledger store.new) (S.records store.old) (S.records store.new)
        0 rows.old rows.new
        (merged (seen_changes K.read K.order (λ change. K.sought change.key) (λ change. change.pair) (S.records store.old) changes.now)
        (tree_pairs (S.records store.old) root.entry))
        (tree_nodes (S.records store.old) root.entry) replaced.old.items replaced.new.items) }
    ensures spends { OnOk result (0 < root.entry → 0 < length changes.now
        → SpendsBelow (S.ledger store.old) (S.ledger store.new) (length changes.now)
        (no_budgets (levels (S.records store.old) root.entry)) rows.old rows.new) }
    ensures alone { OnOk result (root.entry ≡ 0 → (first_slots rows.new ≤ length changes.now) × (slots_in (drop 1 rows.new) ≡ 0)) }
    ensures counts { CountsNodes (S.ledger store.old) (S.ledger store.new)
        (2 * (levels (S.records store.old) root.entry * length changes.now)) }
    ensures keeps { Keeps (S.records store.old) (S.records store.new) }
    ensures stays { (r : ℕ) → uses (S.ledger store.old) r ≤ uses (S.ledger store.new) r }
    ensures may { MayDo (S.ledger store.old) (S.ledger store.new) }
    ensures refuses { IfErr result (Refuses (S.ledger store.old) (S.ledger store.new) NODE_WORDS) }
{
    if !root.valid() {
        return change_leaf(store, &[], &[], changes, &mut rows[0]);
    }
    let level = read_head(store, root).level;
    change_below(alloc, store, root, level, changes, rows, replaced)
}

/// Makes the tree after the changes, and adds the nodes of the old tree that the new one lacks to the replaced ones.
fn rebuild<const OFFSET_BITS: u32, S: Store<OFFSET_BITS>, K: KeyOrder<OFFSET_BITS>>(
    alloc: Global,
    store: &mut S,
    root: EntryRef<OFFSET_BITS>,
    changes: &[Change<K>],
    replaced: &mut Vec<u32>,
) -> Result<EntryRef<OFFSET_BITS>, StoreError>
    requires unit { (S.ledger store.old).unit ≡ true }
    requires keyed { IsKeyedTree K.order K.read K.can_read K.reads_from (S.records store.old) root }
    requires sorted { IsStrictlySortedBy K.order (map (λ change. K.sought change.key) changes.now) }
    requires few { length changes.now < 2 ^ 31 }
    requires owns { Owns (S.ledger store.old) (S.records store.old) (tree root ∷ []) }
    requires replaced { replaced.old.items ≡ [] }
    ensures rebuilds { IfOk result (λ r. RebuildsTree (S.ledger store.old) (S.ledger store.new) (S.records store.old) (S.records store.new)
        root.entry r replaced.new.items
        (merged (seen_changes K.read K.order (λ change. K.sought change.key) (λ change. change.pair) (S.records store.old) changes.now)
        (tree_pairs (S.records store.old) root.entry))) }
    ensures counts { 0 < length changes.now
        → CountsNodes (S.ledger store.old) (S.ledger store.new) ((2 * levels (S.records store.old) root.entry + 1) * length changes.now) }
    ensures keeps { Keeps (S.records store.old) (S.records store.new) }
    ensures stays { (r : ℕ) → uses (S.ledger store.old) r ≤ uses (S.ledger store.new) r }
    ensures may { MayDo (S.ledger store.old) (S.ledger store.new) }
    ensures refuses { IfErr result (Refuses (S.ledger store.old) (S.ledger store.new) NODE_WORDS) }
{
    let mut rows = empty_rows(alloc)?;
    fill_rows(alloc, store, root, changes, &mut rows, replaced)?;
    finish(alloc, store, 0, &mut rows, replaced)
}

/// Makes changes of a tree, whose keys ascend. Returns the new root, or 0 if no pair is left, and drops the nodes of
/// the old tree that are not in the new one. Each node of the new tree is made once; without changes none is.
pub fn change_all<const OFFSET_BITS: u32, S: Store<OFFSET_BITS>, K: KeyOrder<OFFSET_BITS>>(
    alloc: Global,
    store: &mut S,
    root: EntryRef<OFFSET_BITS>,
    changes: &[Change<K>],
) -> Result<EntryRef<OFFSET_BITS>, StoreError>
    requires unit { (S.ledger store.old).unit ≡ true }
    requires keyed { IsKeyedTree K.order K.read K.can_read K.reads_from (S.records store.old) root }
    requires sorted { IsStrictlySortedBy K.order (map (λ change. K.sought change.key) changes.now) }
    requires words { AllByRecursion (λ change. IsPairOf K.order K.read K.can_read K.reads_from (K.sought change.key) (S.records store.old)
        change.pair) changes.now }
    requires few { length changes.now < 2 ^ 31 }
    requires owns { Owns (S.ledger store.old) (S.records store.old) (tree root ∷ []) }
    ensures keyed { IfOk result (IsKeyedTree K.order K.read K.can_read K.reads_from (S.records store.new)) }
    ensures owns { IfOk result (λ r. Owns (S.ledger store.new) (S.records store.new) (tree r ∷ [])) }
    // `merge_law` says that these are the pairs after the changes one by one
    ensures pairs { IfOk result (λ r. tree_pairs (S.records store.new) r
        ≡ merged (seen_changes K.read K.order (λ change. K.sought change.key) (λ change. change.pair) (S.records store.old) changes.now)
        (tree_pairs (S.records store.old) root.entry)) }
    ensures turns { IfOk result (λ r. Turns (S.ledger store.old) (S.ledger store.new) (S.records store.old) (S.records store.new)
        (tree root.entry ∷ []) (tree r ∷ [])) }
    ensures others { KeepsOthers (S.records store.old) (S.records store.new) }
    ensures counts { CountsNodes (S.ledger store.old) (S.ledger store.new)
        ((2 * levels (S.records store.old) root.entry + 1) * length changes.now) }
    ensures none { length changes.now ≡ 0 → IfOk result (λ r. r ≡ root.entry) × IfErr result (λ error. ⊥) }
    ensures same { length changes.now ≡ 0 → store.new ≡ store.old }
    ensures left { OnErr result (Keeps (S.records store.old) (S.records store.new)) }
    ensures refuses { IfErr result (Refuses (S.ledger store.old) (S.ledger store.new) NODE_WORDS) }
    ensures may { MayDo (S.ledger store.old) (S.ledger store.new) }
{
    if changes.is_empty() {
        return Ok(root);
    }
    let mut replaced = Vec::new(alloc);
    let next = rebuild(alloc, store, root, changes, &mut replaced)?;
    drop_nodes(store, &replaced);
    Ok(next)
}
