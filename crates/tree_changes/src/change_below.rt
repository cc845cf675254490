//! A sorted list of changes below a node.
ghost use Rattle.std.specs.Prelude.{map, ◌^◌, ◌≡◌, ◌≢◌, Some, ◌≤◌, ◌<◌, ◌+◌, ◌*◌, ◌++◌, ◌∷◌, [], ℕ, List, true, false, length, suc, drop, slice_index, OnOk, OnErr, IfOk, IfErr};
ghost use Rattle.std.specs.List.{zip, flat_map, slice_get, AllByRecursion};
ghost use Rattle.std.specs.List.Sorted.{IsStrictlySortedBy};
ghost use Rattle.std.specs.declared.cmp.Ordering.TheVariants.{Less, Equal, Greater};
ghost use Rattle.store_api.specs.Calls.{Refuses};
ghost use Rattle.store_api.specs.Ledgers.{Ledger};
ghost use Rattle.store_api.specs.Parts.{uses};
ghost use Rattle.store_api.specs.Units.{MayDo};
ghost use Rattle.store_api.specs.declared.store.StoreError.TheVariants.{Memory};
ghost use Rattle.tree_read.specs.Keys.{seen_by};
ghost use Rattle.tree_read.specs.Slots.{slot_pairs, slot_nodes, IsInHand};
ghost use Rattle.tree_read.specs.Trees.{pairs_below, nodes_below, IsNode, Keeps};
ghost use Rattle.tree_read.specs.declared.node_format.TheConstants.{NODE_WORDS};
ghost use Rattle.tree_changes.specs.Merges.{merged, pair_of};
ghost use Rattle.frozen_nodes.specs.Makes.{CountsNodes};
ghost use Rattle.tree_read.specs.declared.node_format.TheConstants.{MOST_SLOTS};
ghost use Rattle.tree_changes.specs.Counts.{FitBudgets, SpendsBelow, SpendsRows, all_of, gain_of};
ghost use Rattle.tree_changes.specs.Layers.{rows_pairs, AreInHand, AreKeyed, TurnsRows, seen_changes};

use crate::layers::{push_node, push_slot, put_behind};
use arena_api::Frozen;
use entry_ref::EntryRef;
use frozen_btree::Row;
use std::alloc::Global;
use std::cmp::Ordering;
use store_api::{Store, StoreError};
use tree_read::{KeyOrder, Slots, read_node};

/// A change of a tree: the pair that a key has from now on, or none.
#[derive(Drop)]
pub struct Change<K> {
    pub key: K,
    pub pair: Option<(u64, u64)>,
}

/// Appends the pair of a change, if it has one.
fn push_pair(row: &mut Row, pair: Option<(u64, u64)>) -> Result<(), StoreError>
    requires even { length row.old.keys.items ≡ length row.old.nodes.items }
    ensures even { OnOk result (length row.new.keys.items ≡ length row.new.nodes.items) }
    ensures pairs { OnOk result (zip row.new.keys.items row.new.nodes.items
        ≡ zip row.old.keys.items row.old.nodes.items ++ pair_of pair) }
    ensures memory { IfErr result (λ error. error ≡ Memory) }
{
    match pair {
        Some((word, value)) => push_slot(row, word, value),
        None => Ok(()),
    }
}

/// Appends the pairs of changes whose keys are below a stored one, and returns the first change of another key.
fn push_below<const OFFSET_BITS: u32, F: Frozen<OFFSET_BITS>, K: KeyOrder<OFFSET_BITS>>(
    frozen: &mut F,
    stored: u64,
    changes: &[Change<K>],
    first: usize,
    row: &mut Row,
) -> Result<usize, StoreError>
    requires readable { K.can_read (F.records frozen.old) stored }
    requires within { first ≤ length changes.now }
    requires row { length row.old.keys.items ≡ length row.old.nodes.items }
    ensures row { OnOk result (length row.new.keys.items ≡ length row.new.nodes.items) }
    ensures within { IfOk result (λ at. at ≤ length changes.now) }
    // what was done, and what is left to do with this pair and any others, is the whole
    ensures done { IfOk result (λ at. (value : ℕ) (ps : List (ℕ × ℕ)) → zip row.new.keys.items row.new.nodes.items
        ++ merged (drop at
        (seen_changes K.read K.order (λ change. K.sought change.key) (λ change. change.pair) (F.records frozen.old) changes.now))
        ((stored, value) ∷ ps)
        ≡ zip row.old.keys.items row.old.nodes.items
        ++ merged (drop first
        (seen_changes K.read K.order (λ change. K.sought change.key) (λ change. change.pair) (F.records frozen.old) changes.now))
        ((stored, value) ∷ ps)) }
    ensures past { IfOk result (λ at. (change : _) → slice_get changes.now at ≡ Some change
        → seen_by K.read K.order (K.sought change.key) (F.records frozen.old) stored ≢ Greater) }
    ensures memory { IfErr result (λ error. error ≡ Memory) }
    ensures same { frozen.new ≡ frozen.old }
{
    let mut at = first;
    while at < changes.len() {
        match changes[at].key.compare(frozen, stored) {
            Ordering::Greater => push_pair(row, changes[at].pair)?,
            Ordering::Equal => return Ok(at),
            Ordering::Less => return Ok(at),
        }
        at += 1;
    }
    Ok(at)
}

/// Returns whether a change is of a stored key.
fn is_of<const OFFSET_BITS: u32, F: Frozen<OFFSET_BITS>, K: KeyOrder<OFFSET_BITS>>(
    frozen: &mut F,
    stored: u64,
    changes: &[Change<K>],
    at: usize,
) -> bool
    requires readable { K.can_read (F.records frozen.old) stored }
    ensures is { result ≡ true → (change : _) → slice_get changes.now at ≡ Some change
        → seen_by K.read K.order (K.sought change.key) (F.records frozen.old) stored ≡ Equal }
    ensures there { result ≡ true → at < length changes.now }
    ensures not { result ≡ false → (change : _) → slice_get changes.now at ≡ Some change
        → seen_by K.read K.order (K.sought change.key) (F.records frozen.old) stored ≢ Equal }
    ensures same { frozen.new ≡ frozen.old }
{
    if at < changes.len() {
        match changes[at].key.compare(frozen, stored) {
            Ordering::Equal => return true,
            Ordering::Less => return false,
            Ordering::Greater => return false,
        }
    }
    false
}

/// Appends a stored pair after changes, and the pairs of those changes whose keys are below it. Returns the first change
/// that is left.
fn change_slot<const OFFSET_BITS: u32, F: Frozen<OFFSET_BITS>, K: KeyOrder<OFFSET_BITS>>(
    frozen: &mut F,
    stored: u64,
    value: u64,
    changes: &[Change<K>],
    first: usize,
    row: &mut Row,
) -> Result<usize, StoreError>
    requires readable { K.can_read (F.records frozen.old) stored }
    requires within { first ≤ length changes.now }
    requires row { length row.old.keys.items ≡ length row.old.nodes.items }
    ensures row { OnOk result (length row.new.keys.items ≡ length row.new.nodes.items) }
    ensures within { IfOk result (λ at. at ≤ length changes.now) }
    ensures done { IfOk result (λ at. (ps : List (ℕ × ℕ)) → zip row.new.keys.items row.new.nodes.items
        ++ merged (drop at
        (seen_changes K.read K.order (λ change. K.sought change.key) (λ change. change.pair) (F.records frozen.old) changes.now)) ps
        ≡ zip row.old.keys.items row.old.nodes.items
        ++ merged (drop first
        (seen_changes K.read K.order (λ change. K.sought change.key) (λ change. change.pair) (F.records frozen.old) changes.now))
        ((stored, value) ∷ ps)) }
    ensures memory { IfErr result (λ error. error ≡ Memory) }
    ensures same { frozen.new ≡ frozen.old }
{
    let at = push_below(frozen, stored, changes, first, row)?;
    if is_of(frozen, stored, changes, at) {
        push_pair(row, changes[at].pair)?;
        return Ok(at + 1);
    }
    push_slot(row, stored, value)?;
    Ok(at)
}

/// Appends the pairs of changes.
fn push_all<K>(changes: &[Change<K>], row: &mut Row) -> Result<(), StoreError>
    requires even { length row.old.keys.items ≡ length row.old.nodes.items }
    ensures even { OnOk result (length row.new.keys.items ≡ length row.new.nodes.items) }
    ensures pairs { OnOk result (zip row.new.keys.items row.new.nodes.items
        ≡ zip row.old.keys.items row.old.nodes.items ++ flat_map (λ change. pair_of change.pair) changes.now) }
    ensures memory { IfErr result (λ error. error ≡ Memory) }
{
    for change in changes {
        push_pair(row, change.pair)?;
    }
    Ok(())
}

/// Appends the pairs of a leaf after changes.
pub fn change_leaf<const OFFSET_BITS: u32, F: Frozen<OFFSET_BITS>, K: KeyOrder<OFFSET_BITS>>(
    frozen: &mut F,
    keys: &[u64],
    values: &[u64],
    changes: &[Change<K>],
    row: &mut Row,
) -> Result<(), StoreError>
    requires even { length keys.now ≡ length values.now }
    requires readable { AllByRecursion (K.can_read (F.records frozen.old)) keys.now }
    requires row { length row.old.keys.items ≡ length row.old.nodes.items }
    ensures row { OnOk result (length row.new.keys.items ≡ length row.new.nodes.items) }
    ensures pairs { OnOk result (zip row.new.keys.items row.new.nodes.items ≡ zip row.old.keys.items row.old.nodes.items
        ++ merged (seen_changes K.read K.order (λ change. K.sought change.key) (λ change. change.pair) (F.records frozen.old) changes.now)
        (zip keys.now values.now)) }
    ensures memory { IfErr result (λ error. error ≡ Memory) }
    ensures same { frozen.new ≡ frozen.old }
{
    let mut at = 0;
    for slot in 0..keys.len() {
        at = change_slot(frozen, keys[slot], values[slot], changes, at, row)?;
    }
    push_all(&changes[at..], row)
}

/// Returns the first change, from one on, whose key is above a stored one.
fn end_of<const OFFSET_BITS: u32, F: Frozen<OFFSET_BITS>, K: KeyOrder<OFFSET_BITS>>(
    frozen: &mut F,
    stored: u64,
    changes: &[Change<K>],
    first: usize,
) -> usize
    requires readable { K.can_read (F.records frozen.old) stored }
    requires within { first ≤ length changes.now }
    ensures within { result ≤ length changes.now }
    ensures from { first ≤ result }
    ensures below { (i : _) → first ≤ i → i < result → (change : _) → slice_get changes.now i ≡ Some change
        → seen_by K.read K.order (K.sought change.key) (F.records frozen.old) stored ≢ Less }
    ensures at { (change : _) → slice_get changes.now result ≡ Some change
        → seen_by K.read K.order (K.sought change.key) (F.records frozen.old) stored ≡ Less }
    ensures same { frozen.new ≡ frozen.old }
{
    for at in first..changes.len() {
        match changes[at].key.compare(frozen, stored) {
            Ordering::Less => return at,
            Ordering::Equal => {}
            Ordering::Greater => {}
        }
    }
    changes.len()
}

/// Returns the end of the changes below a slot of a node; below the last slot are all that are left.
fn end_below<const OFFSET_BITS: u32, F: Frozen<OFFSET_BITS>, K: KeyOrder<OFFSET_BITS>>(
    frozen: &mut F,
    slots: &Slots,
    slot: usize,
    changes: &[Change<K>],
    first: usize,
) -> usize
    requires slot { slot < length slots.now.keys.items }
    requires readable { AllByRecursion (K.can_read (F.records frozen.old)) slots.now.keys.items }
    requires within { first ≤ length changes.now }
    ensures within { result ≤ length changes.now }
    ensures from { first ≤ result }
    ensures last { suc slot ≡ length slots.now.keys.items → result ≡ length changes.now }
    ensures below { suc slot < length slots.now.keys.items → (i : ℕ) → first ≤ i → i < result
        → (change : _) → slice_get changes.now i ≡ Some change
        → seen_by K.read K.order (K.sought change.key) (F.records frozen.old) (slice_index slots.now.keys.items slot) ≢ Less }
    ensures at { suc slot < length slots.now.keys.items → (change : _) → slice_get changes.now result ≡ Some change
        → seen_by K.read K.order (K.sought change.key) (F.records frozen.old) (slice_index slots.now.keys.items slot) ≡ Less }
    ensures same { frozen.new ≡ frozen.old }
{
    if slot == slots.keys.len() - 1 {
        return changes.len();
    }
    end_of(frozen, slots.keys[slot], changes, first)
}

/// Appends what is below a slot of an inner node after changes, if there are any.
#[cycle(changing)]
fn change_child<const OFFSET_BITS: u32, S: Store<OFFSET_BITS>, K: KeyOrder<OFFSET_BITS>>(
    alloc: Global,
    store: &mut S,
    level: u64,
    key: u64,
    value: u64,
    changes: &[Change<K>],
    rows: &mut [Row],
    replaced: &mut Vec<u32>,
) -> Result<(), StoreError>
    requires unit { (S.ledger store.old).unit ≡ true }
    requires above { 0 < level }
    requires low { level ≤ 7 }
    requires rows { length rows.old ≡ 8 }
    requires hand { AreInHand (S.records store.old) 0 rows.old }
    requires slot { IsInHand (S.records store.old) level (key ∷ []) (value ∷ []) }
    requires keyed { AreKeyed K.order K.read K.can_read K.reads_from (S.records store.old)
        (slot_pairs (S.records store.old) level (key ∷ []) (value ∷ [])) }
    requires sorted { IsStrictlySortedBy K.order (map (λ change. K.sought change.key) changes.now) }
    requires few { length (rows_pairs (S.records store.old) 0 rows.old)
        + length (slot_pairs (S.records store.old) level (key ∷ []) (value ∷ [])) + length changes.now < 2 ^ 32 }
    ensures turns { OnOk result (TurnsRows (S.ledger store.old) (S.ledger store.new) (S.records store.old) (S.records store.new)
        0 rows.old rows.new
        (merged (seen_changes K.read K.order (λ change. K.sought change.key) (λ change. change.pair) (S.records store.old) changes.now)
        (slot_pairs (S.records store.old) level (key ∷ []) (value ∷ [])))
        (slot_nodes (S.records store.old) level (value ∷ [])) replaced.old.items replaced.new.items) }
    ensures spends { OnOk result ((budgets : List ℕ) → length budgets ≡ level → FitBudgets 0 budgets rows.old
        → SpendsRows (S.ledger store.old) (S.ledger store.new) (gain_of (length changes.now)) (length changes.now)
        budgets rows.old rows.new) }
    ensures counts { (budgets : List ℕ) → length budgets ≡ level → FitBudgets 0 budgets rows.old
        → CountsNodes (S.ledger store.old) (S.ledger store.new) (2 * all_of budgets + 2 * (length budgets * length changes.now)) }
    ensures keeps { Keeps (S.records store.old) (S.records store.new) }
    ensures stays { (r : ℕ) → uses (S.ledger store.old) r ≤ uses (S.ledger store.new) r }
    ensures may { MayDo (S.ledger store.old) (S.ledger store.new) }
    ensures refuses { IfErr result (Refuses (S.ledger store.old) (S.ledger store.new) NODE_WORDS) }
{
    if changes.is_empty() {
        return put_behind(alloc, store, level, key, value, rows, replaced);
    }
    let child = EntryRef::from_raw(value as u32);
    change_below(alloc, store, child, level - 1, changes, rows, replaced)
}

/// Appends what is below the slots of an inner node after changes. Each slot takes the changes up to its key, and the
/// last one those that are left.
#[cycle(changing)]
fn change_slots<const OFFSET_BITS: u32, S: Store<OFFSET_BITS>, K: KeyOrder<OFFSET_BITS>>(
    alloc: Global,
    store: &mut S,
    level: u64,
    slots: &Slots,
    changes: &[Change<K>],
    rows: &mut [Row],
    replaced: &mut Vec<u32>,
) -> Result<(), StoreError>
    requires unit { (S.ledger store.old).unit ≡ true }
    requires above { 0 < level }
    requires low { level ≤ 7 }
    requires rows { length rows.old ≡ 8 }
    requires hand { AreInHand (S.records store.old) 0 rows.old }
    requires slots { IsInHand (S.records store.old) level slots.now.keys.items slots.now.values.items }
    requires some { 0 < length slots.now.keys.items }
    requires keyed { AreKeyed K.order K.read K.can_read K.reads_from (S.records store.old)
        (slot_pairs (S.records store.old) level slots.now.keys.items slots.now.values.items) }
    requires sorted { IsStrictlySortedBy K.order (map (λ change. K.sought change.key) changes.now) }
    requires few { length (rows_pairs (S.records store.old) 0 rows.old)
        + length (slot_pairs (S.records store.old) level slots.now.keys.items slots.now.values.items) + length changes.now < 2 ^ 32 }
    ensures turns { OnOk result (TurnsRows (S.ledger store.old) (S.ledger store.new) (S.records store.old) (S.records store.new)
        0 rows.old rows.new
        (merged (seen_changes K.read K.order (λ change. K.sought change.key) (λ change. change.pair) (S.records store.old) changes.now)
        (slot_pairs (S.records store.old) level slots.now.keys.items slots.now.values.items))
        (slot_nodes (S.records store.old) level slots.now.values.items) replaced.old.items replaced.new.items) }
    ensures spends { OnOk result (length slots.now.keys.items ≤ MOST_SLOTS → 0 < length changes.now
        → (budgets : List ℕ) → length budgets ≡ suc level
        → FitBudgets 0 budgets rows.old
        → SpendsBelow (S.ledger store.old) (S.ledger store.new) (length changes.now) budgets rows.old rows.new) }
    ensures counts { (budgets : List ℕ) → length budgets ≡ suc level → FitBudgets 0 budgets rows.old
        → CountsNodes (S.ledger store.old) (S.ledger store.new) (2 * all_of budgets + 2 * (length budgets * length changes.now)) }
    ensures keeps { Keeps (S.records store.old) (S.records store.new) }
    ensures stays { (r : ℕ) → uses (S.ledger store.old) r ≤ uses (S.ledger store.new) r }
    ensures may { MayDo (S.ledger store.old) (S.ledger store.new) }
    ensures refuses { IfErr result (Refuses (S.ledger store.old) (S.ledger store.new) NODE_WORDS) }
{
    let mut first = 0;
    for slot in 0..slots.keys.len() {
        let end = end_below(store, slots, slot, changes, first);
        let (key, value) = (slots.keys[slot], slots.values[slot]);
        change_child(
            alloc,
            store,
            level,
            key,
            value,
            &changes[first..end],
            rows,
            replaced,
        )?;
        first = end;
    }
    Ok(())
}

/// Appends what is below a node of this level after changes. Adds the nodes that the new tree lacks to the replaced
/// ones.
#[cycle(changing)]
pub fn change_below<const OFFSET_BITS: u32, S: Store<OFFSET_BITS>, K: KeyOrder<OFFSET_BITS>>(
    alloc: Global,
    store: &mut S,
    node: EntryRef<OFFSET_BITS>,
    level: u64,
    changes: &[Change<K>],
    rows: &mut [Row],
    replaced: &mut Vec<u32>,
) -> Result<(), StoreError>
    requires unit { (S.ledger store.old).unit ≡ true }
    requires low { level ≤ 7 }
    requires rows { length rows.old ≡ 8 }
    requires hand { AreInHand (S.records store.old) 0 rows.old }
    requires node { IsNode (S.records store.old) 1 level node }
    requires keyed { AreKeyed K.order K.read K.can_read K.reads_from (S.records store.old) (pairs_below (S.records store.old) level node) }
    requires sorted { IsStrictlySortedBy K.order (map (λ change. K.sought change.key) changes.now) }
    requires few { length (rows_pairs (S.records store.old) 0 rows.old)
        + length (pairs_below (S.records store.old) level node) + length changes.now < 2 ^ 32 }
    ensures turns { OnOk result (TurnsRows (S.ledger store.old) (S.ledger store.new) (S.records store.old) (S.records store.new)
        0 rows.old rows.new
        (merged (seen_changes K.read K.order (λ change. K.sought change.key) (λ change. change.pair) (S.records store.old) changes.now)
        (pairs_below (S.records store.old) level node.entry))
        (nodes_below (S.records store.old) level node.entry) replaced.old.items replaced.new.items) }
    ensures spends { OnOk result (0 < length changes.now → (budgets : List ℕ) → length budgets ≡ suc level
        → FitBudgets 0 budgets rows.old
        → SpendsBelow (S.ledger store.old) (S.ledger store.new) (length changes.now) budgets rows.old rows.new) }
    ensures counts { (budgets : List ℕ) → length budgets ≡ suc level → FitBudgets 0 budgets rows.old
        → CountsNodes (S.ledger store.old) (S.ledger store.new) (2 * all_of budgets + 2 * (length budgets * length changes.now)) }
    ensures keeps { Keeps (S.records store.old) (S.records store.new) }
    ensures stays { (r : ℕ) → uses (S.ledger store.old) r ≤ uses (S.ledger store.new) r }
    ensures may { MayDo (S.ledger store.old) (S.ledger store.new) }
    ensures refuses { IfErr result (Refuses (S.ledger store.old) (S.ledger store.new) NODE_WORDS) }
{
    push_node(replaced, node.raw())?;
    let slots = read_node(store, node);
    if level == 0 {
        return change_leaf(store, &slots.keys, &slots.values, changes, &mut rows[0]);
    }
    change_slots(alloc, store, level, &slots, changes, rows, replaced)
}
