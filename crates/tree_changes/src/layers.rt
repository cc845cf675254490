//! The slots of a new tree that are not yet in nodes: a row for each level, the leaves' first. The pairs of a row come
//! behind those of all rows above it.
//!
//! Pairs and whole subtrees are appended behind. A row becomes nodes, as slots of the row above, when something of a
//! higher level is appended. A row that is then too short for a node takes the slots of the last node before it.
ghost use Rattle.std.specs.Prelude.{◌≡◌, ◌<◌, ◌≤◌, ◌+◌, ◌-◌, ◌*◌, ◌^◌, ◌++◌, ◌∷◌, [], ℕ, List, true, false, length, suc, take, drop, OnOk, IfOk, IfErr};
ghost use Rattle.store_api.specs.Ledgers.{Ledger};
ghost use Rattle.store_api.specs.Calls.{Refuses};
ghost use Rattle.store_api.specs.Parts.{uses};
ghost use Rattle.store_api.specs.Units.{MayDo};
ghost use Rattle.tree_read.specs.Trees.{Keeps};
ghost use Rattle.store_api.specs.declared.store.StoreError.TheVariants.{Memory};
ghost use Rattle.tree_read.specs.Slots.{slot_pairs, slot_nodes, IsInHand};
ghost use Rattle.frozen_nodes.specs.Makes.{CountsNodes, MakesNodes};
ghost use Rattle.frozen_btree.specs.Builds.{groups};
ghost use Rattle.tree_changes.specs.Counts.{FitBudgets, Gains, IsShort, LengthensFirst, Pulls, Reaches, Settles, SpendsRows, all_of, first_slots};
ghost use Rattle.tree_changes.specs.Layers.{rows_pairs, AreInHand, AreEmpty, ClosesRow, HasFirst, IsReady, Lengthens, OpensLast, OpensRows, RaisesRow, TurnsRows};

use arena_api::Frozen;
use entry_ref::EntryRef;
use frozen_btree::{Row, add_group, make_row, push_word};
use std::alloc::Global;
use store_api::{Store, StoreError};
use tree_read::{LEAST_SLOTS, MOST_SLOTS, NODE_WORDS, Slots, read_node};

/// Appends words.
fn push_words(words: &mut Vec<u64>, more: &[u64]) -> Result<(), StoreError>
    ensures items { OnOk result (words.new.items ≡ words.old.items ++ more.now) }
    ensures memory { IfErr result (λ error. error ≡ Memory) }
{
    match words.extend_from_slice(more) {
        Ok(()) => Ok(()),
        Err(_) => Err(StoreError::Memory),
    }
}

/// Appends a slot to a row.
pub fn push_slot(row: &mut Row, key: u64, value: u64) -> Result<(), StoreError>
    ensures keys { OnOk result (row.new.keys.items ≡ row.old.keys.items ++ key ∷ []) }
    ensures nodes { OnOk result (row.new.nodes.items ≡ row.old.nodes.items ++ value ∷ []) }
    ensures memory { IfErr result (λ error. error ≡ Memory) }
{
    push_word(&mut row.keys, key)?;
    push_word(&mut row.nodes, value)
}

/// Appends slots to a row.
fn push_row(row: &mut Row, more: &Row) -> Result<(), StoreError>
    ensures keys { OnOk result (row.new.keys.items ≡ row.old.keys.items ++ more.now.keys.items) }
    ensures nodes { OnOk result (row.new.nodes.items ≡ row.old.nodes.items ++ more.now.nodes.items) }
    ensures memory { IfErr result (λ error. error ≡ Memory) }
{
    push_words(&mut row.keys, &more.keys)?;
    push_words(&mut row.nodes, &more.nodes)
}

/// Appends a node to the replaced ones.
pub fn push_node(nodes: &mut Vec<u32>, node: u32) -> Result<(), StoreError>
    ensures items { OnOk result (nodes.new.items ≡ nodes.old.items ++ node ∷ []) }
    ensures memory { IfErr result (λ error. error ≡ Memory) }
{
    match nodes.push(node) {
        Ok(()) => Ok(()),
        Err(_) => Err(StoreError::Memory),
    }
}

/// Returns two lists of words, one behind the other.
fn joined(alloc: Global, first: &[u64], second: &[u64]) -> Result<Vec<u64>, StoreError>
    ensures items { IfOk result (λ words. words.items ≡ first.now ++ second.now) }
    ensures memory { IfErr result (λ error. error ≡ Memory) }
{
    let mut words = Vec::new(alloc);
    push_words(&mut words, first)?;
    push_words(&mut words, second)?;
    Ok(words)
}

/// Puts slots in front of those of a row.
fn put_before(alloc: Global, row: &mut Row, slots: &Slots) -> Result<(), StoreError>
    ensures keys { OnOk result (row.new.keys.items ≡ slots.now.keys.items ++ row.old.keys.items) }
    ensures nodes { OnOk result (row.new.nodes.items ≡ slots.now.values.items ++ row.old.nodes.items) }
    ensures memory { IfErr result (λ error. error ≡ Memory) }
{
    let keys = joined(alloc, &slots.keys, &row.keys)?;
    let nodes = joined(alloc, &slots.values, &row.nodes)?;
    row.keys = keys;
    row.nodes = nodes;
    Ok(())
}

/// Makes nodes of slots, and puts them behind a row of the next level.
fn close_slots<const OFFSET_BITS: u32, S: Store<OFFSET_BITS>>(
    alloc: Global,
    store: &mut S,
    level: u64,
    keys: &[u64],
    nodes: &[u64],
    above: &mut Row,
) -> Result<(), StoreError>
    requires unit { (S.ledger store.old).unit ≡ true }
    requires low { level ≤ 7 }
    requires hand { IsInHand (S.records store.old) level keys.now nodes.now }
    requires many { LEAST_SLOTS ≤ length keys.now }
    requires few { 0 < level → length (slot_pairs (S.records store.old) level keys.now nodes.now) < 2 ^ 32 }
    ensures closes { OnOk result (ClosesRow (S.ledger store.old) (S.ledger store.new) (S.records store.old) (S.records store.new)
        level keys.now nodes.now above.old.keys.items above.old.nodes.items above.new.keys.items above.new.nodes.items) }
    ensures makes { MakesNodes (S.ledger store.old) (S.ledger store.new) (S.records store.old) (S.records store.new)
        (groups (length keys.now)) }
    ensures refuses { IfErr result (Refuses (S.ledger store.old) (S.ledger store.new) NODE_WORDS) }
{
    if keys.len() <= MOST_SLOTS {
        return add_group(store, level, keys, nodes, above);
    }
    let made = make_row(alloc, store, level, keys, nodes)?;
    push_row(above, &made)
}

/// Makes nodes of the slots of a row, and puts them behind the row above. The row is then empty.
fn close_row<const OFFSET_BITS: u32, S: Store<OFFSET_BITS>>(
    alloc: Global,
    store: &mut S,
    level: u64,
    row: &mut Row,
    above: &mut Row,
) -> Result<(), StoreError>
    requires unit { (S.ledger store.old).unit ≡ true }
    requires low { level ≤ 7 }
    requires hand { IsInHand (S.records store.old) level row.old.keys.items row.old.nodes.items }
    requires many { LEAST_SLOTS ≤ length row.old.keys.items }
    requires few { 0 < level → length (slot_pairs (S.records store.old) level row.old.keys.items row.old.nodes.items) < 2 ^ 32 }
    ensures closes { OnOk result (ClosesRow (S.ledger store.old) (S.ledger store.new) (S.records store.old) (S.records store.new)
        level row.old.keys.items row.old.nodes.items above.old.keys.items above.old.nodes.items
        above.new.keys.items above.new.nodes.items) }
    ensures keys { OnOk result (row.new.keys.items ≡ []) }
    ensures nodes { OnOk result (row.new.nodes.items ≡ []) }
    ensures makes { MakesNodes (S.ledger store.old) (S.ledger store.new) (S.records store.old) (S.records store.new)
        (groups (length row.old.keys.items)) }
    ensures refuses { IfErr result (Refuses (S.ledger store.old) (S.ledger store.new) NODE_WORDS) }
{
    close_slots(alloc, store, level, &row.keys, &row.nodes, above)?;
    row.keys.clear();
    row.nodes.clear();
    Ok(())
}

/// Takes the last node out of a row, and puts its slots in front of the row below. Adds it to the replaced nodes.
fn open_last<const OFFSET_BITS: u32, F: Frozen<OFFSET_BITS>>(
    alloc: Global,
    frozen: &mut F,
    level: u64,
    row: &mut Row,
    above: &mut Row,
    replaced: &mut Vec<u32>,
) -> Result<(), StoreError>
    requires hand { IsInHand (F.records frozen.old) level row.old.keys.items row.old.nodes.items }
    requires above { IsInHand (F.records frozen.old) (suc level) above.old.keys.items above.old.nodes.items }
    requires some { 0 < length above.old.keys.items }
    ensures opens { OnOk result (OpensLast (F.records frozen.old) level row.old.keys.items row.old.nodes.items
        above.old.keys.items above.old.nodes.items row.new.keys.items row.new.nodes.items
        above.new.keys.items above.new.nodes.items replaced.old.items replaced.new.items) }
    ensures memory { IfErr result (λ error. error ≡ Memory) }
    ensures same { frozen.new ≡ frozen.old }
{
    let Some(_key) = above.keys.pop() else {
        return Err(StoreError::Memory);
    };
    let Some(value) = above.nodes.pop() else {
        return Err(StoreError::Memory);
    };
    let child = EntryRef::from_raw(value as u32);
    push_node(replaced, child.raw())?;
    let slots = read_node(frozen, child);
    put_before(alloc, row, &slots)
}

/// Puts the slots of the last node before the first row in front of that row. Returns whether there is one.
#[cycle(pulling)]
fn pull<const OFFSET_BITS: u32, F: Frozen<OFFSET_BITS>>(
    alloc: Global,
    frozen: &mut F,
    level: u64,
    rows: &mut [Row],
    replaced: &mut Vec<u32>,
) -> Result<bool, StoreError>
    requires low { level + length rows.old ≤ 8 }
    requires hand { AreInHand (F.records frozen.old) level rows.old }
    requires some { 0 < length rows.old }
    ensures opens { OnOk result (OpensRows (F.records frozen.old) level rows.old rows.new replaced.old.items replaced.new.items) }
    ensures found { IfOk result (λ found. found ≡ true → Lengthens rows.old rows.new) }
    ensures none { IfOk result (λ found. found ≡ false → AreEmpty (drop 1 rows.old)) }
    ensures still { IfOk result (λ found. found ≡ false → rows.new ≡ rows.old) }
    ensures pulls { OnOk result (Pulls rows.old rows.new) }
    ensures memory { IfErr result (λ error. error ≡ Memory) }
    ensures same { frozen.new ≡ frozen.old }
{
    let Some((row, above)) = rows.split_first_mut() else {
        return Ok(false);
    };
    let found = reach(alloc, frozen, level + 1, above, replaced)?;
    if !found {
        return Ok(false);
    }
    open_last(alloc, frozen, level, row, &mut above[0], replaced)?;
    Ok(true)
}

/// Sees to it that the first row has slots: those of the last node before it, if it is empty. Returns whether it has.
#[cycle(pulling)]
fn reach<const OFFSET_BITS: u32, F: Frozen<OFFSET_BITS>>(
    alloc: Global,
    frozen: &mut F,
    level: u64,
    rows: &mut [Row],
    replaced: &mut Vec<u32>,
) -> Result<bool, StoreError>
    requires low { level + length rows.old ≤ 8 }
    requires hand { AreInHand (F.records frozen.old) level rows.old }
    ensures opens { OnOk result (OpensRows (F.records frozen.old) level rows.old rows.new replaced.old.items replaced.new.items) }
    ensures found { IfOk result (λ found. found ≡ true → HasFirst rows.new) }
    ensures none { IfOk result (λ found. found ≡ false → AreEmpty rows.old) }
    ensures still { IfOk result (λ found. found ≡ false → rows.new ≡ rows.old) }
    ensures reaches { OnOk result (Reaches rows.old rows.new) }
    ensures memory { IfErr result (λ error. error ≡ Memory) }
    ensures same { frozen.new ≡ frozen.old }
{
    if rows.is_empty() {
        return Ok(false);
    }
    if rows[0].keys.is_empty() {
        return pull(alloc, frozen, level, rows, replaced);
    }
    Ok(true)
}

/// Sees to it that the first row is empty or long enough for a node. Returns false if it is too short, and all rows
/// above it are empty.
pub fn lengthen<const OFFSET_BITS: u32, F: Frozen<OFFSET_BITS>>(
    alloc: Global,
    frozen: &mut F,
    level: u64,
    rows: &mut [Row],
    replaced: &mut Vec<u32>,
) -> Result<bool, StoreError>
    requires low { level + length rows.old ≤ 8 }
    requires hand { AreInHand (F.records frozen.old) level rows.old }
    requires some { 0 < length rows.old }
    ensures opens { OnOk result (OpensRows (F.records frozen.old) level rows.old rows.new replaced.old.items replaced.new.items) }
    ensures ready { IfOk result (λ ready. ready ≡ true → IsReady rows.new) }
    ensures none { IfOk result (λ ready. ready ≡ false → AreEmpty (drop 1 rows.old)) }
    ensures still { IfOk result (λ ready. ready ≡ false → rows.new ≡ rows.old) }
    ensures lengthens { OnOk result (LengthensFirst rows.old rows.new) }
    ensures idle { OnOk result (first_slots rows.old ≡ 0 → rows.new ≡ rows.old) }
    ensures short { IfOk result (λ ready. ready ≡ false → IsShort rows.old) }
    ensures memory { IfErr result (λ error. error ≡ Memory) }
    ensures same { frozen.new ≡ frozen.old }
{
    let used = rows[0].keys.len();
    if used == 0 || used >= LEAST_SLOTS {
        return Ok(true);
    }
    pull(alloc, frozen, level, rows, replaced)
}

/// Makes nodes of the slots of the first row, if it has any, and puts them behind the second.
pub fn raise<const OFFSET_BITS: u32, S: Store<OFFSET_BITS>>(
    alloc: Global,
    store: &mut S,
    level: u64,
    row: &mut Row,
    above: &mut [Row],
) -> Result<(), StoreError>
    requires unit { (S.ledger store.old).unit ≡ true }
    requires low { level ≤ 6 }
    requires some { 0 < length above.old }
    requires hand { IsInHand (S.records store.old) level row.old.keys.items row.old.nodes.items }
    requires rows { AreInHand (S.records store.old) (suc level) above.old }
    requires many { 0 < length row.old.keys.items → LEAST_SLOTS ≤ length row.old.keys.items }
    requires few { 0 < level → length (slot_pairs (S.records store.old) level row.old.keys.items row.old.nodes.items) < 2 ^ 32 }
    ensures raises { OnOk result (RaisesRow (S.ledger store.old) (S.ledger store.new) (S.records store.old) (S.records store.new)
        level row.old.keys.items row.old.nodes.items above.old above.new) }
    ensures gains { OnOk result (Gains (groups (length row.old.keys.items)) above.old above.new) }
    ensures keys { OnOk result (row.new.keys.items ≡ []) }
    ensures nodes { OnOk result (row.new.nodes.items ≡ []) }
    ensures makes { MakesNodes (S.ledger store.old) (S.ledger store.new) (S.records store.old) (S.records store.new)
        (groups (length row.old.keys.items)) }
    ensures refuses { IfErr result (Refuses (S.ledger store.old) (S.ledger store.new) NODE_WORDS) }
{
    if row.keys.is_empty() {
        return Ok(());
    }
    close_row(alloc, store, level, row, &mut above[0])
}

/// Makes nodes of the slots of the first `count` rows, so that these rows are empty. Returns false if that cannot be
/// done, since the first slots so far are fewer than a node has.
fn settle<const OFFSET_BITS: u32, S: Store<OFFSET_BITS>>(
    alloc: Global,
    store: &mut S,
    level: u64,
    count: usize,
    rows: &mut [Row],
    replaced: &mut Vec<u32>,
) -> Result<bool, StoreError>
    requires unit { (S.ledger store.old).unit ≡ true }
    requires rows { level + length rows.old ≡ 8 }
    requires within { count < length rows.old }
    requires hand { AreInHand (S.records store.old) level rows.old }
    requires few { length (rows_pairs (S.records store.old) level rows.old) < 2 ^ 32 }
    ensures turns { OnOk result (TurnsRows (S.ledger store.old) (S.ledger store.new) (S.records store.old) (S.records store.new)
        level rows.old rows.new [] [] replaced.old.items replaced.new.items) }
    ensures settled { IfOk result (λ settled. settled ≡ true → AreEmpty (take count rows.new)) }
    ensures none { count ≡ 0 → IfOk result (λ settled. settled ≡ true) }
    ensures spends { IfOk result (λ settled. (budgets : List ℕ) → length budgets ≡ count → FitBudgets 0 budgets rows.old
        → Settles (S.ledger store.old) (S.ledger store.new) budgets rows.old rows.new settled) }
    ensures counts { (budgets : List ℕ) → length budgets ≡ count → FitBudgets 0 budgets rows.old
        → CountsNodes (S.ledger store.old) (S.ledger store.new) (2 * all_of budgets) }
    ensures keeps { Keeps (S.records store.old) (S.records store.new) }
    ensures stays { (r : ℕ) → uses (S.ledger store.old) r ≤ uses (S.ledger store.new) r }
    ensures may { MayDo (S.ledger store.old) (S.ledger store.new) }
    ensures refuses { IfErr result (Refuses (S.ledger store.old) (S.ledger store.new) NODE_WORDS) }
{
    if count == 0 {
        return Ok(true);
    }
    if !lengthen(alloc, store, level, rows, replaced)? {
        return Ok(false);
    }
    let Some((row, above)) = rows.split_first_mut() else {
        return Ok(true);
    };
    raise(alloc, store, level, row, above)?;
    settle(alloc, store, level + 1, count - 1, above, replaced)
}

/// Appends a slot of a level. If the slots so far are fewer than a node has, the slots of its node are appended in its
/// place.
#[cycle(putting)]
pub fn put_behind<const OFFSET_BITS: u32, S: Store<OFFSET_BITS>>(
    alloc: Global,
    store: &mut S,
    level: u64,
    key: u64,
    value: u64,
    rows: &mut [Row],
    replaced: &mut Vec<u32>,
) -> Result<(), StoreError>
    requires unit { (S.ledger store.old).unit ≡ true }
    requires low { level ≤ 7 }
    requires rows { length rows.old ≡ 8 }
    requires hand { AreInHand (S.records store.old) 0 rows.old }
    requires slot { IsInHand (S.records store.old) level (key ∷ []) (value ∷ []) }
    requires few { length (rows_pairs (S.records store.old) 0 rows.old)
        + length (slot_pairs (S.records store.old) level (key ∷ []) (value ∷ [])) < 2 ^ 32 }
    ensures turns { OnOk result (TurnsRows (S.ledger store.old) (S.ledger store.new) (S.records store.old) (S.records store.new)
        0 rows.old rows.new (slot_pairs (S.records store.old) level (key ∷ []) (value ∷ []))
        (slot_nodes (S.records store.old) level (value ∷ [])) replaced.old.items replaced.new.items) }
    ensures spends { OnOk result ((budgets : List ℕ) → length budgets ≡ level → FitBudgets 0 budgets rows.old
        → SpendsRows (S.ledger store.old) (S.ledger store.new) 1 0 budgets rows.old rows.new) }
    ensures counts { (budgets : List ℕ) → length budgets ≡ level → FitBudgets 0 budgets rows.old
        → CountsNodes (S.ledger store.old) (S.ledger store.new) (2 * all_of budgets) }
    ensures keeps { Keeps (S.records store.old) (S.records store.new) }
    ensures stays { (r : ℕ) → uses (S.ledger store.old) r ≤ uses (S.ledger store.new) r }
    ensures may { MayDo (S.ledger store.old) (S.ledger store.new) }
    ensures refuses { IfErr result (Refuses (S.ledger store.old) (S.ledger store.new) NODE_WORDS) }
{
    let settled = settle(alloc, store, 0, level as usize, rows, replaced)?;
    if settled {
        return push_slot(&mut rows[level as usize], key, value);
    }
    let child = EntryRef::from_raw(value as u32);
    push_node(replaced, child.raw())?;
    let slots = read_node(store, child);
    put_slots(
        alloc,
        store,
        level - 1,
        &slots.keys,
        &slots.values,
        rows,
        replaced,
    )
}

/// Appends slots of a level, one by one.
#[cycle(putting)]
fn put_slots<const OFFSET_BITS: u32, S: Store<OFFSET_BITS>>(
    alloc: Global,
    store: &mut S,
    level: u64,
    keys: &[u64],
    values: &[u64],
    rows: &mut [Row],
    replaced: &mut Vec<u32>,
) -> Result<(), StoreError>
    requires unit { (S.ledger store.old).unit ≡ true }
    requires low { level ≤ 7 }
    requires rows { length rows.old ≡ 8 }
    requires hand { AreInHand (S.records store.old) 0 rows.old }
    requires slots { IsInHand (S.records store.old) level keys.now values.now }
    requires few { length (rows_pairs (S.records store.old) 0 rows.old)
        + length (slot_pairs (S.records store.old) level keys.now values.now) < 2 ^ 32 }
    ensures turns { OnOk result (TurnsRows (S.ledger store.old) (S.ledger store.new) (S.records store.old) (S.records store.new)
        0 rows.old rows.new (slot_pairs (S.records store.old) level keys.now values.now)
        (slot_nodes (S.records store.old) level values.now) replaced.old.items replaced.new.items) }
    ensures spends { OnOk result ((budgets : List ℕ) → length budgets ≡ level → FitBudgets 0 budgets rows.old
        → SpendsRows (S.ledger store.old) (S.ledger store.new) (length keys.now) 0 budgets rows.old rows.new) }
    ensures counts { (budgets : List ℕ) → length budgets ≡ level → FitBudgets 0 budgets rows.old
        → CountsNodes (S.ledger store.old) (S.ledger store.new) (2 * all_of budgets) }
    ensures keeps { Keeps (S.records store.old) (S.records store.new) }
    ensures stays { (r : ℕ) → uses (S.ledger store.old) r ≤ uses (S.ledger store.new) r }
    ensures may { MayDo (S.ledger store.old) (S.ledger store.new) }
    ensures refuses { IfErr result (Refuses (S.ledger store.old) (S.ledger store.new) NODE_WORDS) }
{
    for slot in 0..keys.len() {
        put_behind(
            alloc,
            store,
            level,
            keys[slot],
            values[slot],
            rows,
            replaced,
        )?;
    }
    Ok(())
}
