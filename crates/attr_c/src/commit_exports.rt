//! The calls from C with the writer's handle.
ghost use Rattle.std.specs.Prelude.{◌≡◌, ◌≢◌, ◌+◌, ◌*◌, pos, drop, length, min, Ok, IfErr, OnOk, IsOk, IsErr};
ghost use Rattle.attr_c.specs.Applying.{Applies, LeavesAttributes};
ghost use Rattle.attr_c.specs.Engines.{committed_of, committed_operations_of, dense_of, fields_of, home_of, operations_of, table_of};
ghost use Rattle.attr_c.specs.Engines.{plan_of, root_of, trees_of, AppliesOpen, KeepsAttributes, LeavesOpen, StopsOpen};
ghost use Rattle.attr_c.specs.Engines.{usage_told, KeepsTables};
ghost use Rattle.attr_c.specs.Engines.{open_counts, open_waiting, KeepsWaiting, TellsCounts};
ghost use Rattle.attr_c.specs.Feeding.{FedTo, Feeds, IsFirstOp, IsLineBetween, IsSaidBefore, Stays, StopsFeed};
ghost use Rattle.attr_c.specs.Holds.{with_skipped, CommitsAs};
ghost use Rattle.attr_c.specs.Loading.{AreAllOf, AreFirstOf, ArePuts, IsNextLoaded, LoadsFront, LoadsSave, StopsLoad};
ghost use Rattle.attr_c.specs.Compacting.{CompactsOpen, IsIdleOpen, StepsAs, StopsStep, StopsStepOpen, TellsStep};
ghost use Rattle.attr_c.specs.Telling.{no_told, with_committed, with_count, with_fed, with_keys, with_line, with_place, with_step};
ghost use Rattle.attr_c.specs.Telling.{TellsBy};
ghost use Rattle.attr_c.specs.Stops.{EndsBy, LineOr, Stopped, StopsCommit, StopsOperation};
ghost use Rattle.attr_c.specs.declared.codes.TheConstants.{BAD_SAVE, COMMITS_SPENT};
ghost use Rattle.array_store.specs.Adding.{MakesOneOf};
ghost use Rattle.image_format.specs.Words.{class_of};
ghost use Rattle.attribute_kinds.specs.Calls.{HasCommit, KeepsStore, KeepsStoreBut};
ghost use Rattle.attribute_kinds.specs.Counts.{HasNoVectors};
ghost use Rattle.compaction_steps.specs.Counts.{MakesKeys};
ghost use Rattle.attribute_kinds.specs.Compacting.{CompactsTo, IsIdle};
ghost use Rattle.attribute_kinds.specs.declared.answers.Compacted.TheVariants.{Idle};
ghost use Rattle.feed_reader.specs.Feed.{feed_of};
ghost use Rattle.attr_c.specs.Stores.{open_bits, open_ledger, IsOpenUsage};
ghost use Rattle.store_api.specs.Usages.{IsUsage};

use crate::codes::OK;
use crate::feeding::feed;
use crate::handles::HeldEngine;
use crate::loading::load;
use crate::state::{AnyOpen, Counts, Open};
use crate::stop::{Stop, code_of};
use crate::told::{CountsTold, Told};
use crate::writing::{commit, compact};
use image_format::AttrLayout;
use std::alloc::Global;
use store_api::Store;

fn no_told() -> Told
    ensures { result ≡ no_told }
{
    Told {
        line: 0,
        place: 0,
        next: 0,
        operations: 0,
        skipped: 0,
        commit: 0,
        width: 0,
        active: 0,
        held: 0,
        oldest: 0,
        is_held: 0,
        keys: 0,
        finished: 0,
        buffer: 0,
    }
}

/// Returns the result of a call, as a code.
fn ended(counts: &mut Counts, came: Result<(), Stop>, told: &mut Told) -> i32
    ensures ok { result ≡ pos 0 → IsOk came }
    ensures other { result ≢ pos 0 → IsErr came }
    ensures fine { OnOk came (result ≡ pos 0) }
    ensures same { result ≡ pos 0 → (counts.new ≡ counts.old) × (told.new ≡ told.old) }
    ensures ends { IfErr came (λ stop. EndsBy stop counts.old counts.new told.new result) }
    ensures tells { TellsBy told.old told.old told.new result }
    ensures skipped { told.new.skipped ≡ told.old.skipped }
    ensures keys { told.new.keys ≡ told.old.keys }
    ensures finished { told.new.finished ≡ told.old.finished }
    ensures line { told.new.line ≡ told.old.line }
    ensures place { told.new.place ≡ told.old.place }
    ensures next { told.new.next ≡ told.old.next }
    ensures operations { told.new.operations ≡ told.old.operations }
{
    match came {
        Ok(()) => OK,
        Err(stop) => code_of(counts, stop, told),
    }
}

/// Feeds lines, and writes the result.
fn feed_told<const OFFSET_BITS: u32, S: Store<OFFSET_BITS, Layout = AttrLayout>>(
    alloc: Global,
    inner: &mut Open<OFFSET_BITS, S>,
    bytes: &[u8],
    told: &mut Told,
) -> i32
    ensures whole { result ≡ pos 0 → Feeds inner.old.fields bytes.now inner.old.attribute.table inner.new.attribute.table
        inner.old.attribute.operations inner.new.attribute.operations told.new.skipped }
    ensures front { result ≢ pos 0 → FedTo inner.old.fields bytes.now told.new.line (drop told.new.place bytes.now)
        inner.old.attribute.table inner.new.attribute.table inner.old.attribute.operations inner.new.attribute.operations
        told.new.skipped }
    ensures next { result ≢ pos 0 → IsLineBetween bytes.now told.new.place told.new.next }
    ensures count { inner.new.attribute.operations ≡ inner.old.attribute.operations + told.new.operations }
    ensures counts { result ≡ pos 0 → inner.new.counts ≡ with_skipped told.new.skipped inner.old.counts }
    ensures tells { TellsBy (with_fed told.new told.old) (with_line told.new (with_fed told.new told.old)) told.new result }
    ensures done { result ≡ pos 0 → Applies S.ledger (λ ops. feed_of inner.old.fields bytes.now ≡ Ok ops)
        inner.old.attribute inner.new.attribute }
    ensures stopped { result ≢ pos 0 → Stopped (StopsFeed inner.old.fields bytes.now told.new.line (drop told.new.place bytes.now)
        (LineOr (Applies S.ledger (IsSaidBefore inner.old.fields bytes.now (drop told.new.place bytes.now))
        inner.old.attribute inner.new.attribute)
        (StopsOperation S.ledger S.records (IsSaidBefore inner.old.fields bytes.now (drop told.new.place bytes.now))
        (IsFirstOp inner.old.fields (drop told.new.place bytes.now)) inner.old.attribute inner.new.attribute)))
        (with_skipped told.new.skipped inner.old.counts) inner.new.counts told.new result }
    ensures pool { inner.new.pool ≡ inner.old.pool }
    ensures commit { Stays inner.old.attribute.committed inner.new.attribute.committed
        inner.old.attribute.committed_operations inner.new.attribute.committed_operations }
    ensures fields { inner.new.fields ≡ inner.old.fields }
    ensures dense { inner.new.attribute.dense ≡ inner.old.attribute.dense }
    ensures plan { inner.new.attribute.plan ≡ inner.old.attribute.plan }
    ensures keeps { KeepsStore (S.ledger inner.old.attribute.store) (S.ledger inner.new.attribute.store) }
{
    let before = inner.attribute.operations();
    let came = feed(alloc, inner, bytes, told);
    told.operations = inner.attribute.operations() - before;
    inner.counts.skipped = inner.counts.skipped.wrapping_add(u64::from(told.skipped));
    ended(&mut inner.counts, came, told)
}

/// Applies lines one after another, up to a line that is refused.
#[unsafe(no_mangle)]
pub extern "C" fn attr_feed(
    alloc: Global,
    at: &mut HeldEngine,
    bytes: &[u8],
    told: &mut Told,
) -> i32
    ensures whole { result ≡ pos 0 → Feeds (fields_of at.old.value) bytes.now (table_of at.old.value) (table_of at.new.value)
        (operations_of at.old.value) (operations_of at.new.value) told.new.skipped }
    ensures front { result ≢ pos 0 → FedTo (fields_of at.old.value) bytes.now told.new.line (drop told.new.place bytes.now)
        (table_of at.old.value) (table_of at.new.value) (operations_of at.old.value) (operations_of at.new.value) told.new.skipped }
    ensures next { result ≢ pos 0 → IsLineBetween bytes.now told.new.place told.new.next }
    ensures counts { result ≡ pos 0 → open_counts at.new.value.inner ≡ with_skipped told.new.skipped (open_counts at.old.value.inner) }
    ensures tells { TellsBy (with_fed told.new no_told) (with_line told.new (with_fed told.new no_told)) told.new result }
    ensures done { result ≡ pos 0 → AppliesOpen (λ ops. feed_of (fields_of at.old.value) bytes.now ≡ Ok ops)
        at.old.value.inner at.new.value.inner }
    ensures stopped { result ≢ pos 0 → Stopped (StopsFeed (fields_of at.old.value) bytes.now told.new.line
        (drop told.new.place bytes.now)
        (LineOr (AppliesOpen (IsSaidBefore (fields_of at.old.value) bytes.now (drop told.new.place bytes.now))
        at.old.value.inner at.new.value.inner)
        (StopsOpen (IsSaidBefore (fields_of at.old.value) bytes.now (drop told.new.place bytes.now))
        (IsFirstOp (fields_of at.old.value) (drop told.new.place bytes.now)) at.old.value.inner at.new.value.inner)))
        (with_skipped told.new.skipped (open_counts at.old.value.inner)) (open_counts at.new.value.inner) told.new result }
    ensures waiting { KeepsWaiting at.old.value.inner at.new.value.inner }
    ensures count { operations_of at.new.value ≡ operations_of at.old.value + told.new.operations }
    ensures commit { Stays (committed_of at.old.value) (committed_of at.new.value)
        (committed_operations_of at.old.value) (committed_operations_of at.new.value) }
    ensures fields { fields_of at.new.value ≡ fields_of at.old.value }
    ensures dense { dense_of at.new.value ≡ dense_of at.old.value }
    ensures plan { plan_of at.new.value ≡ plan_of at.old.value }
    ensures home { home_of at.new.value ≡ home_of at.old.value }
    ensures store { KeepsStore (open_ledger at.old.value.inner) (open_ledger at.new.value.inner) }
{
    *told = no_told();
    let engine = at.get_mut();
    match &mut engine.inner {
        AnyOpen::Narrow(inner) => feed_told(alloc, inner, bytes, told),
        AnyOpen::Wide(inner) => feed_told(alloc, inner, bytes, told),
    }
}

fn commit_told<const OFFSET_BITS: u32, S: Store<OFFSET_BITS, Layout = AttrLayout>>(
    inner: &mut Open<OFFSET_BITS, S>,
    told: &mut Told,
) -> i32
    ensures committed { result ≡ pos 0 → inner.new.attribute.committed ≡ inner.old.attribute.table }
    ensures published { result ≡ pos 0 → inner.new.attribute.committed_operations ≡ inner.old.attribute.operations }
    ensures told { result ≡ pos 0 → told.new.operations ≡ inner.old.attribute.operations }
    ensures counts { result ≡ pos 0 → CommitsAs OFFSET_BITS (S.ledger inner.old.attribute.store) (S.ledger inner.new.attribute.store)
        inner.old.counts inner.new.counts told.new }
    ensures tells { TellsBy (with_committed told.new told.old) told.old told.new result }
    ensures stopped { result ≢ pos 0 → Stopped (StopsCommit inner.old.fields (S.ledger inner.old.attribute.store)
        (S.ledger inner.new.attribute.store)) inner.old.counts inner.new.counts told.new result }
    ensures pool { inner.new.pool ≡ inner.old.pool }
    ensures left { result ≢ pos 0 → LeavesAttributes S.ledger S.records inner.old.attribute inner.new.attribute }
    ensures spent { (S.ledger inner.old.attribute.store).work.commits.last ≡ (S.ledger inner.old.attribute.store).work.sizes.commits
        → result ≡ COMMITS_SPENT }
    ensures trees { inner.new.attribute.trees ≡ inner.old.attribute.trees }
    ensures plan { inner.new.attribute.plan ≡ inner.old.attribute.plan }
    ensures table { inner.new.attribute.table ≡ inner.old.attribute.table }
    ensures operations { inner.new.attribute.operations ≡ inner.old.attribute.operations }
    ensures fields { inner.new.fields ≡ inner.old.fields }
    ensures dense { inner.new.attribute.dense ≡ inner.old.attribute.dense }
    ensures home { (S.ledger inner.new.attribute.store).work.home ≡ (S.ledger inner.old.attribute.store).work.home }
    ensures makes { MakesOneOf (class_of (1 + 2 * length inner.old.fields)) (S.ledger inner.old.attribute.store)
        (S.ledger inner.new.attribute.store) }
{
    let came = commit(inner, told);
    ended(&mut inner.counts, came, told)
}

/// Commits what was applied.
#[unsafe(no_mangle)]
pub extern "C" fn attr_commit(at: &mut HeldEngine, told: &mut Told) -> i32
    ensures committed { result ≡ pos 0 → committed_of at.new.value ≡ table_of at.old.value }
    ensures published { result ≡ pos 0 → committed_operations_of at.new.value ≡ operations_of at.old.value }
    ensures told { result ≡ pos 0 → told.new.operations ≡ operations_of at.old.value }
    ensures counts { result ≡ pos 0 → CommitsAs (open_bits at.old.value.inner) (open_ledger at.old.value.inner)
        (open_ledger at.new.value.inner) (open_counts at.old.value.inner) (open_counts at.new.value.inner) told.new }
    ensures tells { TellsBy (with_committed told.new no_told) no_told told.new result }
    ensures stopped { result ≢ pos 0 → Stopped (StopsCommit (fields_of at.old.value) (open_ledger at.old.value.inner)
        (open_ledger at.new.value.inner)) (open_counts at.old.value.inner) (open_counts at.new.value.inner) told.new result }
    ensures waiting { KeepsWaiting at.old.value.inner at.new.value.inner }
    ensures left { result ≢ pos 0 → LeavesOpen at.old.value.inner at.new.value.inner }
    ensures spent { (open_ledger at.old.value.inner).work.commits.last ≡ (open_ledger at.old.value.inner).work.sizes.commits
        → result ≡ COMMITS_SPENT }
    ensures trees { trees_of at.new.value ≡ trees_of at.old.value }
    ensures table { table_of at.new.value ≡ table_of at.old.value }
    ensures operations { operations_of at.new.value ≡ operations_of at.old.value }
    ensures fields { fields_of at.new.value ≡ fields_of at.old.value }
    ensures dense { dense_of at.new.value ≡ dense_of at.old.value }
    ensures plan { plan_of at.new.value ≡ plan_of at.old.value }
    ensures home { home_of at.new.value ≡ home_of at.old.value }
    ensures makes { MakesOneOf (class_of (1 + 2 * length (fields_of at.old.value))) (open_ledger at.old.value.inner)
        (open_ledger at.new.value.inner) }
{
    *told = no_told();
    let engine = at.get_mut();
    match &mut engine.inner {
        AnyOpen::Narrow(inner) => commit_told(inner, told),
        AnyOpen::Wide(inner) => commit_told(inner, told),
    }
}

fn compact_told<const OFFSET_BITS: u32, S: Store<OFFSET_BITS, Layout = AttrLayout>>(
    alloc: Global,
    inner: &mut Open<OFFSET_BITS, S>,
    keys: u32,
    told: &mut Told,
) -> i32
    ensures counts { result ≡ pos 0 → inner.new.counts ≡ inner.old.counts }
    ensures steps { result ≡ pos 0 → StepsAs (CompactsTo OFFSET_BITS S.ledger S.records inner.old.attribute inner.new.attribute keys)
        told.new }
    ensures idle { IsIdle OFFSET_BITS (S.ledger inner.old.attribute.store) inner.old.attribute.plan
        → (result ≡ pos 0) × (inner.new.attribute ≡ inner.old.attribute) × TellsStep Idle told.new }
    ensures tells { TellsBy (with_step told.new told.old) (with_keys told.new told.old) told.new result }
    ensures stopped { result ≢ pos 0 → Stopped
        (StopsStep OFFSET_BITS S.ledger S.records inner.old.attribute inner.new.attribute keys told.new.keys)
        inner.old.counts inner.new.counts told.new result }
    ensures pool { inner.new.pool ≡ inner.old.pool }
    ensures table { inner.new.attribute.table ≡ inner.old.attribute.table }
    ensures operations { inner.new.attribute.operations ≡ inner.old.attribute.operations }
    ensures root { inner.new.attribute.root ≡ inner.old.attribute.root }
    ensures committed { inner.new.attribute.committed ≡ inner.old.attribute.committed }
    ensures published { inner.new.attribute.committed_operations ≡ inner.old.attribute.committed_operations }
    ensures fields { inner.new.fields ≡ inner.old.fields }
    ensures dense { inner.new.attribute.dense ≡ inner.old.attribute.dense }
    ensures home { (S.ledger inner.new.attribute.store).work.home ≡ (S.ledger inner.old.attribute.store).work.home }
    ensures keeps { KeepsStoreBut (S.ledger inner.old.attribute.store) (S.ledger inner.new.attribute.store) }
    ensures makes { MakesKeys (HasNoVectors inner.old.attribute.dense inner.old.attribute.table) inner.old.fields
        inner.old.attribute.table (S.ledger inner.old.attribute.store) (S.ledger inner.new.attribute.store) keys }
{
    let came = compact(alloc, inner, keys, told);
    ended(&mut inner.counts, came, told)
}

/// Visits a number of compaction keys. With `FULL` the compaction is given up where it can be.
#[unsafe(no_mangle)]
pub extern "C" fn attr_compact(
    alloc: Global,
    at: &mut HeldEngine,
    keys: u32,
    told: &mut Told,
) -> i32
    ensures tables { KeepsTables at.old.value.inner at.new.value.inner }
    ensures store { KeepsStoreBut (open_ledger at.old.value.inner) (open_ledger at.new.value.inner) }
    ensures makes { MakesKeys (HasNoVectors (dense_of at.old.value) (table_of at.old.value)) (fields_of at.old.value)
        (table_of at.old.value) (open_ledger at.old.value.inner) (open_ledger at.new.value.inner) keys }
    ensures counts { result ≡ pos 0 → open_counts at.new.value.inner ≡ open_counts at.old.value.inner }
    ensures steps { result ≡ pos 0 → StepsAs (CompactsOpen at.old.value.inner at.new.value.inner keys) told.new }
    ensures idle { IsIdleOpen at.old.value.inner → (result ≡ pos 0) × KeepsAttributes at.old.value.inner at.new.value.inner
        × TellsStep Idle told.new }
    ensures tells { TellsBy (with_step told.new no_told) (with_keys told.new no_told) told.new result }
    ensures stopped { result ≢ pos 0 → Stopped (StopsStepOpen at.old.value.inner at.new.value.inner keys told.new.keys)
        (open_counts at.old.value.inner) (open_counts at.new.value.inner) told.new result }
    ensures waiting { KeepsWaiting at.old.value.inner at.new.value.inner }
{
    *told = no_told();
    let engine = at.get_mut();
    match &mut engine.inner {
        AnyOpen::Narrow(inner) => compact_told(alloc, inner, keys, told),
        AnyOpen::Wide(inner) => compact_told(alloc, inner, keys, told),
    }
}

fn load_told<const OFFSET_BITS: u32, S: Store<OFFSET_BITS, Layout = AttrLayout>>(
    alloc: Global,
    inner: &mut Open<OFFSET_BITS, S>,
    bytes: &[u8],
    told: &mut Told,
) -> i32
    ensures whole { result ≡ pos 0 → LoadsSave inner.old.fields bytes.now inner.old.attribute.table inner.new.attribute.table
        inner.old.attribute.operations inner.new.attribute.operations }
    ensures front { result ≢ pos 0 → LoadsFront inner.old.fields bytes.now inner.old.attribute.table inner.new.attribute.table
        inner.old.attribute.operations inner.new.attribute.operations }
    ensures count { inner.new.attribute.operations ≡ inner.old.attribute.operations + told.new.operations }
    ensures counts { result ≡ pos 0 → inner.new.counts ≡ inner.old.counts }
    ensures tells { TellsBy (with_count told.new told.old) (with_place told.new (with_count told.new told.old)) told.new result }
    ensures place { result ≢ BAD_SAVE → told.new.place ≡ told.old.place }
    ensures done { result ≡ pos 0 → Applies S.ledger (ArePuts (AreAllOf bytes.now)) inner.old.attribute inner.new.attribute }
    ensures stopped { result ≢ pos 0 → Stopped (StopsLoad inner.old.fields bytes.now told.new.place
        (Applies S.ledger (ArePuts (AreFirstOf inner.old.fields bytes.now)) inner.old.attribute inner.new.attribute)
        (StopsOperation S.ledger S.records (ArePuts (AreFirstOf inner.old.fields bytes.now))
        (IsNextLoaded bytes.now inner.old.attribute.operations inner.new.attribute.operations)
        inner.old.attribute inner.new.attribute))
        inner.old.counts inner.new.counts told.new result }
    ensures pool { inner.new.pool ≡ inner.old.pool }
    ensures commit { Stays inner.old.attribute.committed inner.new.attribute.committed
        inner.old.attribute.committed_operations inner.new.attribute.committed_operations }
    ensures fields { inner.new.fields ≡ inner.old.fields }
    ensures dense { inner.new.attribute.dense ≡ inner.old.attribute.dense }
    ensures plan { inner.new.attribute.plan ≡ inner.old.attribute.plan }
    ensures keeps { KeepsStore (S.ledger inner.old.attribute.store) (S.ledger inner.new.attribute.store) }
{
    let before = inner.attribute.operations();
    let came = load(alloc, inner, bytes, told);
    told.operations = inner.attribute.operations() - before;
    ended(&mut inner.counts, came, told)
}

/// Puts the documents of a save, one after another, up to one that is refused.
#[unsafe(no_mangle)]
pub extern "C" fn attr_load(
    alloc: Global,
    at: &mut HeldEngine,
    bytes: &[u8],
    told: &mut Told,
) -> i32
    ensures whole { result ≡ pos 0 → LoadsSave (fields_of at.old.value) bytes.now (table_of at.old.value) (table_of at.new.value)
        (operations_of at.old.value) (operations_of at.new.value) }
    ensures front { result ≢ pos 0 → LoadsFront (fields_of at.old.value) bytes.now (table_of at.old.value) (table_of at.new.value)
        (operations_of at.old.value) (operations_of at.new.value) }
    ensures count { operations_of at.new.value ≡ operations_of at.old.value + told.new.operations }
    ensures counts { result ≡ pos 0 → open_counts at.new.value.inner ≡ open_counts at.old.value.inner }
    ensures tells { TellsBy (with_count told.new no_told) (with_place told.new (with_count told.new no_told)) told.new result }
    ensures place { result ≢ BAD_SAVE → told.new.place ≡ 0 }
    ensures done { result ≡ pos 0 → AppliesOpen (ArePuts (AreAllOf bytes.now)) at.old.value.inner at.new.value.inner }
    ensures stopped { result ≢ pos 0 → Stopped (StopsLoad (fields_of at.old.value) bytes.now told.new.place
        (AppliesOpen (ArePuts (AreFirstOf (fields_of at.old.value) bytes.now)) at.old.value.inner at.new.value.inner)
        (StopsOpen (ArePuts (AreFirstOf (fields_of at.old.value) bytes.now))
        (IsNextLoaded bytes.now (operations_of at.old.value) (operations_of at.new.value)) at.old.value.inner at.new.value.inner))
        (open_counts at.old.value.inner) (open_counts at.new.value.inner) told.new result }
    ensures waiting { KeepsWaiting at.old.value.inner at.new.value.inner }
    ensures commit { Stays (committed_of at.old.value) (committed_of at.new.value)
        (committed_operations_of at.old.value) (committed_operations_of at.new.value) }
    ensures fields { fields_of at.new.value ≡ fields_of at.old.value }
    ensures dense { dense_of at.new.value ≡ dense_of at.old.value }
    ensures plan { plan_of at.new.value ≡ plan_of at.old.value }
    ensures home { home_of at.new.value ≡ home_of at.old.value }
    ensures store { KeepsStore (open_ledger at.old.value.inner) (open_ledger at.new.value.inner) }
{
    *told = no_told();
    let engine = at.get_mut();
    match &mut engine.inner {
        AnyOpen::Narrow(inner) => load_told(alloc, inner, bytes, told),
        AnyOpen::Wide(inner) => load_told(alloc, inner, bytes, told),
    }
}

fn counts_of<const OFFSET_BITS: u32, S: Store<OFFSET_BITS, Layout = AttrLayout>>(
    inner: &Open<OFFSET_BITS, S>,
) -> CountsTold
    ensures operations { result.operations ≡ inner.now.attribute.operations }
    ensures usage { IsUsage OFFSET_BITS (S.ledger inner.now.attribute.store) (usage_told result) }
    ensures counts { TellsCounts inner.now.counts result }
    ensures readers { result.readers ≡ min (length inner.now.pool.items) 64 }
    ensures commit { HasCommit (S.ledger inner.now.attribute.store) inner.now.fields inner.now.attribute.root
        inner.now.attribute.committed inner.now.attribute.committed_operations }
{
    let counts = &inner.counts;
    let usage = inner.attribute.usage();
    CountsTold {
        skipped: counts.skipped,
        used_words: usage.used,
        dead_words: usage.dead,
        held_words: usage.held,
        operations: inner.attribute.operations(),
        commit: counts.commit,
        committed: counts.committed,
        oldest: counts.oldest,
        is_held: counts.is_held,
        active: usage.active,
        held: usage.on_hold,
        buffers: counts.sizes.buffers,
        words: counts.sizes.words,
        readers: inner.pool.len().min(64) as u32,
    }
}

/// Writes numbers for a monitor.
#[unsafe(no_mangle)]
pub extern "C" fn attr_counts(at: &mut HeldEngine, told: &mut CountsTold)
    ensures same { at.new.value ≡ at.old.value }
    ensures operations { told.new.operations ≡ operations_of at.old.value }
    ensures usage { IsOpenUsage at.old.value.inner (usage_told told.new) }
    ensures counts { TellsCounts (open_counts at.old.value.inner) told.new }
    ensures readers { told.new.readers ≡ min (open_waiting at.old.value.inner) 64 }
    ensures commit { HasCommit (open_ledger at.old.value.inner) (fields_of at.old.value) (root_of at.old.value)
        (committed_of at.old.value) (committed_operations_of at.old.value) }
{
    *told = match &at.get_mut().inner {
        AnyOpen::Narrow(inner) => counts_of(inner),
        AnyOpen::Wide(inner) => counts_of(inner),
    };
}
