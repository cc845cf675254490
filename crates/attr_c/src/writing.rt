//! Commits, and steps of a compaction.
ghost use Rattle.std.specs.Prelude.{◌≡◌, ◌+◌, ◌*◌, length, IfErr, OnOk, OnErr, IsOk, Err};
ghost use Rattle.array_store.specs.Adding.{MakesOneOf};
ghost use Rattle.image_format.specs.Words.{class_of};
ghost use Rattle.attribute_kinds.specs.Counts.{HasNoVectors};
ghost use Rattle.compaction_steps.specs.Counts.{MakesKeys};
ghost use Rattle.attr_c.specs.Holds.{CommitsAs};
ghost use Rattle.attr_c.specs.Applying.{LeavesAttributes};
ghost use Rattle.attr_c.specs.Compacting.{EndsStep, StepsAs, StopsStep, TellsStep};
ghost use Rattle.attr_c.specs.Stops.{StopsCommit};
ghost use Rattle.attr_c.specs.Telling.{with_committed, with_keys, with_step};
ghost use Rattle.attribute_kinds.specs.Calls.{KeepsStoreBut};
ghost use Rattle.attribute_kinds.specs.Compacting.{CompactsTo, IsIdle};
ghost use Rattle.attribute_kinds.specs.declared.answers.Compacted.TheVariants.{Idle};

use crate::state::Open;
use crate::stop::{Stop, note_advance, note_oldest};
use crate::told::Told;
use attribute_kinds::{AttrError, Attribute, Compacted};
use image_format::AttrLayout;
use std::alloc::Global;
use store_api::Store;

/// Commits what was applied.
pub fn commit<const OFFSET_BITS: u32, S: Store<OFFSET_BITS, Layout = AttrLayout>>(
    inner: &mut Open<OFFSET_BITS, S>,
    told: &mut Told,
) -> Result<(), Stop>
    ensures committed { OnOk result (inner.new.attribute.committed ≡ inner.old.attribute.table) }
    ensures published { OnOk result (inner.new.attribute.committed_operations ≡ inner.old.attribute.operations) }
    ensures counts { OnOk result (told.new.operations ≡ inner.old.attribute.operations) }
    ensures commits { OnOk result (CommitsAs OFFSET_BITS (S.ledger inner.old.attribute.store) (S.ledger inner.new.attribute.store)
        inner.old.counts inner.new.counts told.new) }
    ensures tells { OnOk result (told.new ≡ with_committed told.new told.old) }
    ensures tells_none { OnErr result (told.new ≡ told.old) }
    ensures why { IfErr result (StopsCommit inner.old.fields (S.ledger inner.old.attribute.store) (S.ledger inner.new.attribute.store)) }
    ensures still { OnErr result (inner.new.counts ≡ inner.old.counts) }
    ensures pool { inner.new.pool ≡ inner.old.pool }
    ensures left { OnErr result (LeavesAttributes S.ledger S.records inner.old.attribute inner.new.attribute) }
    ensures spent { (S.ledger inner.old.attribute.store).work.commits.last ≡ (S.ledger inner.old.attribute.store).work.sizes.commits
        → result ≡ Err (Stop.Store (AttrError.CommitsSpent (S.ledger inner.old.attribute.store).work.commits.last)) }
    ensures trees { inner.new.attribute.trees ≡ inner.old.attribute.trees }
    ensures plan { inner.new.attribute.plan ≡ inner.old.attribute.plan }
    ensures table { inner.new.attribute.table ≡ inner.old.attribute.table }
    ensures operations { inner.new.attribute.operations ≡ inner.old.attribute.operations }
    ensures fields { inner.new.fields ≡ inner.old.fields }
    ensures dense { inner.new.attribute.dense ≡ inner.old.attribute.dense }
    ensures home { (S.ledger inner.new.attribute.store).work.home ≡ (S.ledger inner.old.attribute.store).work.home }
    ensures makes { MakesOneOf (class_of (1 + 2 * length inner.old.fields)) (S.ledger inner.old.attribute.store)
        (S.ledger inner.new.attribute.store) }
{
    match inner.attribute.commit() {
        Ok(info) => {
            note_advance(&mut inner.counts, info.advance, info.commit);
            note_oldest(&mut inner.counts, info.oldest);
            inner.counts.commit = info.commit;
            inner.counts.committed = info.operations;
            told.commit = info.commit;
            told.operations = info.operations;
            told.oldest = inner.counts.oldest;
            told.is_held = inner.counts.is_held;
            Ok(())
        }
        Err(error) => Err(Stop::Store(error)),
    }
}

/// Returns how a step stops at a refused key. A full store gives the compaction up, so that its buffer is used again.
fn stop_of<const OFFSET_BITS: u32, S: Store<OFFSET_BITS, Layout = AttrLayout>>(
    attribute: &mut Attribute<OFFSET_BITS, S>,
    error: AttrError,
) -> Stop
    ensures is { result ≡ Stop.Store error }
    ensures ends { EndsStep S.ledger S.records attribute.old attribute.new error }
    ensures left { attribute.new ≡ record attribute.old { store = attribute.new.store; plan = attribute.new.plan } }
    ensures home { (S.ledger attribute.new.store).work.home ≡ (S.ledger attribute.old.store).work.home }
{
    match error {
        AttrError::Full { .. } => {
            attribute.give_up();
        }
        AttrError::CommitsSpent { .. } => {}
        AttrError::Memory => {}
    }
    Stop::Store(error)
}

/// Visits a number of compaction keys. If the store is full for one, the compaction is given up where it can be.
pub fn compact<const OFFSET_BITS: u32, S: Store<OFFSET_BITS, Layout = AttrLayout>>(
    alloc: Global,
    inner: &mut Open<OFFSET_BITS, S>,
    keys: u32,
    told: &mut Told,
) -> Result<(), Stop>
    ensures steps { OnOk result (StepsAs (CompactsTo OFFSET_BITS S.ledger S.records inner.old.attribute inner.new.attribute keys)
        told.new) }
    ensures why { IfErr result (StopsStep OFFSET_BITS S.ledger S.records inner.old.attribute inner.new.attribute keys told.new.keys) }
    ensures idle { IsIdle OFFSET_BITS (S.ledger inner.old.attribute.store) inner.old.attribute.plan
        → IsOk result × (inner.new.attribute ≡ inner.old.attribute) × TellsStep Idle told.new }
    ensures tells { OnOk result (told.new ≡ with_step told.new told.old) }
    ensures tells_keys { OnErr result (told.new ≡ with_keys told.new told.old) }
    ensures pool { inner.new.pool ≡ inner.old.pool }
    ensures counts { inner.new.counts ≡ inner.old.counts }
    ensures table { inner.new.attribute.table ≡ inner.old.attribute.table }
    ensures operations { inner.new.attribute.operations ≡ inner.old.attribute.operations }
    ensures root { inner.new.attribute.root ≡ inner.old.attribute.root }
    ensures committed { inner.new.attribute.committed ≡ inner.old.attribute.committed }
    ensures published { inner.new.attribute.committed_operations ≡ inner.old.attribute.committed_operations }
    ensures fields { inner.new.fields ≡ inner.old.fields }
    ensures dense { inner.new.attribute.dense ≡ inner.old.attribute.dense }
    ensures home { (S.ledger inner.new.attribute.store).work.home ≡ (S.ledger inner.old.attribute.store).work.home }
    ensures keeps { KeepsStoreBut (S.ledger inner.old.attribute.store) (S.ledger inner.new.attribute.store) }
    ensures makes { MakesKeys (HasNoVectors inner.old.attribute.dense inner.old.attribute.table) inner.old.fields
        inner.old.attribute.table (S.ledger inner.old.attribute.store) (S.ledger inner.new.attribute.store) keys }
{
    told.keys = 0;
    told.finished = 0;
    told.buffer = 0;
    match inner.attribute.compact_step(alloc, keys) {
        Ok(Compacted::Idle) => Ok(()),
        Ok(Compacted::Moved { keys, stop: None }) => {
            told.keys = keys;
            Ok(())
        }
        Ok(
            Compacted::Moved {
                keys,
                stop: Some(error),
            },
        ) => {
            told.keys = keys;
            Err(stop_of(&mut inner.attribute, error))
        }
        Ok(Compacted::Finished(buffer)) => {
            told.finished = 1;
            told.buffer = buffer;
            Ok(())
        }
        Err(error) => Err(stop_of(&mut inner.attribute, error)),
    }
}
