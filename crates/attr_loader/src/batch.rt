//! One batch: its operations are applied and committed, and a compaction makes one step.
ghost use Rattle.std.specs.Prelude.{◌≡◌, ◌<◌, ◌+◌, ◌^◌, length, IfOk, IfErr, OnOk};
ghost use Rattle.std.specs.List.{AllByRecursion};
ghost use Rattle.attr_types.specs.Lawful.{OpFits};
ghost use Rattle.attr_loader.specs.Batches.{skips_of, AddsQuietly, AddsSteps, AppliesBatch, AppliesRoom};
ghost use Rattle.attr_loader.specs.Batches.{CommitsBatch, CommitsRoom, CommitsRoot, HasNoCommit, KeepsTable, LoadsBatch, LoadsRoom};
ghost use Rattle.attr_loader.specs.Made.{after_keys};
ghost use Rattle.attr_loader.specs.Runs.{step_keys};

use crate::error::LoadError;
use arena_api::Work;
use attr_io::{Gate, Point};
use attr_types::{Applied, Op};
use attribute_kinds::{AttrError, Attribute};
use image_format::AttrLayout;
use std::alloc::{AllocError, Global};
use store_api::Store;

/// The result of a batch: how many of its operations were skipped; or the number of the operation in the batch, counted
/// from 1, for which there was no space, either for itself or for the commit after it.
#[derive(Clone, Copy, Drop)]
pub enum Batch {
    Done {
        skipped: u32,
    },
    Full {
        refused: u32,
        active: u32,
        held: u32,
    },
}

fn skips_of(applied: Applied) -> u32
    ensures { result ≡ skips_of applied }
{
    match applied {
        Applied::Skipped => 1,
        Applied::Changed => 0,
    }
}

/// Applies the operations of a batch, as far as there is space.
fn apply_all<const OFFSET_BITS: u32, S: Store<OFFSET_BITS, Layout = AttrLayout>>(
    alloc: Global,
    attribute: &mut Attribute<OFFSET_BITS, S>,
    ops: &[Op],
) -> Result<Batch, AllocError>
    requires room { attribute.old.operations + length ops.now < 2 ^ 32 }
    requires fit { AllByRecursion (OpFits attribute.old.fields) ops.now }
    ensures applies { IfOk result (AppliesBatch S.ledger attribute.old attribute.new ops.now) }
    ensures room { IfOk result (AppliesRoom S.ledger attribute.old attribute.new ops.now) }
{
    let mut skipped: u32 = 0;
    let mut done: u32 = 0;
    for op in ops {
        let applied = match attribute.apply(alloc, op) {
            Ok(applied) => applied,
            Err(AttrError::Full { active, held, .. }) => {
                let refused = done + 1;
                return Ok(Batch::Full {
                    refused,
                    active,
                    held,
                });
            }
            Err(AttrError::CommitsSpent { .. }) => unreachable!(),
            Err(AttrError::Memory) => return Err(AllocError),
        };
        skipped += skips_of(applied);
        done += 1;
    }
    Ok(Batch::Done { skipped })
}

/// The number of compaction keys visited after a commit.
const COMPACT_KEYS: u32 = 256;

/// Makes one step of a compaction. If there is no space for it, the loading continues without it.
fn compact_after<const OFFSET_BITS: u32, S: Store<OFFSET_BITS, Layout = AttrLayout>>(
    alloc: Global,
    attribute: &mut Attribute<OFFSET_BITS, S>,
) -> Result<(), AllocError>
    ensures keeps { OnOk result (KeepsTable S.ledger attribute.old attribute.new) }
    ensures room { AddsSteps S.ledger attribute.old attribute.new (λ steps. after_keys steps step_keys) }
    ensures quiet { AddsQuietly S.ledger attribute.old attribute.new (λ steps. steps) }
{
    match attribute.compact_step(alloc, COMPACT_KEYS) {
        Ok(_) => Ok(()),
        Err(AttrError::Full { .. }) => Ok(()),
        Err(AttrError::CommitsSpent { .. }) => unreachable!(),
        Err(AttrError::Memory) => Err(AllocError),
    }
}

/// Commits what was applied, if there is space, and passes the gate.
fn commit_table<const OFFSET_BITS: u32, S: Store<OFFSET_BITS, Layout = AttrLayout>, G: Gate>(
    attribute: &mut Attribute<OFFSET_BITS, S>,
    count: u32,
    skipped: u32,
    gate: &G,
) -> Result<Batch, LoadError>
    ensures commits { IfOk result (CommitsBatch S.ledger attribute.old attribute.new count skipped) }
    ensures room { IfOk result (CommitsRoot S.ledger attribute.old attribute.new) }
    ensures spent { IfErr result (HasNoCommit S.ledger attribute.old) }
{
    match attribute.commit() {
        Ok(info) => {
            let operations = attribute.operations();
            gate.pass(Point::Committed {
                commit: info.commit,
                operations,
            });
            Ok(Batch::Done { skipped })
        }
        Err(AttrError::Full { active, held, .. }) => Ok(Batch::Full {
            refused: count,
            active,
            held,
        }),
        Err(AttrError::CommitsSpent { .. }) => Err(LoadError::CommitsSpent),
        Err(AttrError::Memory) => Err(LoadError::Memory),
    }
}

/// Commits what was applied, and makes one step of a compaction.
fn commit_all<const OFFSET_BITS: u32, S: Store<OFFSET_BITS, Layout = AttrLayout>, G: Gate>(
    alloc: Global,
    attribute: &mut Attribute<OFFSET_BITS, S>,
    count: u32,
    skipped: u32,
    gate: &G,
) -> Result<Batch, LoadError>
    ensures commits { IfOk result (CommitsBatch S.ledger attribute.old attribute.new count skipped) }
    ensures room { IfOk result (CommitsRoom S.ledger attribute.old attribute.new) }
    ensures spent { IfErr result (HasNoCommit S.ledger attribute.old) }
{
    match commit_table(attribute, count, skipped, gate)? {
        Batch::Done { skipped: more } => {
            compact_after(alloc, attribute)?;
            Ok(Batch::Done { skipped: more })
        }
        Batch::Full {
            refused,
            active,
            held,
        } => Ok(Batch::Full {
            refused,
            active,
            held,
        }),
    }
}

/// Applies the operations of a batch and commits them.
pub fn load_batch<const OFFSET_BITS: u32, S: Store<OFFSET_BITS, Layout = AttrLayout>, G: Gate>(
    alloc: Global,
    attribute: &mut Attribute<OFFSET_BITS, S>,
    ops: &[Op],
    gate: &G,
) -> Result<Batch, LoadError>
    requires some { 0 < length ops.now }
    requires room { attribute.old.operations + length ops.now < 2 ^ 32 }
    requires fit { AllByRecursion (OpFits attribute.old.fields) ops.now }
    ensures loads { IfOk result (LoadsBatch S.ledger attribute.old attribute.new ops.now) }
    ensures room { IfOk result (LoadsRoom S.ledger attribute.old attribute.new ops.now) }
    ensures spent { IfErr result (HasNoCommit S.ledger attribute.old) }
{
    match apply_all(alloc, attribute, ops)? {
        Batch::Done { skipped } => commit_all(alloc, attribute, ops.len() as u32, skipped, gate),
        Batch::Full {
            refused,
            active,
            held,
        } => Ok(Batch::Full {
            refused,
            active,
            held,
        }),
    }
}
