//! A run and what it writes.
ghost use Rattle.std.specs.Prelude.{◌≡◌, ◌≤◌, ◌<◌, ◌*◌, ◌^◌, length, IfOk, IfErr};
ghost use Rattle.std.specs.List.{AllByRecursion};
ghost use Rattle.entry_ref.specs.References.{buffer_limit, offset_limit};
ghost use Rattle.attr_types.specs.Lawful.{OpFits};
ghost use Rattle.attr_types.specs.declared.field.TheConstants.{MOST_FIELDS};
ghost use Rattle.attr_report.specs.Run.{run_in};
ghost use Rattle.attr_engine.specs.Rounds.{IsRunResult};
ghost use Rattle.attr_engine.specs.Run.{IsRunOf, IsGivenUp};

use crate::error::EngineError;
use crate::run::run_threads;
use crate::run_result::RunResult;
use crate::saving::saved_run;
use crate::writing::written_of;
use crate::written::Written;
use attr_io::Gate;
use attr_report::Request;
use attr_types::Op;
use std::alloc::{AllocError, Global};
use std::thread::Threads;

/// Makes a run over a new memory, and returns what it writes: the report, the summary if its operations were made, or
/// the table if it is saved.
pub fn run_and_write<const OFFSET_BITS: u32, R: Threads + Sync, G: Gate + Sync + 'static>(
    rt: &R,
    alloc: Global,
    request: &Request,
    ops: &[Op],
    gate: &G,
) -> Result<Written, EngineError>
    requires some_buffers { 1 ≤ request.now.buffers }
    requires few_buffers { request.now.buffers < buffer_limit OFFSET_BITS }
    requires some_words { 8192 ≤ request.now.words }
    requires few_words { request.now.words ≤ 65536 }
    requires offsets { request.now.words ≤ offset_limit OFFSET_BITS }
    requires product { request.now.buffers * request.now.words ≤ 67108864 }
    requires some_fields { 0 < length request.now.fields }
    requires few_fields { length request.now.fields ≤ MOST_FIELDS }
    requires some { 0 < request.now.batch }
    requires few { length ops.now < 2 ^ 32 }
    requires fit { AllByRecursion (OpFits request.now.fields) ops.now }
    ensures run { IfOk result (IsRunOf (run_in request.now) ops.now) }
    ensures readers { IfErr result (IsGivenUp request.now.readers) }
{
    let run_result = run_threads::<OFFSET_BITS, R, G>(rt, alloc, request, ops, gate)?;
    let written = written_in(alloc, request, ops, run_result)?;
    Ok(written)
}

/// Returns what a run with this progress writes.
fn written_in(
    alloc: Global,
    request: &Request,
    ops: &[Op],
    run_result: RunResult,
) -> Result<Written, AllocError>
    requires run_result { IsRunResult (run_in request.now) ops.now run_result }
    ensures { IfOk result (IsRunOf (run_in request.now) ops.now) }
{
    if run_result.saved.is_some() {
        return saved_run(alloc, request, ops, run_result);
    }
    written_of(alloc, request.make, run_result)
}
