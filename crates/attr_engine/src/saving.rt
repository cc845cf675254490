//! What a run writes that saves its table.
ghost use Rattle.std.specs.Prelude.{◌≡◌, true, is_some, IfOk};
ghost use Rattle.attr_report.specs.Run.{run_in};
ghost use Rattle.attr_engine.specs.Rounds.{IsRunResult};
ghost use Rattle.attr_engine.specs.Run.{IsRunOf};

use crate::run_result::RunResult;
use crate::writing::all_counts;
use crate::written::Written;
use attr_report::Request;
use attr_types::Op;
use std::alloc::{AllocError, Global};

/// What a run writes that came so far and saved its table.
pub fn saved_run(
    alloc: Global,
    _request: &Request,
    _ops: &[Op],
    run_result: RunResult,
) -> Result<Written, AllocError>
    requires run_result { IsRunResult (run_in _request.now) _ops.now run_result }
    requires saved { is_some run_result.saved ≡ true }
    ensures { IfOk result (IsRunOf (run_in _request.now) _ops.now) }
{
    let RunResult {
        loaded,
        rounds,
        last: _last,
        saved,
        writer,
    } = run_result;
    let Some(save) = saved else { unreachable!() };
    let rounds = all_counts(alloc, rounds.as_slice())?;
    Ok(Written {
        loaded: loaded.operations,
        full: loaded.full,
        rounds,
        saved: Some(save.operations),
        text: save.bytes,
        writer,
    })
}
