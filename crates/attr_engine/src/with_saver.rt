//! A task with others of one kind beside it, and one of another kind: the loading with readers and a saver.
ghost use Rattle.std.specs.Prelude.{IfOk, IfSome, All};
ghost use Rattle.std.specs.List.{AllZip};
ghost use Rattle.attr_engine.specs.Saver.{GivesIfAny};
ghost use denote.Param.Send.{IsSync, IsSend};

use attr_io::{Task, run_beside};
use std::alloc::{AllocError, Global};
use std::thread::{Threads, join};

/// A task on the caller's own thread, beside others of one kind and one of another kind, each in a thread.
fn run_beside_saver<
    R: Threads + Sync,
    S: Task<Output = A> + Drop,
    T: Task<Output = B> + Send + Drop,
    U: Task<Output = C> + Send + Drop,
    A: Drop,
    B: Send + Drop,
    C: Send + Drop,
>(rt: &R, alloc: Global, first: S, others: Vec<T>, saver: U) -> (C, Result<(A, Vec<B>), AllocError>)
    requires first { S.can_run first }
    requires others { All T.can_run others.items }
    requires saver { U.can_run saver }
    ensures first { IfOk result.1 (λ r. S.run_gives first r.0) }
    ensures others { IfOk result.1 (λ r. AllZip T.run_gives others.items r.1.items) }
    ensures saver { U.run_gives saver result.0 }
{
    join(
        rt,
        move || -> C
            requires { U.can_run saver }
            ensures { U.run_gives saver result }
        { saver.run() },
        move || -> Result<(A, Vec<B>), AllocError>
            requires { IsSync R.row × IsSend T.row × IsSend B.row × S.can_run first × All T.can_run others.items }
            ensures { IfOk result (λ r. S.run_gives first r.0 × AllZip T.run_gives others.items r.1.items) }
        { run_beside(rt, alloc, first, others) },
    )
}

/// A task on the caller's own thread, beside others of one kind, and one of another kind where there is one.
pub fn run_with_saver<
    R: Threads + Sync,
    S: Task<Output = A> + Drop,
    T: Task<Output = B> + Send + Drop,
    U: Task<Output = C> + Send + Drop,
    A: Drop,
    B: Send + Drop,
    C: Send + Drop,
>(
    rt: &R,
    alloc: Global,
    first: S,
    others: Vec<T>,
    saver: Option<U>,
) -> Result<(A, Vec<B>, Option<C>), AllocError>
    requires first { S.can_run first }
    requires others { All T.can_run others.items }
    requires saver { IfSome saver U.can_run }
    ensures first { IfOk result (λ r. S.run_gives first r.0) }
    ensures others { IfOk result (λ r. AllZip T.run_gives others.items r.1.items) }
    ensures saver { IfOk result (λ r. GivesIfAny U.run_gives saver r.2) }
{
    match saver {
        Some(task) => {
            let (side, came) = run_beside_saver(rt, alloc, first, others, task);
            let (given, gives) = came?;
            Ok((given, gives, Some(side)))
        }
        None => {
            let (given, gives) = run_beside(rt, alloc, first, others)?;
            Ok((given, gives, None))
        }
    }
}
