//! Tasks run side by side, each in a thread.

ghost use Rattle.std.specs.Prelude.{◌≡◌, length, IfOk, All};
ghost use Rattle.std.specs.List.{AllZip};
ghost use denote.Param.Send.{IsSync, IsSend};

use crate::task::Task;
use std::alloc::{AllocError, Global};
use std::thread::{Threads, join, map_vec};

/// Runs two tasks, each in a thread.
pub fn run_both<
    R: Threads,
    S: Task<Output = A> + Send + Drop,
    T: Task<Output = B> + Drop,
    A: Send,
    B,
>(rt: &R, s: S, t: T) -> (A, B)
    requires first { S.can_run s }
    requires second { T.can_run t }
    ensures first { S.run_gives s result.0 }
    ensures second { T.run_gives t result.1 }
{
    join(
        rt,
        move || -> A
            requires { S.can_run s }
            ensures { S.run_gives s result }
        { s.run() },
        move || -> B
            requires { T.can_run t }
            ensures { T.run_gives t result }
        { t.run() },
    )
}

/// Runs each task in a thread, and returns their results in order.
pub fn run_each<R: Threads + Sync, T: Task<Output = A> + Send + Drop, A: Send + Drop>(
    rt: &R,
    tasks: Vec<T>,
) -> Result<Vec<A>, AllocError>
    requires { All T.can_run tasks.items }
    ensures { IfOk result (λ given. AllZip T.run_gives tasks.items given.items) }
{
    map_vec(
        rt,
        tasks,
        &|task| -> A
            requires { T.can_run task }
            ensures { T.run_gives task result }
        { task.run() },
    )
}

/// Runs a task on the caller's own thread, and others of the same kind, each in a thread. Starts no thread if there
/// are no others.
pub fn run_beside<
    R: Threads + Sync,
    S: Task<Output = A> + Drop,
    T: Task<Output = B> + Send + Drop,
    A: Drop,
    B: Send + Drop,
>(rt: &R, alloc: Global, first: S, others: Vec<T>) -> Result<(A, Vec<B>), AllocError>
    requires first { S.can_run first }
    requires others { All T.can_run others.items }
    ensures first { IfOk result (λ r. S.run_gives first r.0) }
    ensures others { IfOk result (λ r. AllZip T.run_gives others.items r.1.items) }
{
    if others.is_empty() {
        return Ok((first.run(), Vec::new(alloc)));
    }
    let (each, given) = join(
        rt,
        move || -> Result<Vec<B>, AllocError>
            requires { IsSync R.row × IsSend T.row × IsSend B.row × All T.can_run others.items }
            ensures { IfOk result (λ given. AllZip T.run_gives others.items given.items) }
        { run_each(rt, others) },
        move || -> A
            requires { S.can_run first }
            ensures { S.run_gives first result }
        { first.run() },
    );
    Ok((given, each?))
}
