//! The steps of a party, each as soon as it is due.
use crate::answers::Answer;
use crate::steps::{Step, Task};
use std::alloc::{AllocError, Global};
use std::sync::atomic::{AtomicU64, Ordering};
use std::thread;

/// How often a party checks whether its step is due.
const LOOKS: u64 = 50_000_000;

/// The seat of a reader or of a store's keeper.
pub trait Seat {
    /// Does a task, and returns its result.
    fn take(&mut self, task: Task) -> Answer;
}

/// The result of a step.
#[derive(Clone, Copy, Drop)]
pub struct Told {
    pub step: usize,
    pub answer: Answer,
}

/// Waits until `step` steps are done. Returns whether that happened.
pub fn comes(done: &AtomicU64, step: usize) -> bool {
    for _ in 0..LOOKS {
        if done.load(Ordering::SeqCst) == step as u64 {
            return true;
        }
        thread::yield_now();
    }
    false
}

/// Takes a step. Takes none if it does not become due.
fn take_step<P: Seat>(
    seat: &mut P,
    step: usize,
    task: Task,
    done: &AtomicU64,
    told: &mut Vec<Told>,
) -> Result<bool, AllocError> {
    if !comes(done, step) {
        return Ok(false);
    }
    let answer = seat.take(task);
    told.push(Told { step, answer })?;
    done.fetch_add(1, Ordering::SeqCst);
    Ok(true)
}

/// Returns the results of the steps of the party with this number.
pub fn take_steps<P: Seat + Drop>(
    alloc: Global,
    seat: P,
    number: u32,
    steps: &[Step],
    done: &AtomicU64,
) -> Result<Vec<Told>, AllocError> {
    let mut seat = seat;
    let mut told = Vec::new(alloc);
    for step in 0..steps.len() {
        if steps[step].party == number
            && !take_step(&mut seat, step, steps[step].task, done, &mut told)?
        {
            break;
        }
    }
    Ok(told)
}
