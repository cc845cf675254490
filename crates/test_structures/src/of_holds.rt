//! The queue of generation holds: openings, renewals and closings.
use generation_handler::{HOLDS, Holds};

#[derive(Clone, Copy)]
enum Step {
    /// This hold is the next closed one, and is opened for the next generation.
    Opens(u32),
    /// Holds are opened until none is closed.
    OpensAll,
    /// No hold is closed.
    IsFull,
    /// The newest hold takes the next generation.
    Renews,
    /// This many of the oldest holds are closed.
    Closes(u32),
}

/// A step, and the queue after it: the oldest generation, the newest one, its hold, and the number of holds.
type Row = (Step, u64, u64, u32, u32);

/// Returns whether this hold is the next closed one, and opens it.
fn opens(holds: &mut Holds, generation: u64, wanted: Option<u32>) -> bool {
    let next = holds.open_next();
    if let Some(hold) = next {
        holds.append(generation, hold, 7);
    }
    next == wanted
}

fn open_all(holds: &mut Holds, generation: u64) {
    for more in 0..HOLDS {
        if let Some(hold) = holds.open_next() {
            holds.append(generation.saturating_add(u64::from(more)), hold, 7);
        }
    }
}

/// Closes a number of holds, if one is left.
fn closes(holds: &mut Holds, count: u32) -> bool {
    for _ in 0..count {
        if holds.len() <= 1 {
            return false;
        }
        let _ = holds.pop_oldest();
    }
    true
}

/// Takes a step, and returns whether that was possible.
fn takes(holds: &mut Holds, step: Step) -> bool {
    let generation = holds.newest().generation.saturating_add(1);
    match step {
        Step::Opens(hold) => opens(holds, generation, Some(hold)),
        Step::OpensAll => {
            open_all(holds, generation);
            true
        }
        Step::IsFull => opens(holds, generation, None),
        Step::Renews => {
            holds.renew(generation, 9);
            true
        }
        Step::Closes(count) => closes(holds, count),
    }
}

/// Returns whether the queue is as a row says.
fn is_as(holds: &Holds, row: &Row) -> bool {
    let newest = holds.newest();
    holds.oldest().generation == row.1
        && newest.generation == row.2
        && newest.hold == row.3
        && holds.len() == row.4
}

/// Returns whether each step of a run is taken, and the queue after it is the expected one.
fn is_right_run(rows: &[Row]) -> bool {
    let mut holds = Holds::new();
    let mut is_right = true;
    for row in rows {
        is_right &= takes(&mut holds, row.0);
        is_right &= is_as(&holds, row);
    }
    is_right
}

const RUNS: [&[Row]; 4] = [
    // a reader between the first commit and the third
    &[
        (Step::Opens(1), 0, 1, 1, 2),
        (Step::Closes(1), 1, 1, 1, 1),
        (Step::Opens(0), 1, 2, 0, 2),
        (Step::Opens(2), 1, 3, 2, 3),
        (Step::Opens(3), 1, 4, 3, 4),
        (Step::Closes(3), 4, 4, 3, 1),
    ],
    // a reader over twenty commits
    &[
        (Step::OpensAll, 0, 15, 15, 16),
        (Step::IsFull, 0, 15, 15, 16),
        (Step::Closes(15), 15, 15, 15, 1),
        (Step::Opens(0), 15, 16, 0, 2),
        (Step::Closes(1), 16, 16, 0, 1),
        (Step::Opens(1), 16, 17, 1, 2),
    ],
    // an unused newest hold is renewed, with older ones open and alone
    &[
        (Step::Renews, 1, 1, 0, 1),
        (Step::Opens(1), 1, 2, 1, 2),
        (Step::Renews, 1, 3, 1, 2),
        (Step::Closes(1), 3, 3, 1, 1),
        (Step::Opens(0), 3, 4, 0, 2),
    ],
    // the closed hold with the lowest number is the next one
    &[
        (Step::Opens(1), 0, 1, 1, 2),
        (Step::Opens(2), 0, 2, 2, 3),
        (Step::Closes(2), 2, 2, 2, 1),
        (Step::Opens(0), 2, 3, 0, 2),
        (Step::Opens(1), 2, 4, 1, 3),
        (Step::Opens(3), 2, 5, 3, 4),
    ],
];

/// Returns whether each run is right.
fn are_right_runs() -> bool {
    let mut is_right = true;
    for rows in RUNS {
        is_right &= is_right_run(rows);
    }
    is_right
}

/// Returns whether a hold keeps its first commit, and takes another one when it is renewed.
fn keeps_first_commit() -> bool {
    let mut holds = Holds::new();
    let first = holds.newest().first_commit;
    if let Some(hold) = holds.open_next() {
        holds.append(1, hold, 5);
    }
    let opened = (holds.oldest().first_commit, holds.newest().first_commit);
    holds.renew(2, 6);
    let renewed = (holds.oldest().first_commit, holds.newest().first_commit);
    first == 0 && opened == (0, 5) && renewed == (0, 6)
}

#[test]
fn a_queue_after_each_step(rt: HostRuntime) {
    assert!(rt; are_right_runs() & keeps_first_commit());
}
