//! The points that a run passes, and what it calls there.

/// A point of a run: after a commit of the loader, or before or after a round of a reader. Readers and their rounds
/// are numbered from 1; `operations` is the number of operations in the commit.
#[derive(Clone, Copy, Debug, PartialEq, Eq)]
pub enum Point {
    Committed {
        commit: u32,
        operations: u32,
    },
    RoundStart {
        reader: u32,
        round: u32,
    },
    RoundEnd {
        reader: u32,
        round: u32,
        operations: u32,
    },
}

/// What a run calls when it passes a point. It changes no answer, and lets a test hold a thread.
pub trait Gate {
    fn pass(&self, point: Point);
}

/// The gate of the program, which does nothing.
#[derive(Clone, Copy, Debug)]
pub struct NoGate;

impl Gate for NoGate {
    fn pass(&self, _point: Point) {}
}
