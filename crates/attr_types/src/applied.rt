//! What an operation did: changed something, or was skipped.

/// The result of an operation.
#[derive(Clone, Copy, Debug, PartialEq, Eq)]
pub enum Applied {
    Changed,
    Skipped,
}
