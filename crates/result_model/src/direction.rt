//! The direction of an order of values.

/// The direction in which the values of sorted documents go.
#[derive(Clone, Copy, Debug, PartialEq, Eq)]
pub enum Direction {
    Ascending,
    Descending,
}
