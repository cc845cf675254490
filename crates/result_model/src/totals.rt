//! Totals of whole numbers.

/// How many whole numbers there are, their sum, the least and the greatest of them.
#[derive(Clone, Copy, Debug)]
pub struct Totals {
    pub count: u64,
    pub sum: i128,
    pub least: Option<i64>,
    pub greatest: Option<i64>,
}
