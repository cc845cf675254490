//! Groups: values with how many documents have each.
use attr_types::{ListOf, Value};

/// A value, and how many documents have it.
#[derive(Debug, Drop)]
pub struct Group {
    pub value: Value,
    pub count: u64,
}

/// Groups in order.
pub type Groups = ListOf<Group>;
