//! Laws of stored values, for the crates above.

ghost use Rattle.unique_store.specs.Records.{ValueIsThere, ValueIsNoNode};

/// The record of a value has at least two words, and is not a tree node. The function does nothing; its contract is
/// the law.
pub fn value_law()
    ensures there { ValueIsThere }
    ensures no_node { ValueIsNoNode }
{}
