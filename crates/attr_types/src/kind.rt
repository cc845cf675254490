//! The kind of an attribute, and the type of its values.

/// The collection type of an attribute: how many values a document has.
/// <https://docs.vespa.ai/en/attributes.html>
#[derive(Clone, Copy, Debug, PartialEq, Eq)]
pub enum Kind {
    /// At most one value.
    Single,
    /// Values in order.
    Array,
    /// Distinct values, each with a weight.
    WeightedSet,
}

/// The type of the values of an attribute.
#[derive(Clone, Copy, Debug, PartialEq, Eq)]
pub enum ValueType {
    /// Whole numbers of 64 signed bits.
    Long,
    /// Texts, compared by their bytes.
    Text,
}
