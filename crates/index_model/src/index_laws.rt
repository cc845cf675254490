//! Laws of the index of a table, for the crates above.

ghost use Rattle.index_model.specs.IndexLaws.{FoundAreHits, RunIsFilter, SoughtIsFilter, IndexListsDocuments};

/// The documents that the indexes of a table determine for a query are, in ascending order, its hits. The values that
/// meet a leaf are consecutive in an index. They begin at the value that the leaf seeks, or after it.
pub fn query_law()
    ensures hits { FoundAreHits }
    ensures run { RunIsFilter }
    ensures sought { SoughtIsFilter }
    ensures documents { IndexListsDocuments }
{}
