//! Laws of the index. Each function does nothing; its contract is the law.
ghost use Rattle.index_model.specs.Laws.{ColumnIsLawful, OperationChangesColumn, UpdateChangesItems};
ghost use Rattle.index_model.specs.Laws.{IndexHasAll, OneIndex, IndexHasItems, EmptyIndex};
ghost use Rattle.index_model.specs.Laws.{WalkBegins, PutGoesOn, SameGoesOn, TakeGoesOn, StayGoesOn, WalkEnds};
ghost use Rattle.index_model.specs.Laws.{MiddleHasBoth, WalkBeginsAgain, WalksJoin, WeightsCount, MapHasWeights};
ghost use Rattle.index_model.specs.Laws.{RemovedItemsAreGone, OldValuesStay, NewValuesStay, AdditionKeepsKeys, RemovalKeepsKeys};
ghost use Rattle.index_model.specs.Laws.{ListsAreFew, ListsHaveDocuments, ValuesAreFew};

/// An attribute's column of a lawful table is lawful. An operation changes only the items of its document in the
/// column.
pub fn column_law()
    ensures lawful { ColumnIsLawful }
    ensures changes { OperationChangesColumn }
    ensures updates { UpdateChangesItems }
{}

/// A column has exactly one index, with its values and lists.
pub fn index_law()
    ensures all { IndexHasAll }
    ensures one { OneIndex }
    ensures items { IndexHasItems }
    ensures empty { EmptyIndex }
{}

/// Two walks turn the index of a column into that of the changed column: one over the document's new weights, and one
/// over its old weights.
pub fn walk_law()
    ensures begins { WalkBegins }
    ensures puts { PutGoesOn }
    ensures same { SameGoesOn }
    ensures takes { TakeGoesOn }
    ensures stays { StayGoesOn }
    ensures ends { WalkEnds }
{}

/// The state between the two walks is a start for the second, and only the weights of values matter.
pub fn middle_law()
    ensures both { MiddleHasBoth }
    ensures again { WalkBeginsAgain }
    ensures join { WalksJoin }
    ensures count { WeightsCount }
    ensures weights { MapHasWeights }
{}

/// Which values an index has during the walks.
pub fn value_law()
    ensures gone { RemovedItemsAreGone }
    ensures old { OldValuesStay }
    ensures new { NewValuesStay }
    ensures adds { AdditionKeepsKeys }
    ensures removes { RemovalKeepsKeys }
{}

/// In every state, the number of values and the number of documents of each value are bounded.
pub fn bound_law()
    ensures lists { ListsAreFew }
    ensures documents { ListsHaveDocuments }
    ensures values { ValuesAreFew }
{}
