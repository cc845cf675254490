//! Laws of the plain table. Each function does nothing; its contract is the law.
ghost use Rattle.attr_types.specs.Laws.{HitsAscend, HitsAreMatches, SkippedLeaves, StepKeeps, RunKeeps};
ghost use Rattle.attr_types.specs.Laws.{OthersStay, PutIsThere, RemoveAfterPut};

/// The hits of a query ascend strictly, and are exactly the documents that match.
pub fn hits_law()
    ensures ascend { HitsAscend }
    ensures exact { HitsAreMatches }
{}

/// A skipped operation does not change the table.
pub fn skip_law()
    ensures { SkippedLeaves }
{}

/// Operations that fit keep a table lawful.
pub fn step_law()
    ensures step { StepKeeps }
    ensures run { RunKeeps }
{}

/// An operation changes only its own document: after a put the document exists, and after a remove that follows it,
/// the document does not.
pub fn document_law()
    ensures others { OthersStay }
    ensures put { PutIsThere }
    ensures remove { RemoveAfterPut }
{}
